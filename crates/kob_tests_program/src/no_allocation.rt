//! Changes and refusals that are committed without allocations. `.ci/refuse` runs them with every
//! allocation refused from `refuse_from_here` on.

use kob_broker::Broker;
use kob_rights::{Reason, Reply};
use kob_script::{Script, read_script};
use std::alloc::Global;
use std::process::Abort;

/// What a failed step of making ready says.
pub(crate) const READY: &str = "making ready";

/// The size of an allocation after which `.ci/refuse` refuses all others.
const CUE: usize = 7_654_321;

/// From here on nothing is allocated, and if `.ci/refuse` runs the test, every allocation is
/// refused.
pub(crate) fn refuse_from_here(alloc: Global) -> bool {
    Vec::<u8>::with_capacity(alloc, CUE).is_ok()
}

/// Whether a reply is a refusal for this reason, or without one says that all is done.
fn is_for(reply: &Reply, reason: Option<Reason>) -> bool {
    match reply {
        Reply::Done(_) => reason.is_none(),
        Reply::Refused {
            code: _,
            reason: of,
        } => Some(*of) == reason,
        _ => false,
    }
}

/// The last request of these pieces of a script, after the topic `t` was created, comes to that:
/// once it is prepared, it shows such a reply, and then has it.
fn comes_to(rt: &impl Abort, alloc: Global, lines: [&str; 3], reason: Option<Reason>) {
    let [first, second, third] = lines;
    let script = format!(in alloc;
        "super User:r\nUser:r h create-topic t 2\n{first}{second}{third}"
    );
    let script = script.expect(rt, READY);
    let Script { settings, events } = read_script(alloc, script.as_bytes()).expect(rt, READY);
    let mut broker = Broker::open(alloc, settings).expect(rt, READY);
    let (last, before) = events.as_slice().split_last().expect(rt, READY);
    broker.run(alloc, before).expect(rt, READY);
    let prepared = broker.prepare(alloc, last).expect(rt, READY);
    refuse_from_here(alloc);
    let is_shown = is_for(prepared.reply(), reason);
    let reply = broker.commit(prepared);
    assert!(rt; is_shown && is_for(&reply, reason));
}

#[test]
fn a_topic_is_created(rt: HostRuntime) {
    let lines = "User:r h create-topic u 300\nUser:r h create-topic v 5\n";
    comes_to(&rt, rt.alloc(), [lines, "", ""], None);
}

#[test]
fn a_topic_that_exists_is_refused(rt: HostRuntime) {
    let again = "User:r h create-topic t 1\n";
    comes_to(&rt, rt.alloc(), [again, "", ""], Some(Reason::TopicExists));
}

#[test]
fn a_topic_is_deleted(rt: HostRuntime) {
    let deletion = "User:r h delete-topic t\n";
    comes_to(&rt, rt.alloc(), [COMMIT, deletion, ""], None);
}

/// A producer id, and 255 records, one less than a chunk has, on the second of two partitions.
const RECORDS: &str = "User:r h init-producer
User:r h produce t 1 - \
v v v v v v v v v v v v v v v v v v v v v v v v v v v v v v v v v v v v v v v v v v v v v \
v v v v v v v v v v v v v v v v v v v v v v v v v v v v v v v v v v v v v v v v v v v v v \
v v v v v v v v v v v v v v v v v v v v v v v v v v v v v v v v v v v v v v v v v v v v v \
v v v v v v v v v v v v v v v v v v v v v v v v v v v v v v v v v v v v v v v v v v v v v \
v v v v v v v v v v v v v v v v v v v v v v v v v v v v v v v v v v v v v v v v v v v v v \
v v v v v v v v v v v v v v v v v v v v v v v v v v v v v v
";

/// A batch of the producer, across the edge of the chunk.
const BATCH: &str = "User:r h produce t 1 0:0:0 a b c\n";

#[test]
fn a_batch_is_put_last(rt: HostRuntime) {
    comes_to(&rt, rt.alloc(), [RECORDS, BATCH, ""], None);
}

#[test]
fn records_are_deleted(rt: HostRuntime) {
    let lines = "User:r h delete-records t 1 257\n";
    comes_to(&rt, rt.alloc(), [RECORDS, BATCH, lines], None);
}

const COMMIT: &str = "User:r h commit g t 0 1\n";

#[test]
fn a_first_commit_is_put(rt: HostRuntime) {
    comes_to(&rt, rt.alloc(), [COMMIT, "", ""], None);
}

#[test]
fn a_commit_takes_the_place_of_another(rt: HostRuntime) {
    let again = "User:r h commit g t 0 2\n";
    comes_to(&rt, rt.alloc(), [COMMIT, again, ""], None);
}

#[test]
fn a_commit_on_a_new_partition_is_put(rt: HostRuntime) {
    let other = "User:r h commit g t 1 2\n";
    comes_to(&rt, rt.alloc(), [COMMIT, other, ""], None);
}

#[test]
fn a_commit_on_a_new_topic_is_put(rt: HostRuntime) {
    let topic = "User:r h create-topic u 1\n";
    let other = "User:r h commit g u 0 2\n";
    comes_to(&rt, rt.alloc(), [topic, COMMIT, other], None);
}

#[test]
fn a_commit_of_a_new_group_is_put(rt: HostRuntime) {
    let other = "User:r h commit h t 0 2\n";
    comes_to(&rt, rt.alloc(), [COMMIT, other, ""], None);
}

#[test]
fn a_group_is_deleted(rt: HostRuntime) {
    let deletion = "User:r h delete-group g\n";
    comes_to(&rt, rt.alloc(), [COMMIT, deletion, ""], None);
}

/// Bindings on topics and on a prefix of each of several names, the last of which comes twice.
const LITERAL: &str = "User:r h acl --add --deny-principal User:svc --operation Write \
--topic orders --topic * --topic payments --topic orders.eu\n";

const PREFIXED: &str = "User:r h acl --add --deny-principal User:svc --operation Write \
--resource-pattern-type prefixed \
--topic orders --topic ord --topic o --topic pay --topic orders. --topic orders\n";

#[test]
fn bindings_are_created(rt: HostRuntime) {
    comes_to(&rt, rt.alloc(), [LITERAL, PREFIXED, ""], None);
}

#[test]
fn bindings_are_deleted(rt: HostRuntime) {
    let lines = "User:r h delete-acls - orders any - - - -\n";
    comes_to(&rt, rt.alloc(), [PREFIXED, LITERAL, lines], None);
}
