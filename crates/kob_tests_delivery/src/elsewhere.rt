//! Calls, a service and a consumer over lines of one's own, to a broker in another thread. It keeps
//! an entry of each request, and the entries are judged at the end.

ghost use Rattle.std.specs.Prelude.{◌≡◌, []};

use crate::fixtures::{CREATE_ORDERS, ORDERS, READY, asker, broker, event_of, order};
use crate::relays::service;
use crate::remote::{Local, Remote};
use crossbeam_channel::bounded;
use kob_broker::Broker;
use kob_connections::{Connection, IntoCalls};
use kob_endpoints::{
    ConsumerEnd, DeliveryFault, JudgeFault, Part, RunningConsumer, RunningService, ServiceEnd,
    is_served, judged_in_turn,
};
use kob_inbox::{Inbox, Subscription};
use kob_names::PlainValue;
use kob_rights::{Event, Reply, Request};
use kob_router::{Call, Line};
use kob_shared::{Entry, Journal};
use std::alloc::Global;
use std::process::Abort;
use std::sync::Wait;
use std::thread::{Threads, join};

/// The other side: a broker, and an entry of each request that it served.
#[derive(Drop)]
struct Elsewhere {
    broker: Broker,
    entries: Vec<Entry>,
}

/// A broker without entries.
fn other_side(rt: &impl Abort, alloc: Global) -> Elsewhere {
    Elsewhere {
        broker: broker(rt, alloc, Vec::new(alloc)),
        entries: Vec::new(alloc),
    }
}

/// Serves a worker's event and keeps an entry of it. Returns a copy of the reply.
fn answered(
    rt: &impl Abort,
    alloc: Global,
    elsewhere: &mut Elsewhere,
    worker: usize,
    event: Event,
) -> Reply {
    let reply = elsewhere.broker.serve(alloc, &event).expect(rt, "a reply");
    let told = reply.copy(alloc).expect(rt, READY);
    let entry = Entry {
        worker,
        event,
        reply,
    };
    elsewhere.entries.push(entry).expect(rt, READY);
    told
}

/// Serves a worker's requests until its line has ended.
fn serve_all<R: Abort + Wait>(
    rt: &R,
    alloc: Global,
    elsewhere: &mut Elsewhere,
    worker: usize,
    local: &Local,
) {
    for _ in rt.forever() {
        let Ok(request) = local.requests.recv(rt) else {
            break;
        };
        let (principal, host) = asker(rt, alloc, "User:root");
        let event = Event {
            principal,
            host,
            request,
        };
        let reply = answered(rt, alloc, elsewhere, worker, event);
        local.replies.send(rt, reply).expect(rt, "a waiting line");
    }
}

/// Both ends of a way to another thread.
fn ends<R: Abort + Wait>(rt: &R, alloc: Global) -> (Remote<'_, R>, Local) {
    let (to, requests) = bounded(alloc, 1).expect(rt, READY);
    let (replies, from) = bounded(alloc, 1).expect(rt, READY);
    let remote = Remote {
        rt,
        requests: to,
        replies: from,
    };
    (remote, Local { requests, replies })
}

/// Records the event with this id and sends it by one tick, after which none is needed.
pub(crate) fn sends<L: Line>(
    rt: &impl Abort,
    alloc: Global,
    service: &mut RunningService<L>,
    id: u128,
)
    ensures { service.new.earlier ≡ service.old.earlier }
{
    let (change, event) = order(alloc, id, "paid").expect(rt, READY);
    service.record(&change, &event).expect(rt, "a number");
    service.send_all(alloc, 1).expect(rt, "sent by one tick");
    service.send_all(alloc, 0).expect(rt, "all is sent");
}

/// What a service leaves that sends an event over a line of one's own, as worker 1.
fn sent_over<R: Abort + Wait>(rt: &R, alloc: Global, remote: Remote<'_, R>) -> ServiceEnd {
    let line = Connection::new(alloc, remote);
    let mut service = service(rt, alloc, line);
    sends(rt, alloc, &mut service, 7);
    service.close(1)
}

/// A consumer with an empty inbox, which fetches one record at a time.
pub(crate) fn consumer<L: Line>(rt: &impl Abort, alloc: Global, line: L) -> RunningConsumer<L>
    requires { L.calls line ≡ [] }
    ensures { result.earlier ≡ [] }
{
    let inbox = Inbox::open_in_memory(alloc).expect(rt, READY);
    let subscription = Subscription::of(alloc, "g", ORDERS, 1, 1).expect(rt, READY);
    RunningConsumer::new(alloc, inbox, subscription, line)
}

/// What a consumer leaves that takes the event in over a line of one's own, as worker 2.
fn taken_over<R: Abort + Wait>(rt: &R, alloc: Global, remote: Remote<'_, R>) -> ConsumerEnd {
    let line = Connection::new(alloc, remote);
    let mut consumer = consumer(rt, alloc, line);
    consumer.take_rows(alloc, 1, 10).expect(rt, "the event");
    consumer.close(2)
}

fn sent<R: Abort + Threads + Wait + Sync>(
    rt: &R,
    alloc: Global,
    elsewhere: &mut Elsewhere,
) -> ServiceEnd {
    let (remote, local) = ends(rt, alloc);
    let (_, sent) = join(
        rt,
        || serve_all(rt, alloc, elsewhere, 1, &local),
        || sent_over(rt, alloc, remote),
    );
    sent
}

fn taken<R: Abort + Threads + Wait + Sync>(
    rt: &R,
    alloc: Global,
    elsewhere: &mut Elsewhere,
) -> ConsumerEnd {
    let (remote, local) = ends(rt, alloc);
    let (_, taken) = join(
        rt,
        || serve_all(rt, alloc, elsewhere, 2, &local),
        || taken_over(rt, alloc, remote),
    );
    taken
}

/// A journal of the entries, whose replies can be replies to their requests.
fn journal_of(rt: &impl Abort, alloc: Global, entries: &[Entry]) -> Journal {
    Journal::from_entries(alloc, entries).expect(rt, "possible replies")
}

/// All entries show that the event reached the inbox. Without the last one, which is the
/// consumer's, a call that has a reply has no entry.
fn are_judged(
    rt: &impl Abort,
    alloc: Global,
    entries: &[Entry],
    sent: &ServiceEnd,
    taken: &ConsumerEnd,
) {
    let all = journal_of(rt, alloc, entries);
    judged_in_turn(alloc, &[&all], sent, taken).expect(rt, "the event in the inbox");
    let (_, before) = entries.split_last().expect(rt, "an entry");
    let lacking = journal_of(rt, alloc, before);
    let judged = judged_in_turn(alloc, &[&lacking], sent, taken);
    let Err(JudgeFault::Delivery(DeliveryFault::Consumer(_))) = judged else {
        panic!(rt; "the last call has an entry");
    };
}

fn reaches<R: Abort + Threads + Wait + Sync>(rt: &R, alloc: Global) {
    let mut elsewhere = other_side(rt, alloc);
    let event = event_of(rt, alloc, CREATE_ORDERS);
    let _ = answered(rt, alloc, &mut elsewhere, 0, event);
    let sent = sent(rt, alloc, &mut elsewhere);
    let taken = taken(rt, alloc, &mut elsewhere);
    are_judged(rt, alloc, &elsewhere.entries, &sent, &taken);
}

/// The calls of a line that asks for a producer id and then for the groups.
fn calls_over<R: Wait>(alloc: Global, remote: Remote<'_, R>) -> Vec<Call> {
    let mut line = Connection::new(alloc, remote);
    let _ = line.send(alloc, Request::InitProducerId);
    let _ = line.send(alloc, Request::ListGroups);
    line.into_calls()
}

/// The calls of worker 7, which the other side serves.
fn calls_of<R: Abort + Threads + Wait + Sync>(
    rt: &R,
    alloc: Global,
    elsewhere: &mut Elsewhere,
) -> Vec<Call> {
    let (remote, local) = ends(rt, alloc);
    let (_, calls) = join(
        rt,
        || serve_all(rt, alloc, elsewhere, 7, &local),
        || calls_over(alloc, remote),
    );
    calls
}

/// Both calls are heard, and are the entries of worker 7.
fn calls<R: Abort + Threads + Wait + Sync>(rt: &R, alloc: Global) {
    let mut elsewhere = other_side(rt, alloc);
    let calls = calls_of(rt, alloc, &mut elsewhere);
    assert_eq!(rt; calls.iter().filter(|call| call.heard.is_some()).count(), 2);
    let journal = journal_of(rt, alloc, &elsewhere.entries);
    let part = Part { worker: 7, calls };
    assert_eq!(rt; is_served(alloc, &journal, &part), Ok(true));
}

// A broker of any kind may be on the other side: only its entries are looked at. Each reply comes
// over a channel, and is noted as one that was received.
#[test]
fn lines_go_to_another_thread(rt: HostRuntime) {
    calls(&rt, rt.alloc());
    reaches(&rt, rt.alloc());
}
