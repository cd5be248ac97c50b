//! The premises of the access laws, decided for a journal whose entries are written out.

ghost use Rattle.std.specs.Prelude.{IsTrue};
ghost use Rattle.kob_delivery.specs.View.{IsReserved};
ghost use Rattle.kob_names.specs.declared.kinds.Operation.TheVariants.{Write};
ghost use Rattle.kob_names.specs.declared.kinds.ResourceKind.TheVariants.{Topic};

use crate::fixtures::{READY, copies, recorded, serve_all};
use crate::revoked::write_allowed;
use kob_broker::Settings;
use kob_delivery::{
    RuleFault, a_reservation_lasts, first_opener, first_other_actor, first_super_producer,
    first_unreserved, is_reserved, only_committer_by_rules, only_committer_in_turn,
    only_producer_by_rules, only_producer_in_turn, opener_in_turn,
};
use kob_names::{Items, Operation, Principal, ResourceKind, Text};
use kob_script::read_script;
use kob_shared::{Journal, Recorded};
use std::alloc::Global;
use std::process::Abort;

/// The entries, each with its worker. No binding is in force from entry 4 on, and from entry 5 on
/// `User:other` may do all on names that begin with `t`.
const ENTRIES: [(usize, &str); 8] = [
    (0, "User:root h create-topic t 1"),
    (
        0,
        "User:root h create-acl allow User:svc * Write Topic literal t",
    ),
    (1, "User:svc h produce t 0 - v"),
    (0, "User:root h delete-acls - - any - - - -"),
    (
        0,
        "User:root h create-acl allow User:other * All Topic prefixed t",
    ),
    (2, "User:svc h metadata"),
    (0, "User:root h produce t 0 - v"),
    (0, "User:root h commit g t 0 1"),
];

/// The principals of the tests. `User:nobody` acts in no entry.
#[derive(Drop)]
struct Actors {
    service: Principal,
    other: Principal,
    nobody: Principal,
}

impl Actors {
    fn parsed(rt: &impl Abort, alloc: Global) -> Actors {
        Actors {
            service: Principal::parse(alloc, "User:svc").expect(rt, READY),
            other: Principal::parse(alloc, "User:other").expect(rt, READY),
            nobody: Principal::parse(alloc, "User:nobody").expect(rt, READY),
        }
    }
}

/// The topics `t`, `tx`, to which no super user writes, and `x`, and the group `g`.
#[derive(Drop)]
struct Names {
    topic: Text,
    unused: Text,
    apart: Text,
    group: Text,
}

impl Names {
    fn copied(rt: &impl Abort, alloc: Global) -> Names {
        Names {
            topic: Text::copied(alloc, "t").expect(rt, READY),
            unused: Text::copied(alloc, "tx").expect(rt, READY),
            apart: Text::copied(alloc, "x").expect(rt, READY),
            group: Text::copied(alloc, "g").expect(rt, READY),
        }
    }
}

/// Settings with `everyone` on, and one opening binding: `User:svc` may write to the topic `t`.
fn open_settings(rt: &impl Abort, alloc: Global) -> Settings {
    let script = read_script(alloc, b"super User:root\neveryone on").expect(rt, READY);
    let mut settings = script.settings;
    settings.opening = Items::from_vec(write_allowed(rt, alloc));
    settings
}

/// The first place at which another than the principal may write to the topic.
fn unreserved(
    rt: &impl Abort,
    alloc: Global,
    settings: &Settings,
    journal: &Journal,
    service: &Principal,
    topic: &Text,
) -> Option<usize> {
    let (write, kind) = (Operation::Write, ResourceKind::Topic);
    let found = first_unreserved(alloc, settings, journal, service, write, kind, topic);
    found.expect(rt, "memory")
}

/// Where the journal breaks each premise: `User:other` may write from entry 5 on.
fn premises_are_broken(
    rt: &impl Abort,
    alloc: Global,
    recorded: &Recorded,
    service: &Principal,
    topic: &Text,
) {
    let (journal, settings) = (recorded.journal(), recorded.opening());
    let closed = unreserved(rt, alloc, settings, journal, service, topic);
    assert_eq!(rt; closed, Some(5));
    assert_eq!(rt; first_other_actor(journal, 1, service), Some(5));
    let of_root = first_super_producer(journal, &settings.supers, topic);
    assert_eq!(rt; of_root, Some(6));
}

/// If a name without bindings is everyone's, all may write from entry 4 on.
fn opens_to_all(
    rt: &impl Abort,
    alloc: Global,
    journal: &Journal,
    service: &Principal,
    topic: &Text,
) {
    let open = open_settings(rt, alloc);
    let (write, kind) = (Operation::Write, ResourceKind::Topic);
    let at_first = is_reserved(alloc, &open, service, write, kind, topic);
    assert_eq!(rt; at_first, Ok(true));
    let opened = unreserved(rt, alloc, &open, journal, service, topic);
    assert_eq!(rt; opened, Some(4));
}

/// The rules for principals that no entry acts as: on a topic to which no super user writes, and on
/// one on which a super user commits.
fn rules_hold(rt: &impl Abort, alloc: Global, recorded: &Recorded, actors: &Actors, names: &Names) {
    let (journal, settings) = (recorded.journal(), recorded.opening());
    let (nobody, unused, group) = (&actors.nobody, &names.unused, &names.group);
    let owned = only_producer_by_rules(alloc, settings, journal, 9, &actors.other, unused);
    let left = only_producer_by_rules(alloc, settings, journal, 9, nobody, unused);
    let commits = only_committer_by_rules(alloc, settings, journal, 9, nobody, group, &names.topic);
    let free = only_committer_by_rules(alloc, settings, journal, 9, nobody, group, unused);
    owned.expect(rt, "a sole producer");
    free.expect(rt, "a sole committer");
    assert!(rt; matches!(left, Err(RuleFault::NotReserved(5))));
    assert!(rt; matches!(commits, Err(RuleFault::SuperUser(7))));
}

/// Whether the topic is reserved for the principal, by what is in force at first and by what the
/// entries open.
fn stays_reserved(
    rt: &impl Abort,
    alloc: Global,
    settings: &Settings,
    journal: &Journal,
    service: &Principal,
    topic: &Text,
) -> bool
    ensures { IsTrue result
        → IsReserved settings.now journal.now service.now Write Topic topic.now }
{
    let (write, kind) = (Operation::Write, ResourceKind::Topic);
    let at_first = is_reserved(alloc, settings, service, write, kind, topic).expect(rt, "memory");
    let opener = first_opener(journal, service, write, kind, topic, settings.everyone);
    a_reservation_lasts();
    at_first && opener.is_none()
}

/// The topic `x` stays reserved, and the topic `t` does not.
fn reservations_last(
    rt: &impl Abort,
    alloc: Global,
    recorded: &Recorded,
    service: &Principal,
    names: &Names,
) {
    let (journal, settings) = (recorded.journal(), recorded.opening());
    let stays = stays_reserved(rt, alloc, settings, journal, service, &names.apart);
    let opened = stays_reserved(rt, alloc, settings, journal, service, &names.topic);
    assert_eq!(rt; (stays, opened), (true, false));
}

/// Entry 4 opens the topic `t`; if a name without bindings is everyone's, entry 3 does. None opens
/// the topic `x`.
fn openers_in_turn(rt: &impl Abort, journals: &[&Journal], service: &Principal, names: &Names) {
    let (write, kind) = (Operation::Write, ResourceKind::Topic);
    let closed = opener_in_turn(journals, service, write, kind, &names.topic, false);
    let open = opener_in_turn(journals, service, write, kind, &names.topic, true);
    let none = opener_in_turn(journals, service, write, kind, &names.apart, false);
    assert_eq!(rt; (closed, open, none), (Ok(Some(4)), Ok(Some(3)), Ok(None)));
}

/// What breaks the rules of journals in turn.
fn are_refused_in_turn(
    rt: &impl Abort,
    alloc: Global,
    journals: &[&Journal],
    settings: &Settings,
    actors: &Actors,
    names: &Names,
) {
    let (nobody, service, unused) = (&actors.nobody, &actors.service, &names.unused);
    let left = only_producer_in_turn(alloc, settings, journals, 9, nobody, unused);
    let other = only_producer_in_turn(alloc, settings, journals, 1, service, unused);
    let (group, topic) = (&names.group, &names.topic);
    let commits = only_committer_in_turn(alloc, settings, journals, 9, nobody, group, topic);
    assert!(rt; matches!(left, Err(RuleFault::NotReserved(5))));
    assert!(rt; matches!(other, Err(RuleFault::OtherActor(5))));
    assert!(rt; matches!(commits, Err(RuleFault::SuperUser(7))));
}

/// They hold of the principal that may write, and of a topic on which nobody commits.
fn hold_in_turn(
    rt: &impl Abort,
    alloc: Global,
    journals: &[&Journal],
    settings: &Settings,
    other: &Principal,
    names: &Names,
) {
    let (topic, group) = (&names.unused, &names.group);
    let owned = only_producer_in_turn(alloc, settings, journals, 9, other, topic);
    owned.expect(rt, "a sole producer");
    let free = only_committer_in_turn(alloc, settings, journals, 9, other, group, topic);
    free.expect(rt, "a sole committer");
}

/// A journal of copies of entries of another.
fn part(rt: &impl Abort, alloc: Global, journal: &Journal, from: usize, to: usize) -> Journal {
    let entries = copies(rt, alloc, journal, from, to);
    Journal::from_entries(alloc, &entries).expect(rt, READY)
}

/// The journal in two parts, of which the first ends before entry 4.
fn in_turn(rt: &impl Abort, alloc: Global, recorded: &Recorded, actors: &Actors, names: &Names) {
    let head = part(rt, alloc, recorded.journal(), 0, 4);
    let tail = part(rt, alloc, recorded.journal(), 4, 8);
    let (journals, settings) = ([&head, &tail], recorded.opening());
    openers_in_turn(rt, &journals, &actors.service, names);
    are_refused_in_turn(rt, alloc, &journals, settings, actors, names);
    hold_in_turn(rt, alloc, &journals, settings, &actors.other, names);
}

#[test]
fn premises_are_decided(rt: HostRuntime) {
    let alloc = rt.alloc();
    let (actors, names) = (Actors::parsed(&rt, alloc), Names::copied(&rt, alloc));
    let mut recorded = recorded(&rt, alloc, 8);
    serve_all(&rt, alloc, &mut recorded, &ENTRIES);
    let (service, topic) = (&actors.service, &names.topic);
    premises_are_broken(&rt, alloc, &recorded, service, topic);
    opens_to_all(&rt, alloc, recorded.journal(), service, topic);
    rules_hold(&rt, alloc, &recorded, &actors, &names);
    reservations_last(&rt, alloc, &recorded, service, &names);
    in_turn(&rt, alloc, &recorded, &actors, &names);
}
