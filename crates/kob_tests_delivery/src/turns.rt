//! A service and a consumer that change their lines, over a broker that hands its journal out.

ghost use Rattle.std.specs.Prelude.{◌≡◌, []};

use crate::elsewhere::{consumer, sends};
use crate::fixtures::{CREATE_ORDERS, READY, WRITE_ORDERS, asker, recorded};
use crate::relays::service;
use crate::sessions::place_of;
use kob_connections::{IntoCalls, SessionLine};
use kob_delivery::Premise;
use kob_endpoints::{
    ConsumerEnd, DeliveryFault, Part, RunningConsumer, RunningService, ServiceEnd,
    is_served_in_turn, reaches_in_turn,
};
use kob_router::Line;
use kob_shared::{PastJournal, RotatingBroker, Session};
use std::alloc::Global;
use std::process::Abort;
use std::sync::Wait;

/// A session of a worker for the super user.
fn session<'a>(
    rt: &impl Abort,
    alloc: Global,
    shared: &'a RotatingBroker,
    worker: usize,
) -> Session<'a> {
    let (principal, host) = asker(rt, alloc, "User:root");
    shared.session(worker, principal, host)
}

/// The place of the entry of worker 3 for the request of a script's line.
fn administer<R: Abort + Wait>(
    rt: &R,
    alloc: Global,
    shared: &RotatingBroker,
    line: &str,
) -> usize {
    let mut session = session(rt, alloc, shared, 3);
    place_of(rt, alloc, &mut session, line)
}

/// The broker hands out its journal, which begins at this place.
fn hands_out<R: Abort + Wait>(
    rt: &R,
    alloc: Global,
    shared: &RotatingBroker,
    first: usize,
    past: &mut Vec<PastJournal>,
) {
    let journal = shared.rotate(rt, alloc, first).expect(rt, "a journal");
    past.push(journal).expect(rt, READY);
}

/// What a service leaves that sends two events, each over a line of its own. Between the two the
/// journal is handed out.
fn sent_over<R: Abort + Wait, L: IntoCalls>(
    rt: &R,
    alloc: Global,
    shared: &RotatingBroker,
    past: &mut Vec<PastJournal>,
    service: RunningService<L>,
    next: L,
) -> ServiceEnd
    requires begun { service.earlier ≡ [] }
    requires unused { L.calls next ≡ [] }
{
    let mut service = service;
    sends(rt, alloc, &mut service, 7);
    hands_out(rt, alloc, shared, 0, past);
    let made = service.change_line(next).into_calls();
    assert_eq!(rt; (made.len(), service.line().made_calls().len()), (2, 0));
    sends(rt, alloc, &mut service, 8);
    service.close_after(1, made).expect(rt, "the calls")
}

fn serve<R: Abort + Wait>(
    rt: &R,
    alloc: Global,
    shared: &RotatingBroker,
    past: &mut Vec<PastJournal>,
) -> ServiceEnd {
    let line = SessionLine::open(rt, alloc, session(rt, alloc, shared, 1));
    let next = SessionLine::open(rt, alloc, session(rt, alloc, shared, 1));
    sent_over(rt, alloc, shared, past, service(rt, alloc, line), next)
}

/// What a consumer leaves that takes two events in, each over a line of its own. Between the two
/// the journal is handed out.
fn taken_over<R: Abort + Wait, L: IntoCalls>(
    rt: &R,
    alloc: Global,
    shared: &RotatingBroker,
    past: &mut Vec<PastJournal>,
    consumer: RunningConsumer<L>,
    next: L,
) -> ConsumerEnd
    requires begun { consumer.earlier ≡ [] }
    requires unused { L.calls next ≡ [] }
{
    let mut consumer = consumer;
    consumer.take_rows(alloc, 1, 10).expect(rt, "one event");
    hands_out(rt, alloc, shared, 3, past);
    let made = consumer.change_line(next).into_calls();
    assert_eq!(rt; (made.len(), consumer.line().made_calls().len()), (2, 0));
    consumer.take_rows(alloc, 2, 10).expect(rt, "two events");
    consumer.close_after(2, made).expect(rt, "the calls")
}

fn take<R: Abort + Wait>(
    rt: &R,
    alloc: Global,
    shared: &RotatingBroker,
    past: &mut Vec<PastJournal>,
) -> ConsumerEnd {
    let line = SessionLine::open(rt, alloc, session(rt, alloc, shared, 2));
    let next = SessionLine::open(rt, alloc, session(rt, alloc, shared, 2));
    taken_over(rt, alloc, shared, past, consumer(rt, alloc, line), next)
}

/// The first three journals in turn have the calls of the service and of the consumer, and do not
/// in another order. Worker 3, which is said to have made no call, has an entry in the first.
fn are_served(rt: &impl Abort, alloc: Global, past: &[PastJournal], sent: &Part, taken: &Part) {
    let [one, two, three, _] = past else {
        panic!(rt; "not four journals");
    };
    let (one, two, three) = (&one.journal, &two.journal, &three.journal);
    let silent = Part {
        worker: 3,
        calls: Vec::new(alloc),
    };
    let (in_turn, late, early) = ([one, two, three], [two, one, three], [one, three, two]);
    assert_eq!(rt; is_served_in_turn(alloc, &in_turn, sent), Ok(true));
    assert_eq!(rt; is_served_in_turn(alloc, &in_turn, taken), Ok(true));
    assert_eq!(rt; is_served_in_turn(alloc, &[two, three], &silent), Ok(true));
    assert_eq!(rt; is_served_in_turn(alloc, &late, sent), Ok(false));
    assert_eq!(rt; is_served_in_turn(alloc, &early, taken), Ok(false));
    assert_eq!(rt; is_served_in_turn(alloc, &in_turn, &silent), Ok(false));
}

/// The first three journals in turn show that the events reach the inbox, and name the first call
/// of a worker that has no place in another order, without the second, and with it twice. In the
/// fourth, another worker writes to the topic: its entry is the ninth of all.
fn is_reached(
    rt: &impl Abort,
    alloc: Global,
    past: &[PastJournal],
    sent: &ServiceEnd,
    taken: &ConsumerEnd,
) {
    let [one, two, three, four] = past else {
        panic!(rt; "not four journals");
    };
    let (one, two, three) = (&one.journal, &two.journal, &three.journal);
    let four = &four.journal;
    let in_turn = reaches_in_turn(alloc, &[one, two, three], sent, taken);
    in_turn.expect(rt, "both events in the inbox");
    let late = reaches_in_turn(alloc, &[two, one, three], sent, taken);
    assert!(rt; matches!(late, Err(DeliveryFault::Service(0))));
    let early = reaches_in_turn(alloc, &[one, three, two], sent, taken);
    assert!(rt; matches!(early, Err(DeliveryFault::Consumer(0))));
    let short = reaches_in_turn(alloc, &[one, three], sent, taken);
    assert!(rt; matches!(short, Err(DeliveryFault::Service(2))));
    let long = reaches_in_turn(alloc, &[one, two, two, three], sent, taken);
    assert!(rt; matches!(long, Err(DeliveryFault::Service(3))));
    let shared = reaches_in_turn(alloc, &[one, two, three, four], sent, taken);
    let Err(DeliveryFault::Premise(breach)) = shared else {
        panic!(rt; "no premise is broken");
    };
    assert!(rt; matches!(breach.premise, Premise::SoleProducer));
    assert_eq!(rt; (breach.assigned, breach.entry), (0, 8));
}

/// The calls of a service and of a consumer that change their lines are served in turn, and the
/// events reach the inbox. The journal is handed out at the places 0, 3, 6 and 8.
fn holds_over<R: Abort + Wait>(rt: &R, alloc: Global, shared: &RotatingBroker) {
    let mut past = Vec::new(alloc);
    assert_eq!(rt; administer(rt, alloc, shared, CREATE_ORDERS), 0);
    let sent = serve(rt, alloc, shared, &mut past);
    let taken = take(rt, alloc, shared, &mut past);
    hands_out(rt, alloc, shared, 6, &mut past);
    assert_eq!(rt; administer(rt, alloc, shared, WRITE_ORDERS), 8);
    hands_out(rt, alloc, shared, 8, &mut past);
    are_served(rt, alloc, &past, sent.part(), taken.part());
    is_reached(rt, alloc, &past, &sent, &taken);
}

// The broker's journals have at most three entries each.
#[test]
fn events_over_changed_lines_reach_the_inbox_in_turn(rt: HostRuntime) {
    let (_, continued) = recorded(&rt, rt.alloc(), 3).next(rt.alloc());
    let shared = RotatingBroker::open(continued);
    holds_over(&rt, rt.alloc(), &shared);
}
