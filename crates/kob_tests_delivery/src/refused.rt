//! A router and a consumer that run out of memory. `.ci/refuse` runs them with each allocation
//! refused in turn.

ghost use Rattle.std.specs.Prelude.{option_map};
ghost use Rattle.kob_router.specs.Tick.{IsFirst, hand_of};

use crate::fixtures::{
    ORDERS, READY, answer, broker_of_orders, default_route, event_of, line_to, offset_of, outbox,
    record,
};
use kob_broker::Broker;
use kob_connections::{BrokerLine, IntoCalls};
use kob_inbox::{Consumer, Inbox, Subscription};
use kob_outbox::Outbox;
use kob_router::{Line, Router};
use std::alloc::Global;
use std::process::Abort;

/// The maximum number of ticks.
const TICKS: usize = 8;

/// The result of a tick.
#[derive(Clone, Copy, PartialEq, Eq)]
pub(crate) enum Came {
    /// There was nothing to do.
    Idle,
    /// It moved on, or a call was lost, or memory was refused.
    On,
    /// It was denied or refused, or the database failed.
    Stopped,
}

/// The result of a tick of a router.
pub(crate) fn router_tick<L: Line>(
    alloc: Global,
    outbox: &mut Outbox,
    router: &mut Router,
    line: &mut L,
) -> Came
    requires { IsFirst (option_map hand_of router.old.hand) outbox.old }
    ensures { IsFirst (option_map hand_of router.new.hand) outbox.new }
{
    let tick = router.tick(alloc, outbox, line);
    match &tick {
        kob_router::Tick::Idle => Came::Idle,
        kob_router::Tick::Moved(_) | kob_router::Tick::Repeat => Came::On,
        kob_router::Tick::Stopped(kob_router::StopReason::Memory(_)) => Came::On,
        kob_router::Tick::Stopped(_) => Came::Stopped,
    }
}

fn router_ticks(
    alloc: Global,
    outbox: &mut Outbox,
    router: &mut Router,
    line: &mut BrokerLine<'_>,
) -> [Came; TICKS]
    requires { IsFirst (option_map hand_of router.old.hand) outbox.old }
{
    let mut came = [Came::On; TICKS];
    for i in 0..TICKS {
        came[i] = router_tick(alloc, outbox, router, line);
    }
    came
}

/// The result of a tick of a consumer.
pub(crate) fn consumer_tick<L: Line>(
    alloc: Global,
    inbox: &mut Inbox,
    consumer: &mut Consumer,
    line: &mut L,
) -> Came {
    let tick = consumer.tick(alloc, inbox, line);
    match &tick {
        kob_inbox::Tick::Idle => Came::Idle,
        kob_inbox::Tick::Stopped(kob_router::StopReason::Memory(_)) => Came::On,
        kob_inbox::Tick::Stopped(_) => Came::Stopped,
        _ => Came::On,
    }
}

fn consumer_ticks(
    alloc: Global,
    inbox: &mut Inbox,
    consumer: &mut Consumer,
    line: &mut BrokerLine<'_>,
) -> [Came; TICKS] {
    let mut came = [Came::On; TICKS];
    for i in 0..TICKS {
        came[i] = consumer_tick(alloc, inbox, consumer, line);
    }
    came
}

/// Whether no tick was stopped, and one of the last two was idle.
fn came_to_the_end(came: &[Came; TICKS]) -> bool {
    !came.contains(&Came::Stopped)
        && (came[TICKS - 2] == Came::Idle || came[TICKS - 1] == Came::Idle)
}

/// Whether a router sends all that waits in an outbox, by a line whose calls are kept.
fn sends_all(rt: &impl Abort, alloc: Global, outbox: &mut Outbox, broker: &mut Broker) -> bool {
    let route = default_route(rt, alloc);
    let mut line = line_to(rt, alloc, broker);
    let mut router = Router::new(alloc, route, 1);
    let came = router_ticks(alloc, outbox, &mut router, &mut line);
    line.into_calls().len() > 0 && came_to_the_end(&came)
}

/// How many records the topic has, or `None` if memory is refused.
fn end(alloc: Global, broker: &mut Broker) -> Option<u64> {
    let line = "User:root h list-offsets outbox.event.orders 0 -1";
    let reply = answer(alloc, broker, line)?;
    offset_of(&reply)
}

/// If any one allocation is refused, the ticks that follow finish the work: two events are in the
/// topic and before the mark. What could not be read for lack of memory is read again.
#[test]
fn a_router_makes_up(rt: HostRuntime) {
    let alloc = rt.alloc();
    let mut outbox = outbox(&rt, alloc, 2);
    let mut broker = broker_of_orders(&rt, alloc);
    assert!(rt; sends_all(&rt, alloc, &mut outbox, &mut broker));
    assert_eq!(rt; outbox.mark(), Ok(2));
    let end = match end(alloc, &mut broker) {
        None => end(alloc, &mut broker),
        end => end,
    };
    assert_eq!(rt; end, Some(2));
}

/// Whether a consumer takes in all that the topic holds.
fn takes_all(rt: &impl Abort, alloc: Global, inbox: &mut Inbox, broker: &mut Broker) -> bool {
    let reads = Subscription::of(alloc, "g", ORDERS, 1, 2).expect(rt, READY);
    let mut line = line_to(rt, alloc, broker);
    let mut consumer = Consumer::new(alloc, reads.group, reads.assignment, 2);
    let came = consumer_ticks(alloc, inbox, &mut consumer, &mut line);
    drop(line);
    came_to_the_end(&came)
}

/// Whether the records of the inbox's two rows stood at 0 and 2. What could not be read for lack of
/// memory is read again.
fn has_two(inbox: &mut Inbox) -> bool {
    let rows = match inbox.taken() {
        Err(_) => inbox.taken(),
        rows => rows,
    };
    match &rows {
        Ok(rows) => matches!(rows.as_slice(), [one, two] if (one.offset, two.offset) == (0, 2)),
        Err(_) => false,
    }
}

/// Sends one event, appends a record without an event id, and sends another event.
fn fill(rt: &impl Abort, alloc: Global, broker: &mut Broker) {
    let mut outbox = outbox(rt, alloc, 1);
    assert!(rt; sends_all(rt, alloc, &mut outbox, broker));
    let event = event_of(
        rt,
        alloc,
        "User:root h produce outbox.event.orders 0 - none",
    );
    let appended = broker.serve(alloc, &event).expect(rt, READY);
    assert_eq!(rt; offset_of(&appended), Some(1));
    let recorded = record(alloc, &mut outbox, 2, "paid").expect(rt, READY);
    assert_eq!(rt; recorded, 2);
    assert!(rt; sends_all(rt, alloc, &mut outbox, broker));
}

/// If any one allocation is refused, the ticks that follow finish the work: two events around a
/// record without an event id are taken in, each once.
#[test]
fn a_consumer_makes_up(rt: HostRuntime) {
    let alloc = rt.alloc();
    let mut inbox = Inbox::open_in_memory(alloc).expect(&rt, READY);
    let mut broker = broker_of_orders(&rt, alloc);
    fill(&rt, alloc, &mut broker);
    assert!(rt; takes_all(&rt, alloc, &mut inbox, &mut broker));
    assert!(rt; has_two(&mut inbox));
}
