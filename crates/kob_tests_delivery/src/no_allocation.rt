//! Calls on routers and consumers that do not allocate. `.ci/refuse` runs them with every
//! allocation refused from `refuse_from_here` on.

use crate::fixtures::{
    ORDERS, READY, broker_of_orders, default_route, line_to, outbox, refuse_from_here,
};
use crate::refused::{Came, consumer_tick, router_tick};
use kob_inbox::{Consumer, Inbox, Subscription};
use kob_outbox::Outbox;
use kob_rights::{Reply, Request};
use kob_router::{Call, Line, Router};
use std::alloc::Global;
use std::process::Abort;

/// Whether exactly two calls were made, both with a reply: for a producer id, and for a record.
fn are_first_two(calls: &[Call]) -> bool {
    match calls {
        [one, two] => {
            matches!(&one.request, Request::InitProducerId)
                && matches!(&two.request, Request::Produce(_))
                && matches!(&one.heard, Some(Reply::Done(_)))
                && matches!(&two.heard, Some(Reply::Done(_)))
        }
        _ => false,
    }
}

/// A router that has sent one row starts again, and another is made, without a call.
fn start_again<L: Line>(rt: &impl Abort, alloc: Global, outbox: &mut Outbox, line: &mut L) {
    let other = default_route(rt, alloc);
    let mut router = Router::new(alloc, default_route(rt, alloc), 1);
    let moved = router_tick(alloc, outbox, &mut router, line);
    let idle = router_tick(alloc, outbox, &mut router, line);
    refuse_from_here(alloc);
    router.restart();
    drop(router);
    let _ = Router::new(alloc, other, 1_000);
    assert!(rt; (moved, idle) == (Came::On, Came::Idle));
    assert!(rt; are_first_two(line.made_calls()) && line.unmade_calls() == 0);
}

#[test]
fn a_router_starts_again(rt: HostRuntime) {
    let alloc = rt.alloc();
    let mut outbox = outbox(&rt, alloc, 1);
    let mut broker = broker_of_orders(&rt, alloc);
    let mut line = line_to(&rt, alloc, &mut broker);
    start_again(&rt, alloc, &mut outbox, &mut line);
    drop(line);
}

/// Whether exactly these calls were made: for a position, and for records.
fn asked_and_fetched(calls: &[Call]) -> bool {
    match calls {
        [one, two] => {
            matches!(&one.request, Request::OffsetFetch(_))
                && matches!(&two.request, Request::Fetch(_))
        }
        _ => false,
    }
}

/// A consumer that has asked twice starts again, and another is made, without a call.
fn begin_again<L: Line>(rt: &impl Abort, alloc: Global, inbox: &mut Inbox, line: &mut L) {
    let one = Subscription::of(alloc, "g", ORDERS, 1, 10).expect(rt, READY);
    let other = Subscription::of(alloc, "g", ORDERS, 1, 10).expect(rt, READY);
    let mut consumer = Consumer::new(alloc, one.group, one.assignment, 10);
    let placed = consumer_tick(alloc, inbox, &mut consumer, line);
    let idle = consumer_tick(alloc, inbox, &mut consumer, line);
    refuse_from_here(alloc);
    consumer.restart();
    drop(consumer);
    let _ = Consumer::new(alloc, other.group, other.assignment, 10);
    assert!(rt; (placed, idle) == (Came::On, Came::Idle));
    assert!(rt; asked_and_fetched(line.made_calls()) && line.unmade_calls() == 0);
}

#[test]
fn a_consumer_begins_again(rt: HostRuntime) {
    let alloc = rt.alloc();
    let mut inbox = Inbox::open_in_memory(alloc).expect(&rt, READY);
    let mut broker = broker_of_orders(&rt, alloc);
    let mut line = line_to(&rt, alloc, &mut broker);
    begin_again(&rt, alloc, &mut inbox, &mut line);
    drop(line);
}
