//! Copies of what services, routers and consumers keep.

use crate::fixtures::{ORDERS, READY, default_route};
use kob_inbox::Subscription;
use kob_names::PlainValue;
use kob_outbox::{Change, OutboxEvent, Row};
use kob_rights::{Body, Reply, Request};
use kob_router::{Call, RouteSettings, Target};
use std::alloc::Global;
use std::process::Abort;
use uuid::Uuid;

/// What is expected of each `copy`.
const COPY: &str = "a copy";

fn copies_settings(rt: &impl Abort, alloc: Global) {
    let settings = RouteSettings::by_default(alloc).expect(rt, READY);
    let copy = settings.copy(alloc).expect(rt, COPY);
    assert!(rt; copy.by == settings.by);
    assert!(rt; copy.replacement.same(&settings.replacement));
    assert!(rt; copy.placement.same(&settings.placement));
}

fn copies_a_target(rt: &impl Abort, alloc: Global) {
    let target = Target {
        route: default_route(rt, alloc),
        partitions: 3,
    };
    let copy = target.copy(alloc).expect(rt, COPY);
    assert_eq!(rt; copy.partitions, 3);
}

fn copies_a_call(rt: &impl Abort, alloc: Global) {
    let call = Call {
        request: Request::InitProducerId,
        heard: Some(Reply::Done(Body::Producer { id: 7, epoch: 0 })),
    };
    let copy = call.copy(alloc).expect(rt, COPY);
    let is_same = copy.request.same(&call.request) && copy.heard.same(&call.heard);
    assert!(rt; is_same);
}

fn copies_a_subscription(rt: &impl Abort, alloc: Global) {
    let subscription = Subscription::of(alloc, "mail", ORDERS, 1, 10).expect(rt, READY);
    let copy = subscription.copy(alloc).expect(rt, COPY);
    assert!(rt; copy.group.same(&subscription.group));
    assert!(rt; copy.assignment.same(&subscription.assignment));
    assert_eq!(rt; copy.max, 10);
}

fn copies_a_row(rt: &impl Abort, alloc: Global) {
    let change = Change::of(alloc, "orders", "42", "paid").expect(rt, READY);
    let change = change.copy(alloc).expect(rt, COPY);
    let event = OutboxEvent::of(alloc, Uuid::from_u128(0xA), &change, "{}").expect(rt, READY);
    let copy = Row { seq: 1, event }.copy(alloc).expect(rt, COPY);
    let event = &copy.event;
    let is_equal = (copy.seq, event.id) == (1, Uuid::from_u128(0xA))
        && event.aggregate_type == change.kind
        && event.aggregate_id == change.id
        && event.event_type == change.state
        && event.payload.as_str() == "{}";
    assert!(rt; is_equal);
}

#[test]
fn copies_are_equal(rt: HostRuntime) {
    let alloc = rt.alloc();
    copies_settings(&rt, alloc);
    copies_a_target(&rt, alloc);
    copies_a_call(&rt, alloc);
    copies_a_subscription(&rt, alloc);
    copies_a_row(&rt, alloc);
}
