//! Plans of pipelines that the tests share.

use crate::fixtures::{ORDERS, READY, asker, default_route, script};
use kob_inbox::Subscription;
use kob_outbox::{Change, OutboxEvent};
use kob_pipeline::{ConsumerPlan, ConsumerStep, Loss, Plan, Service, ServiceStep};
use kob_router::Target;
use kob_script::read_script;
use std::alloc::Global;
use std::process::Abort;
use uuid::Uuid;

/// The settings and the first events of a plan: the topic is created, and the service and the
/// groups `g` and `g2` get their rights.
const FIRST: &str = "super User:root
User:root h create-topic outbox.event.orders 1
User:root h create-acl allow User:svc * Write Topic prefixed outbox.event.
User:root h create-acl allow User:svc * IdempotentWrite Cluster literal kafka-cluster
User:root h create-acl allow User:con * Read Topic prefixed outbox.event.
User:root h create-acl allow User:con * Read Group literal g
User:root h create-acl allow User:con * Read Group literal g2
";

/// The number of these events.
pub(crate) const FIRST_EVENTS: usize = 6;

/// The binding that allows `User:con` to read the group `g` is deleted.
const REVOKE: &str = "User:root h delete-acls Group g any User:con - Read -";

/// The steps of a service.
#[derive(Clone, Copy)]
pub(crate) enum Act {
    /// Records the event with this id.
    Note(u128),
    /// Records the event with this id about an aggregate type without a topic.
    Unroutable(u128),
    /// Records the event with this id about an aggregate type whose name is a byte too long.
    TooLong(u128),
    Tick(Loss),
    Restart,
    Sweep,
}

pub(crate) const TICK: Act = Act::Tick(Loss::None);

/// Two events, each sent at once.
pub(crate) const TWO: [Act; 4] = [Act::Note(0xA), TICK, Act::Note(0xB), TICK];

/// The aggregate `42` of a type is paid, with an event of this id.
fn recording(rt: &impl Abort, alloc: Global, kind: &str, id: u128) -> ServiceStep {
    let change = Change::of(alloc, kind, "42", "paid").expect(rt, READY);
    let event = OutboxEvent::of(alloc, Uuid::from_u128(id), &change, "{}").expect(rt, READY);
    ServiceStep::Record(change, event)
}

fn step(rt: &impl Abort, alloc: Global, act: Act) -> ServiceStep {
    match act {
        Act::Note(id) => recording(rt, alloc, "orders", id),
        Act::Unroutable(id) => recording(rt, alloc, "orders and refunds", id),
        Act::TooLong(id) => {
            let kind = "a".repeat(alloc, 256).expect(rt, READY);
            recording(rt, alloc, kind.as_str(), id)
        }
        Act::Tick(loss) => ServiceStep::Tick(loss),
        Act::Restart => ServiceStep::Restart,
        Act::Sweep => ServiceStep::Sweep,
    }
}

fn service(rt: &impl Abort, alloc: Global, acts: &[Act]) -> Service {
    let (principal, host) = asker(rt, alloc, "User:svc");
    let route = default_route(rt, alloc);
    let mut steps = Vec::new(alloc);
    for act in acts {
        let step = step(rt, alloc, *act);
        steps.push(step).expect(rt, READY);
    }
    Service {
        principal,
        host,
        target: Target {
            route,
            partitions: 1,
        },
        steps,
    }
}

/// A consumer of the topic's one partition for this group, which makes three steps.
fn consumer(rt: &impl Abort, alloc: Global, group: &str) -> ConsumerPlan {
    let (principal, host) = asker(rt, alloc, "User:con");
    ConsumerPlan {
        principal,
        host,
        subscription: Subscription::of(alloc, group, ORDERS, 1, 10).expect(rt, READY),
        steps: vec![in alloc; ConsumerStep::Tick(Loss::None); 3].expect(rt, READY),
    }
}

/// A plan with one service and, for each group, one consumer.
#[derive(Clone, Copy)]
pub(crate) struct Cast<'t> {
    pub(crate) service: &'t [Act],
    pub(crate) groups: &'t [&'t str],
    /// Whether `User:root` revokes the consumer's right to the group `g`.
    pub(crate) revoked: bool,
}

/// The plan of a cast.
pub(crate) fn plan(rt: &impl Abort, alloc: Global, cast: Cast<'_>) -> Plan {
    let first = read_script(alloc, FIRST.as_bytes()).expect(rt, READY);
    let service = service(rt, alloc, cast.service);
    let mut consumers = Vec::new(alloc);
    for group in cast.groups {
        let consumer = consumer(rt, alloc, group);
        consumers.push(consumer).expect(rt, READY);
    }
    let mut administrators = Vec::new(alloc);
    if cast.revoked {
        let revoker = script(rt, alloc, REVOKE, 1);
        administrators.push(revoker).expect(rt, READY);
    }
    Plan {
        settings: first.settings,
        first: first.events,
        services: vec![in alloc; service].expect(rt, READY),
        consumers,
        administrators,
    }
}

/// A plan with a service that sends two events at once, and one consumer.
pub(crate) fn plan_of_two(rt: &impl Abort, alloc: Global) -> Plan {
    let cast = Cast {
        service: &TWO,
        groups: &["g"],
        revoked: false,
    };
    plan(rt, alloc, cast)
}
