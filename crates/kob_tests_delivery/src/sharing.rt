//! Whether topics are shared as the law for several services asks.

use crate::fixtures::{
    CREATE, CREATE_ORDERS, ORDERS, READY, WRITE, WRITE_ORDERS, asker, default_route, outbox,
    recorded, serve, serve_all,
};
use kob_delivery::first_unshared;
use kob_names::{Batch, Items, Text};
use kob_outbox::Row;
use kob_rights::{Event, Produce, Request};
use kob_router::{Place, Target, record_of};
use kob_shared::Recorded;
use std::alloc::Global;
use std::process::Abort;

/// Worker 1 writes to the topic of orders, worker 3 to the topic `t`, and worker 2 commits there.
const SHARED: [(usize, &str); 5] = [
    (0, CREATE_ORDERS),
    (0, CREATE),
    (1, WRITE_ORDERS),
    (3, WRITE),
    (2, "User:root h commit g t 0 1"),
];

/// The partitions of both topics.
fn assignment(rt: &impl Abort, alloc: Global) -> Vec<Place> {
    let mut places = Vec::new(alloc);
    for name in [ORDERS, "t"] {
        let topic = Text::copied(alloc, name).expect(rt, READY);
        let place = Place {
            topic,
            partition: 0,
        };
        places.push(place).expect(rt, READY);
    }
    places
}

/// The first partition whose topic is not shared for the rows.
fn unshared(
    rt: &impl Abort,
    alloc: Global,
    recorded: &Recorded,
    target: &Target,
    rows: &[Row],
    assignment: &[Place],
) -> Option<usize> {
    let group = Text::copied(alloc, "g").expect(rt, READY);
    let journal = recorded.journal();
    let found = first_unshared(alloc, journal, target, rows, 1, 2, &group, assignment);
    found.expect(rt, "memory")
}

/// A PRODUCE of the row's record to the topic `t`.
fn repeated(rt: &impl Abort, alloc: Global, target: &Target, row: &Row) -> Event {
    let routed = record_of(alloc, &target.route, row).expect(rt, READY);
    let mut records = Vec::new(alloc);
    records.push(routed.message).expect(rt, READY);
    let (principal, host) = asker(rt, alloc, "User:root");
    let request = Request::Produce(Produce {
        topic: Text::copied(alloc, "t").expect(rt, READY),
        partition: 0,
        batch: Batch {
            idem: None,
            records: Items::from_vec(records),
        },
    });
    Event {
        principal,
        host,
        request,
    }
}

/// The topics are shared. Once worker 3 sends a row's event id to the topic `t`, that one is not;
/// and once it writes to the topic of orders, the first one is not.
fn are_shared(
    rt: &impl Abort,
    alloc: Global,
    recorded: &mut Recorded,
    target: &Target,
    rows: &[Row],
    assignment: &[Place],
) {
    serve_all(rt, alloc, recorded, &SHARED);
    let found = unshared(rt, alloc, recorded, target, rows, assignment);
    assert_eq!(rt; found, None);
    let event = repeated(rt, alloc, target, rows.first().expect(rt, "a row"));
    serve(rt, alloc, recorded, 3, &event);
    let found = unshared(rt, alloc, recorded, target, rows, assignment);
    assert_eq!(rt; found, Some(1));
    serve_all(rt, alloc, recorded, &[(3, WRITE_ORDERS)]);
    let found = unshared(rt, alloc, recorded, target, rows, assignment);
    assert_eq!(rt; found, Some(0));
}

// A topic where a row goes has one sender; what others send to the other carries no event id of it.
#[test]
fn shared_topics_are_told(rt: HostRuntime) {
    let alloc = rt.alloc();
    let target = Target {
        route: default_route(&rt, alloc),
        partitions: 1,
    };
    let assignment = assignment(&rt, alloc);
    let rows = outbox(&rt, alloc, 1).after(0, 10).expect(&rt, READY);
    let mut recorded = recorded(&rt, alloc, 10);
    are_shared(&rt, alloc, &mut recorded, &target, &rows, &assignment);
}
