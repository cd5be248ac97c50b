//! A journal that a broker other than this project's may make, and one that no broker makes.

use crate::fixtures::{READY, event_of};
use kob_endpoints::first_stranger;
use kob_names::{Bytes, Items, Record};
use kob_rights::{Body, Reply};
use kob_shared::{Entry, Journal};
use std::alloc::Global;
use std::process::Abort;

/// Adds an entry of a request that was done.
fn add(rt: &impl Abort, alloc: Global, entries: &mut Vec<Entry>, line: &str, body: Body) {
    let entry = Entry {
        worker: 0,
        event: event_of(rt, alloc, line),
        reply: Reply::Done(body),
    };
    entries.push(entry).expect(rt, READY);
}

/// The record `w` with the offset 1.
fn read(rt: &impl Abort, alloc: Global) -> Body {
    let record = Record {
        key: None,
        value: Bytes::copied(alloc, b"w").expect(rt, READY),
        headers: Items::from_vec(Vec::new(alloc)),
    };
    let mut records = Vec::new(alloc);
    records.push((1, record)).expect(rt, READY);
    Body::Records(Items::from_vec(records))
}

/// The first stranger in the journal of a broker that gives the producer id 4711 with epoch 3,
/// accepts the records `v` and `w`, and the same batch again, and answers this FETCH by the record
/// `w`.
fn judged(rt: &impl Abort, alloc: Global, fetch: &str) -> Option<usize> {
    let batch = "User:root h produce t 0 4711:3:0 v w";
    let given = Body::Producer { id: 4711, epoch: 3 };
    let mut entries = Vec::new(alloc);
    add(rt, alloc, &mut entries, "User:root h init-producer", given);
    add(rt, alloc, &mut entries, batch, Body::Offset(0));
    add(rt, alloc, &mut entries, batch, Body::Offset(0));
    add(rt, alloc, &mut entries, fetch, read(rt, alloc));
    let journal = Journal::from_entries(alloc, &entries).expect(rt, "possible replies");
    first_stranger(alloc, &[&journal]).expect(rt, "memory")
}

// A broker may give any producer id with any epoch. No broker reads from the offset 0 on and leaves
// the record there out.
#[test]
fn a_history_is_told_from_none(rt: HostRuntime) {
    let (at_last, at_first) = ("User:root h fetch t 0 1 10", "User:root h fetch t 0 0 10");
    assert_eq!(rt; judged(&rt, rt.alloc(), at_last), None);
    assert_eq!(rt; judged(&rt, rt.alloc(), at_first), Some(3));
}
