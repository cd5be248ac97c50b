//! Entries that were recorded elsewhere.

use crate::fixtures::{CREATE, READY, WRITE, copies, recorded, serve_all};
use kob_shared::{Entry, ReplayFault};
use std::alloc::Global;
use std::process::Abort;

/// Worker 3 creates a topic, and worker 5 writes to it.
fn entries(rt: &impl Abort, alloc: Global) -> Vec<Entry> {
    let mut elsewhere = recorded(rt, alloc, 2);
    serve_all(rt, alloc, &mut elsewhere, &[(3, CREATE), (5, WRITE)]);
    copies(rt, alloc, elsewhere.journal(), 0, 2)
}

/// Both entries are replayed by a new broker.
fn both_are_taken(rt: &impl Abort, alloc: Global, entries: &[Entry]) {
    let replayed = recorded(rt, alloc, 2).replay(alloc, entries);
    let replayed = replayed.expect(rt, "both entries");
    let workers = replayed.journal().iter().map(|entry| entry.worker);
    assert!(rt; workers.eq([3, 5]));
}

// Two entries, the second of which asks for what the first one made. They don't fit a journal of
// one, and the second alone is refused at place 0: without the topic its reply is another.
#[test]
fn a_run_from_elsewhere_is_replayed(rt: HostRuntime) {
    let alloc = rt.alloc();
    let entries = entries(&rt, alloc);
    both_are_taken(&rt, alloc, &entries);
    let too_many = recorded(&rt, alloc, 1).replay(alloc, &entries).err();
    assert_eq!(rt; too_many, Some(ReplayFault::JournalFull));
    let second = entries.get(1..).expect(&rt, READY);
    let alone = recorded(&rt, alloc, 2).replay(alloc, second).err();
    assert_eq!(rt; alone, Some(ReplayFault::Differs { place: 0 }));
}
