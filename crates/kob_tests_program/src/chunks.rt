//! A long chunk list.

use crate::no_allocation::READY;
use kob_chunks::ChunkList;
use std::process::Abort;

/// Appends the numbers below a count, in order.
pub(crate) fn put_below(rt: &impl Abort, list: &mut ChunkList<u64>, count: u64) {
    for number in 0..count {
        list.reserve_one().expect(rt, READY);
        list.push_reserved(number);
    }
}

// The list has the numbers, read in order and at the edge of a chunk.
#[test]
fn a_million_items(rt: HostRuntime) {
    let mut list = ChunkList::new(rt.alloc());
    put_below(&rt, &mut list, 1_000_000);
    assert!(rt;
        list.iter().copied().eq(0..1_000_000)
            && list.get(255) == Some(&255)
            && list.get(256) == Some(&256)
            && list.get(1_000_000).is_none()
    );
}
