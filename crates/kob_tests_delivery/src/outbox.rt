//! An outbox's marks and limits; and one that runs out of memory, which `.ci/refuse` runs with each
//! allocation refused in turn.

use crate::fixtures;
use crate::fixtures::{READY, record};
use kob_outbox::{MarkFault, Outbox, OutboxFault, RecordFault};
use std::alloc::Global;

/// The number after which rows are read, the maximum number of rows, and the numbers of the rows,
/// of three.
const AFTER: [(u64, u32, u64, u64); 7] = [
    (0, 0, 0, 0),
    (0, 1, 1, 2),
    (1, 1, 2, 3),
    (0, 20_000, 1, 4),
    (2, u32::MAX, 3, 4),
    (3, 10, 0, 0),
    (u64::MAX, 10, 0, 0),
];

/// The mark moves neither back nor ahead of three rows.
#[test]
fn marks_and_rows_have_limits(rt: HostRuntime) {
    let mut outbox = fixtures::outbox(&rt, rt.alloc(), 3);
    assert_eq!(rt; outbox.set_mark(2), Ok(()));
    assert_eq!(rt; outbox.set_mark(1), Err(MarkFault::Backwards));
    assert_eq!(rt; outbox.set_mark(4), Err(MarkFault::Ahead));
    assert_eq!(rt; outbox.mark(), Ok(2));
    for (seq, limit, first, end) in AFTER {
        let rows = outbox.after(seq, limit).expect(&rt, "rows");
        let numbers = rows.iter().map(|row| row.seq);
        assert!(rt; numbers.eq(first..end), "at most {limit} after {seq}");
    }
}

/// The mark, and the number of rows.
fn left(outbox: &mut Outbox) -> Result<(u64, usize), OutboxFault> {
    let mark = outbox.mark()?;
    Ok((mark, outbox.after(0, 10)?.len()))
}

/// The number that an event gets. If memory runs out, the mark and this number of rows stay.
fn records(
    alloc: Global,
    outbox: &mut Outbox,
    (event_id, state): (u128, &str),
    before: (u64, usize),
) -> Result<u64, RecordFault> {
    let recorded = record(alloc, outbox, event_id, state);
    if matches!(recorded, Err(RecordFault::Memory(_))) && left(outbox) == Ok(before) {
        record(alloc, outbox, event_id, state)
    } else {
        recorded
    }
}

/// Marks and sweeps the first of two rows. A call that runs out of memory succeeds when it is
/// repeated.
fn sweeps(outbox: &mut Outbox) -> bool {
    let marked = match outbox.set_mark(1) {
        Err(_) => outbox.set_mark(1),
        marked => marked,
    };
    let swept = match outbox.sweep() {
        Err(_) => outbox.sweep(),
        swept => swept,
    };
    (marked, swept) == (Ok(()), Ok(1))
}

fn has_second_row(outbox: &mut Outbox) -> Result<bool, OutboxFault> {
    let rows = outbox.after(0, 10)?;
    Ok(matches!(rows.as_slice(), [row] if row.seq == 2))
}

fn is_void(outbox: &mut Outbox) -> Result<bool, OutboxFault> {
    let state = outbox.business("orders", "42")?;
    Ok(state.as_deref() == Some("void"))
}

/// Whether the second of two rows is left, and its business row.
fn second_is_left(outbox: &mut Outbox) -> Result<bool, OutboxFault> {
    let is_left = match has_second_row(outbox) {
        Err(_) => has_second_row(outbox)?,
        is_left => is_left?,
    };
    let is_void = match is_void(outbox) {
        Err(_) => is_void(outbox)?,
        is_void => is_void?,
    };
    Ok(is_left && is_void)
}

/// If any one allocation is refused, the call that needed it changes nothing, and succeeds when it
/// is repeated.
#[test]
fn refused_allocation_leaves_all(rt: HostRuntime) {
    let alloc = rt.alloc();
    let mut outbox = Outbox::open_in_memory(alloc).expect(&rt, READY);
    assert_eq!(rt; records(alloc, &mut outbox, (1, "paid"), (0, 0)), Ok(1));
    assert_eq!(rt; records(alloc, &mut outbox, (2, "void"), (0, 1)), Ok(2));
    assert!(rt; sweeps(&mut outbox));
    assert_eq!(rt; second_is_left(&mut outbox), Ok(true));
    let again = records(alloc, &mut outbox, (1, "paid"), (1, 1));
    assert_eq!(rt; again, Err(RecordFault::DuplicateId));
}
