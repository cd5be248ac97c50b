//! Sequences of idempotent producers where they wrap, which no script reaches.

use crate::no_allocation::READY;
use kob_names::Idem;
use kob_producers::{Judgement, ProducerTable, last_of, next_sequence};
use std::process::Abort;

/// A batch of producer 0.
fn batch(epoch: u64, base: u64) -> Idem {
    Idem { id: 0, epoch, base }
}

/// The greatest sequence.
const LAST: u64 = 2_147_483_647;

/// What is judged once the batch whose sequences are the greatest one and the two after it is
/// accepted: epoch, base and count, and the judgement.
const JUDGED: [(u64, u64, u64, Judgement); 4] = [
    (0, 2, 1, Judgement::Next),
    (0, LAST, 3, Judgement::Repeat(LAST)),
    (1, 0, 1, Judgement::Next),
    (1, 2, 1, Judgement::OutOfOrder),
];

fn accept(rt: &impl Abort, table: &mut ProducerTable, idem: &Idem, count: u64, offset: u64) {
    table.reserve(idem).expect(rt, READY);
    table.accept(idem, count, offset);
}

fn judges(table: &ProducerTable) -> bool {
    for (epoch, base, count, judgement) in JUDGED {
        if table.judge(&batch(epoch, base), count) != judgement {
            return false;
        }
    }
    true
}

// The table accepts as many records as there are sequences below the greatest, and then the three
// that follow.
#[test]
fn producer_table_wraps(rt: HostRuntime) {
    let mut table = ProducerTable::new(rt.alloc());
    accept(&rt, &mut table, &batch(0, 0), LAST, 0);
    assert!(rt; table.judge(&batch(0, LAST), 3) == Judgement::Next);
    accept(&rt, &mut table, &batch(0, LAST), 3, LAST);
    assert!(rt; judges(&table));
}

#[test]
fn sequence_wraps(rt: HostRuntime) {
    assert!(rt; next_sequence(LAST) == 0 && last_of(LAST - 1, 3) == 0);
}
