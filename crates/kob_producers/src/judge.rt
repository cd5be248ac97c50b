//! How a batch relates to those that its producer sent before.

ghost use Rattle.std.specs.Prelude.{◌≡◌, ◌≤◌, length, find};
ghost use Rattle.kob_producers.specs.Judge.{judge, judge_first, is_same, judge_base, memory_length};

use crate::sent::Sent;
use crate::sequence::{last_of, next_sequence};
use circular_buffer::HeapCircularBuffer;
use kob_names::Idem;

/// How a batch relates to those that its producer sent before (the rules of Kafka's idempotent
/// producer).
#[derive(Clone, Copy, Debug, PartialEq, Eq)]
pub enum Judgement {
    /// It is the next batch.
    Next,
    /// It is one of the last five, which was accepted at this offset.
    Repeat(u64),
    /// Batches before it are missing, or it is older than the last five.
    OutOfOrder,
    /// Its producer has begun a higher epoch since.
    OldEpoch,
}

/// How a batch relates to those in a producer's ring.
pub(crate) fn judge_ring(ring: &HeapCircularBuffer<Sent>, idem: &Idem, count: u64) -> Judgement
    requires { length ring.now.items ≤ memory_length }
    ensures { result ≡ judge ring.now.items idem.now count }
{
    let last = match ring.back() {
        Some(last) => last,
        None => return judge_first(idem.base),
    };
    if idem.epoch < last.epoch {
        return Judgement::OldEpoch;
    }
    if last.epoch < idem.epoch {
        return judge_first(idem.base);
    }
    match find_same(ring, idem, count) {
        Some(sent) => Judgement::Repeat(sent.offset),
        None => judge_base(idem.base, last),
    }
}

/// How the first batch of a producer, or of its epoch, is judged.
pub(crate) fn judge_first(base: u64) -> Judgement
    ensures { result ≡ judge_first base }
{
    if base == 0 {
        Judgement::Next
    } else {
        Judgement::OutOfOrder
    }
}

/// How a batch that is not a repeat relates to the last one of its epoch.
fn judge_base(base: u64, last: &Sent) -> Judgement
    ensures { result ≡ judge_base base last.now }
{
    if base == next_sequence(last_of(last.base, last.count)) {
        Judgement::Next
    } else {
        Judgement::OutOfOrder
    }
}

/// The first batch in the ring that this one repeats.
fn find_same(ring: &HeapCircularBuffer<Sent>, idem: &Idem, count: u64) -> Option<Sent>
    ensures { result ≡ find (is_same idem.now count) ring.now.items }
{
    for sent in ring.iter() {
        if is_same(idem, count, sent) {
            return Some(*sent);
        }
    }
    None
}

/// Whether a batch is this one, by its epoch, its first sequence and its number of records.
fn is_same(idem: &Idem, count: u64, sent: &Sent) -> bool
    ensures { result ≡ is_same idem.now count sent.now }
{
    sent.epoch == idem.epoch && sent.base == idem.base && sent.count == count
}
