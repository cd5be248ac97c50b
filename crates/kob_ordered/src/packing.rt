//! The removal of the holes among the slots, and capacity for more.

ghost use Rattle.std.specs.Prelude.{◌≡◌, ◌+◌, ◌<◌, ◌≤◌, length, slice_index_or, ℕ, IfOk, OnOk};
ghost use Rattle.std.specs.Prelude.{vec_capacity, vec_len};
ghost use Rattle.std.specs.VecDeque.{deque_capacity};
ghost use Rattle.kob_ordered.specs.Slots.{entries_in, rank, IsSound};

use crate::slot::Slot;
use std::alloc::{AllocError, Global};
use std::collections::VecDeque;

/// Removes the holes. After an error, which is out of memory, nothing has changed.
pub(crate) fn pack<V: Drop>(
    alloc: Global,
    slots: &mut Vec<Slot<V>>,
    by_name: &mut VecDeque<usize>,
) -> Result<(), AllocError>
    requires { IsSound slots.old.items by_name.old.items }
    ensures sound { IsSound slots.new.items by_name.new.items }
    ensures entries { entries_in slots.new.items ≡ entries_in slots.old.items }
    ensures packed { OnOk result (length slots.new.items ≡ length by_name.new.items) }
{
    if by_name.len() == 0 {
        slots.clear();
        return Ok(());
    }
    let ranks = ranks_of(alloc, slots.as_slice())?;
    renumber(by_name, ranks.as_slice());
    slots.retain(|slot| slot.is_entry());
    Ok(())
}

/// Reserves capacity for one more slot; for that one alone, if there are none yet.
pub(crate) fn reserve_slot<V>(slots: &mut Vec<Slot<V>>) -> Result<(), AllocError>
    ensures items { slots.new.items ≡ slots.old.items }
    ensures count { vec_len slots.new ≡ vec_len slots.old }
    ensures room { OnOk result (vec_len slots.new + 1 ≤ vec_capacity slots.new) }
{
    if slots.len() == 0 {
        return slots.reserve_exact(1);
    }
    slots.reserve(1)
}

/// How many entries are before each place.
fn ranks_of<V>(alloc: Global, slots: &[Slot<V>]) -> Result<Vec<usize>, AllocError>
    ensures size { IfOk result (λ ranks. length ranks.items ≡ length slots.now) }
    ensures ranks { IfOk result (λ ranks. (place : ℕ) → place < length slots.now
        → slice_index_or ranks.items place 0 ≡ rank slots.now place) }
{
    let mut ranks = Vec::with_capacity(alloc, slots.len())?;
    let mut rank = 0;
    for slot in slots {
        ranks.push(rank)?;
        if slot.is_entry() {
            rank += 1;
        }
    }
    Ok(ranks)
}

/// Replaces each place by its rank.
fn renumber(places: &mut VecDeque<usize>, ranks: &[usize])
    requires { (k : ℕ) → k < length places.old.items
        → slice_index_or places.old.items k 0 < length ranks.now }
    ensures size { length places.new.items ≡ length places.old.items }
    ensures ranks { (k : ℕ) → k < length places.old.items → slice_index_or places.new.items k 0
        ≡ slice_index_or ranks.now (slice_index_or places.old.items k 0) 0 }
    ensures capacity { deque_capacity places.new ≡ deque_capacity places.old }
{
    for k in 0..places.len() {
        places[k] = ranks[places[k]];
    }
}
