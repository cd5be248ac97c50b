//! The list of the entries in force, of which a removal moves the fewer.

ghost use Rattle.std.specs.Prelude.{[], ◌≡◌, ◌+◌, ◌*◌, ◌<◌, ◌≤◌, ◌++◌, drop, length, OnOk};
ghost use Rattle.std.specs.Prelude.{vec_capacity, vec_len};
ghost use Rattle.std.specs.List.{remove};
ghost use Rattle.kob_authorizer.specs.Deletion.{bindings_left};

use kob_names::{Binding, BindingFilter};
use std::alloc::{AllocError, Global};
use std::marker::Model;

/// The entries in force, by ascending serial.
///
/// A removal moves the entries in front of the one that goes, or those behind it, whichever are
/// fewer. In the first case the entry that goes is held in front of the list, as a hole. The holes
/// are removed once there are more than one for eight entries. Contracts see the entries, the
/// capacity reserved for more, and how many holes there are.
#[derive(Drop)]
pub struct EntryList {
    slots: Vec<(u64, Binding)>,
    holes: usize,
}

impl Model for EntryList {
    ghost use Rattle.std.specs.Prelude.{◌*◌, ◌-◌, ◌≤◌, drop, vec_capacity, vec_len};
    ghost use Rattle.kob_authorizer.specs.Listed.{Listed};

    ghost Value = { Listed };

    ghost view = { λ list. record {
      entries = drop list.holes list.slots.items;
      room = vec_capacity list.slots - vec_len list.slots;
      holes = list.holes;
    } };

    ghost invariant = { λ list. list.holes * 9 ≤ vec_len list.slots };
}

impl EntryList {
    /// No entries. Does not allocate.
    pub fn new(alloc: Global) -> EntryList
        ensures { result.entries ≡ [] }
    {
        EntryList {
            slots: Vec::new(alloc),
            holes: 0,
        }
    }

    /// The entries. Does not allocate.
    pub fn as_slice(&self) -> &[(u64, Binding)]
        ensures { result.now ≡ self.now.entries }
    {
        &self.slots[self.holes..]
    }

    /// Reserves capacity for so many more entries. The entries are unchanged, also after an error,
    /// which is out of memory.
    pub fn reserve(&mut self, count: usize) -> Result<(), AllocError>
        ensures entries { self.new.entries ≡ self.old.entries }
        ensures room { OnOk result (count ≤ self.new.room) }
    {
        self.slots.reserve(count)
    }

    /// Appends entries, in reserved capacity. Does not allocate.
    pub fn append(&mut self, mut fresh: Vec<(u64, Binding)>)
        requires { length fresh.items ≤ self.old.room }
        ensures { self.new.entries ≡ self.old.entries ++ fresh.items }
    {
        self.slots.append(&mut fresh).unwrap();
    }

    /// Removes the entry at a place. Does not allocate.
    pub fn remove(&mut self, place: usize)
        requires { place < length self.old.entries }
        ensures entries { self.new.entries ≡ remove self.old.entries place }
        ensures holes { self.new.holes * 8 ≤ length self.new.entries }
    {
        let holes = remove_at(&mut self.slots, self.holes, place);
        self.holes = pack(&mut self.slots, holes);
    }

    /// Removes the entries that the filter selects. Each entry is examined. Does not allocate.
    pub fn remove_taken(&mut self, filter: &BindingFilter)
        ensures entries { self.new.entries ≡ bindings_left filter.now self.old.entries }
        ensures count { length self.new.entries ≤ length self.old.entries }
        ensures holes { self.new.holes ≡ 0 }
    {
        remove_first(&mut self.slots, self.holes);
        self.holes = 0;
        self.slots.retain(|entry| !filter.takes(&entry.1));
    }
}

/// Removes the slot at a place among those behind the holes, and returns how many holes there are
/// then. The slots on the shorter side move.
#[tactic(auto, using(crate::proofs::Lists::removed_behind))]
fn remove_at(slots: &mut Vec<(u64, Binding)>, holes: usize, place: usize) -> usize
    requires { holes + place < vec_len slots.old }
    ensures rest { drop result slots.new.items ≡ remove (drop holes slots.old.items) place }
    ensures count { result ≤ vec_len slots.new }
{
    if place < slots.len() - holes - place {
        bring_first(slots.as_mut_slice(), holes, place);
        return holes + 1;
    }
    let _ = slots.remove(holes + place);
    holes
}

/// Removes the holes if there are more than one for eight entries, and returns how many holes there
/// are then.
fn pack(slots: &mut Vec<(u64, Binding)>, holes: usize) -> usize
    requires { holes ≤ vec_len slots.old }
    ensures rest { drop result slots.new.items ≡ drop holes slots.old.items }
    ensures bound { result * 9 ≤ vec_len slots.new }
{
    if holes <= slots.len() / 9 {
        return holes;
    }
    remove_first(slots, holes);
    0
}

/// Moves the slot at a place among those from `first` on in front of them.
fn bring_first(slots: &mut [(u64, Binding)], first: usize, place: usize)
    requires { first + place < length slots.old }
    ensures rest { drop (first + 1) slots.new ≡ remove (drop first slots.old) place }
    ensures count { length slots.new ≡ length slots.old }
{
    slots[first..first + place + 1].rotate_right(1);
}

/// Removes the first slots.
fn remove_first(slots: &mut Vec<(u64, Binding)>, count: usize)
    requires { count ≤ vec_len slots.old }
    ensures items { slots.new.items ≡ drop count slots.old.items }
    ensures count { vec_len slots.new + count ≡ vec_len slots.old }
    ensures capacity { vec_capacity slots.new ≡ vec_capacity slots.old }
{
    let left = slots.len() - count;
    slots.rotate_left(count);
    slots.truncate(left);
}
