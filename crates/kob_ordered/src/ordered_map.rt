//! The map.

ghost use Rattle.std.specs.Prelude.{[], ◌∷◌, ◌++◌, ◌+◌, ◌≡◌, ◌<◌, ◌≤◌, None, is_some, length};
ghost use Rattle.std.specs.Prelude.{option_copied, IfSome, OnOk, Some};
ghost use Rattle.std.specs.Borrow.{sem};
ghost use Rattle.std.specs.Map.{keys_of, lookup, remove_entry};
ghost use Rattle.std.specs.List.{IsDistinct};
ghost use Rattle.std.specs.Option.{option_copied_mut};
ghost use Rattle.kob_names.specs.Same.{same_text};

use crate::by_name::{find, place_near, take_at};
use crate::guesses::Guesses;
use crate::iter::Iter;
use crate::packing::{pack, reserve_slot};
use crate::slot::Slot;
use kob_names::Text;
use std::alloc::{AllocError, Global};
use std::collections::VecDeque;
use std::marker::Model;
use std::mem;

/// A map from names to values in order of insertion. The entry of a name is looked for where its
/// hash guesses it, at two places, and then by binary search in a list of places that is sorted by name. So no
/// choice of names makes a look-up slow; an insertion and a removal shift the shorter side of that
/// list. A removal leaves a hole among the entries, which iterations skip. `reserve` removes the
/// holes once there are more of them than entries. Contracts see the entries in order, and the
/// capacity reserved for more.
#[derive(Drop)]
pub struct OrderedMap<V> {
    slots: Vec<Slot<V>>,
    by_name: VecDeque<usize>,
    guesses: Guesses,
}

impl<V> Model for OrderedMap<V> {
    ghost use Rattle.kob_ordered.specs.Ordered.{Ordered, ordered_code};

    ghost Value = { Ordered V };

    ghost coded = { ordered_code V.code };

    ghost use Rattle.std.specs.Prelude.{min, vec_capacity, vec_len, ◌-◌};
    ghost use Rattle.std.specs.VecDeque.{deque_capacity, deque_len};
    ghost use Rattle.kob_ordered.specs.Slots.{entries_in, names_in, IsSound};

    ghost view = { λ map. record {
      entries = entries_in map.slots.items;
      room = min (deque_capacity map.by_name - deque_len map.by_name)
          (vec_capacity map.slots - vec_len map.slots);
      holes = vec_len map.slots - deque_len map.by_name;
      names = names_in map.slots.items;
    } };

    ghost invariant = { λ map. IsSound map.slots.items map.by_name.items };
}

impl<V: Drop> OrderedMap<V> {
    ghost use Rattle.kob_ordered.specs.Ordered.{StandsAt, name_at};
    ghost use Rattle.kob_ordered.specs.OrderedLends.{lends_at, lends_value};

    /// No entries. Does not allocate.
    pub fn new(alloc: Global) -> OrderedMap<V>
        ensures { result.entries ≡ [] }
    {
        OrderedMap {
            slots: Vec::new(alloc),
            by_name: VecDeque::new(alloc),
            guesses: Guesses::new(alloc),
        }
    }

    /// The number of entries. No two have the same name.
    pub fn len(&self) -> usize
        ensures count { result ≡ length self.now.entries }
        ensures names { IsDistinct same_text (keys_of self.now.entries) }
    {
        self.by_name.len()
    }

    /// A law: no two entries have the same name.
    pub fn names_differ(&self)
        ensures { IsDistinct same_text (keys_of self.now.entries) }
    {
        let _ = &self.slots;
    }

    /// The value of that name. Does not allocate.
    pub fn get(&self, name: &Text) -> Option<&V>
        ensures { option_copied result ≡ lookup (same_text name.now) self.now.entries }
    {
        let near = self.guesses.places_of(name);
        let place = place_near(self.slots.as_slice(), &self.by_name, name, near)?;
        match &self.slots[place] {
            Slot::Entry(_, value) => Some(value),
            Slot::Hole => unreachable!(),
        }
    }

    /// The value of that name, for writing; no two names are the same. Does not allocate.
    pub fn get_mut(&mut self, name: &Text) -> Option<&mut V>
        ensures* writes_back { sem 𝓛 (lends_value V.row self.entry name.now result) }
        ensures value { option_copied_mut result ≡ lookup (same_text name.now) self.old.entries }
        ensures names { IsDistinct same_text (keys_of self.old.entries) }
    {
        let near = self.guesses.places_of(name);
        let place = place_near(self.slots.as_slice(), &self.by_name, name, near)?;
        Some(self.slots[place].value_mut())
    }

    /// The place of the entry of that name. It stays the same until capacity is reserved or the
    /// entry is removed. Does not allocate.
    pub fn place_of(&self, name: &Text) -> Option<usize>
        ensures stands { IfSome result (λ place. StandsAt self.now place name.now) }
        ensures known { is_some result ≡ is_some (lookup (same_text name.now) self.now.entries) }
    {
        let near = self.guesses.places_of(name);
        place_near(self.slots.as_slice(), &self.by_name, name, near)
    }

    /// The value of the entry at a place, for writing. Does not allocate.
    pub fn value_at_mut(&mut self, place: usize) -> &mut V
        requires { StandsAt self.old place (name_at self.old place) }
        ensures* writes_back { sem 𝓛 (lends_at V.row self.entry place result) }
        ensures value { lookup (same_text (name_at self.old place)) self.old.entries
            ≡ Some result.now }
    {
        self.slots[place].value_mut()
    }

    /// Whether there is an entry of that name. Does not allocate.
    pub fn contains_key(&self, name: &Text) -> bool
        ensures { result ≡ is_some (lookup (same_text name.now) self.now.entries) }
    {
        self.place_of(name).is_some()
    }

    /// Reserves capacity for one more entry, and removes the holes if there are more of them than
    /// entries. The entries are unchanged, also after an error, which is out of memory.
    pub fn reserve(&mut self) -> Result<(), AllocError>
        ensures entries { self.new.entries ≡ self.old.entries }
        ensures room { OnOk result (0 < self.new.room) }
        ensures holes { OnOk result (self.new.holes ≤ length self.new.entries) }
    {
        if self.slots.len() - self.by_name.len() > self.by_name.len() {
            pack(*self.slots.allocator(), &mut self.slots, &mut self.by_name)?;
            self.guesses.renew(self.slots.as_slice());
        }
        self.guesses.reserve(self.slots.as_slice())?;
        self.by_name.reserve(1)?;
        reserve_slot(&mut self.slots)
    }

    /// Appends an entry, whose name is not there, in reserved capacity. Does not allocate.
    pub fn insert(&mut self, name: Text, value: V)
        requires room { 0 < self.old.room }
        requires absent { lookup (same_text name) self.old.entries ≡ None }
        ensures entries { self.new.entries ≡ self.old.entries ++ (name, value) ∷ [] }
        ensures room { self.old.room ≤ self.new.room + 1 }
    {
        let found = find(self.slots.as_slice(), &self.by_name, &name);
        self.by_name
            .insert(found.unwrap_err(), self.slots.len())
            .unwrap();
        self.guesses.put(&name, self.slots.len());
        self.slots.push(Slot::Entry(name, value)).unwrap();
    }

    /// Removes the entry of that name, and returns its value. The others keep their order. Does not
    /// allocate.
    pub fn remove(&mut self, name: &Text) -> Option<V>
        ensures value { result ≡ lookup (same_text name.now) self.old.entries }
        ensures entries { self.new.entries
            ≡ remove_entry (same_text name.now) self.old.entries }
        ensures gone { lookup (same_text name.now) self.new.entries ≡ None }
        ensures room { self.old.room ≤ self.new.room }
    {
        let found = find(self.slots.as_slice(), &self.by_name, name);
        let Ok(index) = found else {
            return None;
        };
        let place = take_at(&mut self.by_name, index);
        match mem::replace(&mut self.slots[place], Slot::Hole) {
            Slot::Entry(_, value) => Some(value),
            Slot::Hole => unreachable!(),
        }
    }

    /// The names and values, in order of insertion. Does not allocate.
    pub fn iter(&self) -> Iter<'_, V>
        ensures { result ≡ self.now.entries }
    {
        Iter {
            slots: self.slots.as_slice(),
        }
    }
}
