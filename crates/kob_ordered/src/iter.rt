//! The entries of a map, one by one.

ghost use Rattle.std.specs.Iterator.{YieldsFirstBy, item_count};

use crate::slot::Slot;
use kob_names::Text;
use std::marker::Model;

/// The entries of a map in order of insertion. Contracts see those that are left.
#[derive(Drop)]
pub struct Iter<'a, V> {
    pub(crate) slots: &'a [Slot<V>],
}

impl<'a, V> Model for Iter<'a, V> {
    ghost use Rattle.std.specs.Prelude.{List, ℕ};
    ghost use Rattle.kob_ordered.specs.Slots.{entries_in};

    ghost Value = { List (List ℕ × V) };

    ghost view = { λ left. entries_in left.slots.now };
}

impl<'a, V> Iterator for Iter<'a, V> {
    type Item = (&'a Text, &'a V);

    ghost next_gives = { YieldsFirstBy (λ item. (item.0.now, item.1.now)) (λ rest. rest) };

    ghost remaining = { item_count (λ rest. rest) };

    fn next(&mut self) -> Option<(&'a Text, &'a V)> {
        while let Some((slot, rest)) = self.slots.split_first() {
            self.slots = rest;
            if let Slot::Entry(name, value) = slot {
                return Some((name, value));
            }
        }
        None
    }
}
