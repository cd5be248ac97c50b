//! Guesses where the entries of names stand.

use crate::slot::Slot;
use kob_names::Text;
use std::alloc::{AllocError, Global};

/// Where the entry of a name may stand, by two parts of the hash of the name. Whoever asks compares
/// the names that are there, and searches for the name if both are others. So no contract speaks of
/// these places, and names with equal hashes cost two comparisons. Fewer than eight slots have
/// none, and others four to sixteen for each slot.
#[derive(Drop)]
pub(crate) struct Guesses {
    places: Vec<u32>,
}

impl Guesses {
    pub(crate) fn new(alloc: Global) -> Guesses {
        Guesses {
            places: Vec::new(alloc),
        }
    }

    /// Two places where the entry of that name may stand.
    pub(crate) fn places_of(&self, name: &Text) -> (usize, usize) {
        let (first, second) = self.indexes_of(name);
        match (self.places.get(first), self.places.get(second)) {
            (Some(first), Some(second)) => (*first as usize, *second as usize),
            _ => (0, 1),
        }
    }

    /// From now on the name is guessed at that place.
    pub(crate) fn put(&mut self, name: &Text, place: usize) {
        let Ok(place) = u32::try_from(place) else {
            return;
        };
        let (first, second) = self.indexes_of(name);
        for index in [first, second] {
            if let Some(guess) = self.places.get_mut(index) {
                *guess = place;
            }
        }
    }

    /// Reserves capacity for guesses about one entry more than there are slots.
    pub(crate) fn reserve<V>(&mut self, slots: &[Slot<V>]) -> Result<(), AllocError> {
        let size = self.places.len();
        if slots.len() < 8 || slots.len() < size / 4 {
            return Ok(());
        }
        self.places.resize(size.saturating_mul(4).max(32), 0)?;
        self.renew(slots);
        Ok(())
    }

    /// Guesses each entry where it stands.
    pub(crate) fn renew<V>(&mut self, slots: &[Slot<V>]) {
        for (place, slot) in slots.iter().enumerate() {
            if let Slot::Entry(name, _) = slot {
                self.put(name, place);
            }
        }
    }

    /// Where the guesses about that name are.
    fn indexes_of(&self, name: &Text) -> (usize, usize) {
        let Some(last) = self.places.len().checked_sub(1) else {
            return (0, 0);
        };
        let hash = hash_of(name);
        (hash as usize & last, (hash >> 40) as usize & last)
    }
}

// FNV-1a, which for short names takes a fifth of the hasher of the standard library.
fn hash_of(name: &Text) -> u64 {
    name.as_str()
        .as_bytes()
        .iter()
        .fold(0xcbf2_9ce4_8422_2325, |hash: u64, byte| {
            (hash ^ *byte as u64).wrapping_mul(0x0100_0000_01b3)
        })
}
