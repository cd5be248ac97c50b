//! The bytes of a node after its first one.
ghost use Rattle.std.specs.Prelude.{◌≡◌, ◌↔◌, [], ◌∷◌, ◌++◌, ◌≤◌, length, drop, take};
ghost use Rattle.std.specs.Prelude.{IsTrue, MatchOption};

use crate::path::common_length;
use std::marker::Model;

/// Up to 22 bytes, in order, at the end of the array: no other byte moves when one is removed or
/// added in front. The 23 bytes fill three words together with a node's first byte.
#[derive(Drop)]
pub(crate) struct Tail {
    bytes: [u8; 22],
    start: u8,
}

impl Model for Tail {
    ghost use Rattle.std.specs.Prelude.{List, ℕ, ◌≤◌, drop};

    ghost Value = { List ℕ };

    ghost view = { λ a. drop a.start a.bytes };

    ghost invariant = { λ a. a.start ≤ 22 };
}

impl Tail {
    pub(crate) fn new() -> Tail
        ensures { result ≡ [] }
    {
        Tail {
            bytes: [0; 22],
            start: 22,
        }
    }

    /// These bytes.
    pub(crate) fn of(bytes: &[u8]) -> Tail
        requires { length bytes.now ≤ 22 }
        ensures { result ≡ bytes.now }
    {
        let start = 22 - bytes.len();
        let mut array = [0; 22];
        array[start..].copy_from_slice(bytes);
        Tail {
            bytes: array,
            start: start as u8,
        }
    }

    /// The bytes, for reading.
    pub(crate) fn as_slice(&self) -> &[u8]
        ensures bytes { result.now ≡ self.now }
        ensures limit { length result.now ≤ 22 }
    {
        &self.bytes[self.start as usize..]
    }

    pub(crate) fn is_empty(&self) -> bool
        ensures { IsTrue result ↔ (self.now ≡ []) }
    {
        self.as_slice().is_empty()
    }

    fn first(&self) -> Option<u8>
        ensures { MatchOption result
            (self.now ≡ [])
            (λ byte. self.now ≡ byte ∷ drop 1 self.now) }
    {
        self.as_slice().first().copied()
    }

    /// Removes the first byte.
    pub(crate) fn pop_front(&mut self) -> Option<u8>
        ensures { MatchOption result
            ((self.old ≡ []) × (self.new ≡ []))
            (λ byte. (self.old ≡ byte ∷ self.new) × (length self.new ≤ 21)) }
    {
        let first = self.first()?;
        self.start += 1;
        Some(first)
    }

    /// Removes the common prefix with other bytes, and returns its length.
    pub(crate) fn drop_common(&mut self, other: &[u8]) -> usize
        ensures within { result ≤ length other.now }
        ensures bytes { self.old ≡ take result other.now ++ self.new }
    {
        let count = common_length(other, self.as_slice());
        self.start += count as u8;
        count
    }
}
