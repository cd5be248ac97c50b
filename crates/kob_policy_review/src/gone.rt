//! Serials in the order in which they came, and the set of them.

ghost use Rattle.std.specs.Prelude.{◌≡◌, ◌++◌, ◌∷◌, [], IfOk, OnOk, filter};
ghost use Rattle.kob_policy_review.specs.Redundancy.{is_outside};
ghost use Rattle.kob_policy_review.specs.Removal.{is_among};

use kob_names::{Binding, PlainValue};
use std::alloc::{AllocError, Global};
use std::collections::HashSet;
use std::marker::Model;

/// Serials of bindings that are gone. Contracts see their list.
#[derive(Drop)]
pub struct Gone {
    serials: Vec<u64>,
    set: HashSet<u64>,
}

impl Model for Gone {
    ghost use Rattle.std.specs.Prelude.{◌≡◌, List, nat_eq, ℕ};
    ghost use Rattle.std.specs.HashSet.{contains};
    ghost use Rattle.kob_policy_review.specs.Removal.{is_among};

    ghost Value = { List ℕ };

    ghost view = { λ gone. gone.serials.items };

    ghost invariant = { λ gone. (serial : ℕ)
        → contains nat_eq gone.set serial ≡ is_among gone.serials.items serial };
}

impl Gone {
    /// None. Does not allocate.
    pub fn new(alloc: Global) -> Gone
        ensures { result ≡ [] }
    {
        Gone {
            serials: Vec::new(alloc),
            set: HashSet::new(alloc),
        }
    }

    /// Copies of the entries that are not gone.
    #[tactic(auto, using(std::proofs::lemmas::List::Elements::filter_more))]
    pub fn left(
        &self,
        alloc: Global,
        entries: &[(u64, Binding)],
    ) -> Result<Vec<(u64, Binding)>, AllocError>
        ensures { IfOk result (λ made. made.items
            ≡ filter (is_outside (is_among self.now)) entries.now) }
    {
        let mut made = Vec::new(alloc);
        for entry in entries {
            if !self.set.contains(&entry.0) {
                made.push(entry.copy(alloc)?)?;
            }
        }
        Ok(made)
    }

    /// Puts a serial last.
    pub fn push(&mut self, serial: u64) -> Result<(), AllocError>
        ensures { OnOk result (self.new ≡ self.old ++ serial ∷ []) }
    {
        self.serials.reserve(1)?;
        self.set.insert(serial)?;
        self.serials.push_reserved(serial);
        Ok(())
    }

    /// The serials. Does not allocate.
    pub fn into_vec(self) -> Vec<u64>
        ensures { result.items ≡ self }
    {
        self.serials
    }
}
