//! The new bindings of a creation, before they have serials.

ghost use Rattle.std.specs.Prelude.{[], ◌≡◌, ◌+◌, ◌<◌, ◌≤◌, ◌∷◌, Some, length, IfOk, OnOk};
ghost use Rattle.std.specs.List.{enumerate_from};
ghost use Rattle.kob_authorizer.specs.Creation.{serial_limit, serial_of, with_new};

use crate::candidate::Candidate;
use indexmap::IndexSet;
use kob_names::Binding;
use std::alloc::{AllocError, Global};
use std::marker::Model;
use std::mem::replace;

/// New bindings in order, each once. Contracts see the list of them. One alone needs no set.
#[derive(Drop)]
pub struct Fresh {
    alone: Option<Candidate>,
    several: IndexSet<Candidate>,
}

impl Model for Fresh {
    ghost use Rattle.std.specs.Prelude.{List};
    ghost use Rattle.kob_names.specs.Binding.{Binding};
    ghost use Rattle.kob_authorizer.specs.Creation.{alone_or};

    ghost Value = { List Binding };

    ghost view = { λ fresh. alone_or fresh.alone fresh.several.keys };
}

impl Fresh {
    /// No bindings. Does not allocate.
    pub fn new(alloc: Global) -> Fresh
        ensures { result ≡ [] }
    {
        Fresh {
            alone: None,
            several: IndexSet::new(alloc),
        }
    }

    /// How many there are.
    pub fn len(&self) -> usize
        ensures { result ≡ length self.now }
    {
        match &self.alone {
            None => self.several.len(),
            Some(_) => 1,
        }
    }

    /// The place of the binding, which is appended if no equal one is there.
    #[tactic(auto, using(crate::proofs::Creating::putting))]
    pub fn put(&mut self, alloc: Global, binding: Binding) -> Result<u64, AllocError>
        ensures fresh { OnOk result (self.new ≡ with_new [] self.old binding) }
        ensures place { IfOk result (λ place.
            Some place ≡ serial_of (enumerate_from 0 self.new) binding) }
        ensures below { IfOk result (λ place. place < length self.new) }
    {
        let candidate = Candidate::new(binding);
        if self.len() == 0 {
            self.alone = Some(candidate);
            return Ok(0);
        }
        if let Some(first) = replace(&mut self.alone, None) {
            self.several = set_of(alloc, first)?;
        }
        let (place, _) = self.several.insert_full(candidate)?;
        Ok(place as u64)
    }

    /// The bindings under serials from `next` on.
    pub fn numbered(self, alloc: Global, next: u64) -> Result<Vec<(u64, Binding)>, AllocError>
        requires { next + length self ≤ serial_limit }
        ensures { IfOk result (λ made. made.items ≡ enumerate_from next self) }
    {
        let Fresh { alone, several } = self;
        match alone {
            None => numbered_from(alloc, next, several),
            Some(first) => {
                let mut numbered = Vec::with_capacity(alloc, 1)?;
                numbered.push((next, first.into_binding()))?;
                Ok(numbered)
            }
        }
    }
}

/// A set of one binding, with room for a second.
fn set_of(alloc: Global, first: Candidate) -> Result<IndexSet<Candidate>, AllocError>
    ensures { IfOk result (λ set. set.keys ≡ first ∷ []) }
{
    let mut set = IndexSet::with_capacity(alloc, 2)?;
    set.insert(first)?;
    Ok(set)
}

/// The bindings of a set under serials from `next` on.
#[tactic(auto, using(std::proofs::Common::append_assoc))]
fn numbered_from(
    alloc: Global,
    next: u64,
    bindings: IndexSet<Candidate>,
) -> Result<Vec<(u64, Binding)>, AllocError>
    requires { next + length bindings.keys ≤ serial_limit }
    ensures { IfOk result (λ made. made.items ≡ enumerate_from next bindings.keys) }
{
    let mut numbered = Vec::with_capacity(alloc, bindings.len())?;
    let mut serial = next;
    for candidate in bindings {
        numbered.push((serial, candidate.into_binding()))?;
        serial += 1;
    }
    Ok(numbered)
}
