//! A new binding in a set, in which an equal one is found by a hash.

ghost use Rattle.std.specs.Prelude.{◌≡◌};
ghost use Rattle.std.specs.Cmp.{partial_equiv_from_equiv};
ghost use Rattle.kob_authorizer.specs.Candidates.{again_is_equivalence, hashed_alike, hashed_texts};
ghost use Rattle.kob_authorizer.specs.Candidates.{is_again};

use kob_names::Binding;
use std::hash::{Hash, Hasher};
use std::marker::Model;

/// A binding that a creation may put in force. Its principal, host and name are hashed.
#[derive(Drop)]
pub struct Candidate {
    binding: Binding,
}

impl Model for Candidate {
    ghost use Rattle.kob_names.specs.Binding.{Binding};

    ghost Value = { Binding };

    ghost view = { λ candidate. candidate.binding };
}

impl Candidate {
    pub fn new(binding: Binding) -> Candidate
        ensures { result ≡ binding }
    {
        Candidate { binding }
    }

    pub fn into_binding(self) -> Binding
        ensures { result ≡ self }
    {
        let Candidate { binding } = self;
        binding
    }
}

impl PartialEq for Candidate {
    ghost eq = { is_again };

    ghost laws = { partial_equiv_from_equiv again_is_equivalence };

    fn eq(&self, other: &Self) -> bool {
        other.binding.equals(&self.binding)
    }
}

impl Eq for Candidate {
    ghost laws = { again_is_equivalence };
}

impl Hash for Candidate {
    ghost hash_input = { hashed_texts };

    ghost respects_eq = { hashed_alike };

    fn hash<H: Hasher>(&self, state: &mut H) {
        let binding = self.binding.parts();
        binding.principal.as_str().hash(state);
        binding.host.as_str().hash(state);
        binding.pattern.name.as_str().hash(state);
    }
}
