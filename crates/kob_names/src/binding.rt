//! Bindings: drafts that break no rule.

ghost use Rattle.std.specs.Prelude.{◌≡◌, ◌↔◌, IfOk, IsTrue, None};
ghost use Rattle.kob_names.specs.Binding.{covers, draft_fault, same_binding};
ghost use Rattle.kob_names.specs.TextRules.{OkUnlessFault};

use crate::draft::{BindingFault, Draft};
use crate::host::Host;
use crate::plain_value::PlainValue;
use crate::principal::Principal;
use std::alloc::{AllocError, Global};
use std::marker::Model;

/// Allows or denies a principal an operation from a host on what a pattern matches. In contracts a
/// binding is its parts, which are those of a draft that breaks no rule.
///
/// The parts are in an allocation of their own, so that a binding moves as one pointer: a list of
/// bindings moves many of them when one is removed.
#[derive(Debug, Drop)]
pub struct Binding {
    draft: Box<Draft>,
}

impl Model for Binding {
    ghost use Rattle.std.specs.Prelude.{◌≡◌, None};
    ghost use Rattle.kob_names.specs.Binding.{draft_fault};
    ghost use Rattle.kob_names.specs.declared.draft.Draft.{Draft};

    ghost Value = { Draft };

    ghost view = { λ binding. binding.draft.value };

    ghost invariant = { λ binding. draft_fault binding.draft.value ≡ None };
}

impl Binding {
    /// Makes the binding of `draft`. The pattern's name must have 1 to 255 bytes, and be
    /// `kafka-cluster` on the cluster. The first fault is returned, in the order `EmptyName`,
    /// `BadCluster`, `TooLong`, `Memory`.
    pub fn new(alloc: Global, draft: &Draft) -> Result<Binding, BindingFault>
        ensures { OkUnlessFault (draft_fault draft.now) BindingFault.Memory draft.now result }
    {
        if let Some(fault) = draft.fault() {
            return Err(fault);
        }
        match boxed(alloc, draft) {
            Ok(draft) => Ok(Binding { draft }),
            Err(error) => Err(BindingFault::Memory(error)),
        }
    }

    /// The parts of the binding, which break no rule. Does not allocate.
    pub fn parts(&self) -> &Draft
        ensures parts { result.now ≡ self.now }
        ensures valid { draft_fault self.now ≡ None }
    {
        &self.draft
    }

    /// Whether the binding covers this principal on this host: a binding for `User:*` covers every
    /// principal, and one for `*` every host (Kafka's documentation, "Authorization and ACLs").
    pub fn covers(&self, principal: &Principal, host: &Host) -> bool
        ensures { result ≡ covers self.now principal.now host.now }
    {
        let bound = self.parts();
        (bound.principal == *principal || bound.principal.as_str() == "User:*")
            && (bound.host == *host || bound.host.as_str() == "*")
    }

    /// Whether the two are equal in every part.
    pub fn equals(&self, other: &Binding) -> bool
        ensures test { result ≡ same_binding self.now other.now }
        ensures equal { IsTrue result ↔ (self.now ≡ other.now) }
    {
        self.draft.equals(&other.draft)
    }
}

impl PlainValue for Binding {
    fn copy(&self, alloc: Global) -> Result<Self, AllocError> {
        let draft = boxed(alloc, &self.draft)?;
        Ok(Binding { draft })
    }

    fn same(&self, other: &Self) -> bool {
        self.equals(other)
    }
}

/// A copy of a draft, in an allocation of its own.
fn boxed(alloc: Global, draft: &Draft) -> Result<Box<Draft>, AllocError>
    ensures { IfOk result (λ made. made.value ≡ draft.now) }
{
    let copy = draft.copy(alloc)?;
    Ok(Box::new(alloc, copy)?)
}
