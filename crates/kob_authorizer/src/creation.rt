//! A creation of bindings between its first and its second step.

ghost use Rattle.std.specs.Prelude.{◌≡◌, ◌≢◌, ◌+◌, ◌≤◌, ◌++◌, IfErr, IfOk, None, OnOk, Some};
ghost use Rattle.std.specs.Prelude.{alloc_error, length, map, vec_capacity, vec_len};
ghost use Rattle.kob_authorizer.specs.Decide.{IsRising};
ghost use Rattle.kob_authorizer.specs.Creation.{Creates, binding_limit, serial_limit, create_fault};
ghost use Rattle.kob_authorizer.specs.Index.{Indexes, leaf_of, AreRising};

use crate::at_once::new_bindings;
use crate::fault::CreateFault;
use crate::index::{Index, Leaf};
use crate::limits::limit_fault;
use kob_names::Binding;
use std::alloc::Global;
use std::marker::Model;

/// A creation that needs no more allocations: the entries that it puts in force, and the serials
/// that it returns, one for each binding of the call.
#[derive(Drop)]
pub struct PreparedCreate {
    fresh: Vec<(u64, Binding)>,
    leaves: Vec<Leaf>,
    serials: Vec<u64>,
}

impl Model for PreparedCreate {
    ghost use Rattle.std.specs.Prelude.{◌≡◌, map};
    ghost use Rattle.kob_authorizer.specs.Creation.{Creation};
    ghost use Rattle.kob_authorizer.specs.Index.{leaf_of};

    ghost Value = { Creation };

    ghost view = { λ prepared. record {
      fresh = prepared.fresh.items;
      serials = prepared.serials.items;
    } };

    ghost invariant = { λ prepared. prepared.leaves.items ≡ map leaf_of prepared.fresh.items };
}

impl PreparedCreate {
    /// The creation of `bindings` with these entries in force, if no limit is exceeded.
    #[tactic(auto, using(crate::proofs::Creating::creating))]
    pub(crate) fn make(
        alloc: Global,
        entries: &[(u64, Binding)],
        index: &Index,
        next: u64,
        bindings: Vec<Binding>,
    ) -> Result<PreparedCreate, CreateFault>
        requires count { length entries.now ≤ binding_limit }
        requires rising { AreRising entries.now }
        requires indexed { Indexes index.now entries.now }
        ensures ok { IfOk result (Creates entries.now next bindings.items) }
        ensures allowed { OnOk result (create_fault entries.now next bindings.items ≡ None) }
        ensures count { IfOk result
            (λ made. length entries.now + length made.fresh ≤ binding_limit) }
        ensures serials { IfOk result (λ made. next + length made.fresh ≤ serial_limit) }
        ensures numbered { IfOk result
            (λ made. IsRising next made.fresh (next + length made.fresh)) }
        ensures fault { IfErr result (λ fault. fault ≢ CreateFault.Memory alloc_error
            → create_fault entries.now next bindings.items ≡ Some fault) }
    {
        let (new, serials) = new_bindings(alloc, entries, &index.keys, next, bindings)?;
        if let Some(fault) = limit_fault(entries.len(), next, new.len()) {
            drop(new);
            return Err(fault);
        }
        let fresh = new.numbered(alloc, next)?;
        let leaves = index.prepare_all(alloc, fresh.as_slice())?;
        Ok(PreparedCreate {
            fresh,
            leaves,
            serials,
        })
    }

    /// The serials that the creation returns, in the order of the call's bindings. Does not
    /// allocate.
    pub fn serials(&self) -> &[u64]
        ensures { result.now ≡ self.now.serials }
    {
        self.serials.as_slice()
    }

    /// How many entries the creation puts in force.
    pub(crate) fn count(&self) -> usize
        ensures { result ≡ length self.now.fresh }
    {
        self.fresh.as_slice().len()
    }

    /// The entries, what they add to the trees, and the serials.
    pub(crate) fn into_parts(self) -> (Vec<(u64, Binding)>, Vec<Leaf>, Vec<u64>)
        ensures fresh { result.0.items ≡ self.fresh }
        ensures leaves { result.1.items ≡ map leaf_of self.fresh }
        ensures serials { result.2.items ≡ self.serials }
    {
        let PreparedCreate {
            fresh,
            leaves,
            serials,
        } = self;
        (fresh, leaves, serials)
    }
}
