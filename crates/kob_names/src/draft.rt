//! Drafts of bindings, and which of them are valid.

ghost use Rattle.std.specs.Prelude.{◌≡◌, ◌↔◌, IsTrue};
ghost use Rattle.kob_names.specs.Binding.{draft_fault, same_binding};

use crate::host::Host;
use crate::kinds::{Operation, Permission, ResourceKind};
use crate::limits::NAME_LIMIT;
use crate::pattern::Pattern;
use crate::plain_value::PlainValue;
use crate::principal::Principal;
use std::alloc::{AllocError, Global};
use thiserror::Error;

/// The parts of a binding. The pattern's name is not checked yet.
#[derive(Debug, PartialEq, Eq, Drop)]
pub struct Draft {
    pub permission: Permission,
    pub principal: Principal,
    pub host: Host,
    pub operation: Operation,
    pub resource: ResourceKind,
    pub pattern: Pattern,
}

/// Why a draft is not a valid binding.
#[derive(Clone, Copy, Debug, PartialEq, Eq, Error)]
pub enum BindingFault {
    #[error("the pattern's name is empty")]
    EmptyName,
    #[error("a binding on the cluster must be named kafka-cluster")]
    BadCluster,
    #[error("the pattern's name is too long")]
    TooLong,
    #[error("out of memory")]
    Memory(AllocError),
}

impl Draft {
    /// The first rule for bindings that the draft breaks, if it breaks one. Does not allocate.
    pub fn fault(&self) -> Option<BindingFault>
        ensures { result ≡ draft_fault self.now }
    {
        let name = self.pattern.name.as_str();
        if name.is_empty() {
            Some(BindingFault::EmptyName)
        } else if self.resource == ResourceKind::Cluster && name != "kafka-cluster" {
            Some(BindingFault::BadCluster)
        } else if name.len() > NAME_LIMIT {
            Some(BindingFault::TooLong)
        } else {
            None
        }
    }

    /// Whether the two are equal in every part.
    pub fn equals(&self, other: &Draft) -> bool
        ensures test { result ≡ same_binding self.now other.now }
        ensures equal { IsTrue result ↔ (self.now ≡ other.now) }
    {
        self == other
    }
}

impl PlainValue for Draft {
    fn copy(&self, alloc: Global) -> Result<Self, AllocError> {
        let principal = self.principal.copy(alloc)?;
        let host = self.host.copy(alloc)?;
        let pattern = self.pattern.copy(alloc)?;
        Ok(Draft {
            permission: self.permission,
            principal,
            host,
            operation: self.operation,
            resource: self.resource,
            pattern,
        })
    }

    fn same(&self, other: &Self) -> bool {
        self.equals(other)
    }
}
