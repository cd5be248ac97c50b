//! The parts of a binding: kinds of resources, operations, kinds of patterns and permissions.

ghost use Rattle.std.specs.Prelude.{◌≡◌};
ghost use Rattle.kob_names.specs.Binding.{reaches, is_implied};

use crate::plain_value::PlainValue;
use std::alloc::{AllocError, Global};

/// The kind of a resource.
#[derive(Clone, Copy, Debug, PartialEq, Eq)]
pub enum ResourceKind {
    Topic,
    Group,
    Cluster,
    TransactionalId,
}

/// An operation that a binding allows or denies, or that a request asks for.
#[derive(Clone, Copy, Debug, PartialEq, Eq)]
pub enum Operation {
    All,
    Read,
    Write,
    Create,
    Delete,
    Alter,
    Describe,
    ClusterAction,
    DescribeConfigs,
    AlterConfigs,
    IdempotentWrite,
}

/// How a pattern's name is compared with a resource's name.
#[derive(Clone, Copy, Debug, PartialEq, Eq)]
pub enum PatternKind {
    Literal,
    Prefixed,
}

/// Whether a binding allows or denies.
#[derive(Clone, Copy, Debug, PartialEq, Eq)]
pub enum Permission {
    Allow,
    Deny,
}

impl Permission {
    /// Whether a binding of `bound` with this permission reaches the operation `asked`.
    pub fn reaches(self, bound: Operation, asked: Operation) -> bool
        ensures { result ≡ reaches self bound asked }
    {
        bound == Operation::All
            || bound == asked
            || self == Permission::Allow && bound.implies(asked)
    }
}

impl Operation {
    /// Whether an allow of this operation also allows `asked`.
    fn implies(self, asked: Operation) -> bool
        ensures { result ≡ is_implied self asked }
    {
        match self {
            Operation::Read | Operation::Write | Operation::Delete | Operation::Alter => {
                asked == Operation::Describe
            }
            Operation::AlterConfigs => asked == Operation::DescribeConfigs,
            _ => false,
        }
    }
}

impl PlainValue for ResourceKind {
    fn copy(&self, _alloc: Global) -> Result<Self, AllocError> {
        Ok(*self)
    }

    fn same(&self, other: &Self) -> bool {
        self == other
    }
}

impl PlainValue for Operation {
    fn copy(&self, _alloc: Global) -> Result<Self, AllocError> {
        Ok(*self)
    }

    fn same(&self, other: &Self) -> bool {
        self == other
    }
}

impl PlainValue for PatternKind {
    fn copy(&self, _alloc: Global) -> Result<Self, AllocError> {
        Ok(*self)
    }

    fn same(&self, other: &Self) -> bool {
        self == other
    }
}

impl PlainValue for Permission {
    fn copy(&self, _alloc: Global) -> Result<Self, AllocError> {
        Ok(*self)
    }

    fn same(&self, other: &Self) -> bool {
        self == other
    }
}
