//! The authorizer's verdicts.

ghost use Rattle.std.specs.Prelude.{◌≡◌};
ghost use Rattle.kob_names.specs.Binding.{is_granted};

use crate::plain_value::PlainValue;
use std::alloc::{AllocError, Global};

/// Whether a right is granted, and by what.
#[derive(Clone, Copy, Debug, PartialEq, Eq)]
pub enum Verdict {
    /// The principal is a super user.
    Super,
    /// The allow with this serial grants it.
    AllowedBy(u64),
    /// The deny with this serial denies it.
    DeniedBy(u64),
    /// No allow grants it.
    NoAllow,
    /// No binding matches the resource, which is then open to everyone.
    NoAclFound,
}

impl Verdict {
    /// Whether the right is granted: to a super user, by an allow, or because no binding matches
    /// what is then open to everyone.
    pub fn is_granted(self) -> bool
        ensures { result ≡ is_granted self }
    {
        match self {
            Verdict::Super | Verdict::AllowedBy(_) | Verdict::NoAclFound => true,
            Verdict::DeniedBy(_) | Verdict::NoAllow => false,
        }
    }
}

impl PlainValue for Verdict {
    fn copy(&self, _alloc: Global) -> Result<Self, AllocError> {
        Ok(*self)
    }

    fn same(&self, other: &Self) -> bool {
        self == other
    }
}
