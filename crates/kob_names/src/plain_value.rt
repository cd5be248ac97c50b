//! Plain values, which are copied and compared by their contents.

ghost use Rattle.std.specs.Prelude.{◌≡◌, ◌↔◌, IfOk, IsTrue};

use std::alloc::{AllocError, Global};

/// A value that is plain data: it can be copied, and compared by its contents.
pub trait PlainValue: Sized + Drop {
    /// An equal value. The error is out of memory.
    fn copy(&self, alloc: Global) -> Result<Self, AllocError>
        ensures { IfOk result (λ made. made ≡ self.now) };

    /// Whether the two are equal in every part. Does not allocate.
    fn same(&self, other: &Self) -> bool
        ensures { IsTrue result ↔ (self.now ≡ other.now) };
}

impl PlainValue for u64 {
    fn copy(&self, _alloc: Global) -> Result<Self, AllocError> {
        Ok(*self)
    }

    fn same(&self, other: &Self) -> bool {
        *self == *other
    }
}

impl<T: PlainValue> PlainValue for Option<T> {
    fn copy(&self, alloc: Global) -> Result<Self, AllocError> {
        match self {
            None => Ok(None),
            Some(value) => Ok(Some(value.copy(alloc)?)),
        }
    }

    fn same(&self, other: &Self) -> bool {
        match (self, other) {
            (None, None) => true,
            (Some(one), Some(two)) => one.same(two),
            _ => false,
        }
    }
}

impl<A: PlainValue, B: PlainValue> PlainValue for (A, B) {
    fn copy(&self, alloc: Global) -> Result<Self, AllocError> {
        let first = self.0.copy(alloc)?;
        let second = self.1.copy(alloc)?;
        Ok((first, second))
    }

    fn same(&self, other: &Self) -> bool {
        self.0.same(&other.0) && self.1.same(&other.1)
    }
}
