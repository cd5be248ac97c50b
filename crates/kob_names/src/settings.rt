//! The settings that a broker is opened with.

use crate::binding::Binding;
use crate::items::Items;
use crate::plain_value::PlainValue;
use crate::principal::Principal;
use std::alloc::{AllocError, Global};

/// The super users, the bindings that are in force at first, and whether a resource that no binding
/// matches is open to everyone (Kafka's `allow.everyone.if.no.acl.found`).
#[derive(Debug, Drop)]
pub struct Settings {
    pub supers: Items<Principal>,
    pub opening: Items<Binding>,
    pub everyone: bool,
}

impl PlainValue for Settings {
    fn copy(&self, alloc: Global) -> Result<Self, AllocError> {
        let supers = self.supers.copy(alloc)?;
        let opening = self.opening.copy(alloc)?;
        Ok(Settings {
            supers,
            opening,
            everyone: self.everyone,
        })
    }

    fn same(&self, other: &Self) -> bool {
        self.supers.same(&other.supers)
            && self.opening.same(&other.opening)
            && self.everyone == other.everyone
    }
}
