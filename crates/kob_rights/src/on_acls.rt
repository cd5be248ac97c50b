//! Requests on bindings.

use kob_names::{BindingFilter, Draft, Items, PlainValue};
use std::alloc::{AllocError, Global};

/// DESCRIBE_ACLS: the bindings that a filter selects.
#[derive(Debug, Drop)]
pub struct DescribeAcls {
    pub filter: BindingFilter,
}

/// CREATE_ACLS: bindings to create, all or none.
#[derive(Debug, Drop)]
pub struct CreateAcls {
    pub drafts: Items<Draft>,
}

/// DELETE_ACLS: deletes the bindings that a filter selects.
#[derive(Debug, Drop)]
pub struct DeleteAcls {
    pub filter: BindingFilter,
}

impl PlainValue for DescribeAcls {
    fn copy(&self, alloc: Global) -> Result<Self, AllocError> {
        let filter = self.filter.copy(alloc)?;
        Ok(DescribeAcls { filter })
    }

    fn same(&self, other: &Self) -> bool {
        self.filter.same(&other.filter)
    }
}

impl PlainValue for CreateAcls {
    fn copy(&self, alloc: Global) -> Result<Self, AllocError> {
        let drafts = self.drafts.copy(alloc)?;
        Ok(CreateAcls { drafts })
    }

    fn same(&self, other: &Self) -> bool {
        self.drafts.same(&other.drafts)
    }
}

impl PlainValue for DeleteAcls {
    fn copy(&self, alloc: Global) -> Result<Self, AllocError> {
        let filter = self.filter.copy(alloc)?;
        Ok(DeleteAcls { filter })
    }

    fn same(&self, other: &Self) -> bool {
        self.filter.same(&other.filter)
    }
}
