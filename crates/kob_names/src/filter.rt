//! Filters of bindings.

ghost use Rattle.std.specs.Prelude.{◌≡◌, IfOk};
ghost use Rattle.kob_names.specs.Filter.{takes, takes_part, takes_pattern};

use crate::binding::Binding;
use crate::draft::Draft;
use crate::host::Host;
use crate::kinds::{Operation, PatternKind, Permission, ResourceKind};
use crate::pattern::Pattern;
use crate::plain_value::PlainValue;
use crate::principal::Principal;
use crate::text::Text;
use std::alloc::{AllocError, Global};

/// Which patterns a filter selects.
#[derive(Clone, Copy, Debug, PartialEq, Eq)]
pub enum FilterPattern {
    Any,
    Matching,
    Literal,
    Prefixed,
}

/// A filter of bindings. A part that is not set selects all.
#[derive(Debug, PartialEq, Eq, Drop)]
pub struct BindingFilter {
    pub resource: Option<ResourceKind>,
    pub name: Option<Text>,
    pub pattern: FilterPattern,
    pub principal: Option<Principal>,
    pub host: Option<Host>,
    pub operation: Option<Operation>,
    pub permission: Option<Permission>,
}

impl BindingFilter {
    /// Whether every part selects the binding.
    pub fn takes(&self, binding: &Binding) -> bool
        ensures { result ≡ takes self.now binding.now }
    {
        self.takes_draft(binding.parts())
    }

    /// Whether every part selects the binding of these parts.
    pub fn takes_draft(&self, draft: &Draft) -> bool
        ensures { result ≡ takes self.now draft.now }
    {
        takes_part(&self.resource, &draft.resource)
            && self.takes_pattern(&draft.pattern)
            && takes_part(&self.principal, &draft.principal)
            && takes_part(&self.host, &draft.host)
            && takes_part(&self.operation, &draft.operation)
            && takes_part(&self.permission, &draft.permission)
    }

    fn takes_pattern(&self, pattern: &Pattern) -> bool
        ensures { result ≡ takes_pattern self.now.pattern self.now.name pattern.now }
    {
        match self.pattern {
            FilterPattern::Any => takes_part(&self.name, &pattern.name),
            FilterPattern::Matching => match &self.name {
                None => true,
                Some(name) => pattern.matches(name.as_str()),
            },
            FilterPattern::Literal => {
                pattern.kind == PatternKind::Literal && takes_part(&self.name, &pattern.name)
            }
            FilterPattern::Prefixed => {
                pattern.kind == PatternKind::Prefixed && takes_part(&self.name, &pattern.name)
            }
        }
    }
}

impl PlainValue for BindingFilter {
    fn copy(&self, alloc: Global) -> Result<Self, AllocError> {
        let name = self.name.copy(alloc)?;
        let principal = self.principal.copy(alloc)?;
        let host = self.host.copy(alloc)?;
        Ok(BindingFilter {
            resource: self.resource,
            name,
            pattern: self.pattern,
            principal,
            host,
            operation: self.operation,
            permission: self.permission,
        })
    }

    fn same(&self, other: &Self) -> bool {
        self.resource.same(&other.resource)
            && self.name.same(&other.name)
            && self.pattern.same(&other.pattern)
            && self.principal.same(&other.principal)
            && self.host.same(&other.host)
            && self.operation.same(&other.operation)
            && self.permission.same(&other.permission)
    }
}

/// Whether a part of a filter selects `value`.
fn takes_part<T: PartialEq>(wanted: &Option<T>, value: &T) -> bool
    ensures { result ≡ takes_part T.eq wanted.now value.now }
{
    match wanted {
        None => true,
        Some(wanted) => wanted == value,
    }
}

impl PlainValue for FilterPattern {
    fn copy(&self, _alloc: Global) -> Result<Self, AllocError> {
        Ok(*self)
    }

    fn same(&self, other: &Self) -> bool {
        self == other
    }
}
