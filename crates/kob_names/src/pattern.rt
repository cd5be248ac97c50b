//! Patterns: which names of a kind of resource a binding matches.

ghost use Rattle.std.specs.Prelude.{◌≡◌, IfOk};
ghost use Rattle.kob_names.specs.Binding.{matches};

use crate::kinds::PatternKind;
use crate::plain_value::PlainValue;
use crate::text::Text;
use std::alloc::{AllocError, Global};

/// A pattern of names.
#[derive(Debug, PartialEq, Eq, Drop)]
pub struct Pattern {
    pub kind: PatternKind,
    pub name: Text,
}

impl Pattern {
    /// Whether the pattern matches `name` (KIP-290). A literal pattern matches the equal name, and
    /// a literal `*` every name. A prefixed pattern matches each name that starts with its own.
    pub fn matches(&self, name: &str) -> bool
        ensures { result ≡ matches self.now name.now }
    {
        let pattern = self.name.as_str();
        match self.kind {
            PatternKind::Literal => pattern == name || pattern == "*",
            PatternKind::Prefixed => name.as_bytes().starts_with(pattern.as_bytes()),
        }
    }
}

impl PlainValue for Pattern {
    fn copy(&self, alloc: Global) -> Result<Self, AllocError> {
        let name = self.name.copy(alloc)?;
        Ok(Pattern {
            kind: self.kind,
            name,
        })
    }

    fn same(&self, other: &Self) -> bool {
        self.kind.same(&other.kind) && self.name.same(&other.name)
    }
}
