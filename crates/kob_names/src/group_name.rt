//! Names of consumer groups.

ghost use Rattle.std.specs.Prelude.{◌≡◌, IfOk, None};
ghost use Rattle.kob_names.specs.TextRules.{OkUnlessFault, group_fault};

use crate::limits::NAME_LIMIT;
use crate::plain_value::PlainValue;
use crate::text::Text;
use std::alloc::{AllocError, Global};
use std::marker::Model;
use thiserror::Error;

/// The name of a consumer group.
#[derive(Debug, PartialEq, Eq, Drop)]
pub struct GroupName {
    text: Text,
}

impl Model for GroupName {
    ghost use Rattle.std.specs.Prelude.{◌≡◌, List, ℕ, None};
    ghost use Rattle.kob_names.specs.TextRules.{group_fault};

    ghost Value = { List ℕ };

    ghost view = { λ name. name.text };

    ghost invariant = { λ name. group_fault name.text ≡ None };

    ghost inverse = { λ text. record { text = text } };
}

/// Why a text is not a valid group name.
#[derive(Clone, Copy, Debug, PartialEq, Eq, Error)]
pub enum GroupNameFault {
    #[error("the group name is empty")]
    Empty,
    #[error("the group name is too long")]
    TooLong,
    #[error("out of memory")]
    Memory(AllocError),
}

impl GroupName {
    /// Reads a group's name: 1 to 255 bytes of any text. The first fault is returned, in the order
    /// `Empty`, `TooLong`, `Memory`.
    pub fn parse(alloc: Global, text: &str) -> Result<GroupName, GroupNameFault>
        ensures { OkUnlessFault (group_fault text.now) GroupNameFault.Memory text.now result }
    {
        if let Some(fault) = fault_of(text) {
            return Err(fault);
        }
        let text = Text::copied(alloc, text).map_err(GroupNameFault::Memory)?;
        Ok(GroupName { text })
    }

    /// The name as text. Does not allocate.
    pub fn as_str(&self) -> &str
        ensures text { result.now ≡ self.now }
        ensures valid { group_fault self.now ≡ None }
    {
        self.text.as_str()
    }
}

impl PlainValue for GroupName {
    fn copy(&self, alloc: Global) -> Result<Self, AllocError> {
        let text = self.text.copy(alloc)?;
        Ok(GroupName { text })
    }

    fn same(&self, other: &Self) -> bool {
        self.text.same(&other.text)
    }
}

fn fault_of(text: &str) -> Option<GroupNameFault>
    ensures { result ≡ group_fault text.now }
{
    if text.is_empty() {
        Some(GroupNameFault::Empty)
    } else if text.len() > NAME_LIMIT {
        Some(GroupNameFault::TooLong)
    } else {
        None
    }
}
