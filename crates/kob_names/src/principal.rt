//! Principals: who sends a request, and whom a binding covers.

ghost use Rattle.std.specs.Prelude.{◌≡◌, IfOk, None};
ghost use Rattle.kob_names.specs.TextRules.{OkUnlessFault, principal_fault, parts_fault};

use crate::limits::NAME_LIMIT;
use crate::plain_value::PlainValue;
use crate::text::Text;
use std::alloc::{AllocError, Global};
use std::marker::Model;
use thiserror::Error;

/// A principal, as `User:alice`.
#[derive(Debug, PartialEq, Eq, Drop)]
pub struct Principal {
    text: Text,
}

impl Model for Principal {
    ghost use Rattle.std.specs.Prelude.{◌≡◌, List, ℕ, None};
    ghost use Rattle.kob_names.specs.TextRules.{principal_fault};

    ghost Value = { List ℕ };

    ghost view = { λ principal. principal.text };

    ghost invariant = { λ principal. principal_fault principal.text ≡ None };

    ghost inverse = { λ text. record { text = text } };
}

/// Why a text is not a valid principal.
#[derive(Clone, Copy, Debug, PartialEq, Eq, Error)]
pub enum PrincipalFault {
    #[error("no colon after the principal's kind")]
    NoColon,
    #[error("the principal's kind is not User")]
    NotUser,
    #[error("the principal's name is empty")]
    Empty,
    #[error("the principal's name is too long")]
    TooLong,
    #[error("out of memory")]
    Memory(AllocError),
}

impl Principal {
    /// Reads a principal: `User:` and a name of 1 to 255 bytes. The kind is the text before the
    /// first colon. The first fault is returned, in the order `NoColon`, `NotUser`, `Empty`,
    /// `TooLong`, `Memory`.
    pub fn parse(alloc: Global, text: &str) -> Result<Principal, PrincipalFault>
        ensures { OkUnlessFault (principal_fault text.now) PrincipalFault.Memory text.now result }
    {
        if let Some(fault) = fault_of(text) {
            return Err(fault);
        }
        let text = Text::copied(alloc, text).map_err(PrincipalFault::Memory)?;
        Ok(Principal { text })
    }

    /// The principal as text. Does not allocate.
    pub fn as_str(&self) -> &str
        ensures text { result.now ≡ self.now }
        ensures valid { principal_fault self.now ≡ None }
    {
        self.text.as_str()
    }
}

impl PlainValue for Principal {
    fn copy(&self, alloc: Global) -> Result<Self, AllocError> {
        let text = self.text.copy(alloc)?;
        Ok(Principal { text })
    }

    fn same(&self, other: &Self) -> bool {
        self.text.same(&other.text)
    }
}

fn fault_of(text: &str) -> Option<PrincipalFault>
    ensures { result ≡ principal_fault text.now }
{
    match text.split_once(':') {
        None => Some(PrincipalFault::NoColon),
        Some((kind, name)) => fault_of_parts(kind, name),
    }
}

fn fault_of_parts(kind: &str, name: &str) -> Option<PrincipalFault>
    ensures { result ≡ parts_fault kind.now name.now }
{
    if kind != "User" {
        Some(PrincipalFault::NotUser)
    } else if name.is_empty() {
        Some(PrincipalFault::Empty)
    } else if name.len() > NAME_LIMIT {
        Some(PrincipalFault::TooLong)
    } else {
        None
    }
}
