//! Hosts, compared as text.

ghost use Rattle.std.specs.Prelude.{◌≡◌, IfOk, None};
ghost use Rattle.kob_names.specs.TextRules.{OkUnlessFault, host_fault};

use crate::limits::NAME_LIMIT;
use crate::plain_value::PlainValue;
use crate::text::Text;
use std::alloc::{AllocError, Global};
use std::marker::Model;
use thiserror::Error;

/// A host, or `*` for every host in a binding.
#[derive(Debug, PartialEq, Eq, Drop)]
pub struct Host {
    text: Text,
}

impl Model for Host {
    ghost use Rattle.std.specs.Prelude.{◌≡◌, List, ℕ, None};
    ghost use Rattle.kob_names.specs.TextRules.{host_fault};

    ghost Value = { List ℕ };

    ghost view = { λ host. host.text };

    ghost invariant = { λ host. host_fault host.text ≡ None };

    ghost inverse = { λ text. record { text = text } };
}

/// Why a text is not a valid host.
#[derive(Clone, Copy, Debug, PartialEq, Eq, Error)]
pub enum HostFault {
    #[error("the host is empty")]
    Empty,
    #[error("the host is too long")]
    TooLong,
    #[error("out of memory")]
    Memory(AllocError),
}

impl Host {
    /// Reads a host: 1 to 255 bytes of any text. The first fault is returned, in the order `Empty`,
    /// `TooLong`, `Memory`.
    pub fn parse(alloc: Global, text: &str) -> Result<Host, HostFault>
        ensures { OkUnlessFault (host_fault text.now) HostFault.Memory text.now result }
    {
        if let Some(fault) = fault_of(text) {
            return Err(fault);
        }
        let text = Text::copied(alloc, text).map_err(HostFault::Memory)?;
        Ok(Host { text })
    }

    /// The host as text. Does not allocate.
    pub fn as_str(&self) -> &str
        ensures text { result.now ≡ self.now }
        ensures valid { host_fault self.now ≡ None }
    {
        self.text.as_str()
    }
}

impl PlainValue for Host {
    fn copy(&self, alloc: Global) -> Result<Self, AllocError> {
        let text = self.text.copy(alloc)?;
        Ok(Host { text })
    }

    fn same(&self, other: &Self) -> bool {
        self.text.same(&other.text)
    }
}

fn fault_of(text: &str) -> Option<HostFault>
    ensures { result ≡ host_fault text.now }
{
    if text.is_empty() {
        Some(HostFault::Empty)
    } else if text.len() > NAME_LIMIT {
        Some(HostFault::TooLong)
    } else {
        None
    }
}
