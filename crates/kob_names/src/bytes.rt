//! Bytes that contracts see as a list.

ghost use Rattle.std.specs.Prelude.{◌≡◌, IfOk, length};
ghost use Rattle.std.specs.Cmp.{partial_equiv_from_equiv};
ghost use Rattle.std.specs.Cmp.Lexicographic.{nat_list_eq_equiv};
ghost use Rattle.std.specs.Str.{bytes_eq};

use crate::plain_value::PlainValue;
use std::alloc::{AllocError, Global};
use std::fmt;
use std::marker::Model;
use std::sync::ArcSlice;

/// The most bytes that each copy holds itself.
const OWN_LIMIT: usize = 1_024;

/// Bytes that never change. Copies of more than 1,024 bytes share them, in any threads; shorter
/// bytes are copied.
#[derive(Drop)]
pub struct Bytes {
    content: Content,
}

/// Where the bytes are.
#[derive(Drop)]
enum Content {
    Own(Vec<u8>),
    Shared(ArcSlice<u8>),
}

impl Model for Bytes {
    ghost use Rattle.std.specs.Prelude.{List, ℕ};
    ghost use Rattle.kob_names.specs.Bytes.{content_bytes};

    ghost Value = { List ℕ };

    ghost view = { λ bytes. content_bytes bytes.content };
}

impl Bytes {
    /// A copy of `bytes`, which its own copies share if it is longer than 1,024 bytes.
    pub fn copied(alloc: Global, bytes: &[u8]) -> Result<Bytes, AllocError>
        ensures { IfOk result (λ made. made ≡ bytes.now) }
    {
        let content = Vec::from_slice(alloc, bytes)?;
        if bytes.len() <= OWN_LIMIT {
            return Ok(Bytes::from_vec(content));
        }
        Ok(Bytes {
            content: Content::Shared(ArcSlice::from_vec(content)?),
        })
    }

    /// Takes ownership of the bytes. Does not allocate.
    pub fn from_vec(content: Vec<u8>) -> Bytes
        ensures { result ≡ content.items }
    {
        Bytes {
            content: Content::Own(content),
        }
    }

    /// The bytes. Does not allocate.
    pub fn as_slice(&self) -> &[u8]
        ensures { result.now ≡ self.now }
    {
        match &self.content {
            Content::Own(own) => own.as_slice(),
            Content::Shared(shared) => shared.as_slice(),
        }
    }

    /// The number of bytes.
    pub fn len(&self) -> usize
        ensures { result ≡ length self.now }
    {
        self.as_slice().len()
    }
}

impl PlainValue for Bytes {
    fn copy(&self, alloc: Global) -> Result<Self, AllocError> {
        let shared = match &self.content {
            Content::Own(own) => return Bytes::copied(alloc, own.as_slice()),
            Content::Shared(shared) => shared.clone()?,
        };
        Ok(Bytes {
            content: Content::Shared(shared),
        })
    }

    fn same(&self, other: &Self) -> bool {
        self == other
    }
}

impl fmt::Debug for Bytes {
    fn fmt<W: fmt::Write>(&self, f: &mut fmt::Formatter<W>) -> fmt::Result {
        f.debug_struct("Bytes")
            .field("content", &self.as_slice())
            .finish()
    }
}

impl PartialEq for Bytes {
    ghost eq = { bytes_eq };

    ghost laws = { partial_equiv_from_equiv nat_list_eq_equiv };

    fn eq(&self, other: &Self) -> bool {
        self.as_slice() == other.as_slice()
    }
}

impl Eq for Bytes {
    ghost laws = { nat_list_eq_equiv };
}
