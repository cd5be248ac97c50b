//! Records of a topic's partitions.

ghost use Rattle.std.specs.Prelude.{◌≡◌};

use crate::bytes::Bytes;
use crate::items::Items;
use crate::plain_value::PlainValue;
use crate::text::Text;
use std::alloc::{AllocError, Global};

/// A header of a record: a name, and a value of any bytes.
#[derive(Debug, Drop)]
pub struct Header {
    pub name: Text,
    pub value: Bytes,
}

/// A record: an optional key, a value, and headers in order. Names of headers may repeat.
#[derive(Debug, Drop)]
pub struct Record {
    pub key: Option<Bytes>,
    pub value: Bytes,
    pub headers: Items<Header>,
}

impl PlainValue for Header {
    fn copy(&self, alloc: Global) -> Result<Self, AllocError> {
        let name = self.name.copy(alloc)?;
        let value = self.value.copy(alloc)?;
        Ok(Header { name, value })
    }

    fn same(&self, other: &Self) -> bool {
        self.name.same(&other.name) && self.value.same(&other.value)
    }
}

impl PlainValue for Record {
    fn copy(&self, alloc: Global) -> Result<Self, AllocError> {
        let key = self.key.copy(alloc)?;
        let value = self.value.copy(alloc)?;
        let headers = self.headers.copy(alloc)?;
        Ok(Record {
            key,
            value,
            headers,
        })
    }

    fn same(&self, other: &Self) -> bool {
        self.key.same(&other.key)
            && self.value.same(&other.value)
            && self.headers.same(&other.headers)
    }
}
