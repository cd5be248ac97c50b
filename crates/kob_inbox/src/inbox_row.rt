//! The rows that an inbox returns.

ghost use Rattle.std.specs.Prelude.{◌≡◌, IfOk};

use kob_names::{Bytes, PlainValue, Text};
use std::alloc::{AllocError, Global};
use uuid::Uuid;

/// An event that was taken in.
#[derive(Debug, Drop)]
pub struct InboxRow {
    /// From 1 to 9,223,372,036,854,775,807, in the order of intake.
    pub place: u64,
    pub id: Uuid,
    /// The topic, the partition and the offset of its record.
    pub topic: Text,
    pub partition: u64,
    pub offset: u64,
    pub key: Option<Bytes>,
    pub value: Bytes,
}

impl InboxRow {
    /// An equal row. The error is out of memory.
    pub fn copy(&self, alloc: Global) -> Result<InboxRow, AllocError>
        ensures { IfOk result (λ made. made ≡ self.now) }
    {
        let topic = self.topic.copy(alloc)?;
        let key = self.key.copy(alloc)?;
        let value = self.value.copy(alloc)?;
        Ok(InboxRow {
            place: self.place,
            id: self.id,
            topic,
            partition: self.partition,
            offset: self.offset,
            key,
            value,
        })
    }
}
