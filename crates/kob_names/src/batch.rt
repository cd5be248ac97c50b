//! Batches of records, and the sequences of idempotent producers.

use crate::items::Items;
use crate::plain_value::PlainValue;
use crate::record::Record;
use std::alloc::{AllocError, Global};

/// What an idempotent producer adds to a batch: its id, its epoch, and the sequence of the batch's
/// first record. Kafka's protocol calls them producer id, producer epoch and base sequence.
#[derive(Clone, Copy, Debug, PartialEq, Eq)]
pub struct Idem {
    pub id: u64,
    pub epoch: u64,
    pub base: u64,
}

/// Records that a producer sends together, with the producer's sequence if it is idempotent.
#[derive(Debug, Drop)]
pub struct Batch {
    pub idem: Option<Idem>,
    pub records: Items<Record>,
}

impl PlainValue for Idem {
    fn copy(&self, _alloc: Global) -> Result<Self, AllocError> {
        Ok(*self)
    }

    fn same(&self, other: &Self) -> bool {
        self.id == other.id && self.epoch == other.epoch && self.base == other.base
    }
}

impl PlainValue for Batch {
    fn copy(&self, alloc: Global) -> Result<Self, AllocError> {
        let idem = self.idem.copy(alloc)?;
        let records = self.records.copy(alloc)?;
        Ok(Batch { idem, records })
    }

    fn same(&self, other: &Self) -> bool {
        self.idem.same(&other.idem) && self.records.same(&other.records)
    }
}
