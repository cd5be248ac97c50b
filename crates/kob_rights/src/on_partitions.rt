//! Requests on one partition of a topic.

use kob_names::{Batch, PlainValue, Text};
use std::alloc::{AllocError, Global};

/// Which offset of a partition is requested. Kafka's protocol writes -2 for the start and -1 for
/// the end.
#[derive(Clone, Copy, Debug, PartialEq, Eq)]
pub enum Which {
    Start,
    End,
}

/// The offset before which a partition's records are deleted. Kafka's DeleteRecords API writes -1
/// for the end, its high watermark.
#[derive(Clone, Copy, Debug, PartialEq, Eq)]
pub enum Before {
    Offset(u64),
    End,
}

/// PRODUCE of one batch to one partition.
#[derive(Debug, Drop)]
pub struct Produce {
    pub topic: Text,
    pub partition: u64,
    pub batch: Batch,
}

/// FETCH of at most `max` records of one partition, and at most 1,000, from an offset on.
#[derive(Debug, Drop)]
pub struct Fetch {
    pub topic: Text,
    pub partition: u64,
    pub offset: u64,
    pub max: u64,
}

/// LIST_OFFSETS of one partition: its start or its end.
#[derive(Debug, Drop)]
pub struct ListOffsets {
    pub topic: Text,
    pub partition: u64,
    pub which: Which,
}

/// DELETE_RECORDS of one partition: deletes its records before an offset, which becomes its start.
/// An offset at or below its start changes nothing.
#[derive(Debug, Drop)]
pub struct DeleteRecords {
    pub topic: Text,
    pub partition: u64,
    pub before: Before,
}

impl PlainValue for Which {
    fn copy(&self, _alloc: Global) -> Result<Self, AllocError> {
        Ok(*self)
    }

    fn same(&self, other: &Self) -> bool {
        self == other
    }
}

impl PlainValue for Before {
    fn copy(&self, _alloc: Global) -> Result<Self, AllocError> {
        Ok(*self)
    }

    fn same(&self, other: &Self) -> bool {
        self == other
    }
}

impl PlainValue for Produce {
    fn copy(&self, alloc: Global) -> Result<Self, AllocError> {
        let topic = self.topic.copy(alloc)?;
        let batch = self.batch.copy(alloc)?;
        Ok(Produce {
            topic,
            partition: self.partition,
            batch,
        })
    }

    fn same(&self, other: &Self) -> bool {
        self.topic.same(&other.topic)
            && self.partition == other.partition
            && self.batch.same(&other.batch)
    }
}

impl PlainValue for Fetch {
    fn copy(&self, alloc: Global) -> Result<Self, AllocError> {
        let topic = self.topic.copy(alloc)?;
        Ok(Fetch {
            topic,
            partition: self.partition,
            offset: self.offset,
            max: self.max,
        })
    }

    fn same(&self, other: &Self) -> bool {
        self.topic.same(&other.topic)
            && self.partition == other.partition
            && self.offset == other.offset
            && self.max == other.max
    }
}

impl PlainValue for ListOffsets {
    fn copy(&self, alloc: Global) -> Result<Self, AllocError> {
        let topic = self.topic.copy(alloc)?;
        Ok(ListOffsets {
            topic,
            partition: self.partition,
            which: self.which,
        })
    }

    fn same(&self, other: &Self) -> bool {
        self.topic.same(&other.topic)
            && self.partition == other.partition
            && self.which.same(&other.which)
    }
}

impl PlainValue for DeleteRecords {
    fn copy(&self, alloc: Global) -> Result<Self, AllocError> {
        let topic = self.topic.copy(alloc)?;
        Ok(DeleteRecords {
            topic,
            partition: self.partition,
            before: self.before,
        })
    }

    fn same(&self, other: &Self) -> bool {
        self.topic.same(&other.topic)
            && self.partition == other.partition
            && self.before.same(&other.before)
    }
}
