//! Requests on groups and their committed offsets.

use kob_names::{PlainValue, Text};
use std::alloc::{AllocError, Global};

/// OFFSET_COMMIT of a group on one partition.
#[derive(Debug, Drop)]
pub struct OffsetCommit {
    pub group: Text,
    pub topic: Text,
    pub partition: u64,
    pub offset: u64,
}

/// OFFSET_FETCH of a group on one partition.
#[derive(Debug, Drop)]
pub struct OffsetFetch {
    pub group: Text,
    pub topic: Text,
    pub partition: u64,
}

/// DELETE_GROUPS of one group, with its commits.
#[derive(Debug, Drop)]
pub struct DeleteGroups {
    pub group: Text,
}

impl PlainValue for OffsetCommit {
    fn copy(&self, alloc: Global) -> Result<Self, AllocError> {
        let group = self.group.copy(alloc)?;
        let topic = self.topic.copy(alloc)?;
        Ok(OffsetCommit {
            group,
            topic,
            partition: self.partition,
            offset: self.offset,
        })
    }

    fn same(&self, other: &Self) -> bool {
        self.group.same(&other.group)
            && self.topic.same(&other.topic)
            && self.partition == other.partition
            && self.offset == other.offset
    }
}

impl PlainValue for OffsetFetch {
    fn copy(&self, alloc: Global) -> Result<Self, AllocError> {
        let group = self.group.copy(alloc)?;
        let topic = self.topic.copy(alloc)?;
        Ok(OffsetFetch {
            group,
            topic,
            partition: self.partition,
        })
    }

    fn same(&self, other: &Self) -> bool {
        self.group.same(&other.group)
            && self.topic.same(&other.topic)
            && self.partition == other.partition
    }
}

impl PlainValue for DeleteGroups {
    fn copy(&self, alloc: Global) -> Result<Self, AllocError> {
        let group = self.group.copy(alloc)?;
        Ok(DeleteGroups { group })
    }

    fn same(&self, other: &Self) -> bool {
        self.group.same(&other.group)
    }
}
