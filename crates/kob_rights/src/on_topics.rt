//! Requests on topics.

use kob_names::{PlainValue, Text};
use std::alloc::{AllocError, Global};

/// METADATA of one topic, or without a name of all topics that the principal may describe.
#[derive(Debug, Drop)]
pub struct Metadata {
    pub topic: Option<Text>,
}

/// CREATE_TOPICS of one topic.
#[derive(Debug, Drop)]
pub struct CreateTopics {
    pub name: Text,
    pub partitions: u64,
}

/// DELETE_TOPICS of one topic, with its records, its producers' state and the commits on it.
#[derive(Debug, Drop)]
pub struct DeleteTopics {
    pub name: Text,
}

impl PlainValue for Metadata {
    fn copy(&self, alloc: Global) -> Result<Self, AllocError> {
        let topic = self.topic.copy(alloc)?;
        Ok(Metadata { topic })
    }

    fn same(&self, other: &Self) -> bool {
        self.topic.same(&other.topic)
    }
}

impl PlainValue for CreateTopics {
    fn copy(&self, alloc: Global) -> Result<Self, AllocError> {
        let name = self.name.copy(alloc)?;
        Ok(CreateTopics {
            name,
            partitions: self.partitions,
        })
    }

    fn same(&self, other: &Self) -> bool {
        self.name.same(&other.name) && self.partitions == other.partitions
    }
}

impl PlainValue for DeleteTopics {
    fn copy(&self, alloc: Global) -> Result<Self, AllocError> {
        let name = self.name.copy(alloc)?;
        Ok(DeleteTopics { name })
    }

    fn same(&self, other: &Self) -> bool {
        self.name.same(&other.name)
    }
}
