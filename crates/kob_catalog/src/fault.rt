//! Faults of a catalog.

use std::alloc::AllocError;
use thiserror::Error;

/// Why a topic was not created.
#[derive(Clone, Copy, Debug, PartialEq, Eq, Error)]
pub enum CreateFault {
    /// There is a topic of that name already.
    #[error("the topic already exists")]
    Exists,
    /// The number of partitions is not from 1 to 1,000.
    #[error("the number of partitions must be 1 to 1,000")]
    BadPartitions,
    /// There are 10,000 topics already.
    #[error("too many topics")]
    TooMany,
    #[error("out of memory")]
    Memory(AllocError),
}

/// No topic has the name.
#[derive(Clone, Copy, Debug, PartialEq, Eq, Error)]
#[error("unknown topic")]
pub struct UnknownTopic;

/// Why a partition was not found.
#[derive(Clone, Copy, Debug, PartialEq, Eq, Error)]
pub enum PartitionFault {
    /// No topic has the name.
    #[error("unknown topic")]
    UnknownTopic,
    /// The topic has no partition of the number.
    #[error("unknown partition")]
    UnknownPartition,
}
