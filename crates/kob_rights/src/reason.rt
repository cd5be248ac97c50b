//! Why a request whose rights are granted is refused.

ghost use Rattle.std.specs.Prelude.{◌≡◌};
ghost use Rattle.kob_rights.specs.Reason.{code_of, reason_name};

use crate::code::Code;
use kob_names::PlainValue;
use std::alloc::{AllocError, Global};

/// Why a request whose rights are granted is refused.
#[derive(Clone, Copy, Debug, PartialEq, Eq)]
pub enum Reason {
    /// No topic has the name.
    UnknownTopic,
    /// The topic has no partition of the number.
    UnknownPartition,
    /// The batch has no records.
    NoRecords,
    /// The batch has more than 1,000 records.
    TooManyRecords,
    /// The batch's keys, values, header names and header values have more than 2,097,152 bytes
    /// together.
    TooLarge,
    /// The batch would end past the greatest offset, 9,223,372,036,854,775,807.
    OffsetsSpent,
    /// The offset is below the partition's start or above its end.
    OutOfRange,
    /// The name is not a valid topic name.
    BadTopicName,
    /// There is a topic of that name already.
    TopicExists,
    /// The number of partitions is not from 1 to 1,000.
    BadPartitions,
    /// There are 10,000 topics already.
    TooManyTopics,
    /// The name of a binding's pattern is empty.
    EmptyName,
    /// A binding on the cluster has another name than `kafka-cluster`.
    BadCluster,
    /// The name of a binding's pattern has more than 255 bytes.
    NameTooLong,
    /// There would be more than 100,000 bindings.
    TooManyBindings,
    /// A new binding's serial would not be below 18,446,744,073,709,551,615.
    SerialsSpent,
    /// The epoch is above 32,767 or the base above 2,147,483,647.
    BadSequence,
    /// INIT_PRODUCER_ID never returned the producer id.
    UnknownProducer,
    /// A batch of a higher epoch was accepted.
    OldEpoch,
    /// The base is not the next sequence.
    OutOfOrder,
    /// The group's name does not have 1 to 255 bytes.
    BadGroupName,
    /// The offset is above 9,223,372,036,854,775,807.
    BadOffset,
    /// There are 10,000 groups already.
    TooManyGroups,
    /// No group has the name.
    GroupNotFound,
    /// A new id would not be below 18,446,744,073,709,551,615.
    ProducerIdsSpent,
}

impl Reason {
    /// The error code of the reason.
    pub fn code(self) -> Code
        ensures { result ≡ code_of self }
    {
        match self {
            Reason::UnknownTopic | Reason::UnknownPartition => Code::UnknownTopicOrPartition,
            Reason::TooLarge => Code::MessageTooLarge,
            Reason::UnknownProducer => Code::UnknownProducerId,
            Reason::OldEpoch => Code::InvalidProducerEpoch,
            Reason::OutOfOrder => Code::OutOfOrderSequenceNumber,
            Reason::BadGroupName => Code::InvalidGroupId,
            Reason::GroupNotFound => Code::GroupIdNotFound,
            Reason::OutOfRange => Code::OffsetOutOfRange,
            Reason::BadTopicName => Code::InvalidTopicException,
            Reason::TopicExists => Code::TopicAlreadyExists,
            Reason::BadPartitions => Code::InvalidPartitions,
            Reason::NoRecords
            | Reason::TooManyRecords
            | Reason::OffsetsSpent
            | Reason::TooManyTopics
            | Reason::EmptyName
            | Reason::BadCluster
            | Reason::NameTooLong
            | Reason::TooManyBindings
            | Reason::SerialsSpent
            | Reason::BadSequence
            | Reason::BadOffset
            | Reason::TooManyGroups
            | Reason::ProducerIdsSpent => Code::InvalidRequest,
        }
    }

    /// The reason's name, as it is printed.
    pub fn name(self) -> &'static str
        ensures { result.now ≡ reason_name self }
    {
        match self {
            Reason::UnknownTopic => "UnknownTopic",
            Reason::UnknownPartition => "UnknownPartition",
            Reason::NoRecords => "NoRecords",
            Reason::TooManyRecords => "TooManyRecords",
            Reason::TooLarge => "TooLarge",
            Reason::OffsetsSpent => "OffsetsSpent",
            Reason::OutOfRange => "OutOfRange",
            Reason::BadTopicName => "BadTopicName",
            Reason::TopicExists => "TopicExists",
            Reason::BadPartitions => "BadPartitions",
            Reason::TooManyTopics => "TooManyTopics",
            Reason::EmptyName => "EmptyName",
            Reason::BadCluster => "BadCluster",
            Reason::NameTooLong => "NameTooLong",
            Reason::TooManyBindings => "TooManyBindings",
            Reason::SerialsSpent => "SerialsSpent",
            Reason::BadSequence => "BadSequence",
            Reason::UnknownProducer => "UnknownProducer",
            Reason::OldEpoch => "OldEpoch",
            Reason::OutOfOrder => "OutOfOrder",
            Reason::BadGroupName => "BadGroupName",
            Reason::BadOffset => "BadOffset",
            Reason::TooManyGroups => "TooManyGroups",
            Reason::GroupNotFound => "GroupNotFound",
            Reason::ProducerIdsSpent => "ProducerIdsSpent",
        }
    }
}

impl PlainValue for Reason {
    fn copy(&self, _alloc: Global) -> Result<Self, AllocError> {
        Ok(*self)
    }

    fn same(&self, other: &Self) -> bool {
        self == other
    }
}
