//! The error codes of Kafka's protocol that replies carry.

ghost use Rattle.std.specs.Prelude.{◌≡◌};
ghost use Rattle.kob_rights.specs.Reason.{code_number, code_name};

use kob_names::PlainValue;
use std::alloc::{AllocError, Global};

/// An error code of Kafka's protocol (its guide, "Error Codes").
#[derive(Clone, Copy, Debug, PartialEq, Eq)]
pub enum Code {
    OffsetOutOfRange,
    UnknownTopicOrPartition,
    MessageTooLarge,
    InvalidTopicException,
    InvalidGroupId,
    TopicAuthorizationFailed,
    GroupAuthorizationFailed,
    ClusterAuthorizationFailed,
    TopicAlreadyExists,
    InvalidPartitions,
    InvalidRequest,
    OutOfOrderSequenceNumber,
    InvalidProducerEpoch,
    UnknownProducerId,
    GroupIdNotFound,
}

impl Code {
    /// The code's number in the protocol.
    pub fn number(self) -> u64
        ensures { result ≡ code_number self }
    {
        match self {
            Code::OffsetOutOfRange => 1,
            Code::UnknownTopicOrPartition => 3,
            Code::MessageTooLarge => 10,
            Code::InvalidTopicException => 17,
            Code::InvalidGroupId => 24,
            Code::TopicAuthorizationFailed => 29,
            Code::GroupAuthorizationFailed => 30,
            Code::ClusterAuthorizationFailed => 31,
            Code::TopicAlreadyExists => 36,
            Code::InvalidPartitions => 37,
            Code::InvalidRequest => 42,
            Code::OutOfOrderSequenceNumber => 45,
            Code::InvalidProducerEpoch => 47,
            Code::UnknownProducerId => 59,
            Code::GroupIdNotFound => 69,
        }
    }

    /// The code's name in the protocol, in capitals.
    pub fn name(self) -> &'static str
        ensures { result.now ≡ code_name self }
    {
        match self {
            Code::OffsetOutOfRange => "OFFSET_OUT_OF_RANGE",
            Code::UnknownTopicOrPartition => "UNKNOWN_TOPIC_OR_PARTITION",
            Code::MessageTooLarge => "MESSAGE_TOO_LARGE",
            Code::InvalidTopicException => "INVALID_TOPIC_EXCEPTION",
            Code::InvalidGroupId => "INVALID_GROUP_ID",
            Code::TopicAuthorizationFailed => "TOPIC_AUTHORIZATION_FAILED",
            Code::GroupAuthorizationFailed => "GROUP_AUTHORIZATION_FAILED",
            Code::ClusterAuthorizationFailed => "CLUSTER_AUTHORIZATION_FAILED",
            Code::TopicAlreadyExists => "TOPIC_ALREADY_EXISTS",
            Code::InvalidPartitions => "INVALID_PARTITIONS",
            Code::InvalidRequest => "INVALID_REQUEST",
            Code::OutOfOrderSequenceNumber => "OUT_OF_ORDER_SEQUENCE_NUMBER",
            Code::InvalidProducerEpoch => "INVALID_PRODUCER_EPOCH",
            Code::UnknownProducerId => "UNKNOWN_PRODUCER_ID",
            Code::GroupIdNotFound => "GROUP_ID_NOT_FOUND",
        }
    }
}

impl PlainValue for Code {
    fn copy(&self, _alloc: Global) -> Result<Self, AllocError> {
        Ok(*self)
    }

    fn same(&self, other: &Self) -> bool {
        self == other
    }
}
