//! Requests: one variant for each kind. They have names and numbers as they were sent.

use crate::on_acls::{CreateAcls, DeleteAcls, DescribeAcls};
use crate::on_groups::{DeleteGroups, OffsetCommit, OffsetFetch};
use crate::on_partitions::{DeleteRecords, Fetch, ListOffsets, Produce};
use crate::on_topics::{CreateTopics, DeleteTopics, Metadata};
use kob_names::PlainValue;
use std::alloc::{AllocError, Global};

/// A request of one kind, by the names of Kafka's protocol.
#[derive(Debug, Drop)]
pub enum Request {
    Produce(Produce),
    Fetch(Fetch),
    ListOffsets(ListOffsets),
    Metadata(Metadata),
    OffsetCommit(OffsetCommit),
    OffsetFetch(OffsetFetch),
    /// LIST_GROUPS: the groups that the principal may describe.
    ListGroups,
    DeleteGroups(DeleteGroups),
    CreateTopics(CreateTopics),
    DeleteTopics(DeleteTopics),
    DeleteRecords(DeleteRecords),
    /// INIT_PRODUCER_ID: an id for an idempotent producer.
    InitProducerId,
    DescribeAcls(DescribeAcls),
    CreateAcls(CreateAcls),
    DeleteAcls(DeleteAcls),
}

impl PlainValue for Request {
    fn copy(&self, alloc: Global) -> Result<Self, AllocError> {
        match self {
            Request::Produce(asked) => Ok(Request::Produce(asked.copy(alloc)?)),
            Request::Fetch(asked) => Ok(Request::Fetch(asked.copy(alloc)?)),
            Request::ListOffsets(asked) => Ok(Request::ListOffsets(asked.copy(alloc)?)),
            Request::Metadata(asked) => Ok(Request::Metadata(asked.copy(alloc)?)),
            Request::OffsetCommit(asked) => Ok(Request::OffsetCommit(asked.copy(alloc)?)),
            Request::OffsetFetch(asked) => Ok(Request::OffsetFetch(asked.copy(alloc)?)),
            Request::ListGroups => Ok(Request::ListGroups),
            Request::DeleteGroups(asked) => Ok(Request::DeleteGroups(asked.copy(alloc)?)),
            Request::CreateTopics(asked) => Ok(Request::CreateTopics(asked.copy(alloc)?)),
            Request::DeleteTopics(asked) => Ok(Request::DeleteTopics(asked.copy(alloc)?)),
            Request::DeleteRecords(asked) => Ok(Request::DeleteRecords(asked.copy(alloc)?)),
            Request::InitProducerId => Ok(Request::InitProducerId),
            Request::DescribeAcls(asked) => Ok(Request::DescribeAcls(asked.copy(alloc)?)),
            Request::CreateAcls(asked) => Ok(Request::CreateAcls(asked.copy(alloc)?)),
            Request::DeleteAcls(asked) => Ok(Request::DeleteAcls(asked.copy(alloc)?)),
        }
    }

    fn same(&self, other: &Self) -> bool {
        match (self, other) {
            (Request::Produce(one), Request::Produce(two)) => one.same(two),
            (Request::Fetch(one), Request::Fetch(two)) => one.same(two),
            (Request::ListOffsets(one), Request::ListOffsets(two)) => one.same(two),
            (Request::Metadata(one), Request::Metadata(two)) => one.same(two),
            (Request::OffsetCommit(one), Request::OffsetCommit(two)) => one.same(two),
            (Request::OffsetFetch(one), Request::OffsetFetch(two)) => one.same(two),
            (Request::ListGroups, Request::ListGroups) => true,
            (Request::DeleteGroups(one), Request::DeleteGroups(two)) => one.same(two),
            (Request::CreateTopics(one), Request::CreateTopics(two)) => one.same(two),
            (Request::DeleteTopics(one), Request::DeleteTopics(two)) => one.same(two),
            (Request::DeleteRecords(one), Request::DeleteRecords(two)) => one.same(two),
            (Request::InitProducerId, Request::InitProducerId) => true,
            (Request::DescribeAcls(one), Request::DescribeAcls(two)) => one.same(two),
            (Request::CreateAcls(one), Request::CreateAcls(two)) => one.same(two),
            (Request::DeleteAcls(one), Request::DeleteAcls(two)) => one.same(two),
            _ => false,
        }
    }
}
