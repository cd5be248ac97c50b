//! Replies.

use crate::code::Code;
use crate::reason::Reason;
use kob_names::{Binding, Items, PlainValue, Record, Text, Verdict};
use std::alloc::{AllocError, Global};

/// The content of a reply to a request that is done.
#[derive(Debug, Drop)]
pub enum Body {
    /// The topic is created.
    Created,
    /// The topic or the group is deleted.
    Deleted,
    /// The offset is committed.
    Committed,
    /// The serials of the bindings of a CREATE_ACLS, in the order of its drafts.
    Serials(Items<u64>),
    /// Bindings with their serials, by ascending serial.
    Bindings(Items<(u64, Binding)>),
    /// The first offset of a batch, or the offset that was requested.
    Offset(u64),
    /// The start of a partition after a DELETE_RECORDS.
    Start(u64),
    /// The committed offset, or none.
    Commit(Option<u64>),
    /// Records with their offsets, in order.
    Records(Items<(u64, Record)>),
    /// Topics with their numbers of partitions, in order of creation.
    Topics(Items<(Text, u64)>),
    /// Groups in order of their first commit.
    Groups(Items<Text>),
    /// A producer id with its epoch.
    Producer { id: u64, epoch: u64 },
}

/// The reply to a request.
#[derive(Debug, Drop)]
pub enum Reply {
    /// A right is not granted. The verdicts are those of the alternatives of the first clause that
    /// fails.
    Denied {
        code: Code,
        verdicts: Items<Verdict>,
    },
    /// All rights are granted, but the request cannot be done.
    Refused {
        code: Code,
        reason: Reason,
    },
    /// All rights are granted, and the request is done.
    Done(Body),
}

impl PlainValue for Body {
    fn copy(&self, alloc: Global) -> Result<Self, AllocError> {
        match self {
            Body::Created => Ok(Body::Created),
            Body::Serials(serials) => Ok(Body::Serials(serials.copy(alloc)?)),
            Body::Offset(offset) => Ok(Body::Offset(*offset)),
            Body::Start(start) => Ok(Body::Start(*start)),
            Body::Records(records) => Ok(Body::Records(records.copy(alloc)?)),
            Body::Deleted => Ok(Body::Deleted),
            Body::Committed => Ok(Body::Committed),
            Body::Bindings(bindings) => Ok(Body::Bindings(bindings.copy(alloc)?)),
            Body::Commit(commit) => Ok(Body::Commit(*commit)),
            Body::Topics(topics) => Ok(Body::Topics(topics.copy(alloc)?)),
            Body::Groups(groups) => Ok(Body::Groups(groups.copy(alloc)?)),
            Body::Producer { id, epoch } => Ok(Body::Producer {
                id: *id,
                epoch: *epoch,
            }),
        }
    }

    fn same(&self, other: &Self) -> bool {
        match (self, other) {
            (Body::Created, Body::Created) => true,
            (Body::Serials(one), Body::Serials(two)) => one.same(two),
            (Body::Offset(one), Body::Offset(two)) => one == two,
            (Body::Start(one), Body::Start(two)) => one == two,
            (Body::Records(one), Body::Records(two)) => one.same(two),
            (Body::Deleted, Body::Deleted) => true,
            (Body::Committed, Body::Committed) => true,
            (Body::Bindings(one), Body::Bindings(two)) => one.same(two),
            (Body::Commit(one), Body::Commit(two)) => one.same(two),
            (Body::Topics(one), Body::Topics(two)) => one.same(two),
            (Body::Groups(one), Body::Groups(two)) => one.same(two),
            (
                Body::Producer { id, epoch },
                Body::Producer {
                    id: other_id,
                    epoch: other_epoch,
                },
            ) => id == other_id && epoch == other_epoch,
            _ => false,
        }
    }
}

impl PlainValue for Reply {
    fn copy(&self, alloc: Global) -> Result<Self, AllocError> {
        match self {
            Reply::Denied { code, verdicts } => Ok(Reply::Denied {
                code: *code,
                verdicts: verdicts.copy(alloc)?,
            }),
            Reply::Refused { code, reason } => Ok(Reply::Refused {
                code: *code,
                reason: *reason,
            }),
            Reply::Done(body) => Ok(Reply::Done(body.copy(alloc)?)),
        }
    }

    fn same(&self, other: &Self) -> bool {
        match (self, other) {
            (
                Reply::Denied { code, verdicts },
                Reply::Denied {
                    code: other_code,
                    verdicts: others,
                },
            ) => { code.same(other_code) && verdicts.same(others) }
            (
                Reply::Refused { code, reason },
                Reply::Refused {
                    code: other_code,
                    reason: other_reason,
                },
            ) => { code.same(other_code) && reason.same(other_reason) }
            (Reply::Done(one), Reply::Done(two)) => one.same(two),
            _ => false,
        }
    }
}
