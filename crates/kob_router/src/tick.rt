//! What one step of a router returns.

use kob_rights::Reply;
use std::alloc::AllocError;

/// Why a step of a router or of a consumer stopped. What was in hand stays in hand.
#[derive(Debug, Drop)]
pub enum StopReason {
    /// The broker denied or refused the request, with this reply.
    Rejected(Reply),
    /// The route makes no valid topic name of the first row after the mark. No call was made except
    /// for a producer id. A consumer never stops so.
    BadTopic,
    /// Out of memory. A router made no call except for a producer id, or what was sent is done and
    /// the mark could not be moved. A consumer sent nothing, or its inbox took in only a prefix of
    /// the records that were received.
    Memory(AllocError),
    /// The database failed. What a router sent is done, and the mark could not be moved. The inbox
    /// of a consumer took in only a prefix of the records that were received.
    Store,
}

/// What one step of a router did.
#[derive(Debug, Drop)]
pub enum Tick {
    /// The row is acknowledged, and the mark moved to this number.
    Moved(u64),
    /// No row waits.
    Idle,
    /// The last call was lost: the next step makes the same call again.
    Repeat,
    /// A row in flight stays in flight, and the mark stays.
    Stopped(StopReason),
}
