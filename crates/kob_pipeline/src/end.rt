//! The result of a pipeline.

use kob_broker::Broker;
use kob_inbox::InboxRow;
use kob_outbox::Row;
use kob_shared::{Done, Journal, Notes};

/// What a service's outbox holds at its end.
#[derive(Drop)]
pub struct OutboxEnd {
    /// The rows that were not swept, by ascending number.
    pub rows: Vec<Row>,
    /// The number up to which the rows are acknowledged, or 0.
    pub mark: u64,
}

/// What a consumer's inbox holds at its end.
#[derive(Drop)]
pub struct InboxEnd {
    /// In the order of their intake.
    pub rows: Vec<InboxRow>,
}

/// The result of a worker of a pipeline, besides its notes.
#[derive(Drop)]
pub enum WorkerEnd {
    /// What a service left.
    Outbox(OutboxEnd),
    /// What a consumer left.
    Inbox(InboxEnd),
    /// An administrator leaves its notes alone.
    Nothing,
    /// A worker's database failed for another cause than out of memory. No pipeline ends so.
    StoreRefused,
}

/// The result of a pipeline: the broker, the journal, the notes of worker 0, and what each further
/// worker noted and left, from worker 1 on.
#[derive(Drop)]
pub struct PipelineEnd {
    pub broker: Broker,
    pub journal: Journal,
    pub first: Notes,
    pub done: Vec<Done<WorkerEnd>>,
}
