//! The end of a pipeline, compared with what is expected.

ghost use Rattle.kob_pipeline.specs.Pipelines.{IsPipeline};

use crate::fixtures::answer;
use crate::plans::FIRST_EVENTS;
use kob_broker::Broker;
use kob_delivery::first_breach;
use kob_inbox::InboxRow;
use kob_names::{Record, Verdict};
use kob_pipeline::{PipelineEnd, Plan, WorkerEnd, consumer_law, pipeline_law, router_law};
use kob_rights::{Body, Code, Reply};
use kob_router::event_id;
use std::alloc::Global;
use uuid::Uuid;

/// The expected end of a pipeline whose service recorded the events `RECORDED`.
#[derive(Clone, Copy)]
pub(crate) struct Due<'t> {
    /// The number of calls that were served, besides the first events.
    pub(crate) calls: usize,
    /// The numbers of the ids of the topic's records, in order.
    pub(crate) topic: &'t [u128],
    /// What the group `g` has committed. If it has not, the last reply to worker 2 denies its right
    /// to the group.
    pub(crate) commit: Option<u64>,
}

/// The numbers of the ids of the events that a service recorded, in order. Every inbox holds them
/// at the end, and the service's mark is at the last.
pub(crate) const RECORDED: [u128; 2] = [0xA, 0xB];

/// Whether the journal breaks no premise of the law of delivery, for the service and each consumer.
pub(crate) fn breaks_no_premise(plan: &Plan, end: &PipelineEnd) -> bool {
    for (k, consumer) in plan.consumers.iter().enumerate() {
        let reads = &consumer.subscription;
        let assignment = reads.assignment.as_slice();
        if first_breach(&end.journal, 1, k + 2, &reads.group, assignment).is_some() {
            return false;
        }
    }
    true
}

/// Calls the laws. What they say is proved; the call shows that they apply to the end of a
/// pipeline.
pub(crate) fn call_laws(plan: &Plan, end: &PipelineEnd)
    requires { IsPipeline plan.now end.now }
{
    router_law(plan, end);
    consumer_law(plan, end);
    pipeline_law(plan, end);
}

/// Whether an inbox holds at least this number of events, which are the first that were recorded,
/// in order, each once.
fn begins(rows: &[InboxRow], least: usize) -> bool {
    for (row, id) in rows.iter().zip(RECORDED) {
        if row.id != Uuid::from_u128(id) {
            return false;
        }
    }
    least <= rows.len() && rows.len() <= RECORDED.len()
}

/// Whether each inbox does.
pub(crate) fn each_begins(end: &PipelineEnd, least: usize) -> bool {
    for one in &end.done {
        if let WorkerEnd::Inbox(inbox) = &one.end
            && !begins(&inbox.rows, least)
        {
            return false;
        }
    }
    true
}

/// Whether the group `g` has committed this on the topic.
fn is_committed(alloc: Global, broker: &mut Broker, due: Option<u64>) -> bool {
    match answer(
        alloc,
        broker,
        "User:root h committed g outbox.event.orders 0",
    ) {
        Some(Reply::Done(Body::Commit(found))) => found == due,
        _ => false,
    }
}

fn are_of(found: &[(u64, Record)], ids: &[u128]) -> bool {
    for (entry, id) in found.iter().zip(ids) {
        if event_id(&entry.1) != Some(Uuid::from_u128(*id)) {
            return false;
        }
    }
    found.len() == ids.len()
}

/// Whether the topic holds records of these ids, in order.
pub(crate) fn are_records(alloc: Global, broker: &mut Broker, ids: &[u128]) -> bool {
    match answer(
        alloc,
        broker,
        "User:root h fetch outbox.event.orders 0 0 100",
    ) {
        Some(Reply::Done(Body::Records(found))) => are_of(found.as_slice(), ids),
        _ => false,
    }
}

/// Whether the service's mark is at the last event.
pub(crate) fn is_marked(end: &PipelineEnd) -> bool {
    let Some(service) = end.done.get(0) else {
        return false;
    };
    match &service.end {
        WorkerEnd::Outbox(left) => left.mark == RECORDED.len() as u64,
        _ => false,
    }
}

/// Whether the last reply to worker 2 denies its right to the group, since no binding allows it.
fn is_denied(end: &PipelineEnd) -> bool {
    let Some(consumer) = end.done.get(1) else {
        return false;
    };
    match consumer.notes.receipts().last() {
        Some(receipt) => match &receipt.reply {
            Reply::Denied { code, verdicts } => {
                matches!(code, Code::GroupAuthorizationFailed)
                    && matches!(verdicts.as_slice(), [Verdict::NoAllow])
            }
            _ => false,
        },
        None => false,
    }
}

/// Whether a pipeline left what is expected.
pub(crate) fn is_due(alloc: Global, end: &mut PipelineEnd, due: Due<'_>) -> bool {
    end.journal.len().checked_sub(FIRST_EVENTS) == Some(due.calls)
        && each_begins(end, RECORDED.len())
        && is_marked(end)
        && is_denied(end) == due.commit.is_none()
        && are_records(alloc, &mut end.broker, due.topic)
        && is_committed(alloc, &mut end.broker, due.commit)
}
