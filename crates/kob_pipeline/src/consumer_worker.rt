//! Workers that are consumers.

ghost use Rattle.std.specs.Prelude.{◌≡◌, IfOk};
ghost use Rattle.kob_pipeline.specs.Steps.{IsInboxLeft, IsLeft};
ghost use Rattle.kob_pipeline.specs.Steps.Planned.{Consuming as PlannedConsumer};

use crate::consuming::Consuming;
use crate::desk::desk_at;
use crate::end::{InboxEnd, WorkerEnd};
use crate::line::DeskLine;
use crate::plan::ConsumerPlan;
use crate::step_fault::StepFault;
use kob_shared::{CallFault, Done, Gate, SharedBroker};
use std::alloc::Global;
use std::sync::Wait;

/// Makes the steps of a consumer in a database of its own.
pub(crate) fn consume<R: Wait, G: Gate>(
    consumer: &ConsumerPlan,
    rt: &R,
    alloc: Global,
    worker: usize,
    shared: &SharedBroker,
    gate: &G,
) -> Result<Done<WorkerEnd>, CallFault>
    ensures { IfOk result (λ d. IsLeft (PlannedConsumer consumer.now) d.notes d.end) }
{
    let desk = desk_at(alloc, shared, worker, &consumer.principal, &consumer.host)?;
    let mut line = DeskLine::open(rt, alloc, gate, worker, desk);
    match leave(consumer, alloc, &mut line) {
        Ok(left) => Ok(Done {
            notes: line.settle(),
            end: WorkerEnd::Inbox(left),
        }),
        Err(StepFault::Store) => Ok(Done {
            notes: line.close(),
            end: WorkerEnd::StoreRefused,
        }),
        Err(StepFault::Call(fault)) => Err(fault),
    }
}

/// What the database holds after the steps.
fn leave<R: Wait, G: Gate>(
    consumer: &ConsumerPlan,
    alloc: Global,
    line: &mut DeskLine<'_, R, G>,
) -> Result<InboxEnd, StepFault>
    requires { line.old.calls.unmade ≡ 0 }
    ensures { IfOk result (IsInboxLeft consumer.now line.old.desk line.new.desk) }
{
    let mut at_work = Consuming::open(alloc, consumer)?;
    at_work.run(alloc, line, &consumer.steps)?;
    at_work.close()
}
