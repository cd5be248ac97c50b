//! Pipelines.

ghost use Rattle.std.specs.Prelude.{◌≡◌, ◌+◌, ◌<◌, ◌≤◌, ◌↔◌, ◌++◌, length, map, IfErr, IfOk};
ghost use Rattle.std.specs.Prelude.{IsErrOf, IsTrue};
ghost use Rattle.std.specs.List.{All, AllZip};
ghost use Rattle.kob_broker.specs.Step.{state_of};
ghost use Rattle.kob_broker.specs.State.{settings_of};
ghost use Rattle.kob_shared.specs.Fleets.{Follows};
ghost use Rattle.kob_shared.specs.Journals.{IsSound, entry_limit, worker_limit, opened_by};
ghost use Rattle.kob_pipeline.specs.Plans.{entries_planned, workers_planned, IsRunnable};
ghost use Rattle.kob_pipeline.specs.Pipelines.{IsLater, IsTornOnlyWhere, NamesWorkerWithin, IsEnd};
ghost use Rattle.kob_pipeline.specs.Pipelines.{IsPipeline};
ghost use Rattle.kob_pipeline.specs.Steps.{IsLeft, IsWhole, planned_as};

use crate::end::{PipelineEnd, WorkerEnd};
use crate::fault::PipelineFault;
use crate::plan::Plan;
use crate::room::{has_few_workers, has_room};
use crate::worker::Worker;
use crate::workers::workers_of;
use kob_broker::{Broker, OpenFault, Settings};
use kob_names::PlainValue;
use kob_rights::Event;
use kob_shared::{Difference, Done, Gate, Ran, find_tear, run_fleet};
use std::alloc::{AllocError, Global};
use std::sync::Wait;
use std::thread::Threads;

/// Opens a broker with the plan's settings, and serves the first events as worker 0. Then each
/// service, consumer and administrator makes its steps in a thread of its own, with a database of
/// its own. The gate is asked before each request, also one that is lost, and once after the last.
/// `Plan::is_runnable` returns whether a plan may be run.
///
/// `TooManyWorkers` is returned first, then `JournalFull`, both before anything begins. After any
/// fault nothing is returned except what `Torn` holds.
pub fn pipeline<R: Threads + Wait + Sync, G: Gate + Sync>(
    rt: &R,
    alloc: Global,
    plan: &Plan,
    gate: &G,
) -> Result<PipelineEnd, PipelineFault>
    requires { IsRunnable plan.now }
    ensures ok { IfOk result (IsPipeline plan.now) }
    ensures workers { IsErrOf result PipelineFault.TooManyWorkers
        ↔ (worker_limit < workers_planned plan.now) }
    ensures full { IsErrOf result PipelineFault.JournalFull
        ↔ ((workers_planned plan.now ≤ worker_limit)
        × (entry_limit < entries_planned plan.now)) }
    ensures torn { IfErr result (IsTornOnlyWhere (settings_of (opened_by plan.now.settings))) }
    ensures named { IfErr result (NamesWorkerWithin (workers_planned plan.now)) }
{
    if !has_few_workers(plan) {
        return Err(PipelineFault::TooManyWorkers);
    }
    if !has_room(plan) {
        return Err(PipelineFault::JournalFull);
    }
    let workers = workers_of(alloc, plan)?;
    let (broker, opening, first) = opened(alloc, plan)?;
    let ran = run_fleet(rt, alloc, broker, first, &workers, gate)?;
    end_of(&opening, ran, &workers)
}

/// A broker as the plan opens it, a copy of its settings, and the first events. The error is out of
/// memory.
fn opened(alloc: Global, plan: &Plan) -> Result<(Broker, Settings, Vec<Event>), AllocError>
    requires { length plan.now.settings.opening ≤ 100000 }
    ensures broker { IfOk result (λ o. state_of o.0 ≡ opened_by plan.now.settings) }
    ensures opening { IfOk result (λ o. o.1 ≡ settings_of (opened_by plan.now.settings)) }
    ensures first { IfOk result (λ o. o.2.items ≡ plan.now.first) }
{
    let first = plan.first.copy(alloc)?;
    let broker = match Broker::open(alloc, plan.settings.copy(alloc)?) {
        Ok(broker) => broker,
        Err(OpenFault::Memory(refused)) => return Err(refused),
        Err(OpenFault::TooMany) => unreachable!(),
    };
    let opening = broker.opening(alloc)?;
    Ok((broker, opening, first.into_vec()))
}

/// Compares the journal with the workers' notes, and returns what they left. The error is `Store` if
/// a worker's database failed.
fn end_of(
    opening: &Settings,
    ran: Ran<WorkerEnd>,
    workers: &[Worker<'_>],
) -> Result<PipelineEnd, PipelineFault>
    requires sound { IsSound ran.found }
    requires first { Follows 0 ran.first.told }
    requires each { AllZip (λ w d. IsLeft (planned_as w) d.notes d.end) workers.now ran.done.items }
    ensures ok { IfOk result
        (IsEnd (opened_by opening.now) ran.first.events (map planned_as workers.now)) }
    ensures torn { IfErr result (IsTornOnlyWhere opening.now) }
    ensures later { IfErr result IsLater }
    ensures named { IfErr result (NamesWorkerWithin 0) }
{
    let _answered = ran.first.receipts();
    if !are_whole(&ran.done) {
        return Err(PipelineFault::Store);
    }
    match find_tear(opening, &ran) {
        Some(Difference { worker, place }) => Err(PipelineFault::Torn { worker, place, ran }),
        None => Ok(end_with(ran)),
    }
}

/// Whether no worker's database failed. Then what each left is whole.
fn are_whole(done: &[Done<WorkerEnd>]) -> bool
    ensures { IsTrue result → All IsWhole done.now }
{
    for one in done {
        let _answered = one.notes.receipts();
        if let WorkerEnd::StoreRefused = one.end {
            return false;
        }
    }
    true
}

/// The result of a pipeline whose journal is what the workers noted. Does not allocate.
fn end_with(ran: Ran<WorkerEnd>) -> PipelineEnd
    ensures broker { state_of result.broker ≡ ran.found.broker }
    ensures journal { result.journal ≡ ran.found.journal }
    ensures first { result.first ≡ ran.first }
    ensures done { result.done.items ≡ ran.done.items }
{
    let Ran { found, first, done } = ran;
    let (broker, journal) = found.into_parts();
    PipelineEnd {
        broker,
        journal,
        first,
        done,
    }
}
