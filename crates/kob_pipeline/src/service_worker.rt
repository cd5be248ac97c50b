//! Workers that are services.

ghost use Rattle.std.specs.Prelude.{◌≡◌, ◌≤◌, IfOk};
ghost use Rattle.kob_pipeline.specs.Steps.{IsLeft, IsOutboxLeft};
ghost use Rattle.kob_pipeline.specs.Steps.Planned.{Serving as PlannedService};

use crate::desk::desk_at;
use crate::end::{OutboxEnd, WorkerEnd};
use crate::line::DeskLine;
use crate::plan::Service;
use crate::posting::Posting;
use crate::step_fault::StepFault;
use kob_shared::{CallFault, Done, Gate, SharedBroker};
use std::alloc::Global;
use std::marker::Model;
use std::sync::Wait;

/// A service whose number of partitions is within the limits.
#[derive(Drop)]
pub(crate) struct ServiceWorker<'a> {
    service: &'a Service,
}

impl<'a> Model for ServiceWorker<'a> {
    ghost use Rattle.std.specs.Prelude.{◌≤◌};
    ghost use Rattle.kob_pipeline.specs.declared.plan.Service.{Service};

    ghost Value = { Service };

    ghost view = { λ worker. worker.service.now };

    ghost invariant = { λ worker. (1 ≤ worker.service.now.target.partitions)
        × (worker.service.now.target.partitions ≤ 1000) };
}

impl<'a> ServiceWorker<'a> {
    pub(crate) fn new(service: &'a Service) -> ServiceWorker<'a>
        requires some { 1 ≤ service.now.target.partitions }
        requires most { service.now.target.partitions ≤ 1000 }
        ensures { result ≡ service.now }
    {
        ServiceWorker { service }
    }

    /// Makes the steps of the service in a database of its own.
    pub(crate) fn work<R: Wait, G: Gate>(
        &self,
        rt: &R,
        alloc: Global,
        worker: usize,
        shared: &SharedBroker,
        gate: &G,
    ) -> Result<Done<WorkerEnd>, CallFault>
        ensures { IfOk result (λ d. IsLeft (PlannedService self.now) d.notes d.end) }
    {
        let service = self.service;
        let desk = desk_at(alloc, shared, worker, &service.principal, &service.host)?;
        let mut line = DeskLine::open(rt, alloc, gate, worker, desk);
        match self.leave(alloc, &mut line) {
            Ok(left) => Ok(Done {
                notes: line.settle(),
                end: WorkerEnd::Outbox(left),
            }),
            Err(StepFault::Store) => Ok(Done {
                notes: line.close(),
                end: WorkerEnd::StoreRefused,
            }),
            Err(StepFault::Call(fault)) => Err(fault),
        }
    }

    /// What the database holds after the steps.
    fn leave<R: Wait, G: Gate>(
        &self,
        alloc: Global,
        line: &mut DeskLine<'_, R, G>,
    ) -> Result<OutboxEnd, StepFault>
        requires { line.old.calls.unmade ≡ 0 }
        ensures { IfOk result (IsOutboxLeft self.now line.old.desk line.new.desk) }
    {
        let mut posting = Posting::open(alloc, self.service)?;
        posting.run(alloc, line, &self.service.steps)?;
        posting.close()
    }
}
