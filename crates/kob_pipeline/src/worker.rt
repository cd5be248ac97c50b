//! The workers of a pipeline, of all kinds.

use crate::consumer_worker::consume;
use crate::end::WorkerEnd;
use crate::plan::ConsumerPlan;
use crate::service_worker::ServiceWorker;
use kob_shared::{CallFault, Done, Gate, Script, SharedBroker, Work};
use std::alloc::Global;
use std::sync::Wait;

/// A worker of a pipeline.
#[derive(Drop)]
pub(crate) enum Worker<'a> {
    Service(ServiceWorker<'a>),
    Consumer(&'a ConsumerPlan),
    Administrator(&'a Script),
}

impl<'a> Work for Worker<'a> {
    ghost use Rattle.kob_pipeline.specs.Steps.{IsLeft, planned_as};

    type Shared = SharedBroker;

    type End = WorkerEnd;

    ghost keeps = { λ worker _ noted end. IsLeft (planned_as worker) noted end };

    /// Does the work of its kind of worker.
    fn work<R: Wait, G: Gate>(
        &self,
        rt: &R,
        alloc: Global,
        worker: usize,
        shared: &SharedBroker,
        gate: &G,
    ) -> Result<Done<WorkerEnd>, CallFault> {
        match self {
            Worker::Service(service) => service.work(rt, alloc, worker, shared, gate),
            Worker::Consumer(consumer) => consume(consumer, rt, alloc, worker, shared, gate),
            Worker::Administrator(script) => {
                let done = script.work(rt, alloc, worker, shared, gate)?;
                Ok(Done {
                    notes: done.notes,
                    end: WorkerEnd::Nothing,
                })
            }
        }
    }
}
