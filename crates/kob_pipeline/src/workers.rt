//! The workers of a plan, in the order of their numbers.

ghost use Rattle.std.specs.Prelude.{◌≡◌, ◌≤◌, map, IfOk};
ghost use Rattle.std.specs.List.{All};
ghost use Rattle.kob_pipeline.specs.Steps.{planned_as, planned_workers};

use crate::plan::Plan;
use crate::service_worker::ServiceWorker;
use crate::worker::Worker;
use std::alloc::{AllocError, Global};

/// The workers of a plan: services, then consumers, then administrators. The error is out of
/// memory.
pub(crate) fn workers_of(alloc: Global, plan: &Plan) -> Result<Vec<Worker<'_>>, AllocError>
    requires { All (λ s. (1 ≤ s.target.partitions) × (s.target.partitions ≤ 1000))
        plan.now.services.items }
    ensures { IfOk result (λ workers. map planned_as workers.items ≡ planned_workers plan.now) }
{
    let mut workers = Vec::new(alloc);
    for service in &plan.services {
        workers.push(Worker::Service(ServiceWorker::new(service)))?;
    }
    for consumer in &plan.consumers {
        workers.push(Worker::Consumer(consumer))?;
    }
    for script in &plan.administrators {
        workers.push(Worker::Administrator(script))?;
    }
    Ok(workers)
}
