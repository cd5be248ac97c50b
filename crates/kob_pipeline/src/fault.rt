//! Why pipelines do not run to their end.

use crate::end::WorkerEnd;
use kob_shared::{FleetStop, Ran};
use std::alloc::AllocError;

/// Why a pipeline did not run to its end.
#[derive(Drop)]
pub enum PipelineFault {
    /// There are more than 64 workers.
    TooManyWorkers,
    /// The first events, the administrators' requests and two calls for each step of a service or a
    /// consumer are more than 1,000,000.
    JournalFull,
    /// The workers stopped before their notes were compared. `Memory` is also what kept a row from a
    /// worker's database or a call from its notes. `Full` is a session's, although the counts fit.
    Stopped(FleetStop),
    /// A worker's database failed for another cause than out of memory.
    Store,
    /// The journal and the worker's receipts differ at the place.
    Torn {
        worker: usize,
        place: usize,
        ran: Ran<WorkerEnd>,
    },
}

impl From<AllocError> for PipelineFault {
    ghost use Rattle.std.specs.Prelude.{◌≡◌};
    ghost use Rattle.kob_pipeline.specs.declared.fault.PipelineFault.TheVariants.{Stopped};
    ghost use Rattle.kob_shared.specs.declared.fleet_stop.FleetStop.TheVariants.{Memory};

    ghost from_gives = { λ refused fault. fault ≡ Stopped (Memory refused) };

    fn from(refused: AllocError) -> PipelineFault {
        PipelineFault::Stopped(FleetStop::Memory(refused))
    }
}

impl From<FleetStop> for PipelineFault {
    ghost use Rattle.std.specs.Prelude.{◌≡◌};
    ghost use Rattle.kob_pipeline.specs.declared.fault.PipelineFault.TheVariants.{Stopped};

    ghost from_gives = { λ stop fault. fault ≡ Stopped stop };

    fn from(stop: FleetStop) -> PipelineFault {
        PipelineFault::Stopped(stop)
    }
}
