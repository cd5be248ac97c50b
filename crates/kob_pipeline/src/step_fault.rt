//! Why a step ends its worker.

ghost use Rattle.std.specs.Prelude.{OnErr, OnOk};
ghost use Rattle.kob_pipeline.specs.Steps.{GoesOnAfter};

use kob_inbox::InboxFault;
use kob_outbox::{OutboxFault, RecordFault};
use kob_router::StopReason;
use kob_shared::CallFault;
use std::alloc::AllocError;

/// Why a worker ends before its last step.
#[derive(Clone, Copy)]
pub(crate) enum StepFault {
    /// A call was not served, or an allocation failed.
    Call(CallFault),
    /// The database failed for another cause than out of memory.
    Store,
}

impl From<AllocError> for StepFault {
    fn from(refused: AllocError) -> StepFault {
        StepFault::Call(CallFault::Memory(refused))
    }
}

impl From<CallFault> for StepFault {
    ghost use Rattle.std.specs.Prelude.{◌≡◌};
    ghost use Rattle.kob_pipeline.specs.declared.step_fault.StepFault.TheVariants.{Call};

    ghost from_gives = { λ fault step. step ≡ Call fault };

    fn from(fault: CallFault) -> StepFault {
        StepFault::Call(fault)
    }
}

impl From<OutboxFault> for StepFault {
    fn from(fault: OutboxFault) -> StepFault {
        match fault {
            OutboxFault::Memory(refused) => StepFault::Call(CallFault::Memory(refused)),
            OutboxFault::Store => StepFault::Store,
        }
    }
}

impl From<InboxFault> for StepFault {
    fn from(fault: InboxFault) -> StepFault {
        match fault {
            InboxFault::Memory(refused) => StepFault::Call(CallFault::Memory(refused)),
            InboxFault::Store => StepFault::Store,
        }
    }
}

/// The fault, if out of memory or the database is why a tick stopped.
pub(crate) fn goes_on_after(reason: StopReason) -> Result<(), StepFault>
    ensures ok { OnOk result (GoesOnAfter reason) }
    ensures err { OnErr result (¬ (GoesOnAfter reason)) }
{
    match reason {
        StopReason::Memory(refused) => Err(StepFault::Call(CallFault::Memory(refused))),
        StopReason::Store => Err(StepFault::Store),
        StopReason::Rejected(_) | StopReason::BadTopic => Ok(()),
    }
}
