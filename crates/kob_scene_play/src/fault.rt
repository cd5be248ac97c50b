//! What ends a scene before its last step.

ghost use Rattle.std.specs.Prelude.{◌≡◌, IfOk, IsTrue, OnOk, true};
ghost use Rattle.kob_scene_play.specs.Asked.{HasLoss};
ghost use Rattle.kob_scene_play.specs.Faults.{line_fault, unless_failed};
ghost use Rattle.kob_scene_play.specs.Steps.{LosesFirst};

use kob_inbox::InboxFault;
use kob_outbox::OutboxFault;
use kob_router::{Call, Loss, StopReason};
use kob_shared::CallFault;
use std::alloc::{AllocError, AllocFailed};
use thiserror::Error;

/// Why a step of a scene could not be made, or its result not printed. What it had done by then is
/// kept.
#[derive(Clone, Copy, Debug, Error)]
pub enum PlayFault {
    #[error("out of memory")]
    Memory(AllocError),
    /// The journal is full: it has 1,000,000 entries.
    #[error("the journal is full")]
    JournalFull,
    /// A database failed for another cause than out of memory.
    #[error("a database failed")]
    Store,
    /// The scene has no worker at the place that a step names.
    #[error("a step names an unknown worker")]
    NoWorker,
    /// The settings have more bindings than can be in force. A scene's own have none.
    #[error("too many bindings")]
    TooMany,
    /// A call of which a message was to be lost was answered, or was not served as it was to be.
    #[error("a call was not lost as it was to be")]
    NotLost,
    /// The FETCH or the commit of what a consumer holds is not the one that is due to it.
    #[error("what a consumer holds is not due to it")]
    NotDue,
    #[error("the output could not be written")]
    WriteFailed,
}

/// Why a tick has no result. What it had done by then is kept.
#[derive(Clone, Copy, Debug, Error)]
pub enum TickFault {
    #[error("out of memory")]
    Memory(AllocError),
    /// As [`PlayFault::JournalFull`].
    #[error("the journal is full")]
    JournalFull,
    /// As [`PlayFault::Store`].
    #[error("a database failed")]
    Store,
    /// As [`PlayFault::NotLost`].
    #[error("a call was not lost as it was to be")]
    NotLost,
    /// As [`PlayFault::NotDue`].
    #[error("what a consumer holds is not due to it")]
    NotDue,
}

impl From<TickFault> for PlayFault {
    ghost use Rattle.std.specs.Prelude.{◌≡◌};
    ghost use Rattle.kob_scene_play.specs.Faults.{fault_of_tick};

    ghost from_gives = { λ fault made. made ≡ fault_of_tick fault };

    fn from(fault: TickFault) -> PlayFault {
        match fault {
            TickFault::Memory(refused) => PlayFault::Memory(refused),
            TickFault::JournalFull => PlayFault::JournalFull,
            TickFault::Store => PlayFault::Store,
            TickFault::NotLost => PlayFault::NotLost,
            TickFault::NotDue => PlayFault::NotDue,
        }
    }
}

impl From<AllocError> for PlayFault {
    ghost use Rattle.std.specs.Prelude.{◌≡◌, alloc_error};
    ghost use Rattle.kob_scene_play.specs.declared.fault.PlayFault.TheVariants.{Memory};

    ghost from_gives = { λ _ fault. fault ≡ Memory alloc_error };

    fn from(refused: AllocError) -> PlayFault {
        PlayFault::Memory(refused)
    }
}

impl<T: Drop> From<AllocFailed<T>> for PlayFault {
    ghost use Rattle.std.specs.Prelude.{◌≡◌, alloc_error};
    ghost use Rattle.kob_scene_play.specs.declared.fault.PlayFault.TheVariants.{Memory};

    ghost from_gives = { λ _ fault. fault ≡ Memory alloc_error };

    fn from(failed: AllocFailed<T>) -> PlayFault {
        PlayFault::Memory(AllocError::from(failed))
    }
}

impl From<CallFault> for PlayFault {
    ghost use Rattle.std.specs.Prelude.{◌≡◌};
    ghost use Rattle.kob_scene_play.specs.Faults.{fault_of_call, fault_of_tick};

    ghost from_gives = { λ fault made. made ≡ fault_of_tick (fault_of_call fault) };

    fn from(fault: CallFault) -> PlayFault {
        PlayFault::from(TickFault::from(fault))
    }
}

impl From<OutboxFault> for PlayFault {
    ghost use Rattle.std.specs.Prelude.{◌≡◌};
    ghost use Rattle.kob_scene_play.specs.Faults.{fault_of_outbox, fault_of_tick};

    ghost from_gives = { λ fault made. made ≡ fault_of_tick (fault_of_outbox fault) };

    fn from(fault: OutboxFault) -> PlayFault {
        PlayFault::from(TickFault::from(fault))
    }
}

impl From<InboxFault> for PlayFault {
    ghost use Rattle.std.specs.Prelude.{◌≡◌};
    ghost use Rattle.kob_scene_play.specs.Faults.{fault_of_inbox};

    ghost from_gives = { λ fault made. made ≡ fault_of_inbox fault };

    fn from(fault: InboxFault) -> PlayFault {
        match fault {
            InboxFault::Memory(refused) => PlayFault::Memory(refused),
            InboxFault::Store => PlayFault::Store,
        }
    }
}

impl From<AllocError> for TickFault {
    ghost use Rattle.std.specs.Prelude.{◌≡◌, alloc_error};
    ghost use Rattle.kob_scene_play.specs.declared.fault.TickFault.TheVariants.{Memory};

    ghost from_gives = { λ _ fault. fault ≡ Memory alloc_error };

    fn from(refused: AllocError) -> TickFault {
        TickFault::Memory(refused)
    }
}

impl From<CallFault> for TickFault {
    ghost use Rattle.std.specs.Prelude.{◌≡◌};
    ghost use Rattle.kob_scene_play.specs.Faults.{fault_of_call};

    ghost from_gives = { λ fault made. made ≡ fault_of_call fault };

    fn from(fault: CallFault) -> TickFault {
        match fault {
            CallFault::Memory(refused) => TickFault::Memory(refused),
            CallFault::JournalFull | CallFault::Stale { .. } => TickFault::JournalFull,
        }
    }
}

impl From<OutboxFault> for TickFault {
    ghost use Rattle.std.specs.Prelude.{◌≡◌};
    ghost use Rattle.kob_scene_play.specs.Faults.{fault_of_outbox};

    ghost from_gives = { λ fault made. made ≡ fault_of_outbox fault };

    fn from(fault: OutboxFault) -> TickFault {
        match fault {
            OutboxFault::Memory(refused) => TickFault::Memory(refused),
            OutboxFault::Store => TickFault::Store,
        }
    }
}

/// Why the last call of a line has no reply, if no loss was set for it, by what it says itself and
/// what the line below it says.
pub(crate) fn line_fault(own: Option<CallFault>, below: Option<CallFault>) -> Option<TickFault>
    ensures { result ≡ line_fault own below }
{
    match own.or(below) {
        Some(fault) => Some(fault.into()),
        None => None,
    }
}

/// Whether the first call has no reply, if one of its messages was to be lost.
pub(crate) fn loses_first(loss: Loss, calls: &[Call]) -> bool
    ensures { IsTrue result → LosesFirst loss calls.now }
{
    match calls {
        [] => true,
        [first, ..] => match loss {
            Loss::None => true,
            Loss::BeforeServe => first.heard.is_none(),
            Loss::AfterServe => first.heard.is_none(),
        },
    }
}

/// Whether the journal has what it is to have of a tick whose first call has this loss.
pub(crate) fn has_loss(loss: Loss, is_repeat: bool, before: usize, after: usize) -> bool
    ensures { IsTrue result → HasLoss loss is_repeat before after }
{
    match loss {
        Loss::None => true,
        Loss::BeforeServe => after == before,
        Loss::AfterServe if is_repeat => after > before && after - before == 1,
        Loss::AfterServe => after == before,
    }
}

/// The result of a step, unless the step failed or its loss was not as it was set.
pub(crate) fn unless<T: Drop>(
    fault: Option<TickFault>,
    is_lost: bool,
    answer: T,
) -> Result<T, TickFault>
    ensures whole { result ≡ unless_failed fault is_lost answer }
    ensures same { IfOk result (λ given. given ≡ answer) }
    ensures lost { OnOk result (IsTrue is_lost) }
{
    match fault {
        None if is_lost => Ok(answer),
        None => Err(TickFault::NotLost),
        Some(fault) => Err(fault),
    }
}

ghost use Rattle.kob_scene_play.specs.Faults.{fault_of_stop, stop_of_consumer, stop_of_service};

/// The fault, if a tick ran out of memory or its database failed.
fn fault_of_stop(reason: &StopReason) -> Option<TickFault>
    ensures { result ≡ fault_of_stop reason.now }
{
    match reason {
        StopReason::Memory(refused) => Some(TickFault::Memory(*refused)),
        StopReason::Store => Some(TickFault::Store),
        _ => None,
    }
}

/// The fault of a tick of a service.
pub(crate) fn stop_of_service(tick: &kob_router::Tick) -> Option<TickFault>
    ensures { result ≡ stop_of_service tick.now }
{
    match tick {
        kob_router::Tick::Stopped(reason) => fault_of_stop(reason),
        _ => None,
    }
}

/// The fault of a tick of a consumer.
pub(crate) fn stop_of_consumer(tick: &kob_inbox::Tick) -> Option<TickFault>
    ensures { result ≡ stop_of_consumer tick.now }
{
    match tick {
        kob_inbox::Tick::Stopped(reason) => fault_of_stop(reason),
        _ => None,
    }
}
