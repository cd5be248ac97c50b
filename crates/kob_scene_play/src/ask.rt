//! A request of a worker of which a message may be lost.

ghost use Rattle.std.specs.Prelude.{◌≡◌, IfOk, IfSome};
ghost use Rattle.kob_rights.specs.Requests.{Fits, OffsetsWithin};
ghost use Rattle.kob_scene_play.specs.Asked.{IsAsked, committed_by};

use kob_inbox::Tick;
use kob_rights::{Event, Reply};
use kob_router::{Loss, StopReason};
use kob_shared::{CallFault, Recorded};
use std::alloc::Global;

/// Serves an event as a worker's, unless it is lost before, and returns the reply, unless it is
/// lost.
pub(crate) fn ask(
    alloc: Global,
    recorded: &mut Recorded,
    worker: usize,
    loss: Loss,
    event: &Event,
) -> Result<Option<Reply>, CallFault>
    ensures asked { IfOk result (IsAsked loss worker event.now recorded.old recorded.new) }
    ensures fits { IfOk result (λ heard. IfSome heard (λ reply. Fits event.now.request reply)) }
    ensures offsets { IfOk result (λ heard. IfSome heard (λ reply. OffsetsWithin reply)) }
{
    match loss {
        Loss::None => {
            let receipt = recorded.serve_as(alloc, worker, event)?;
            Ok(Some(receipt.reply))
        }
        Loss::BeforeServe => Ok(None),
        Loss::AfterServe => {
            recorded.serve_as(alloc, worker, event)?;
            Ok(None)
        }
    }
}

/// What a tick is that asked for a commit, by the reply.
pub(crate) fn committed_by(heard: Option<Reply>) -> Tick
    ensures { result ≡ committed_by heard }
{
    let Some(reply) = heard else {
        return Tick::Repeat;
    };
    match reply {
        Reply::Done(_) => Tick::Committed,
        reply => Tick::Stopped(StopReason::Rejected(reply)),
    }
}
