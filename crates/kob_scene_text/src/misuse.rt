//! What a word of a line is where its line means something else by it.

ghost use Rattle.std.specs.Prelude.{◌≡◌, IfOk, map};
ghost use Rattle.kob_scene_text.specs.Misuses.{misuse_at, misuse_between};

use crate::fault::{BAD_LINE, SceneFaultKind};
use crate::name::Worker;
use crate::place::same_kind;
use crate::step_names::{StepName, step_named};
use crate::workers_before::worker_in;
use kob_script::Word;
use std::alloc::{AllocError, Global};

/// What a word is that its line means otherwise.
#[derive(Clone, Copy, Debug, PartialEq, Eq)]
pub enum Misuse {
    /// A service, where the name of a consumer is meant.
    ServiceName,
    /// A consumer, where the name of a service is meant.
    ConsumerName,
    /// A step of services, behind the name of a consumer.
    ServiceStep,
    /// A step of consumers, behind the name of a service.
    ConsumerStep,
}

/// What the word at a place is, from 0, that has a fault of this kind, if it is a worker or a step of
/// the other kind. `before` are the lines before that of the words.
pub fn misuse_at(
    alloc: Global,
    before: &[&[u8]],
    words: &[Word<'_>],
    kind: SceneFaultKind,
    place: usize,
) -> Result<Option<Misuse>, AllocError>
    ensures { IfOk result (λ misuse. misuse
        ≡ misuse_at (map (λ line. line.now) before.now) words.now kind place) }
{
    if same_kind(kind, SceneFaultKind::UnknownWorker) {
        let Some(word) = words.get(place) else {
            return Ok(None);
        };
        match worker_in(alloc, before, word.decoded())? {
            Some(Worker::Service(_)) => Ok(Some(Misuse::ServiceName)),
            Some(Worker::Consumer(_)) => Ok(Some(Misuse::ConsumerName)),
            None => Ok(None),
        }
    } else if same_kind(kind, BAD_LINE) && place == 1 {
        let [worker, step, ..] = words else {
            return Ok(None);
        };
        let worker = worker_in(alloc, before, worker.decoded())?;
        Ok(misuse_between(worker, step_named(step.decoded())))
    } else {
        Ok(None)
    }
}

/// What a step is behind the name of a worker.
fn misuse_between(worker: Option<Worker>, step: Option<StepName>) -> Option<Misuse>
    ensures { result ≡ misuse_between worker step }
{
    match (worker?, step?) {
        (Worker::Service(_), StepName::Inbox) => Some(Misuse::ConsumerStep),
        (
            Worker::Consumer(_),
            StepName::Record
            | StepName::Sweep
            | StepName::Outbox
            | StepName::Business
            | StepName::Visible,
        ) => Some(Misuse::ServiceStep),
        (
            Worker::Service(_),
            StepName::Record
            | StepName::Tick
            | StepName::Run
            | StepName::Restart
            | StepName::Sweep
            | StepName::Outbox
            | StepName::Business
            | StepName::Visible,
        ) => None,
        (
            Worker::Consumer(_),
            StepName::Tick | StepName::Run | StepName::Restart | StepName::Inbox,
        ) => None,
    }
}
