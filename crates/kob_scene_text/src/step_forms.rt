//! The forms of lines that are a step of a worker.

ghost use Rattle.std.specs.Prelude.{◌≡◌};
ghost use Rattle.std.specs.Option.{option_map};
ghost use Rattle.kob_scene_text.specs.Places.{step_form};

use crate::forms::{Keyword, LATE, OR_END, Part, Slot, TEXT};
use crate::name::Worker;
use crate::scene::Sending;
use crate::step_names::{StepName, step_named};

const ID: Part = Part::One(Slot::Id);

const CRASH: Part = Part::One(Slot::Keyword(Keyword::Crash));

const LOSS: Part = Part::One(Slot::Loss);

/// The words behind a step's name; None if the worker has no such step. A service sends so.
pub(crate) fn step_form(sending: Sending, worker: Worker, name: &[u8]) -> Option<&'static [Part]>
    ensures { option_map (λ parts. parts.now) result ≡ step_form sending worker name.now }
{
    match (step_named(name)?, worker, sending) {
        (StepName::Record, Worker::Service(_), Sending::Separate) => Some(&[
            ID, TEXT, TEXT, TEXT, TEXT, TEXT, TEXT, TEXT, OR_END, CRASH,
        ]),
        (StepName::Record, Worker::Service(_), Sending::VisibleLate) => Some(&[
            ID, TEXT, TEXT, TEXT, TEXT, TEXT, TEXT, TEXT, OR_END, LATE,
        ]),
        (StepName::Record, Worker::Service(_), _) => Some(&[
            ID, TEXT, TEXT, TEXT, TEXT, TEXT, TEXT, TEXT,
        ]),
        (StepName::Tick, _, _) => Some(&[OR_END, LOSS]),
        (StepName::Run | StepName::Restart, _, _) => Some(&[]),
        (StepName::Sweep | StepName::Outbox, Worker::Service(_), _) => Some(&[]),
        (StepName::Business, Worker::Service(_), _) => Some(&[TEXT, TEXT]),
        (StepName::Visible, Worker::Service(_), _) if sending.hides_rows() => Some(&[]),
        (StepName::Inbox, Worker::Consumer(_), _) => Some(&[]),
        (StepName::Visible | StepName::Inbox, Worker::Service(_), _) => None,
        (
            StepName::Record
            | StepName::Sweep
            | StepName::Outbox
            | StepName::Business
            | StepName::Visible,
            Worker::Consumer(_),
            _,
        ) => None,
    }
}
