//! Lines that are a step of a worker.

ghost use Rattle.std.specs.Prelude.{string_bytes};
ghost use Rattle.kob_script.specs.Words.{Gives as ScriptGives, GivesSeen as ScriptGivesSeen};
ghost use Rattle.kob_script.specs.Words.{text_of};
ghost use Rattle.kob_scene_text.specs.Reading.{Gives, GivesSeen};
ghost use Rattle.kob_scene_text.specs.Steps.{change_of, consumer_step_of};
ghost use Rattle.kob_scene_text.specs.Steps.{expected_of, id_of, loss_of, record_of};
ghost use Rattle.kob_scene_text.specs.Steps.{service_step_of, service_told, written};

use crate::fault::{BAD_LINE, SceneFaultKind, StepError};
use crate::scene::{ConsumerStep, Expected, Recording, Sending, ServiceStep};
use crate::step_names::{StepName, step_named};
use kob_outbox::{Change, OutboxEvent};
use kob_router::Loss;
use kob_script::{FaultKind, LineError, Word, lent_text_of, text_of};
use std::alloc::Global;
use uuid::Uuid;

/// Which message a tick loses, by the words after `tick`.
fn loss_of(words: &[Word<'_>]) -> Result<Loss, LineError>
    ensures { ScriptGives result (loss_of words.now) }
{
    match words {
        [] => Ok(Loss::None),
        [word] if word.decoded() == b"lose-request".as_slice() => Ok(Loss::BeforeServe),
        [word] if word.decoded() == b"lose-reply".as_slice() => Ok(Loss::AfterServe),
        _ => Err(LineError::Fault(FaultKind::BadLine)),
    }
}

/// A step of a service that sends so, by its words.
pub(crate) fn service_step(
    alloc: Global,
    sending: Sending,
    words: &[Word<'_>],
) -> Result<ServiceStep, StepError>
    ensures { GivesSeen service_told result (service_step_of sending words.now) }
{
    let [name, words @ ..] = words else {
        return Err(StepError::Fault(BAD_LINE));
    };
    let Some(step) = step_named(name.decoded()) else {
        return Err(StepError::Fault(BAD_LINE));
    };
    match (step, words) {
        (StepName::Record, _) => record_step(alloc, sending, words),
        (StepName::Tick, _) => Ok(ServiceStep::Tick(loss_of(words)?)),
        (StepName::Run, []) => Ok(ServiceStep::Run),
        (StepName::Restart, []) => Ok(ServiceStep::Restart),
        (StepName::Sweep, []) => Ok(ServiceStep::Sweep),
        (StepName::Outbox, []) => Ok(ServiceStep::Outbox),
        (StepName::Business, [kind, key]) => Ok(ServiceStep::Business {
            kind: text_of(alloc, kind)?,
            key: text_of(alloc, key)?,
        }),
        (StepName::Visible, []) if sending.hides_rows() => Ok(ServiceStep::Visible),
        (
            StepName::Run
            | StepName::Restart
            | StepName::Sweep
            | StepName::Outbox
            | StepName::Business
            | StepName::Visible
            | StepName::Inbox,
            _,
        ) => Err(StepError::Fault(BAD_LINE)),
    }
}

/// A step of a consumer, by its words.
pub(crate) fn consumer_step(words: &[Word<'_>]) -> Result<ConsumerStep, LineError>
    ensures { ScriptGives result (consumer_step_of words.now) }
{
    let [name, words @ ..] = words else {
        return Err(LineError::Fault(FaultKind::BadLine));
    };
    let Some(step) = step_named(name.decoded()) else {
        return Err(LineError::Fault(FaultKind::BadLine));
    };
    match (step, words) {
        (StepName::Tick, _) => Ok(ConsumerStep::Tick(loss_of(words)?)),
        (StepName::Run, []) => Ok(ConsumerStep::Run),
        (StepName::Restart, []) => Ok(ConsumerStep::Restart),
        (StepName::Inbox, []) => Ok(ConsumerStep::Inbox),
        (
            StepName::Record
            | StepName::Run
            | StepName::Restart
            | StepName::Sweep
            | StepName::Outbox
            | StepName::Business
            | StepName::Visible
            | StepName::Inbox,
            _,
        ) => Err(LineError::Fault(FaultKind::BadLine)),
    }
}

fn string_of(alloc: Global, word: &Word<'_>) -> Result<String, LineError>
    ensures { ScriptGivesSeen string_bytes result (text_of word.now) }
{
    let text = lent_text_of(word)?;
    Ok(String::from_str(alloc, text)?)
}

/// What is expected: `delivered all`, `lost ID` or `order`.
pub(crate) fn expected_of(words: &[Word<'_>]) -> Result<Expected, StepError>
    ensures { Gives result (expected_of words.now) }
{
    match words {
        [word] if word.decoded() == b"order".as_slice() => Ok(Expected::Order),
        [one, two] if one.decoded() == b"lost".as_slice() => Ok(Expected::Lost(id_of(two)?)),
        [one, two]
            if one.decoded() == b"delivered".as_slice() && two.decoded() == b"all".as_slice() => {
            Ok(Expected::Delivered)
        }
        _ => Err(StepError::Fault(BAD_LINE)),
    }
}

/// `ID AGGREGATETYPE AGGREGATEID TYPE PAYLOAD KIND KEY STATE`, and a word of a variant or none. The
/// words are checked from left to right.
fn record_step(
    alloc: Global,
    sending: Sending,
    words: &[Word<'_>],
) -> Result<ServiceStep, StepError>
    ensures { GivesSeen service_told result (record_of sending words.now) }
{
    let [
        id,
        aggregate_type,
        aggregate_id,
        event_type,
        payload,
        change @ ..,
    ] = words
    else {
        return Err(StepError::Fault(BAD_LINE));
    };
    let event = OutboxEvent {
        id: id_of(id)?,
        aggregate_type: string_of(alloc, aggregate_type)?,
        aggregate_id: string_of(alloc, aggregate_id)?,
        event_type: string_of(alloc, event_type)?,
        payload: string_of(alloc, payload)?,
    };
    let (change, recording) = change_of(alloc, sending, change)?;
    Ok(ServiceStep::Record(change, event, recording))
}

/// `BadText` comes before `BadId`.
pub(crate) fn id_of(word: &Word<'_>) -> Result<Uuid, StepError>
    ensures { Gives result (id_of word.now) }
{
    let text = lent_text_of(word)?;
    match Uuid::parse_str(text) {
        Ok(id) => Ok(id),
        Err(_) => Err(StepError::Fault(SceneFaultKind::BadId)),
    }
}

/// `KIND KEY STATE`, and how the event is recorded.
fn change_of(
    alloc: Global,
    sending: Sending,
    words: &[Word<'_>],
) -> Result<(Change, Recording), LineError>
    ensures { ScriptGivesSeen (λ read. (written read.0, read.1)) result
        (change_of sending words.now) }
{
    match words {
        [kind, key, state, rest @ ..] => {
            let recording = match (sending, rest) {
                (_, []) => Recording::Whole,
                (Sending::Separate, [word]) if word.decoded() == b"crash".as_slice() => {
                    Recording::Crash
                }
                (Sending::VisibleLate, [word]) if word.decoded() == b"late".as_slice() => {
                    Recording::Late
                }
                _ => return Err(LineError::Fault(FaultKind::BadLine)),
            };
            let change = Change {
                kind: string_of(alloc, kind)?,
                id: string_of(alloc, key)?,
                state: string_of(alloc, state)?,
            };
            Ok((change, recording))
        }
        _ => Err(LineError::Fault(FaultKind::BadLine)),
    }
}
