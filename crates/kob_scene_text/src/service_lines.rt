//! Lines that declare a service, after its name.

ghost use Rattle.std.specs.Prelude.{◌≡◌, ◌≤◌, IfOk};
ghost use Rattle.kob_script.specs.Words.{Gives as ScriptGives, GivesSeen as ScriptGivesSeen};
ghost use Rattle.kob_scene_text.specs.Reading.{Gives};
ghost use Rattle.kob_scene_text.specs.Workers.{by_first, by_named, partitions_of, route_of};
ghost use Rattle.kob_scene_text.specs.Workers.{sending_first, service_of, settings_of};
ghost use Rattle.kob_scene_text.specs.Workers.{text_first};

use crate::fault::{BAD_LINE, SceneFaultKind, StepError};
use crate::name::{Who, who_of};
use crate::scene::{Routed, Sending};
use kob_names::Text;
use kob_router::{Route, RouteBy, RouteFault, RouteSettings};
use kob_script::{FaultKind, LineError, Word, number_of, text_of};
use std::alloc::Global;

/// What a declaration says after the worker's name: who it is, a route as it is set, and as it is
/// read, to a number of partitions, and how rows are sent.
#[derive(Drop)]
pub(crate) struct DeclaredService {
    pub(crate) who: Who,
    pub(crate) settings: RouteSettings,
    pub(crate) routed: Routed,
    pub(crate) sending: Sending,
}

/// `PRINCIPAL HOST partitions N`, then a variant or not, then `[by COLUMN] [replacement TEXT]
/// [placement TEXT]`. The words are checked from left to right.
pub(crate) fn service_of(alloc: Global, words: &[Word<'_>]) -> Result<DeclaredService, StepError>
    ensures { Gives result (service_of words.now) }
{
    match words {
        [principal, host, keyword, partitions, rest @ ..]
            if keyword.decoded() == b"partitions".as_slice() => {
            let who = who_of(alloc, principal, host)?;
            let partitions = partitions_of(partitions)?;
            let (sending, rest) = sending_first(rest);
            let settings = settings_of(alloc, rest)?;
            let route = route_of(alloc, &settings)?;
            Ok(DeclaredService {
                who,
                settings,
                routed: Routed::new(route, partitions),
                sending,
            })
        }
        _ => Err(StepError::Fault(BAD_LINE)),
    }
}

/// How rows are sent, and the words after that.
pub(crate) fn sending_first<'w, 'l>(words: &'w [Word<'l>]) -> (Sending, &'w [Word<'l>])
    ensures sending { result.0 ≡ (sending_first words.entry.now).0 }
    ensures rest { result.1.now ≡ (sending_first words.entry.now).1 }
{
    match words {
        [one, rest @ ..] if one.decoded() == b"separate".as_slice() => (Sending::Separate, rest),
        [one, other, rest @ ..]
            if one.decoded() == b"retries".as_slice() && other.decoded() == b"new".as_slice() => {
            (Sending::RetriesNew, rest)
        }
        [one, other, rest @ ..]
            if one.decoded() == b"deletes".as_slice() && other.decoded() == b"first".as_slice() => {
            (Sending::DeletesFirst, rest)
        }
        [one, other, rest @ ..]
            if one.decoded() == b"not".as_slice() && other.decoded() == b"idempotent".as_slice() =>
            { (Sending::NotIdempotent, rest) }
        [one, other, rest @ ..]
            if one.decoded() == b"visible".as_slice() && other.decoded() == b"late".as_slice() => {
            (Sending::VisibleLate, rest)
        }
        _ => (Sending::Proved, words),
    }
}

/// From 1 to 1,000. `BadNumber` comes before `BadPartitions`.
pub(crate) fn partitions_of(word: &Word<'_>) -> Result<u32, StepError>
    ensures value { Gives result (partitions_of word.now) }
    ensures some { IfOk result (λ partitions. 1 ≤ partitions) }
    ensures most { IfOk result (λ partitions. partitions ≤ 1000) }
{
    let number = number_of(word)?;
    if 1 <= number && number <= 1_000 {
        Ok(number as u32)
    } else {
        Err(StepError::Fault(SceneFaultKind::BadPartitions))
    }
}

/// The settings of a route, each with its default if it is not given.
fn settings_of(alloc: Global, words: &[Word<'_>]) -> Result<RouteSettings, LineError>
    ensures { ScriptGives result (settings_of words.now) }
{
    let (by, words) = by_first(words)?;
    let (replacement, words) = text_first(
        alloc,
        b"replacement",
        "outbox.event.${routedByValue}",
        words,
    )?;
    let (placement, words) = text_first(alloc, b"placement", "", words)?;
    match words {
        [] => Ok(RouteSettings {
            by,
            replacement,
            placement,
        }),
        _ => Err(LineError::Fault(FaultKind::BadLine)),
    }
}

/// The column by which rows are routed, and the words after it.
fn by_first<'w, 'l>(words: &'w [Word<'l>]) -> Result<(RouteBy, &'w [Word<'l>]), LineError>
    ensures { ScriptGivesSeen (λ read. (read.0, read.1.now)) result (by_first words.entry.now) }
{
    match words {
        [keyword, word, rest @ ..] if keyword.decoded() == b"by".as_slice() => {
            let by = by_named(word)?;
            Ok((by, rest))
        }
        _ => Ok((RouteBy::AggregateType, words)),
    }
}

pub(crate) fn by_named(word: &Word<'_>) -> Result<RouteBy, LineError>
    ensures { ScriptGives result (by_named word.now) }
{
    if word.decoded() == b"aggregatetype".as_slice() {
        Ok(RouteBy::AggregateType)
    } else if word.decoded() == b"aggregateid".as_slice() {
        Ok(RouteBy::AggregateId)
    } else {
        Err(LineError::Fault(FaultKind::BadWord))
    }
}

/// The text after a keyword, and the words after that.
fn text_first<'w, 'l>(
    alloc: Global,
    expected: &[u8],
    default: &str,
    words: &'w [Word<'l>],
) -> Result<(Text, &'w [Word<'l>]), LineError>
    ensures { ScriptGivesSeen (λ read. (read.0, read.1.now)) result
        (text_first expected.entry.now default.entry.now words.entry.now) }
{
    match words {
        [keyword, word, rest @ ..] if keyword.decoded() == expected => {
            let text = text_of(alloc, word)?;
            Ok((text, rest))
        }
        _ => {
            let text = Text::copied(alloc, default)?;
            Ok((text, words))
        }
    }
}

/// The fault is `BadRoute`.
pub(crate) fn route_of(alloc: Global, settings: &RouteSettings) -> Result<Route, StepError>
    ensures { Gives result (route_of settings.now) }
{
    match Route::new(alloc, settings) {
        Ok(route) => Ok(route),
        Err(RouteFault::Memory(error)) => Err(StepError::Memory(error)),
        Err(_) => Err(StepError::Fault(SceneFaultKind::BadRoute)),
    }
}
