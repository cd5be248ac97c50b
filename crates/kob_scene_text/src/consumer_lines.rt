//! Lines that declare a consumer, after its name.

ghost use Rattle.std.specs.Prelude.{◌≡◌};
ghost use Rattle.kob_script.specs.Words.{Gives as ScriptGives, GivesSeen as ScriptGivesSeen, each};
ghost use Rattle.kob_scene_text.specs.Reading.{Gives};
ghost use Rattle.kob_scene_text.specs.Workers.{consumer_of, cut, max_of, place_of, places_of};
ghost use Rattle.kob_scene_text.specs.Workers.{start_first, start_named, taking_first};

use crate::fault::{BAD_LINE, SceneFaultKind, StepError};
use crate::name::{Who, who_of};
use crate::scene::{Start, Taking};
use bstr::ByteSlice;
use kob_inbox::Subscription;
use kob_names::Items;
use kob_router::Place;
use kob_script::{FaultKind, LineError, Word, number_of, text_of};
use std::alloc::Global;

/// What a declaration says after the worker's name.
#[derive(Drop)]
pub(crate) struct DeclaredConsumer {
    pub(crate) who: Who,
    pub(crate) subscription: Subscription,
    pub(crate) start: Start,
    pub(crate) taking: Taking,
}

/// `PRINCIPAL HOST group GROUP max N [start latest]`, then a variant or not, then `[reads
/// TOPIC:PARTITION ..]`. The words are checked from left to right.
pub(crate) fn consumer_of(alloc: Global, words: &[Word<'_>]) -> Result<DeclaredConsumer, StepError>
    ensures { Gives result (consumer_of words.now) }
{
    match words {
        [principal, host, first, group, second, max, rest @ ..]
            if first.decoded() == b"group".as_slice() && second.decoded() == b"max".as_slice() => {
            let who = who_of(alloc, principal, host)?;
            let group = text_of(alloc, group)?;
            let max = max_of(max)?;
            let (start, rest) = start_first(rest)?;
            let (taking, rest) = taking_first(rest);
            let assignment = places_of(alloc, rest)?;
            Ok(DeclaredConsumer {
                who,
                subscription: Subscription {
                    group,
                    assignment,
                    max,
                },
                start,
                taking,
            })
        }
        _ => Err(StepError::Fault(BAD_LINE)),
    }
}

/// From 1 on. `BadNumber` comes before `BadMax`.
pub(crate) fn max_of(word: &Word<'_>) -> Result<u64, StepError>
    ensures { Gives result (max_of word.now) }
{
    let number = number_of(word)?;
    if 1 <= number {
        Ok(number)
    } else {
        Err(StepError::Fault(SceneFaultKind::BadMax))
    }
}

/// Where it begins, and the words after that.
fn start_first<'w, 'l>(words: &'w [Word<'l>]) -> Result<(Start, &'w [Word<'l>]), LineError>
    ensures { ScriptGivesSeen (λ read. (read.0, read.1.now)) result
        (start_first words.entry.now) }
{
    match words {
        [keyword, word, rest @ ..] if keyword.decoded() == b"start".as_slice() => {
            let start = start_named(word)?;
            Ok((start, rest))
        }
        _ => Ok((Start::Earliest, words)),
    }
}

pub(crate) fn start_named(word: &Word<'_>) -> Result<Start, LineError>
    ensures { ScriptGives result (start_named word.now) }
{
    if word.decoded() == b"latest".as_slice() {
        Ok(Start::Latest)
    } else {
        Err(LineError::Fault(FaultKind::BadWord))
    }
}

/// How it takes in, and the words after that.
fn taking_first<'w, 'l>(words: &'w [Word<'l>]) -> (Taking, &'w [Word<'l>])
    ensures taking { result.0 ≡ (taking_first words.entry.now).0 }
    ensures rest { result.1.now ≡ (taking_first words.entry.now).1 }
{
    match words {
        [one, two, rest @ ..]
            if one.decoded() == b"commits".as_slice() && two.decoded() == b"before".as_slice() => {
            (Taking::CommitsBefore, rest)
        }
        [one, two, rest @ ..]
            if one.decoded() == b"no".as_slice() && two.decoded() == b"dedup".as_slice() => {
            (Taking::NoDedup, rest)
        }
        _ => (Taking::Proved, words),
    }
}

/// The partitions after `reads`; without words there are none.
fn places_of(alloc: Global, words: &[Word<'_>]) -> Result<Items<Place>, LineError>
    ensures { ScriptGives result (places_of words.now) }
{
    match words {
        [] => Ok(Items::from_vec(Vec::new(alloc))),
        [keyword, places @ ..] if keyword.decoded() == b"reads".as_slice() => each_place(
            alloc, places,
        ),
        _ => Err(LineError::Fault(FaultKind::BadLine)),
    }
}

fn each_place(alloc: Global, words: &[Word<'_>]) -> Result<Items<Place>, LineError>
    ensures { ScriptGives result (each place_of words.now) }
{
    let mut places = Vec::with_capacity(alloc, words.len())?;
    for word in words {
        let place = place_of(alloc, word)?;
        places.push(place)?;
    }
    Ok(Items::from_vec(places))
}

/// `TOPIC:PARTITION`, split at the first colon that is not escaped.
#[tactic(auto, unfolding(crate::specs::Workers::cut))]
pub(crate) fn place_of(alloc: Global, word: &Word<'_>) -> Result<Place, LineError>
    ensures { ScriptGives result (place_of word.now) }
{
    let Some((topic, partition)) = word.raw().split_once_str(b":") else {
        return Err(LineError::Fault(FaultKind::BadLine));
    };
    let topic = Word::read(alloc, topic)?;
    let topic = text_of(alloc, &topic)?;
    let partition = Word::read(alloc, partition)?;
    let partition = number_of(&partition)?;
    Ok(Place { topic, partition })
}
