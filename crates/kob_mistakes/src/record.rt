//! Records of which a word is missing.

ghost use Rattle.std.specs.Prelude.{◌≡◌, IfOk, codes, map};
ghost use Rattle.std.specs.List.{list_any};
ghost use Rattle.std.specs.Option.{option_map};
ghost use Rattle.kob_mistakes.specs.Lines.{line_where};
ghost use Rattle.kob_mistakes.specs.Records.{before_ending, doubtful_line};
ghost use Rattle.kob_mistakes.specs.Records.{ending_hint, hint_on_record, missing_at};
ghost use Rattle.kob_mistakes.specs.Records.{doubtful_state, ending_named, ending_word};
ghost use Rattle.kob_mistakes.specs.Records.{is_of_variant, is_with_state, variant_word, word_is};

use crate::words::{lines_of, raw_words, word_at};
use std::alloc::{AllocError, Global};

/// A word that may stand behind the state of a record, where its service is a variant.
#[derive(Clone, Copy)]
enum Ending {
    /// Of a service that is declared `separate`.
    Crash,
    /// Of a service that is declared `visible late`.
    Late,
}

impl Ending {
    fn word(self) -> &'static str
        ensures { result.now ≡ ending_word self }
    {
        match self {
            Ending::Crash => "crash",
            Ending::Late => "late",
        }
    }

    /// The first word of the variant in the service's declaration.
    fn variant(self) -> &'static str
        ensures { result.now ≡ variant_word self }
    {
        match self {
            Ending::Crash => "separate",
            Ending::Late => "visible",
        }
    }

    fn hint(self) -> &'static str
        ensures { result.now ≡ ending_hint self }
    {
        match self {
            Ending::Crash => "crash needs a service that is declared separate",
            Ending::Late => "late needs a service that is declared visible late",
        }
    }
}

fn ending_named(word: &[u8]) -> Option<Ending>
    ensures { result ≡ ending_named word.now }
{
    if word == b"crash".as_slice() {
        Some(Ending::Crash)
    } else if word == b"late".as_slice() {
        Some(Ending::Late)
    } else {
        None
    }
}

/// The place of the word that is wrong, if it is one of a record. Where the last words are missing,
/// it is the place of a word that stands behind the state, in place of the end.
#[tactic(auto, using(crate::proofs::Walking::lent_length))]
pub(crate) fn before_ending(words: &[&[u8]], place: usize) -> usize
    ensures { result ≡ before_ending (map (λ word. word.now) words.now) place }
{
    if word_is(words, 1, b"record")
        && place == words.len()
        && ending_named(word_at(words, place.saturating_sub(1))).is_some()
    {
        place.saturating_sub(1)
    } else {
        place
    }
}

/// A hint on the place of a record that is wrong: what is missing there, or which service may have
/// its word.
#[tactic(auto, using(crate::proofs::Walking::lent_at))]
pub(crate) fn hint_on_record(words: &[&[u8]], place: usize) -> Option<&'static str>
    ensures { option_map (λ hint. hint.now) result
        ≡ hint_on_record (map (λ word. word.now) words.now) place }
{
    if !word_is(words, 1, b"record") || place < 2 {
        return None;
    }
    match words.get(place) {
        Some(word) => match ending_named(word) {
            Some(ending) => missing_at(place).or(Some(ending.hint())),
            None => None,
        },
        None => missing_at(place),
    }
}

#[tactic(auto, unfolding(crate::specs::Records::missing_at))]
fn missing_at(place: usize) -> Option<&'static str>
    ensures { option_map (λ text. text.now) result ≡ missing_at place }
{
    match place {
        2 => Some("ID is missing here"),
        3 => Some("AGGREGATETYPE is missing here"),
        4 => Some("AGGREGATEID is missing here"),
        5 => Some("TYPE is missing here"),
        6 => Some("PAYLOAD is missing here"),
        7 => Some("KIND is missing here"),
        8 => Some("KEY is missing here"),
        9 => Some("STATE is missing here"),
        _ => None,
    }
}

/// The first line of a scene, counted from 1, with a record whose state is a word that services of
/// the scene may have behind the state, and this word: a word before it may be missing. It is no
/// fault.
pub fn doubtful_state(alloc: Global, text: &[u8]) -> Result<Option<(u64, &'static str)>, AllocError>
    ensures { IfOk result (λ found. option_map (λ one. (one.0, one.1.now)) found
        ≡ doubtful_state text.now) }
{
    let lines = lines_of(alloc, text)?;
    if let Some(number) = doubtful_line(alloc, &lines, Ending::Crash)? {
        return Ok(Some((number, "crash")));
    }
    match doubtful_line(alloc, &lines, Ending::Late)? {
        Some(number) => Ok(Some((number, "late"))),
        None => Ok(None),
    }
}

/// The number of the first line with a record whose state may be meant as this word behind it.
fn doubtful_line(alloc: Global, lines: &[&[u8]], ending: Ending) -> Result<Option<u64>, AllocError>
    ensures { IfOk result (λ number.
        number ≡ doubtful_line (map (λ line. line.now) lines.now) ending) }
{
    if !have_variant(alloc, lines, ending.variant())? {
        return Ok(None);
    }
    line_with_state(alloc, lines, ending.word())
}

/// Whether a line declares a service that is such a variant.
fn have_variant(alloc: Global, lines: &[&[u8]], variant: &str) -> Result<bool, AllocError>
    ensures { IfOk result (λ have.
        have ≡ list_any (is_of_variant variant.now) (map (λ line. line.now) lines.now)) }
{
    for line in lines {
        let words = raw_words(alloc, line)?;
        if word_is(&words, 0, b"service") && word_is(&words, 6, variant.as_bytes()) {
            return Ok(true);
        }
    }
    Ok(false)
}

#[tactic(auto, using(crate::proofs::Walking::goes_on, crate::proofs::Walking::stops, crate::proofs::Walking::ends, crate::proofs::Walking::lent_length))]
fn line_with_state(alloc: Global, lines: &[&[u8]], state: &str) -> Result<Option<u64>, AllocError>
    ensures { IfOk result (λ number.
        number ≡ line_where (is_with_state state.now) 1 (map (λ line. line.now) lines.now)) }
{
    let mut number: u64 = 1;
    for line in lines {
        let words = raw_words(alloc, line)?;
        if words.len() == 10
            && word_is(&words, 1, b"record")
            && word_is(&words, 9, state.as_bytes())
        {
            return Ok(Some(number));
        }
        number += 1;
    }
    Ok(None)
}

/// Whether a word stands at a place.
#[tactic(auto, using(crate::proofs::Walking::lent_at))]
pub(crate) fn word_is(words: &[&[u8]], place: usize, text: &[u8]) -> bool
    ensures { result ≡ word_is (map (λ word. word.now) words.now) place text.now }
{
    match words.get(place) {
        Some(word) => *word == text,
        None => false,
    }
}
