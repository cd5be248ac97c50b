//! The place of the fault among the options of `acl`.

ghost use Rattle.std.specs.Prelude.{◌≡◌, ◌<◌, ◌^◌, ◌==◌, IfOk, IfSome, drop, false, length, map, option_map};
ghost use Rattle.std.specs.List.{position};
ghost use Rattle.kob_mistakes.specs.Options.{decoded_at, given_of, is_valid, is_value, misnamed};
ghost use Rattle.kob_mistakes.specs.Options.{misnamed_at, misplaced, name_of, option_place};
ghost use Rattle.kob_mistakes.specs.Options.{taken_after};
ghost use Rattle.kob_mistakes.specs.Options.{unless_valid, value_in, value_of};

use crate::words::{as_text, is_read};
use kob_script::{FaultKind, Word, host_of, principal_of};
use kob_words::{filter_pattern_named, operation_named};
use std::alloc::{AllocError, Global};

/// What a value of an option is.
#[derive(Clone, Copy)]
enum Value {
    /// No option has the name.
    Unknown,
    /// The option has no value.
    Flag,
    Principal,
    Host,
    Operation,
    Pattern,
    Any,
}

/// The options, and what value each has.
static OPTIONS: [(&str, Value); 20] = [
    ("--add", Value::Flag),
    ("--remove", Value::Flag),
    ("--list", Value::Flag),
    ("--cluster", Value::Flag),
    ("--producer", Value::Flag),
    ("--consumer", Value::Flag),
    ("--idempotent", Value::Flag),
    ("--force", Value::Flag),
    ("--allow-principal", Value::Principal),
    ("--deny-principal", Value::Principal),
    ("--principal", Value::Principal),
    ("--allow-host", Value::Host),
    ("--deny-host", Value::Host),
    ("--operation", Value::Operation),
    ("--resource-pattern-type", Value::Pattern),
    ("--topic", Value::Any),
    ("--group", Value::Any),
    ("--transactional-id", Value::Any),
    ("--bootstrap-server", Value::Any),
    ("--command-config", Value::Any),
];

/// The place of the word that is wrong among options, which begin at a place: for malformed options
/// the first word that is no option and no option's value, for a bad name the first value that is
/// not valid. It is the place before the options if the fault is one of all of them together.
pub(crate) fn option_place(
    alloc: Global,
    words: &[Word<'_>],
    first: usize,
    kind: FaultKind,
) -> Result<usize, AllocError>
    ensures { IfOk result (λ place. place ≡ option_place kind words.now first) }
{
    let before = first.saturating_sub(1);
    match kind {
        FaultKind::Usage => Ok(misplaced_from(words, first).unwrap_or(before)),
        FaultKind::BadName => Ok(misnamed_from(alloc, words, first)?.unwrap_or(before)),
        _ => Ok(before),
    }
}

fn value_in(known: &[(&str, Value)], name: &[u8]) -> Value
    ensures { result ≡ value_in (map (λ one. (one.0.now, one.1)) known.now) name.now }
{
    for one in known {
        if one.0.as_bytes() == name {
            return one.1;
        }
    }
    Value::Unknown
}

#[tactic(auto, unfolding(crate::specs::Options::value_of, crate::specs::Options::options))]
fn value_of(name: &[u8]) -> Value
    ensures { result ≡ value_of name.now }
{
    value_in(&OPTIONS, name)
}

fn equals_at(word: &[u8]) -> Option<usize>
    ensures value { result ≡ position (λ byte. byte == 61) word.now }
    ensures within { IfSome result (λ at. at < length word.now) }
{
    word.iter().position(|byte| *byte == b'=')
}

/// The name of an option, which may have a value behind `=`.
fn name_of(word: &[u8]) -> &[u8]
    ensures { result.now ≡ name_of word.now }
{
    match equals_at(word) {
        Some(at) => word.get(..at).unwrap_or(word),
        None => word,
    }
}

/// The value behind `=`, if there is one.
fn given_of(word: &[u8]) -> Option<&[u8]>
    ensures { option_map (λ value. value.now) result ≡ given_of word.now }
{
    match equals_at(word) {
        Some(at) => word.get(at + 1..),
        None => None,
    }
}

/// Whether a word can be the value of the option before it: it does not begin with `-`, but for `-`.
fn is_value(word: Option<&[u8]>) -> bool
    ensures { result ≡ is_value (option_map (λ word. word.now) word.entry) }
{
    match word {
        Some(word) => !word.starts_with(b"-") || word == b"-".as_slice(),
        None => false,
    }
}

/// Whether the next word is the value of an option; None if a word is no option, nor such a value.
#[tactic(auto, unfolding(crate::specs::Options::taken_after))]
fn taken_after(is_taken: bool, word: &[u8], next: Option<&[u8]>) -> Option<bool>
    ensures { result ≡ taken_after is_taken word.now (option_map (λ word. word.now) next.entry) }
{
    if is_taken {
        return Some(false);
    }
    match (value_of(name_of(word)), given_of(word)) {
        (Value::Unknown, _) | (Value::Flag, Some(_)) => None,
        (Value::Flag, None) => Some(false),
        (_, Some(_)) => Some(false),
        (_, None) if is_value(next) => Some(true),
        (_, None) => None,
    }
}

fn decoded_at<'w>(words: &'w [Word<'_>], place: usize) -> Option<&'w [u8]>
    ensures { option_map (λ bytes. bytes.now) result ≡ decoded_at words.now place }
{
    match words.get(place) {
        Some(word) => Some(word.decoded()),
        None => None,
    }
}

#[tactic(auto, using(crate::proofs::Placing::goes_on, crate::proofs::Placing::stops, crate::proofs::Placing::ends))]
fn misplaced_from(words: &[Word<'_>], first: usize) -> Option<usize>
    ensures { result ≡ misplaced false first (drop first words.now) }
{
    let mut is_taken = false;
    for at in first..words.len() {
        match taken_after(is_taken, words[at].decoded(), decoded_at(words, at + 1)) {
            Some(is_value) => is_taken = is_value,
            None => return Some(at),
        }
    }
    None
}

#[tactic(auto, using(crate::proofs::Placing::valid, crate::proofs::Placing::invalid, crate::proofs::Placing::all_valid))]
fn misnamed_from(
    alloc: Global,
    words: &[Word<'_>],
    first: usize,
) -> Result<Option<usize>, AllocError>
    ensures { IfOk result (λ place. place ≡ misnamed first (drop first words.now)) }
{
    for at in first..words.len() {
        if let Some(place) = misnamed_at(
            alloc,
            words[at].decoded(),
            decoded_at(words, at + 1),
            at,
        )? {
            return Ok(Some(place));
        }
    }
    Ok(None)
}

fn misnamed_at(
    alloc: Global,
    word: &[u8],
    next: Option<&[u8]>,
    place: usize,
) -> Result<Option<usize>, AllocError>
    requires { place < 2 ^ 63 }
    ensures { IfOk result (λ found. found
        ≡ misnamed_at word.now (option_map (λ word. word.now) next.entry) place) }
{
    let kind = value_of(name_of(word));
    match (given_of(word), next) {
        (Some(value), _) => unless_valid(alloc, kind, value, place),
        (None, Some(next)) => unless_valid(alloc, kind, next, place + 1),
        (None, None) => Ok(None),
    }
}

fn unless_valid(
    alloc: Global,
    kind: Value,
    value: &[u8],
    place: usize,
) -> Result<Option<usize>, AllocError>
    ensures { IfOk result (λ found. found ≡ unless_valid kind value.now place) }
{
    if is_valid(alloc, kind, value)? {
        Ok(None)
    } else {
        Ok(Some(place))
    }
}

#[tactic(auto, unfolding(crate::specs::Options::is_free, crate::specs::Options::is_valid_text))]
fn is_valid(alloc: Global, kind: Value, value: &[u8]) -> Result<bool, AllocError>
    ensures { IfOk result (λ is. is ≡ is_valid kind value.now) }
{
    let Some(text) = as_text(value) else {
        return Ok(matches!(kind, Value::Unknown | Value::Flag));
    };
    match kind {
        Value::Principal => is_read(principal_of(alloc, text)),
        Value::Host => is_read(host_of(alloc, text)),
        Value::Operation => Ok(operation_named(text.as_bytes()).is_some()),
        Value::Pattern => Ok(filter_pattern_named(text.as_bytes()).is_some()),
        Value::Unknown | Value::Flag | Value::Any => Ok(true),
    }
}
