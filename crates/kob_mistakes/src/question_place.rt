//! Which word of a question is wrong, and what is missing there.

ghost use Rattle.std.specs.Prelude.{◌≡◌, IfOk, option_map};
ghost use Rattle.kob_mistakes.specs.Questions.{access_place, access_row};
ghost use Rattle.kob_mistakes.specs.Questions.{expected_place, first_is, has_act, has_prefix, how_row};
ghost use Rattle.kob_mistakes.specs.Questions.{is_act, is_cut, is_cut_access, is_cut_behind};
ghost use Rattle.kob_mistakes.specs.Questions.{is_word, lacks_host, missing_access};
ghost use Rattle.kob_mistakes.specs.Questions.{missing_at, missing_behind};
ghost use Rattle.kob_mistakes.specs.Questions.{missing_hint, missing_of_row};
ghost use Rattle.kob_mistakes.specs.Questions.{place_behind, place_by_name};
ghost use Rattle.kob_mistakes.specs.Questions.{produced_row, right_row};

use crate::forms::is_command;
use crate::kinds::{Kind, kind_named};
use crate::rows::{Fit, misfit};
use kob_names::sum_of;
use kob_script::{FaultKind, Word, fault_place};
use kob_words::operation_named;
use std::alloc::{AllocError, Global};

fn is_word(word: &Word<'_>, text: &[u8]) -> bool
    ensures { result ≡ is_word word.now text.now }
{
    word.decoded() == text
}

/// The place of the word that is wrong, by the first word of the line.
pub(crate) fn place_by_name(
    alloc: Global,
    words: &[Word<'_>],
    fault: FaultKind,
) -> Result<usize, AllocError>
    ensures { IfOk result (λ place. place ≡ place_by_name fault words.now) }
{
    match words {
        [] => Ok(0),
        [first, rest @ ..] => match kind_named(first.decoded()) {
            Some(kind) => sum_of(place_behind(alloc, kind, rest, fault)?, 1),
            None => Ok(0),
        },
    }
}

/// The place behind the first word.
fn place_behind(
    alloc: Global,
    kind: Kind,
    words: &[Word<'_>],
    fault: FaultKind,
) -> Result<usize, AllocError>
    ensures { IfOk result (λ place. place ≡ place_behind kind fault words.now) }
{
    match kind {
        Kind::May => access_place(alloc, words, fault),
        Kind::Expect => expected_place(alloc, words, fault),
        Kind::Who => misfit(alloc, right_row(words), words),
        Kind::Rights | Kind::Sees => misfit(alloc, &[Fit::Principal, Fit::Host], words),
        Kind::Topic => misfit(alloc, &[Fit::Name], words),
        Kind::Summary | Kind::Unused | Kind::Shadowed | Kind::Removable => {
            misfit(alloc, &[], words)
        }
    }
}

/// The place behind `expect`.
fn expected_place(alloc: Global, words: &[Word<'_>], fault: FaultKind) -> Result<usize, AllocError>
    ensures { IfOk result (λ place. place ≡ expected_place fault words.now) }
{
    let place = misfit(alloc, &[Fit::Answer, Fit::May], words)?;
    match words {
        [_, _, rest @ ..] if place == 2 => sum_of(access_place(alloc, rest, fault)?, 2),
        _ => Ok(place),
    }
}

/// The place behind `may`. A request is judged as a script's.
fn access_place(alloc: Global, words: &[Word<'_>], fault: FaultKind) -> Result<usize, AllocError>
    ensures { IfOk result (λ place. place ≡ access_place fault words.now) }
{
    if lacks_host(words) {
        return misfit(alloc, &[Fit::Principal], words);
    }
    match access_row(words) {
        Some(row) => misfit(alloc, row, words),
        None => Ok(fault_place(alloc, words, fault)?.unwrap_or(2)),
    }
}

/// What the words behind `may` have to be; None for a request.
fn access_row(words: &[Word<'_>]) -> Option<&'static [Fit]>
    ensures { option_map (λ row. row.now) result ≡ access_row words.now }
{
    match words {
        [_, _, command, ..] if is_word(command, b"consume") => {
            Some(&[Fit::Principal, Fit::Host, Fit::Act, Fit::Topic, Fit::Group])
        }
        [_, _, command, rest @ ..] if is_word(command, b"produce") => produced_row(rest),
        [_, _, command, ..] if operation_named(command.decoded()).is_some() => Some(&[
            Fit::Principal,
            Fit::Host,
            Fit::Operation,
            Fit::Resource,
            Fit::Name,
        ]),
        [_, _, _, ..] => None,
        [_, _] | [_] | [] => Some(&[Fit::Principal, Fit::Host, Fit::Act]),
    }
}

/// The row of `produce TOPIC` with a word behind it that says how.
fn how_row(how: &Word<'_>) -> &'static [Fit]
    ensures { result.now ≡ how_row how.now }
{
    if is_word(how, b"transactional") {
        &[
            Fit::Principal,
            Fit::Host,
            Fit::Act,
            Fit::Topic,
            Fit::How,
            Fit::Id,
        ]
    } else {
        &[Fit::Principal, Fit::Host, Fit::Act, Fit::Topic, Fit::How]
    }
}

/// The row of `produce TOPIC`, `produce TOPIC idempotent` or `produce TOPIC transactional ID`, by the
/// words behind `produce`; None if more is there, as in a request.
fn produced_row(words: &[Word<'_>]) -> Option<&'static [Fit]>
    ensures { option_map (λ row. row.now) result ≡ produced_row words.now }
{
    match words {
        [] | [_] => Some(&[Fit::Principal, Fit::Host, Fit::Act, Fit::Topic]),
        [_, how] => Some(how_row(how)),
        [_, _, _, ..] => None,
    }
}

/// Whether a word says what is asked for.
#[tactic(auto, unfolding(crate::specs::Questions::is_act))]
fn is_act(word: &Word<'_>) -> bool
    ensures { result ≡ is_act word.now }
{
    operation_named(word.decoded()).is_some()
        || is_word(word, b"consume")
        || is_command(word.decoded())
}

/// Whether HOST is left out between PRINCIPAL and what is asked for.
fn lacks_host(words: &[Word<'_>]) -> bool
    ensures { result ≡ lacks_host words.now }
{
    match words {
        [_, second, third, ..] => is_act(second) && !is_act(third),
        [_, second] => is_act(second),
        [_] | [] => false,
    }
}

fn first_is(words: &[Word<'_>], text: &[u8]) -> bool
    ensures { result ≡ first_is words.now text.now }
{
    match words {
        [first, ..] => is_word(first, text),
        [] => false,
    }
}

fn has_prefix(words: &[Word<'_>]) -> bool
    ensures { result ≡ has_prefix words.now }
{
    words.iter().any(|word| is_word(word, b"prefix"))
}

/// What the words behind `who` have to be.
fn right_row(words: &[Word<'_>]) -> &'static [Fit]
    ensures { result.now ≡ right_row words.now }
{
    if first_is(words, b"produce") && words.len() < 3 {
        &[Fit::Act, Fit::Topic]
    } else if first_is(words, b"consume") && words.len() < 4 {
        &[Fit::Act, Fit::Topic, Fit::Group]
    } else if has_prefix(words) {
        &[Fit::Operation, Fit::ManyNamed, Fit::Prefix, Fit::Name]
    } else if words.len() < 4 {
        &[Fit::Operation, Fit::Resource, Fit::Name]
    } else {
        &[Fit::Operation, Fit::Resource, Fit::Name, Fit::Host]
    }
}

fn missing_of_row(row: &[Fit], words: &[Word<'_>], place: usize) -> Option<Fit>
    ensures { result ≡ missing_of_row row.now words.now place }
{
    if words.len() < row.len() {
        row.get(place).copied()
    } else {
        None
    }
}

/// What the words behind `may` lack.
fn missing_access(words: &[Word<'_>], place: usize) -> Option<Fit>
    ensures { result ≡ missing_access words.now place }
{
    if lacks_host(words) && place == 1 {
        return Some(Fit::Host);
    }
    missing_of_row(access_row(words)?, words, place)
}

fn missing_behind(kind: Kind, words: &[Word<'_>], place: usize) -> Option<Fit>
    ensures { result ≡ missing_behind kind words.now place }
{
    match kind {
        Kind::May => missing_access(words, place),
        Kind::Expect => match words {
            [_, _, ..] if place < 2 => None,
            [_, _, rest @ ..] => missing_access(rest, place - 2),
            [_] | [] => missing_of_row(&[Fit::Answer, Fit::May], words, place),
        },
        Kind::Who => missing_of_row(right_row(words), words, place),
        Kind::Rights => missing_of_row(&[Fit::Principal], words, place),
        Kind::Sees => missing_of_row(&[Fit::Principal, Fit::Host], words, place),
        Kind::Topic => missing_of_row(&[Fit::Name], words, place),
        Kind::Summary | Kind::Unused | Kind::Shadowed | Kind::Removable => None,
    }
}

/// What a question of too few words lacks at the place that is wrong.
fn missing_at(words: &[Word<'_>], place: usize) -> Option<Fit>
    ensures { result ≡ missing_at words.now place }
{
    match words {
        [first, rest @ ..] if place > 0 => {
            missing_behind(kind_named(first.decoded())?, rest, place - 1)
        }
        [_, ..] | [] => None,
    }
}

/// A hint on what a question of too few words lacks at the place that is wrong.
pub(crate) fn hint_on_missing(words: &[Word<'_>], place: usize) -> Option<&'static str>
    ensures { option_map (λ text. text.now) result ≡ missing_hint words.now place }
{
    match missing_at(words, place)? {
        Fit::Principal => Some("PRINCIPAL is missing here, as User:alice"),
        Fit::Host => Some("HOST is missing here, as 10.0.0.1"),
        Fit::Act => Some("an operation, produce, consume or a request is missing here"),
        Fit::Topic => Some("TOPIC is missing here, as orders"),
        Fit::Group => Some("GROUP is missing here, as billing"),
        Fit::Name => Some("NAME is missing here, as orders"),
        Fit::Id => Some("a transactional ID is missing here"),
        Fit::Prefix => Some("prefix is missing here"),
        Fit::Operation => Some("OPERATION is missing here, as Read or Write"),
        Fit::Resource => Some("RESOURCE is missing here: Topic, Group, Cluster or TransactionalId"),
        Fit::ManyNamed => Some("RESOURCE is missing here: Topic, Group or TransactionalId"),
        Fit::Answer => Some("yes or no is missing here"),
        Fit::May => Some("may is missing here"),
        Fit::How => Some("idempotent or transactional is missing here"),
    }
}

fn has_act(words: &[Word<'_>]) -> bool
    ensures { result ≡ has_act words.now }
{
    words.iter().any(|word| is_act(word))
}

/// Whether a blank may cut a name in two before the place behind `may` that is wrong.
fn is_cut_access(words: &[Word<'_>], place: usize) -> bool
    ensures { result ≡ is_cut_access words.now place }
{
    place == 2 && has_act(words.get(3..).unwrap_or(&[])) || place > 4 && place < words.len()
}

fn is_cut_behind(kind: Kind, words: &[Word<'_>], place: usize) -> bool
    ensures { result ≡ is_cut_behind kind words.now place }
{
    match kind {
        Kind::May => is_cut_access(words, place),
        Kind::Expect => is_cut_access(words.get(2..).unwrap_or(&[]), place.saturating_sub(2)),
        Kind::Who => place == 4,
        Kind::Rights => place == 2,
        Kind::Sees => place == 2 && words.len() > 2,
        Kind::Topic | Kind::Summary | Kind::Unused | Kind::Shadowed | Kind::Removable => false,
    }
}

/// Whether a blank may cut a name in two before the place that is wrong: a word is there that is
/// one too many, or stands before what is asked for.
pub(crate) fn is_cut(words: &[Word<'_>], place: usize) -> bool
    ensures { result ≡ is_cut words.now place }
{
    match words {
        [first, rest @ ..] if place > 0 => match kind_named(first.decoded()) {
            Some(kind) => is_cut_behind(kind, rest, place - 1),
            None => false,
        },
        [_, ..] | [] => false,
    }
}
