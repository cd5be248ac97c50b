//! Which workers the lines before declare.

ghost use Rattle.std.specs.Prelude.{◌≡◌, IfOk, map};
ghost use Rattle.kob_script.specs.Script.{line_words};
ghost use Rattle.kob_scene_text.specs.Places.{are_of, are_of_variant, is_declared};
ghost use Rattle.kob_scene_text.specs.Places.{is_variant, names_variant, sending_in, worker_in};

use crate::name::Worker;
use crate::scene::Sending;
use crate::service_lines::sending_first;
use kob_script::{LineError, Word, words_of};
use std::alloc::{AllocError, Global};

/// The kind of the worker of a name, if one of these lines declares it. Its place is 0.
pub(crate) fn worker_in(
    alloc: Global,
    before: &[&[u8]],
    name: &[u8],
) -> Result<Option<Worker>, AllocError>
    ensures { IfOk result (λ worker.
        worker ≡ worker_in (map (λ line. line.now) before.now) name.now) }
{
    if is_declared(alloc, b"service", before, name)? {
        return Ok(Some(Worker::Service(0)));
    }
    let is_consumer = is_declared(alloc, b"consumer", before, name)?;
    Ok(is_consumer.then_some(Worker::Consumer(0)))
}

/// Whether one of these lines declares a worker of this name by a keyword.
pub(crate) fn is_declared(
    alloc: Global,
    keyword: &[u8],
    before: &[&[u8]],
    name: &[u8],
) -> Result<bool, AllocError>
    ensures { IfOk result (λ is.
        is ≡ is_declared keyword.now (map (λ line. line.now) before.now) name.now) }
{
    for line in before {
        let words = words_in(alloc, line)?;
        if are_of(keyword, name, &words) {
            return Ok(true);
        }
    }
    Ok(false)
}

/// Whether one of these lines declares a worker of this name that is a variant.
pub(crate) fn is_variant(alloc: Global, before: &[&[u8]], name: &[u8]) -> Result<bool, AllocError>
    ensures { IfOk result (λ is.
        is ≡ is_variant (map (λ line. line.now) before.now) name.now) }
{
    for line in before {
        let words = words_in(alloc, line)?;
        if are_of_variant(name, &words) {
            return Ok(true);
        }
    }
    Ok(false)
}

/// Whether words declare a worker of this name that is a variant.
fn are_of_variant(name: &[u8], words: &[Word<'_>]) -> bool
    ensures { result ≡ are_of_variant name.now words.now }
{
    are_of(b"service", name, words) && names_variant(words.get(6..).unwrap_or(&[]))
        || are_of(b"consumer", name, words)
            && words.get(8).is_some_and(|word| {
                word.decoded() == b"start".as_slice()
                    || word.decoded() == b"commits".as_slice()
                    || word.decoded() == b"no".as_slice()
            })
}

/// Whether words begin with the name of a variant of a service.
#[tactic(auto, unfolding(crate::specs::Places::names_variant))]
fn names_variant(words: &[Word<'_>]) -> bool
    ensures { result ≡ names_variant words.now }
{
    let (sending, _) = sending_first(words);
    sending.is_variant()
}

/// How the service of a name sends, by the first of these lines that declares one.
#[tactic(auto, unfolding(crate::specs::Places::sending_of_words))]
pub(crate) fn sending_in(
    alloc: Global,
    before: &[&[u8]],
    name: &[u8],
) -> Result<Sending, AllocError>
    ensures { IfOk result (λ sending.
        sending ≡ sending_in (map (λ line. line.now) before.now) name.now) }
{
    for line in before {
        let words = words_in(alloc, line)?;
        if are_of(b"service", name, &words) {
            let (sending, _) = sending_first(words.get(6..).unwrap_or(&[]));
            return Ok(sending);
        }
    }
    Ok(Sending::Proved)
}

/// The words of a line, none if it has an escape that is not whole.
fn words_in(alloc: Global, line: &[u8]) -> Result<Vec<Word<'_>>, AllocError>
    ensures { IfOk result (λ words. words.items ≡ line_words line.now) }
{
    match words_of(alloc, line) {
        Ok(words) => Ok(words),
        Err(LineError::Fault(_)) => Ok(Vec::new(alloc)),
        Err(LineError::Memory(refused)) => Err(refused),
    }
}

/// Whether words declare a worker of this name by a keyword.
fn are_of(keyword: &[u8], name: &[u8], words: &[Word<'_>]) -> bool
    ensures { result ≡ are_of keyword.now name.now words.now }
{
    match words {
        [one, other, ..] => one.decoded() == keyword && other.decoded() == name,
        [_] | [] => false,
    }
}
