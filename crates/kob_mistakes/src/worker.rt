//! The workers that lines declare.

ghost use Rattle.std.specs.Prelude.{◌≡◌, IfOk, map};
ghost use Rattle.kob_mistakes.specs.Workers.{declared_by, kind_named, stepping_at};

use crate::record::word_is;
use crate::words::{raw_words, word_at};
use std::alloc::{AllocError, Global};

/// What a worker is.
#[derive(Clone, Copy)]
pub(crate) enum WorkerKind {
    Service,
    Consumer,
}

/// What a line declares that begins with this word.
pub(crate) fn declared_by(first: &[u8]) -> Option<WorkerKind>
    ensures { result ≡ declared_by first.now }
{
    if first == b"service".as_slice() {
        Some(WorkerKind::Service)
    } else if first == b"consumer".as_slice() {
        Some(WorkerKind::Consumer)
    } else {
        None
    }
}

/// The kind of the worker of this name that one of these lines declares.
pub(crate) fn kind_named(
    alloc: Global,
    before: &[&[u8]],
    name: &[u8],
) -> Result<Option<WorkerKind>, AllocError>
    ensures { IfOk result (λ kind.
        kind ≡ kind_named (map (λ line. line.now) before.now) name.now) }
{
    for line in before {
        let words = raw_words(alloc, line)?;
        if word_is(&words, 1, name)
            && let Some(kind) = declared_by(word_at(&words, 0))
        {
            return Ok(Some(kind));
        }
    }
    Ok(None)
}

/// The kind of the worker whose step is wrong: of the first word, if the second one is wrong.
pub(crate) fn stepping_at(
    alloc: Global,
    before: &[&[u8]],
    words: &[&[u8]],
    place: usize,
) -> Result<Option<WorkerKind>, AllocError>
    ensures { IfOk result (λ kind. kind
        ≡ stepping_at (map (λ line. line.now) before.now) (map (λ word. word.now) words.now) place) }
{
    if place == 1 {
        kind_named(alloc, before, word_at(words, 0))
    } else {
        Ok(None)
    }
}
