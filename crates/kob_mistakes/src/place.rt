//! The place of the word that a fault of a scene is about.

ghost use Rattle.std.specs.Prelude.{◌≡◌, IfOk, map};
ghost use Rattle.kob_mistakes.specs.Places.{word_place};

use crate::option::option_place;
use kob_scene_text::{SceneFaultKind, fault_place};
use kob_script::{FaultKind, Word};
use std::alloc::{AllocError, Global};

/// The place of the word of a line that has a fault of this kind, from 0: the first one with such a
/// fault by the reader's own tests. It is the number of words if one is missing. `before` are the
/// lines before it. Where a fault is one of the whole line, it is the place of the word that fits no
/// option, for options of `acl`, and else of the first word.
pub fn word_place(
    alloc: Global,
    before: &[&[u8]],
    words: &[Word<'_>],
    kind: SceneFaultKind,
) -> Result<usize, AllocError>
    ensures { IfOk result (λ place. place
        ≡ word_place (map (λ line. line.now) before.now) kind words.now) }
{
    if let Some(place) = fault_place(alloc, before, words, kind)? {
        return Ok(place);
    }
    match kind {
        SceneFaultKind::Script(
            kind @ (FaultKind::Usage
            | FaultKind::NoAction
            | FaultKind::BadName
            | FaultKind::BadMix
            | FaultKind::NoResource
            | FaultKind::NoPrincipal),
        ) => option_place(alloc, words, 3, kind),
        _ => Ok(0),
    }
}
