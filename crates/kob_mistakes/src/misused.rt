//! What is said of a word that its line means otherwise.

ghost use Rattle.std.specs.Prelude.{◌≡◌, ◌++◌, OnOk, codes};
ghost use Rattle.kob_mistakes.specs.Misused.{misused_line, misused_text};

use crate::told::push_head;
use kob_scene_text::Misuse;
use std::alloc::AllocError;

#[tactic(auto, using(kob_words::proofs::Appending::appending))]
fn push_misuse(
    out: &mut Vec<u8>,
    misuse: Misuse,
    word: &[u8],
    worker: &[u8],
) -> Result<(), AllocError>
    ensures { OnOk result
        (out.new.items ≡ out.old.items ++ misused_text misuse word.now worker.now) }
{
    out.extend_from_slice(word)?;
    match misuse {
        Misuse::ServiceName => out.extend_from_slice(b" is a service, not a consumer"),
        Misuse::ConsumerName => out.extend_from_slice(b" is a consumer, not a service"),
        Misuse::ServiceStep => {
            out.extend_from_slice(b" is a step of a service, and ")?;
            out.extend_from_slice(worker)?;
            out.extend_from_slice(b" is a consumer")
        }
        Misuse::ConsumerStep => {
            out.extend_from_slice(b" is a step of a consumer, and ")?;
            out.extend_from_slice(worker)?;
            out.extend_from_slice(b" is a service")
        }
    }
}

/// Appends what a word is whose line of the text of a name means it otherwise. The line begins with
/// the name of a worker. The error is out of memory; `out` has then grown by a part of it.
#[tactic(auto, using(kob_words::proofs::Appending::appending))]
pub fn push_misused(
    out: &mut Vec<u8>,
    name: &str,
    line: u64,
    misuse: Misuse,
    word: &[u8],
    worker: &[u8],
) -> Result<(), AllocError>
    ensures { OnOk result (out.new.items
        ≡ out.old.items ++ misused_line name.now line misuse word.now worker.now) }
{
    push_head(out, name, line)?;
    push_misuse(out, misuse, word, worker)?;
    out.extend_from_slice(b"\n")
}
