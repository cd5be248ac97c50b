//! What is printed on standard error beside the answers, as text.

ghost use Rattle.std.specs.Prelude.{◌≡◌, ◌++◌, OnOk};
ghost use Rattle.kob_mistakes.specs.Told.{doubtful_text, expected_head, form_text, head_text};
ghost use Rattle.kob_mistakes.specs.Told.{misspelt_text, neither_text};
ghost use Rattle.kob_mistakes.specs.Told.{quoted_text, quotes_text, state_text, unquoted_text};

use crate::kinds::{Kind, kind_named};
use kob_words::push_number;
use std::alloc::AllocError;

#[tactic(auto, using(kob_words::proofs::Appending::appending), unfolding(crate::specs::Told::head_text))]
pub(crate) fn push_head(out: &mut Vec<u8>, name: &str, line: u64) -> Result<(), AllocError>
    ensures { OnOk result (out.new.items ≡ out.old.items ++ head_text name.now line) }
{
    out.extend_from_slice(b"kob: ")?;
    out.extend_from_slice(name.as_bytes())?;
    out.extend_from_slice(b": line ")?;
    push_number(out, line)?;
    out.extend_from_slice(b": ")
}

#[tactic(auto, unfolding(crate::specs::Told::quotes_text))]
fn quotes_text() -> &'static str
    ensures { result.now ≡ quotes_text }
{
    "  hint: quotes make a question of words, as in '"
}

#[tactic(auto, unfolding(crate::specs::Told::expected_head))]
fn expected_head() -> &'static str
    ensures { result.now ≡ expected_head }
{
    "  expected: "
}

#[tactic(auto, unfolding(crate::specs::Told::neither_text))]
fn neither_text() -> &'static str
    ensures { result.now ≡ neither_text }
{
    ": no such question, and no such file\n  nearest: "
}

#[tactic(auto, unfolding(crate::specs::Told::state_text))]
fn state_text() -> &'static str
    ensures { result.now ≡ state_text }
{
    " is the STATE here; a word before it may be missing\n"
}

/// Appends that quotes make a question of a word and those behind it. The error of this and the
/// others is out of memory; `out` has then grown by a part of the text.
#[tactic(auto, using(kob_words::proofs::Appending::appending))]
pub fn push_unquoted(out: &mut Vec<u8>, word: &str) -> Result<(), AllocError>
    ensures { OnOk result (out.new.items ≡ out.old.items ++ unquoted_text word.now) }
{
    push_kind(out, kind_named(word.as_bytes()))?;
    out.extend_from_slice(quotes_text().as_bytes())?;
    out.extend_from_slice(word.as_bytes())?;
    out.extend_from_slice(b" ..'\n")
}

#[tactic(auto, using(kob_words::proofs::Appending::appending))]
fn push_kind(out: &mut Vec<u8>, kind: Option<Kind>) -> Result<(), AllocError>
    ensures { OnOk result (out.new.items ≡ out.old.items ++ form_text kind) }
{
    match kind {
        Some(kind) => {
            out.extend_from_slice(expected_head().as_bytes())?;
            out.extend_from_slice(kind.form().as_bytes())?;
            out.extend_from_slice(b"\n")
        }
        None => Ok(()),
    }
}

/// Appends that a word is neither a question nor a file, and the question that is near.
#[tactic(auto, using(kob_words::proofs::Appending::appending))]
pub fn push_misspelt(out: &mut Vec<u8>, word: &str, kind: Kind) -> Result<(), AllocError>
    ensures { OnOk result (out.new.items ≡ out.old.items ++ misspelt_text word.now kind) }
{
    out.extend_from_slice(b"kob: ")?;
    out.extend_from_slice(word.as_bytes())?;
    out.extend_from_slice(neither_text().as_bytes())?;
    out.extend_from_slice(kind.name().as_bytes())?;
    out.extend_from_slice(b"\n")?;
    if kind.is_alone() {
        return Ok(());
    }
    push_unquoted(out, kind.name())
}

/// Appends that the state of a record may be meant as the word behind it.
#[tactic(auto, using(kob_words::proofs::Appending::appending))]
pub fn push_doubtful(out: &mut Vec<u8>, name: &str, line: u64, word: &str) -> Result<(), AllocError>
    ensures { OnOk result (out.new.items ≡ out.old.items ++ doubtful_text name.now line word.now) }
{
    push_head(out, name, line)?;
    out.extend_from_slice(word.as_bytes())?;
    out.extend_from_slice(state_text().as_bytes())
}

/// Appends that quotes are a part of a name.
#[tactic(auto, using(kob_words::proofs::Appending::appending))]
pub fn push_quoted(out: &mut Vec<u8>, name: &str, line: u64, word: &[u8]) -> Result<(), AllocError>
    ensures { OnOk result (out.new.items ≡ out.old.items ++ quoted_text name.now line word.now) }
{
    push_head(out, name, line)?;
    out.extend_from_slice(b"quotes are a part of the name ")?;
    out.extend_from_slice(word)?;
    out.extend_from_slice(b"\n")
}
