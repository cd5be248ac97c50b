//! The lines of a text, and where the words of a line are.

ghost use Rattle.std.specs.Prelude.{◌≡◌, ◌-◌, IfOk, Result, is_ok, map, option_map, take};
ghost use Rattle.kob_mistakes.specs.Lines.{as_text, is_misread, line_where, word_at};
ghost use Rattle.kob_script.specs.Script.{lines_in};
ghost use Rattle.kob_script.specs.Words.{Gives, is_blank, raw_words};
ghost use Rattle.kob_script.specs.declared.fault.FaultKind as kinds;

use bstr::ByteSlice;
use kob_script::{LineError, Word};
use std::alloc::{AllocError, Global};

/// Whether a byte stands between two words.
pub(crate) fn is_blank(byte: u8) -> bool
    ensures { result ≡ is_blank byte }
{
    byte == b' ' || byte == b'\t'
}

/// The lines of a text.
pub fn lines_of(alloc: Global, text: &[u8]) -> Result<Vec<&[u8]>, AllocError>
    ensures { IfOk result (λ lines. map (λ line. line.now) lines.items ≡ lines_in text.now) }
{
    text.lines().collect(alloc)
}

/// The words of a line as they are written in it.
pub(crate) fn raw_words(alloc: Global, line: &[u8]) -> Result<Vec<&[u8]>, AllocError>
    ensures { IfOk result (λ words. map (λ word. word.now) words.items ≡ raw_words line.now) }
{
    line.split(|byte| is_blank(*byte))
        .filter(|word| !word.is_empty())
        .collect(alloc)
}

/// The word at a place, an empty one behind the last.
#[tactic(auto, using(crate::proofs::Walking::lent_at), unfolding(crate::specs::Lines::word_at))]
pub fn word_at<'a>(words: &[&'a [u8]], place: usize) -> &'a [u8]
    ensures { result.now ≡ word_at (map (λ word. word.now) words.now) place }
{
    match words.get(place) {
        Some(word) => word,
        None => b"",
    }
}

/// Bytes as text, if they are one.
pub(crate) fn as_text(bytes: &[u8]) -> Option<&str>
    ensures { option_map (λ text. text.now) result ≡ as_text bytes.now }
{
    match bytes.to_str() {
        Ok(text) => Some(text),
        Err(_) => None,
    }
}

/// The line of a number, counted from 1.
pub(crate) fn line_at<'a>(lines: &[&'a [u8]], number: u64) -> &'a [u8]
    ensures { result.now ≡ word_at (map (λ line. line.now) lines.now) (number - 1) }
{
    word_at(lines, number.saturating_sub(1) as usize)
}

/// The lines before that of a number.
#[tactic(auto, using(crate::proofs::Walking::lent_before, crate::proofs::Walking::lent_whole))]
pub(crate) fn lines_before<'l, 'a>(lines: &'l [&'a [u8]], number: u64) -> &'l [&'a [u8]]
    ensures { map (λ line. line.now) result.now
        ≡ take (number - 1) (map (λ line. line.now) lines.now) }
{
    let count = number.saturating_sub(1) as usize;
    lines.get(..count).unwrap_or(lines)
}

/// The place of the first word with a percent sign that two hexadecimal digits do not follow.
#[tactic(auto, using(crate::proofs::Walking::goes_on, crate::proofs::Walking::stops, crate::proofs::Walking::ends))]
pub(crate) fn escape_place(alloc: Global, words: &[&[u8]]) -> Result<Option<usize>, AllocError>
    ensures { IfOk result (λ place.
        place ≡ line_where is_misread 0 (map (λ word. word.now) words.now)) }
{
    let mut place: usize = 0;
    for word in words {
        if !is_read(Word::read(alloc, word))? {
            return Ok(Some(place));
        }
        place += 1;
    }
    Ok(None)
}

/// Whether something was read. What was read is dropped.
pub(crate) fn is_read<T: Drop>(read: Result<T, LineError>) -> Result<bool, AllocError>
    ensures { (told : Result T kinds.FaultKind) → Gives read told
        → IfOk result (λ is. is ≡ is_ok told) }
{
    match read {
        Ok(_) => Ok(true),
        Err(LineError::Fault(_)) => Ok(false),
        Err(LineError::Memory(refused)) => Err(refused),
    }
}
