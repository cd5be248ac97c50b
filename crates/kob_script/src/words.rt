//! The words of a line, in which `%` and two hexadecimal digits stand for one byte.

ghost use Rattle.std.specs.Prelude.{◌≡◌, ◌≤◌, false, IfSome, IsTrue, Ok, bytes_eq, codes};
ghost use Rattle.std.specs.Prelude.{length, option_map, take};
ghost use Rattle.std.specs.Result.{result_err};
ghost use Rattle.kob_words.specs.Words.{has_percent};
ghost use Rattle.kob_script.specs.Words.{Gives, GivesSeen, HidesNoFault, cut_at, each};
ghost use Rattle.kob_script.specs.Words.{is_skipped, raw_words, word_of, words_of};

use crate::fault::{FaultKind, LineError};
use crate::raw_words::{RawWords, is_blank};
use kob_names::Bytes;
use kob_words::{has_whole_escapes, may_have_escapes, unescaped};
use memchr::memchr;
use std::alloc::Global;
use std::marker::Model;

/// A word as it is in a line, and the bytes that it stands for. Contracts see both.
#[derive(Drop)]
pub struct Word<'a> {
    raw: &'a [u8],
    /// The bytes that it stands for, if it may have escapes.
    replaced: Option<Box<Bytes>>,
}

impl<'a> Model for Word<'a> {
    ghost use Rattle.std.specs.Prelude.{option_map, unwrap_or};
    ghost use Rattle.kob_script.specs.Words.{Word};

    ghost Value = { Word };

    ghost view = { λ word. record {
      raw = word.raw.now;
      decoded = unwrap_or (option_map (λ bytes. bytes.value) word.replaced) word.raw.now;
    } };
}

impl<'a> Word<'a> {
    /// The word that these bytes of a line are. The fault is `BadEscape`. Does not allocate for a
    /// word without a percent sign.
    #[tactic(auto, using(kob_words::proofs::Escapes::plain_stands))]
    pub fn read(alloc: Global, raw: &'a [u8]) -> Result<Word<'a>, LineError>
        ensures gives { Gives result (word_of raw.now) }
        ensures memory { HidesNoFault result (result_err (word_of raw.now)) }
    {
        let mut replaced = None;
        if may_have_escapes(raw) {
            let bytes = unescaped(alloc, raw)?.ok_or(FaultKind::BadEscape)?;
            replaced = Some(Box::new(alloc, bytes)?);
        }
        Ok(Word { raw, replaced })
    }

    // The same of bytes of which it may be known that they have no percent sign.
    #[inline(always)]
    #[tactic(auto, using(crate::proofs::LineWords::plain_word))]
    fn cut(alloc: Global, raw: &'a [u8], is_plain: bool) -> Result<Word<'a>, LineError>
        requires { IsTrue is_plain → has_percent raw.now ≡ false }
        ensures { Gives result (word_of raw.now) }
    {
        if is_plain {
            return Ok(Word {
                raw,
                replaced: None,
            });
        }
        Word::read(alloc, raw)
    }

    /// The word as it is in the line.
    pub fn raw(&self) -> &[u8]
        ensures { result.now ≡ self.now.raw }
    {
        self.raw
    }

    /// The bytes that it stands for.
    pub fn decoded(&self) -> &[u8]
        ensures { result.now ≡ self.now.decoded }
    {
        match &self.replaced {
            Some(bytes) => bytes.as_slice(),
            None => self.raw,
        }
    }

    /// Whether it is `-`, without an escape.
    pub fn is_dash(&self) -> bool
        ensures { result ≡ bytes_eq self.now.raw (codes "-") }
    {
        self.raw == b"-".as_slice()
    }
}

/// The words of a line. None if the line is skipped: if it has no word, or its first one begins with
/// `#`. The fault is `BadEscape`, the first of the kinds; out of memory hides none. Does not
/// allocate for a skipped line.
pub fn words_of(alloc: Global, line: &[u8]) -> Result<Vec<Word<'_>>, LineError>
    ensures gives { GivesSeen (λ words. words.items) result (words_of line.now) }
    ensures memory { HidesNoFault result (result_err (words_of line.now)) }
{
    if is_skipped(line) {
        return Ok(Vec::new(alloc));
    }
    match read_words(alloc, line) {
        Err(LineError::Memory(error)) => {
            check_escapes(line)?;
            Err(LineError::Memory(error))
        }
        read => read,
    }
}

fn is_skipped(line: &[u8]) -> bool
    ensures { result ≡ is_skipped line.now }
{
    for byte in line {
        if !is_blank(*byte) {
            return *byte == b'#';
        }
    }
    true
}

/// Ten of these are room for the words of most lines, so that these take no allocation. The longest
/// rows have ten.
pub const NO_WORD: Word<'static> = Word {
    raw: &[],
    replaced: None,
};

/// Puts the words of a line at the front of `few`, and returns how many they are. None if there are
/// more, or if one may have an escape.
pub fn put_words<'l>(few: &mut [Word<'l>], line: &'l [u8]) -> Option<usize>
    ensures put { IfSome result (λ count. words_of line.now ≡ Ok (take count few.new)) }
    ensures within { IfSome result (λ count. count ≤ length few.new) }
    ensures length { length few.new ≡ length few.old }
{
    if is_skipped(line) {
        return Some(0);
    }
    put_plain(few, line)
}

// The same for a line that is not skipped.
#[inline(always)]
fn put_plain<'l>(few: &mut [Word<'l>], line: &'l [u8]) -> Option<usize>
    ensures put { IfSome result (λ count.
        each word_of (raw_words line.now) ≡ Ok (take count few.new)) }
    ensures within { IfSome result (λ count. count ≤ length few.new) }
    ensures length { length few.new ≡ length few.old }
{
    let mut count = 0;
    let mut words = RawWords::of(line);
    while let Some(raw) = words.next() {
        if count == few.len() {
            return None;
        }
        few[count] = Word {
            raw,
            replaced: None,
        };
        count += 1;
    }
    if !words.is_plain() {
        return None;
    }
    Some(count)
}

// The words between blanks.
#[inline(always)]
fn read_words(alloc: Global, line: &[u8]) -> Result<Vec<Word<'_>>, LineError>
    ensures { GivesSeen (λ words. words.items) result (each word_of (raw_words line.now)) }
{
    let mut read = Vec::with_capacity(alloc, 16)?;
    let mut words = RawWords::of(line);
    while let Some(raw) = words.next() {
        let word = Word::cut(alloc, raw, words.is_plain())?;
        read.push(word)?;
    }
    Ok(read)
}

// Finds an escape that is not whole.
fn check_escapes(line: &[u8]) -> Result<(), FaultKind>
    ensures { result_err result ≡ result_err (each word_of (raw_words line.now)) }
{
    let mut words = RawWords::of(line);
    while let Some(raw) = words.next() {
        if !has_whole_escapes(raw) {
            return Err(FaultKind::BadEscape);
        }
    }
    Ok(())
}

/// What is before and after the first of these bytes in a word.
pub fn cut_at(byte: u8, word: &[u8]) -> Option<(&[u8], &[u8])>
    ensures { option_map (λ cut. (cut.0.now, cut.1.now)) result ≡ cut_at byte word.entry.now }
{
    match memchr(byte, word) {
        Some(at) => Some((&word[..at], &word[at + 1..])),
        None => None,
    }
}
