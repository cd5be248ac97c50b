//! Where the words of a question are, in which quotes are read as a shell reads them.

ghost use Rattle.std.specs.Prelude.{◌≡◌, ◌≤◌, ◌++◌, IfOk, OnOk, length, map};
ghost use Rattle.std.specs.List.{slice_range};
ghost use Rattle.kob_mistakes.specs.Quotes.{after, quoted_words, with_word};

use crate::words::is_blank;
use kob_script::{LineError, Word};
use std::alloc::{AllocError, Global};

/// How the next byte is quoted.
#[derive(Clone, Copy, PartialEq, Eq)]
enum Quoting {
    Plain,
    Escaped,
    Single,
    Double,
    DoubleEscaped,
}

impl Quoting {
    fn after(self, byte: u8) -> Quoting
        ensures { result ≡ after self byte }
    {
        match self {
            Quoting::Plain => match byte {
                b'\'' => Quoting::Single,
                b'"' => Quoting::Double,
                b'\\' => Quoting::Escaped,
                _ => Quoting::Plain,
            },
            Quoting::Double => match byte {
                b'\\' => Quoting::DoubleEscaped,
                b'"' => Quoting::Plain,
                _ => Quoting::Double,
            },
            Quoting::Single if byte == b'\'' => Quoting::Plain,
            Quoting::Single => Quoting::Single,
            Quoting::Escaped => Quoting::Plain,
            Quoting::DoubleEscaped => Quoting::Double,
        }
    }
}

/// The words of a line as they are written in it.
#[tactic(auto, using(crate::proofs::Cutting::ends, crate::proofs::Cutting::cuts, crate::proofs::Cutting::goes_on))]
pub(crate) fn quoted_words(alloc: Global, line: &[u8]) -> Result<Vec<&[u8]>, AllocError>
    ensures { IfOk result (λ words. map (λ word. word.now) words.items ≡ quoted_words line.now) }
{
    let mut words = Vec::new(alloc);
    let mut quoting = Quoting::Plain;
    let mut start: usize = 0;
    let mut place: usize = 0;
    for byte in line {
        if matches!(quoting, Quoting::Plain) && is_blank(*byte) {
            push_word(&mut words, part(line, start, place))?;
            start = place + 1;
        } else {
            quoting = quoting.after(*byte);
        }
        place += 1;
    }
    push_word(&mut words, part(line, start, place))?;
    Ok(words)
}

fn part(line: &[u8], start: usize, end: usize) -> &[u8]
    requires { (start ≤ end) × (end ≤ length line.now) }
    ensures { result.now ≡ slice_range line.now start end }
{
    &line[start..end]
}

#[tactic(auto, using(crate::proofs::Cutting::with_more))]
fn push_word<'a>(words: &mut Vec<&'a [u8]>, word: &'a [u8]) -> Result<(), AllocError>
    ensures { OnOk result (map (λ word. word.now) words.new.items
        ≡ map (λ word. word.now) words.old.items ++ with_word word.now) }
{
    if word.is_empty() {
        return Ok(());
    }
    words.push(word)?;
    Ok(())
}

/// The bytes of a word without its quotes.
fn unquoted(alloc: Global, word: &[u8]) -> Result<Vec<u8>, AllocError> {
    let mut bytes = Vec::new(alloc);
    let mut quoting = Quoting::Plain;
    for byte in word {
        // (in double quotes a backslash stays before any other byte)
        if quoting == Quoting::DoubleEscaped && !matches!(byte, b'"' | b'\\' | b'$' | b'`') {
            bytes.push(b'\\')?;
        }
        let after = quoting.after(*byte);
        if matches!(quoting, Quoting::Escaped | Quoting::DoubleEscaped) || after == quoting {
            bytes.push(*byte)?;
        }
        quoting = after;
    }
    Ok(bytes)
}

/// The bytes of each word without its quotes.
pub(crate) fn each_unquoted(alloc: Global, words: &[&[u8]]) -> Result<Vec<Vec<u8>>, AllocError> {
    let mut texts = Vec::new(alloc);
    for word in words {
        texts.push(unquoted(alloc, word)?)?;
    }
    Ok(texts)
}

/// Texts as words, with their escapes read.
pub(crate) fn read_each(alloc: Global, texts: &[Vec<u8>]) -> Result<Vec<Word<'_>>, LineError> {
    let mut words = Vec::new(alloc);
    for text in texts {
        words.push(Word::read(alloc, text.as_slice())?)?;
    }
    Ok(words)
}

/// What a shell makes of a line beyond its words.
#[derive(Clone, Copy)]
pub(crate) enum Unread {
    /// A quote that does not end.
    Open,
    /// A dollar or a backquote, which begins what a shell replaces.
    Replaced,
}

/// What can't be read of a line in which something is quoted.
pub(crate) fn unread_in(line: &[u8]) -> Option<Unread> {
    let mut quoting = Quoting::Plain;
    let mut is_quoted = false;
    let mut is_replaced = false;
    for byte in line {
        is_replaced = is_replaced
            || matches!(quoting, Quoting::Plain | Quoting::Double) && matches!(byte, b'$' | b'`');
        quoting = quoting.after(*byte);
        is_quoted = is_quoted || quoting != Quoting::Plain;
    }
    if is_quoted && is_replaced {
        Some(Unread::Replaced)
    } else if quoting != Quoting::Plain {
        Some(Unread::Open)
    } else {
        None
    }
}
