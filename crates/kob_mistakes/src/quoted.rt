//! Quotes that are a part of a name in a scene.

ghost use Rattle.std.specs.Prelude.{◌≡◌, IfOk, find, map, option_map};
ghost use Rattle.kob_mistakes.specs.Lines.{line_where};
ghost use Rattle.kob_mistakes.specs.Quoted.{is_between, is_quoted};
ghost use Rattle.kob_mistakes.specs.Quoted.{is_with_quotes, quoted_among, quoted_name};

use crate::words::{line_at, lines_of, raw_words, word_at};
use std::alloc::{AllocError, Global};

/// The first line of a scene, counted from 1, in which quotes are a part of a name, and that name: the
/// word behind a command, or a word behind `acl`. It is no fault.
pub fn quoted_name(alloc: Global, text: &[u8]) -> Result<Option<(u64, &[u8])>, AllocError>
    ensures { IfOk result (λ found. option_map (λ one. (one.0, one.1.now)) found
        ≡ quoted_name text.now) }
{
    let lines = lines_of(alloc, text)?;
    match line_with_quotes(alloc, &lines)? {
        Some(number) => {
            let words = raw_words(alloc, line_at(&lines, number))?;
            Ok(quoted_among(&words).map(|word| (number, word)))
        }
        None => Ok(None),
    }
}

#[tactic(auto, using(crate::proofs::Walking::goes_on, crate::proofs::Walking::stops, crate::proofs::Walking::ends))]
fn line_with_quotes(alloc: Global, lines: &[&[u8]]) -> Result<Option<u64>, AllocError>
    ensures { IfOk result (λ number.
        number ≡ line_where is_with_quotes 1 (map (λ line. line.now) lines.now)) }
{
    let mut number: u64 = 1;
    for line in lines {
        let words = raw_words(alloc, line)?;
        if quoted_among(&words).is_some() {
            return Ok(Some(number));
        }
        number += 1;
    }
    Ok(None)
}

/// The name with quotes among the words of a line.
fn quoted_among<'a>(words: &[&'a [u8]]) -> Option<&'a [u8]>
    ensures { option_map (λ word. word.now) result
        ≡ quoted_among (map (λ word. word.now) words.now) }
{
    match words {
        // (a principal on a line that is no comment)
        [principal, _, command, first, rest @ ..]
            if principal.contains(&b':') && !principal.starts_with(b"#") => {
            if is_quoted(first) {
                Some(first)
            } else if *command == b"acl".as_slice() {
                first_quoted(rest)
            } else {
                None
            }
        }
        _ => None,
    }
}

fn first_quoted<'a>(words: &[&'a [u8]]) -> Option<&'a [u8]>
    ensures { option_map (λ word. word.now) result
        ≡ find is_quoted (map (λ word. word.now) words.now) }
{
    for word in words {
        if is_quoted(word) {
            return Some(word);
        }
    }
    None
}

fn is_between(word: &[u8], quote: &[u8]) -> bool
    ensures { result ≡ is_between word.now quote.now }
{
    word.starts_with(quote) && word.ends_with(quote)
}

/// Whether a word has the same quotes at both ends.
fn is_quoted(word: &[u8]) -> bool
    ensures { result ≡ is_quoted word.now }
{
    word.len() > 1 && (is_between(word, b"'") || is_between(word, b"\""))
}
