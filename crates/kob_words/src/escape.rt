//! How an escape is read: `%` and two hexadecimal digits stand for one byte.

ghost use Rattle.std.specs.Prelude.{◌≡◌, ◌≤◌, ◌==◌, ℕ, List, None, Some, IfOk, IfSome, Ok, drop};
ghost use Rattle.std.specs.Prelude.{if◌then◌else◌, is_some, length, option_map};
ghost use Rattle.kob_words.specs.Words.{bytes_of, decimal_in, escaped, has_percent, hexadecimal};
ghost use Rattle.kob_words.specs.Words.{unescaped};

use crate::number::with_digit;
use kob_names::Bytes;
use std::alloc::{AllocError, Global};

/// Whether bytes may have escapes. Bytes without a percent sign stand for themselves.
pub fn may_have_escapes(bytes: &[u8]) -> bool
    ensures { result ≡ has_percent bytes.now }
{
    bytes.contains(&b'%')
}

/// Whether each percent sign of a word begins an escape.
pub fn has_whole_escapes(word: &[u8]) -> bool
    ensures { result ≡ is_some (unescaped word.now) }
{
    let mut rest = word;
    while let Some((first, others)) = rest.split_first() {
        match byte_at(*first, others) {
            Some((_, after)) => rest = after,
            None => return false,
        }
    }
    true
}

/// The bytes that a word stands for, unless a percent sign in it begins no escape. Such a sign is
/// found before memory is asked for.
pub fn unescaped(alloc: Global, word: &[u8]) -> Result<Option<Bytes>, AllocError>
    ensures read { IfOk result (λ read. read ≡ unescaped word.now) }
    ensures bad { unescaped word.now ≡ None → result ≡ Ok None }
{
    if !has_whole_escapes(word) {
        return Ok(None);
    }
    let mut bytes = Vec::new(alloc);
    let mut rest = word;
    while let Some((first, others)) = rest.split_first() {
        match byte_at(*first, others) {
            Some((byte, after)) => {
                bytes.push(byte)?;
                rest = after;
            }
            None => return Ok(None),
        }
    }
    Ok(Some(Bytes::from_vec(bytes)))
}

/// The bytes that a part of a word stands for; the part itself if its escapes are not whole.
#[tactic(auto, using(crate::proofs::Escapes::plain_stands))]
pub fn bytes_of(alloc: Global, part: &[u8]) -> Result<Bytes, AllocError>
    ensures { IfOk result (λ bytes. bytes ≡ bytes_of part.now) }
{
    if !may_have_escapes(part) {
        return Bytes::copied(alloc, part);
    }
    match unescaped(alloc, part)? {
        Some(bytes) => Ok(bytes),
        None => Bytes::copied(alloc, part),
    }
}

/// The number that a part of a word writes, in which escapes stand for digits too.
pub fn escaped_decimal_in(part: &[u8]) -> Option<u64>
    ensures { result ≡ decimal_in (bytes_of part.now) }
{
    if part.is_empty() {
        return None;
    }
    let mut number = 0;
    let mut rest = part;
    while let Some((first, others)) = rest.split_first() {
        let Some((byte, after)) = byte_at(*first, others) else {
            return None;
        };
        let Some(longer) = with_digit(number, byte) else {
            return None;
        };
        number = longer;
        rest = after;
    }
    Some(number)
}

/// The byte at the front of a word, and what comes after it. `None` if a percent sign there begins
/// no escape.
fn byte_at(first: u8, others: &[u8]) -> Option<(u8, &[u8])>
    ensures read { option_map (λ found. (found.0, found.1.now)) result
        ≡ (if first == 37 then option_map {U = ℕ × List ℕ} (λ byte. (byte, drop 2 others.now))
        (escaped others.now) else Some (first, others.now)) }
    ensures shrinks { IfSome result (λ found. length found.1.now ≤ length others.now) }
{
    if first != b'%' {
        return Some((first, others));
    }
    match others {
        [high, low, after @ ..] => Some((hexadecimal(*high, *low)?, after)),
        _ => None,
    }
}

/// The byte that two hexadecimal digits write.
fn hexadecimal(high: u8, low: u8) -> Option<u8>
    ensures { result ≡ hexadecimal high low }
{
    match (char::from(high).to_digit(16), char::from(low).to_digit(16)) {
        (Some(high), Some(low)) => Some((16 * high + low) as u8),
        _ => None,
    }
}
