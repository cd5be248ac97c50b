//! What words stand for: texts, principals, hosts, numbers, the words of the tables, and those of a
//! batch.

ghost use Rattle.std.specs.Prelude.{◌≡◌, IfOk, map, ok_or};
ghost use Rattle.kob_script.specs.CommandLines.{filter_pattern_of, unless_dash};
ghost use Rattle.std.specs.Result.{result_err};
ghost use Rattle.kob_script.specs.Words.{Gives, GivesSeen, HidesNoFault, each, seen};
ghost use Rattle.kob_words.specs.Words.{bytes_of};
ghost use Rattle.kob_script.specs.Words.{before_of, host_of, idem_of, named_host};
ghost use Rattle.kob_script.specs.Words.{named_principal, number_in, number_of, principal_of};
ghost use Rattle.kob_script.specs.Words.{record_of, text_of, which_of};
ghost use Rattle.kob_script.specs.declared.fault.FaultKind.TheVariants.{BadWord};

use crate::fault::{FaultKind, LineError};
use crate::words::{Word, cut_at};
use bstr::ByteSlice;
use kob_names::{
    Bytes, FilterPattern, Host, HostFault, Idem, Items, Principal, PrincipalFault, Record, Text,
};
use kob_rights::{Before, Which};
use kob_words::{bytes_of, decimal_in, escaped_decimal_in, filter_pattern_named};
use std::alloc::{AllocError, Global};

/// The text of a word, borrowed from it. Does not allocate.
pub fn lent_text_of<'w>(word: &'w Word<'_>) -> Result<&'w str, FaultKind>
    ensures { seen (λ text. text.now) result ≡ text_of word.entry.now }
{
    match word.decoded().to_str() {
        Ok(text) => Ok(text),
        Err(_) => Err(FaultKind::BadText),
    }
}

/// A copy of the text of a word.
pub fn text_of(alloc: Global, word: &Word<'_>) -> Result<Text, LineError>
    ensures gives { Gives result (text_of word.now) }
    ensures memory { HidesNoFault result (result_err (text_of word.now)) }
{
    Ok(Text::copied(alloc, lent_text_of(word)?)?)
}

/// Whether all words are texts.
pub fn check_texts(words: &[Word<'_>]) -> Result<(), FaultKind>
    ensures { result_err result ≡ result_err (each text_of words.now) }
{
    for word in words {
        match lent_text_of(word) {
            Ok(_) => {}
            Err(kind) => return Err(kind),
        }
    }
    Ok(())
}

/// The texts of the words, in order, borrowed from them.
pub fn texts_of<'w>(alloc: Global, words: &'w [Word<'_>]) -> Result<Vec<&'w str>, LineError>
    ensures gives { GivesSeen (λ texts. map (λ text. text.now) texts.items) result
        (each text_of words.entry.now) }
    ensures memory { HidesNoFault result (result_err (each text_of words.entry.now)) }
{
    check_texts(words)?;
    let mut texts = Vec::with_capacity(alloc, words.len())?;
    for word in words {
        match lent_text_of(word) {
            Ok(text) => texts.push(text)?,
            Err(kind) => return Err(LineError::Fault(kind)),
        }
    }
    Ok(texts)
}

/// The principal that a text writes.
#[tactic(auto, unfolding(crate::specs::Words::principal_of))]
pub fn principal_of(alloc: Global, text: &str) -> Result<Principal, LineError>
    ensures gives { Gives result (principal_of text.now) }
    ensures memory { HidesNoFault result (result_err (principal_of text.now)) }
{
    match Principal::parse(alloc, text) {
        Ok(principal) => Ok(principal),
        Err(PrincipalFault::Memory(error)) => Err(LineError::Memory(error)),
        Err(_) => Err(LineError::Fault(FaultKind::BadPrincipal)),
    }
}

/// The host that a text writes.
#[tactic(auto, unfolding(crate::specs::Words::host_of))]
pub fn host_of(alloc: Global, text: &str) -> Result<Host, LineError>
    ensures gives { Gives result (host_of text.now) }
    ensures memory { HidesNoFault result (result_err (host_of text.now)) }
{
    match Host::parse(alloc, text) {
        Ok(host) => Ok(host),
        Err(HostFault::Memory(error)) => Err(LineError::Memory(error)),
        Err(_) => Err(LineError::Fault(FaultKind::BadHost)),
    }
}

/// The principal that a word names.
pub fn named_principal(alloc: Global, word: &Word<'_>) -> Result<Principal, LineError>
    ensures gives { Gives result (named_principal word.now) }
    ensures memory { HidesNoFault result (result_err (named_principal word.now)) }
{
    principal_of(alloc, lent_text_of(word)?)
}

/// The host that a word names.
pub fn named_host(alloc: Global, word: &Word<'_>) -> Result<Host, LineError>
    ensures gives { Gives result (named_host word.now) }
    ensures memory { HidesNoFault result (result_err (named_host word.now)) }
{
    host_of(alloc, lent_text_of(word)?)
}

/// A copy of the text of a word, or none for `-`.
pub fn text_or_any(alloc: Global, word: &Word<'_>) -> Result<Option<Text>, LineError>
    ensures { Gives result (unless_dash (text_of word.now) word.now) }
{
    if word.is_dash() {
        return Ok(None);
    }
    Ok(Some(text_of(alloc, word)?))
}

/// The principal that a word names, or none for `-`.
pub fn principal_or_any(alloc: Global, word: &Word<'_>) -> Result<Option<Principal>, LineError>
    ensures { Gives result (unless_dash (named_principal word.now) word.now) }
{
    if word.is_dash() {
        return Ok(None);
    }
    Ok(Some(named_principal(alloc, word)?))
}

/// The host that a word names, or none for `-`.
pub fn host_or_any(alloc: Global, word: &Word<'_>) -> Result<Option<Host>, LineError>
    ensures { Gives result (unless_dash (named_host word.now) word.now) }
{
    if word.is_dash() {
        return Ok(None);
    }
    Ok(Some(named_host(alloc, word)?))
}

/// The number that a word writes: decimal digits without a sign, of at most 64 bits.
pub fn number_of(word: &Word<'_>) -> Result<u64, FaultKind>
    ensures { result ≡ number_of word.now }
{
    decimal_in(word.decoded()).ok_or(FaultKind::BadNumber)
}

/// The start for `-2`, the end for `-1`. The fault is `BadLine`.
pub fn which_of(word: &Word<'_>) -> Result<Which, FaultKind>
    ensures { result ≡ which_of word.now }
{
    match word.decoded() {
        b"-2" => Ok(Which::Start),
        b"-1" => Ok(Which::End),
        _ => Err(FaultKind::BadLine),
    }
}

/// The offset to delete up to, the end for `-1`.
pub fn before_of(word: &Word<'_>) -> Result<Before, FaultKind>
    ensures { result ≡ before_of word.now }
{
    if word.decoded() == b"-1".as_slice() {
        return Ok(Before::End);
    }
    Ok(Before::Offset(number_of(word)?))
}

/// What a table has for a word. The fault is `BadWord`.
pub fn known<T: Copy>(found: Option<T>) -> Result<T, FaultKind>
    ensures { result ≡ ok_or found BadWord }
{
    found.ok_or(FaultKind::BadWord)
}

/// The pattern of a filter; `-` is the same as `any`.
pub fn filter_pattern_of(word: &Word<'_>) -> Result<FilterPattern, FaultKind>
    ensures { result ≡ filter_pattern_of word.now }
{
    if word.is_dash() {
        return Ok(FilterPattern::Any);
    }
    known(filter_pattern_named(word.decoded()))
}

/// Who produced a batch: nobody for `-`, or `ID:EPOCH:BASE`. The fault is `BadLine` for other
/// numbers of parts.
#[tactic(auto, unfolding(crate::specs::Words::idem_of))]
pub fn idem_of(word: &Word<'_>) -> Result<Option<Idem>, FaultKind>
    ensures { result ≡ idem_of word.now }
{
    if word.is_dash() {
        return Ok(None);
    }
    let (id, others) = cut_at(b':', word.raw()).ok_or(FaultKind::BadLine)?;
    let (epoch, base) = cut_at(b':', others).ok_or(FaultKind::BadLine)?;
    if cut_at(b':', base).is_some() {
        return Err(FaultKind::BadLine);
    }
    let id = number_at(id)?;
    let epoch = number_at(epoch)?;
    let base = number_at(base)?;
    Ok(Some(Idem { id, epoch, base }))
}

// The number that a part of a word writes, in which escapes stand for digits too.
fn number_at(part: &[u8]) -> Result<u64, FaultKind>
    ensures { result ≡ number_in (bytes_of part.now) }
{
    escaped_decimal_in(part).ok_or(FaultKind::BadNumber)
}

/// A record of a key and a value around the first `=`, or of a value alone.
#[tactic(auto, unfolding(crate::specs::Words::record_of))]
fn record_of(alloc: Global, word: &Word<'_>) -> Result<Record, AllocError>
    ensures { IfOk result (λ made. made ≡ record_of word.now) }
{
    let (key, value) = match cut_at(b'=', word.raw()) {
        None => (None, Bytes::copied(alloc, word.decoded())?),
        Some((key, value)) => (Some(bytes_of(alloc, key)?), bytes_of(alloc, value)?),
    };
    Ok(Record {
        key,
        value,
        headers: Items::from_vec(Vec::new(alloc)),
    })
}

/// The records that the words write, in order.
pub fn records_of(alloc: Global, words: &[Word<'_>]) -> Result<Items<Record>, AllocError>
    ensures { IfOk result (λ records. records ≡ map record_of words.now) }
{
    let mut records = Vec::with_capacity(alloc, words.len())?;
    for word in words {
        records.push(record_of(alloc, word)?)?;
    }
    Ok(Items::from_vec(records))
}
