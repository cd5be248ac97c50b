//! Which word of a line has the fault that the line has.

ghost use Rattle.std.specs.Prelude.{◌≡◌, ◌≤◌, ◌+◌, ◌∷◌, IfOk, IfSome, Option, length, option_map};
ghost use Rattle.std.specs.Result.{result_err};
ghost use Rattle.std.specs.List.{position};
ghost use Rattle.kob_script.specs.CommandLines.{faults_in, row_named};
ghost use Rattle.kob_script.specs.Places.{fault_place, faults_behind, is_of};
ghost use Rattle.kob_script.specs.Words.{Finds, named_host};
ghost use Rattle.kob_script.specs.declared.fault.FaultKind as kinds;

use crate::command::{Place, row_named};
use crate::fault::{FaultKind, LineError};
use crate::faults::{check_slot, only_fault};
use crate::values::{check_texts, named_host, named_principal};
use crate::words::Word;
use std::alloc::{AllocError, Global};

/// The place of the first word of a line with a fault of this kind, from 0, for the remark on a
/// fault. It is the number of words if one is missing. None if no word has such a fault: an escape
/// is one of the whole line, and what is wrong with options of `acl` is one of all of them.
pub fn fault_place(
    alloc: Global,
    words: &[Word<'_>],
    kind: FaultKind,
) -> Result<Option<usize>, AllocError>
    ensures { IfOk result (λ place. place ≡ fault_place kind words.now) }
{
    match words {
        [principal, host, command, arguments @ ..] => {
            let fault = named_principal(alloc, principal).and(Ok(()));
            if is_of(kind, fault)? {
                return Ok(Some(0));
            }
            let place = place_after_principal(alloc, host, command, arguments, kind)?;
            Ok(place.map(|place| place + 1))
        }
        _ => Ok((kind == FaultKind::BadLine).then_some(words.len())),
    }
}

fn place_after_principal(
    alloc: Global,
    host: &Word<'_>,
    command: &Word<'_>,
    arguments: &[Word<'_>],
    kind: FaultKind,
) -> Result<Option<usize>, AllocError>
    ensures place { IfOk result (λ place. place ≡ position (is_of kind)
        (result_err (named_host host.now)
        ∷ faults_behind (row_named command.now.decoded) arguments.now)) }
    ensures within { IfOk result (λ place. IfSome place (λ at. at ≤ length arguments.now + 2)) }
{
    if is_of(kind, named_host(alloc, host).and(Ok(())))? {
        return Ok(Some(0));
    }
    let place = place_behind(alloc, row_named(command.decoded()), arguments, kind)?;
    Ok(place.map(|place| place + 1))
}

// From the command on.
fn place_behind(
    alloc: Global,
    places: Option<&[Place]>,
    words: &[Word<'_>],
    kind: FaultKind,
) -> Result<Option<usize>, AllocError>
    ensures place { IfOk result (λ place. place ≡ position (is_of kind)
        (faults_behind (option_map (λ row. row.now) places.entry) words.now)) }
    ensures within { IfOk result (λ place. IfSome place (λ at. at ≤ length words.now + 1)) }
{
    match places {
        Some(places) => Ok(place_in(alloc, places, words, kind)?.map(|place| place + 1)),
        None => Ok((kind == FaultKind::BadLine).then_some(0)),
    }
}

// Recursive: a row has at most seven places.
fn place_in(
    alloc: Global,
    places: &[Place],
    words: &[Word<'_>],
    kind: FaultKind,
) -> Result<Option<usize>, AllocError>
    ensures place { IfOk result (λ place.
        place ≡ position (is_of kind) (faults_in places.now words.now)) }
    ensures within { IfOk result (λ place. IfSome place (λ at. at ≤ length words.now)) }
{
    match (places, words) {
        ([], []) | ([Place::OrNone(_)], []) | ([Place::Records, ..], _) => Ok(None),
        ([Place::Texts, ..], _) => { Ok(is_of(kind, only_fault(check_texts(words)))?.then_some(0)) }
        ([Place::OrDash(_), places @ ..], [word, words @ ..]) if word.is_dash() => {
            Ok(place_in(alloc, places, words, kind)?.map(|place| place + 1))
        }
        (
            [
                Place::One(slot) | Place::OrDash(slot) | Place::OrNone(slot),
                places @ ..,
            ],
            [word, words @ ..],
        ) => {
            if is_of(kind, check_slot(alloc, *slot, word))? {
                return Ok(Some(0));
            }
            Ok(place_in(alloc, places, words, kind)?.map(|place| place + 1))
        }
        _ => Ok((kind == FaultKind::BadLine).then_some(0)),
    }
}

// Whether a test of words found a fault of this kind.
fn is_of(kind: FaultKind, found: Result<(), LineError>) -> Result<bool, AllocError>
    ensures { (fault : Option kinds.FaultKind) → Finds found fault
        → IfOk result (λ is. is ≡ is_of kind fault) }
{
    match found {
        Ok(()) => Ok(false),
        Err(LineError::Fault(fault)) => Ok(fault == kind),
        Err(LineError::Memory(refused)) => Err(refused),
    }
}
