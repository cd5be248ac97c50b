//! The fault of a line's words: the first kind, in the order of the kinds, that some word has; and
//! who asks. The principal and the host of the line before are not parsed again.

ghost use Rattle.std.specs.Prelude.{◌≡◌, Err, Ok, OnOk, IsTrue, Option, MatchOption};
ghost use Rattle.std.specs.Result.{result_err};
ghost use Rattle.kob_script.specs.CommandLines.{line_fault, faults_in, slot_fault};
ghost use Rattle.kob_script.specs.Words.{Finds, earlier, first_kind, named_host, named_principal};
ghost use Rattle.kob_script.specs.declared.fault.FaultKind as kinds;

use crate::command::{Place, Slot, row_named};
use crate::fault::{FaultKind, LineError};
use crate::values::{
    before_of, check_texts, filter_pattern_of, idem_of, known, lent_text_of, named_host,
    named_principal, number_of, which_of,
};
use crate::words::Word;
use kob_names::{Host, Principal};
use kob_rights::{Event, Request};
use kob_words::{operation_named, pattern_named, permission_named, resource_named};
use std::alloc::Global;

/// Checks the words of a line. Out of memory hides no fault. `last` is an event by the principal
/// and the host that were read last.
pub fn check_line(
    alloc: Global,
    last: &mut Option<Event>,
    words: &[Word<'_>],
) -> Result<(), LineError>
    ensures { Finds result (line_fault words.now) }
{
    let [principal, host, command, arguments @ ..] = words else {
        return Err(LineError::Fault(FaultKind::BadLine));
    };
    let places = row_named(command.decoded()).ok_or(FaultKind::BadLine)?;
    let others = check_words(alloc, places, arguments);
    first_error(check_asker(alloc, last, principal, host), others)
}

// Checks words by the places of a row. Recursive: a row has at most seven.
fn check_words(alloc: Global, places: &[Place], words: &[Word<'_>]) -> Result<(), LineError>
    ensures { Finds result (first_kind (faults_in places.now words.now)) }
{
    match (places, words) {
        ([], []) | ([Place::OrNone(_)], []) | ([Place::Records, ..], _) => Ok(()),
        ([Place::Texts, ..], _) => only_fault(check_texts(words)),
        ([Place::OrDash(_), places @ ..], [word, words @ ..]) if word.is_dash() => {
            check_words(alloc, places, words)
        }
        (
            [
                Place::One(slot) | Place::OrDash(slot) | Place::OrNone(slot),
                places @ ..,
            ],
            [word, words @ ..],
        ) => {
            let others = check_words(alloc, places, words);
            first_error(check_slot(alloc, *slot, word), others)
        }
        _ => Err(LineError::Fault(FaultKind::BadLine)),
    }
}

fn first_error(one: Result<(), LineError>, other: Result<(), LineError>) -> Result<(), LineError>
    ensures { (a b : Option kinds.FaultKind) → Finds one a → Finds other b
        → Finds result (earlier a b) }
{
    match (one, other) {
        (Err(one), Err(other)) => Err(earlier(one, other)),
        (Ok(()), other) => other,
        (one, _) => one,
    }
}

// Out of memory comes after each fault. The variants are in the order of the kinds.
fn earlier(one: LineError, other: LineError) -> LineError
    ensures { (a b : Option kinds.FaultKind) → Finds (Err one) a → Finds (Err other) b
        → Finds (Err result) (earlier a b) }
{
    match (one, other) {
        (LineError::Memory(_), other) => other,
        (LineError::Fault(kind), LineError::Fault(other)) if (other as u8) < kind as u8 => {
            LineError::Fault(other)
        }
        (one, _) => one,
    }
}

// What was read is dropped.
pub(crate) fn only_fault<T: Drop>(read: Result<T, FaultKind>) -> Result<(), LineError>
    ensures { Finds result (result_err read) }
{
    read?;
    Ok(())
}

#[tactic(auto, using(crate::proofs::LineFaults::keeps_fault))]
pub(crate) fn check_slot(alloc: Global, slot: Slot, word: &Word<'_>) -> Result<(), LineError>
    ensures { Finds result (slot_fault slot word.now) }
{
    match slot {
        Slot::Text => only_fault(lent_text_of(word)),
        Slot::Principal => named_principal(alloc, word).and(Ok(())),
        Slot::Host => named_host(alloc, word).and(Ok(())),
        Slot::Number => only_fault(number_of(word)),
        Slot::StartOrEnd => only_fault(which_of(word)),
        Slot::OffsetOrEnd => only_fault(before_of(word)),
        Slot::Producer => only_fault(idem_of(word)),
        Slot::Permission => only_fault(known(permission_named(word.decoded()))),
        Slot::Operation => only_fault(known(operation_named(word.decoded()))),
        Slot::Resource => only_fault(known(resource_named(word.decoded()))),
        Slot::Pattern => only_fault(known(pattern_named(word.decoded()))),
        Slot::FilterPattern => only_fault(filter_pattern_of(word)),
    }
}

/// Checks the principal and the host that words name, by which `last` is then.
#[tactic(auto, using(crate::proofs::LineFaults::keeps_fault))]
pub fn check_asker(
    alloc: Global,
    last: &mut Option<Event>,
    principal: &Word<'_>,
    host: &Word<'_>,
) -> Result<(), LineError>
    ensures fault { Finds result (earlier (result_err (named_principal principal.now))
        (result_err (named_host host.now))) }
    ensures kept { OnOk result (MatchOption last.new ⊥ (λ event.
        (named_principal principal.now ≡ Ok event.principal)
        × (named_host host.now ≡ Ok event.host))) }
{
    match last {
        Some(event) if is_of_host(event, host) => {
            if !is_of_principal(event, principal) {
                event.principal = named_principal(alloc, principal)?;
            }
            Ok(())
        }
        _ => match (named_principal(alloc, principal), named_host(alloc, host)) {
            (Ok(principal), Ok(host)) => {
                set_asker(last, principal, host);
                Ok(())
            }
            (Err(one), Err(other)) => Err(earlier(one, other)),
            (Err(one), Ok(_)) => Err(one),
            (Ok(_), Err(other)) => Err(other),
        },
    }
}

// A function of its own, since a proof goes through what is dropped.
fn set_asker(last: &mut Option<Event>, principal: Principal, host: Host)
    ensures { MatchOption last.new ⊥ (λ event. (event.principal ≡ principal) × (event.host ≡ host)) }
{
    *last = Some(Event {
        principal,
        host,
        request: Request::ListGroups,
    });
}

fn is_of_principal(event: &Event, principal: &Word<'_>) -> bool
    ensures { IsTrue result → named_principal principal.now ≡ Ok event.now.principal }
{
    principal.decoded() == event.principal.as_str().as_bytes()
}

fn is_of_host(event: &Event, host: &Word<'_>) -> bool
    ensures { IsTrue result → named_host host.now ≡ Ok event.now.host }
{
    host.decoded() == event.host.as_str().as_bytes()
}
