//! A worker's part of a journal.

ghost use Rattle.std.specs.Prelude.{◌≡◌, ◌<◌, ◌↔◌, ◌⊎◌, ◌++◌, ◌∷◌, [], Contains, length, List, ℕ};
ghost use Rattle.std.specs.Prelude.{IfOk, IsTrue, MatchOption, OnOk, Some};
ghost use Rattle.kob_endpoints.specs.Pairing.{GoesOn, IsReplyTo, Reaches, left, told_by};
ghost use Rattle.kob_endpoints.specs.Running.{IsUnserved};
ghost use Rattle.kob_router.specs.declared.line.Call.{Call};
ghost use Rattle.kob_router.specs.Line.{AreServed};
ghost use Rattle.kob_delivery.specs.InTurn.{entries_of};
ghost use Rattle.kob_delivery.specs.Served.{served_to};

use kob_names::PlainValue;
use kob_router::Call;
use kob_shared::{Entry, Journal};
use std::alloc::{AllocError, Global};

/// A worker of a journal, and the calls that it made, the oldest first.
#[derive(Drop)]
pub struct Part {
    pub worker: usize,
    pub calls: Vec<Call>,
}

/// The calls of earlier lines, and after them those of one more.
pub(crate) fn joined(earlier: Vec<Call>, made: Vec<Call>) -> Result<Vec<Call>, AllocError>
    ensures { IfOk result (λ calls. calls.items ≡ earlier.items ++ made.items) }
{
    let mut calls = earlier;
    let mut made = made;
    calls.append(&mut made)?;
    Ok(calls)
}

/// Whether the worker's entries are the calls that were served, in order: each call of which a
/// reply was received, with this reply, and some of the lost calls. Takes memory for a reference to
/// each entry of the worker, and for a number for each place that the calls before may have led to:
/// at most one more than calls were lost.
pub fn is_served(alloc: Global, journal: &Journal, part: &Part) -> Result<bool, AllocError>
    ensures { IfOk result (λ is. IsTrue is
        ↔ AreServed part.now.calls.items (served_to part.now.worker journal.now)) }
{
    is_served_in_turn(alloc, &[journal], part)
}

/// The same of journals that follow one another.
pub fn is_served_in_turn(
    alloc: Global,
    journals: &[&Journal],
    part: &Part,
) -> Result<bool, AllocError>
    ensures { IfOk result (λ is. IsTrue is ↔ AreServed part.now.calls.items
        (served_to part.now.worker (entries_of journals.now))) }
{
    Ok(first_unserved(alloc, journals, part)?.is_none())
}

/// The number of the first call that has no place among the worker's entries, whichever the calls
/// before it have; or the number of all calls, if each has its place and entries are left over.
pub(crate) fn first_unserved(
    alloc: Global,
    journals: &[&Journal],
    part: &Part,
) -> Result<Option<usize>, AllocError>
    ensures { IfOk result (λ found. MatchOption found
        (AreServed part.now.calls.items
        (served_to part.now.worker (entries_of journals.now)))
        (IsUnserved part.now.calls.items
        (served_to part.now.worker (entries_of journals.now)))) }
{
    let own = own_entries(alloc, journals, part.worker)?;
    unserved_of(alloc, &own, &part.calls)
}

/// The entries of a worker.
fn own_entries<'a>(
    alloc: Global,
    journals: &[&'a Journal],
    worker: usize,
) -> Result<Vec<&'a Entry>, AllocError>
    ensures { IfOk result (λ own. told_by own.items
        ≡ served_to worker (entries_of journals.now)) }
{
    let mut own = Vec::new(alloc);
    for journal in journals {
        add_entries(&mut own, *journal, worker)?;
    }
    Ok(own)
}

/// Adds the entries of a worker in one journal.
fn add_entries<'a>(
    own: &mut Vec<&'a Entry>,
    journal: &'a Journal,
    worker: usize,
) -> Result<(), AllocError>
    ensures { OnOk result (told_by own.new.items
        ≡ told_by own.old.items ++ served_to worker journal.now) }
{
    for place in 0..journal.len() {
        let entry = journal.entry_at(place);
        if entry.worker != worker {
            continue;
        }
        own.push(entry)?;
    }
    Ok(())
}

/// The first of these calls that has no place among the entries, or their number if entries are
/// left over.
fn unserved_of(alloc: Global, own: &[&Entry], calls: &[Call]) -> Result<Option<usize>, AllocError>
    ensures { IfOk result (λ found. MatchOption found
        (AreServed calls.now (told_by own.now))
        (IsUnserved calls.now (told_by own.now))) }
{
    let mut places = Vec::new(alloc);
    places.push(0)?;
    for number in 0..calls.len() {
        places = places_after(alloc, own, &places, &calls[number])?;
        if places.is_empty() {
            return Ok(Some(number));
        }
    }
    if is_one_at_end(own, &places) {
        return Ok(None);
    }
    Ok(Some(calls.len()))
}

/// The places from which the entries go on after one more call.
fn places_after(
    alloc: Global,
    own: &[&Entry],
    places: &[usize],
    call: &Call,
) -> Result<Vec<usize>, AllocError>
    ensures { IfOk result (λ then. (calls : List Call)
        → Reaches (left own.now) then.items calls
        ↔ Reaches (left own.now) places.now (call.now ∷ calls)) }
{
    let mut then = Vec::new(alloc);
    for from in places {
        add_after(own, *from, call, &mut then)?;
    }
    Ok(then)
}

/// Adds the places from which the entries go on where they went on from this place before the call:
/// the same place for a call that was lost, and the one after the entry that may have served it.
fn add_after(
    own: &[&Entry],
    from: usize,
    call: &Call,
    then: &mut Vec<usize>,
) -> Result<(), AllocError>
    ensures { OnOk result ((calls : List Call) → Reaches (left own.now) then.new.items calls
        ↔ (Reaches (left own.now) then.old.items calls
        ⊎ AreServed (call.now ∷ calls) (left own.now from))) }
{
    if call.heard.is_none() {
        add(then, from)?;
    }
    match place_after(own, from, call) {
        Some(next) => add(then, next),
        None => Ok(()),
    }
}

/// The place after the next entry, if that may have served the call.
fn place_after(own: &[&Entry], from: usize, call: &Call) -> Option<usize>
    ensures { GoesOn (left own.now) from call.now result }
{
    if is_at_end(own, from) {
        return None;
    }
    let entry = own[from];
    if is_reply_to(entry, call) {
        return Some(from + 1);
    }
    None
}

/// Adds a place, unless it is the last one.
fn add(places: &mut Vec<usize>, place: usize) -> Result<(), AllocError>
    ensures { OnOk result ((other : ℕ) → Contains places.new.items other
        ↔ (Contains places.old.items other ⊎ (other ≡ place))) }
{
    if places.last() == Some(&place) {
        return Ok(());
    }
    Ok(places.push(place)?)
}

/// Whether there is no entry from one of these places on.
fn is_one_at_end(own: &[&Entry], places: &[usize]) -> bool
    ensures { IsTrue result ↔ Reaches (left own.now) places.now [] }
{
    for from in places {
        if is_at_end(own, *from) {
            return true;
        }
    }
    false
}

/// Whether there is no entry from this place on.
#[tactic(auto, using(crate::proofs::Entries::at_end, crate::proofs::Entries::none_there))]
fn is_at_end(own: &[&Entry], from: usize) -> bool
    ensures end { IsTrue result ↔ (left own.now from ≡ []) }
    ensures within { (left own.now from ≡ [] → ⊥) → from < length own.now }
{
    own.len() <= from
}

/// Whether the entry is of the call's request, and has the reply that was received, if one was.
fn is_reply_to(entry: &Entry, call: &Call) -> bool
    ensures { IsTrue result ↔ IsReplyTo entry.now call.now }
{
    if !entry.event.request.same(&call.request) {
        return false;
    }
    match &call.heard {
        Some(heard) => heard.same(&entry.reply),
        None => true,
    }
}
