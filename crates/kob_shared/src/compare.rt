//! Comparing a journal with the receipts of a fleet's workers.

ghost use Rattle.std.specs.Prelude.{◌≡◌, ◌<◌, ◌≤◌, IfSome, length, slice_get, take};
ghost use Rattle.std.specs.Prelude.{MatchOption, Some};
ghost use Rattle.std.specs.List.{All};
ghost use Rattle.kob_shared.specs.Fleets.{IsDifference, IsFirstDifference, IsKept, IsRising};
ghost use Rattle.kob_shared.specs.Fleets.{claims, mine};
ghost use Rattle.kob_shared.specs.Runs.{events_in, notes_of, told_in};

use crate::journal::{Journal, Receipt};
use crate::notes::Notes;
use crate::work::Done;
use kob_names::PlainValue;
use kob_rights::Event;

/// The place of the first difference between the journal and what a worker noted.
fn find_difference(journal: &Journal, worker: usize, notes: &Notes) -> Option<usize>
    ensures { MatchOption result
        (mine worker journal.now ≡ claims worker notes.now.events notes.now.told)
        (IsFirstDifference worker journal.now
        (claims worker notes.now.events notes.now.told)) }
{
    walk(journal, worker, notes.events(), notes.receipts())
}

fn walk(journal: &Journal, worker: usize, events: &[Event], told: &[Receipt]) -> Option<usize>
    requires counted { length events.now ≡ length told.now }
    requires rising { IsRising told.now }
    ensures { MatchOption result (mine worker journal.now ≡ claims worker events.now told.now)
        (IsFirstDifference worker journal.now (claims worker events.now told.now)) }
{
    let mut next = 0;
    for place in 0..journal.len() {
        let entry = journal.entry_at(place);
        if entry.worker != worker {
            continue;
        }
        if next == told.len() {
            return Some(place);
        }
        let receipt = &told[next];
        if receipt.place < place {
            return Some(receipt.place);
        }
        if place < receipt.place {
            return Some(place);
        }
        if !events[next].same(&entry.event) {
            return Some(place);
        }
        if !entry.reply.same(&receipt.reply) {
            return Some(place);
        }
        next += 1;
    }
    if next < told.len() {
        return Some(told[next].place);
    }
    None
}

/// A place where the journal and a worker's receipts differ.
#[derive(Clone, Copy)]
pub struct Difference {
    pub worker: usize,
    pub place: usize,
}

/// The first difference between the journal and what all workers noted: worker 0, and those that
/// are done, from 1 on.
pub(crate) fn compare<E>(journal: &Journal, first: &Notes, done: &[Done<E>]) -> Option<Difference>
    ensures { let notes = notes_of first.now done.now in
        MatchOption result (IsKept (events_in notes) (told_in notes) journal.now)
        (λ d. IsDifference (events_in notes) (told_in notes) journal.now d.worker d.place) }
{
    if let Some(place) = find_difference(journal, 0, first) {
        return Some(Difference { worker: 0, place });
    }
    for (k, one) in done.iter().enumerate() {
        let worker = k + 1;
        if let Some(place) = find_difference(journal, worker, &one.notes) {
            return Some(Difference { worker, place });
        }
    }
    find_stranger(journal, done.len() + 1)
}

/// The first entry of a worker whose number is not below `workers`.
fn find_stranger(journal: &Journal, workers: usize) -> Option<Difference>
    ensures { MatchOption result (All (λ x. x.worker < workers) journal.now)
        (λ d. (workers ≤ d.worker)
        × IfSome (slice_get journal.now d.place) (λ x. x.worker ≡ d.worker)
        × (d.place < length journal.now)
        × All (λ x. x.worker < workers) (take d.place journal.now)) }
{
    for place in 0..journal.len() {
        let entry = journal.entry_at(place);
        if entry.worker >= workers {
            return Some(Difference {
                worker: entry.worker,
                place,
            });
        }
    }
    None
}
