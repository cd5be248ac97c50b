//! Which events came.

ghost use Rattle.std.specs.Prelude.{◌≡◌, ◌<◌, ◌++◌, ◌∷◌, [], ℕ, IfOk, OnOk, Some, cond, length, map};
ghost use Rattle.std.specs.Prelude.{nat_eq, slice_get};
ghost use Rattle.std.specs.HashSet.{contains};
ghost use Rattle.kob_delivery_check.specs.Order.{count_taken, events_come, has_come, row_arrival};

use kob_inbox::InboxRow;
use kob_outbox::OutboxEvent;
use std::alloc::{AllocError, Global};
use std::collections::HashSet;

/// An event that came, and where: the place of its row in an inbox, or the offset of its record.
#[derive(Clone, Copy, Debug)]
pub struct Arrival {
    pub at: u64,
    pub event: u128,
}

/// How many of a service's events are in an inbox, by its rows. The error is out of memory.
pub fn count_taken(
    alloc: Global,
    events: &[&OutboxEvent],
    rows: &[InboxRow],
) -> Result<usize, AllocError>
    ensures { IfOk result (λ count. count
        ≡ count_taken (map (λ event. event.now) events.now) rows.now) }
{
    let arrivals = row_arrivals(alloc, rows)?;
    let come = events_come(alloc, events, &arrivals)?;
    Ok(count_of(&come))
}

/// How many events these are.
pub(crate) fn count_of(events: &[&OutboxEvent]) -> usize
    ensures { result ≡ length (map (λ event. event.now) events.now) }
{
    events.len()
}

/// The rows of an inbox.
pub(crate) fn row_arrivals(alloc: Global, rows: &[InboxRow]) -> Result<Vec<Arrival>, AllocError>
    ensures { IfOk result (λ arrivals. arrivals.items ≡ map row_arrival rows.now) }
{
    let mut arrivals = Vec::new(alloc);
    for row in rows {
        arrivals.push(Arrival {
            at: row.place,
            event: row.id.as_u128(),
        })?;
    }
    Ok(arrivals)
}

/// The events that came.
pub(crate) fn events_come<'e>(
    alloc: Global,
    events: &[&'e OutboxEvent],
    arrivals: &[Arrival],
) -> Result<Vec<&'e OutboxEvent>, AllocError>
    ensures { IfOk result (λ come. map (λ event. event.now) come.items
        ≡ events_come (map (λ event. event.now) events.now) arrivals.now) }
{
    let ids = ids_come(alloc, arrivals)?;
    let mut come = Vec::new(alloc);
    for event in events {
        push_if(&mut come, ids.contains(&event.id.as_u128()), *event)?;
    }
    Ok(come)
}

pub(crate) fn push_if<'e>(
    come: &mut Vec<&'e OutboxEvent>,
    has_come: bool,
    event: &'e OutboxEvent,
) -> Result<(), AllocError>
    ensures { OnOk result (come.new.items ≡ come.old.items ++ cond has_come (event.entry ∷ []) []) }
{
    if has_come {
        come.push(event)?;
    }
    Ok(())
}

fn ids_come(alloc: Global, arrivals: &[Arrival]) -> Result<HashSet<u128>, AllocError>
    ensures { IfOk result (λ set. (id : ℕ) → contains nat_eq set id ≡ has_come arrivals.now id) }
{
    let mut set = HashSet::new(alloc);
    for place in 0..arrivals.len() {
        set.insert(arrival_at(arrivals, place).event)?;
    }
    Ok(set)
}

/// The arrival at a place of the list.
pub(crate) fn arrival_at(arrivals: &[Arrival], place: usize) -> Arrival
    requires { place < length arrivals.now }
    ensures { slice_get arrivals.now place ≡ Some result }
{
    arrivals[place]
}
