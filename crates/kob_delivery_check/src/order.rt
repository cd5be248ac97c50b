//! Which events came before an event of their aggregate that was recorded before them.

ghost use Rattle.std.specs.Prelude.{◌≡◌, ◌++◌, ℕ, List, IfOk, None, OnOk, map};
ghost use Rattle.std.specs.Prelude.{nat_eq, reverse, unwrap_or};
ghost use Rattle.std.specs.HashMap.{get};
ghost use Rattle.std.specs.HashSet.{contains};
ghost use Rattle.kob_delivery_check.specs.Order.{early_by, early_in, early_rows, has_come};
ghost use Rattle.kob_delivery_check.specs.Order.{id_before, is_next};
ghost use Rattle.kob_delivery_check.specs.declared.come.Arrival.{Arrival};

use crate::come::{Arrival, arrival_at, row_arrivals};
use kob_inbox::InboxRow;
use kob_outbox::OutboxEvent;
use std::alloc::{AllocError, Global};
use std::collections::{HashMap, HashSet};

/// An event that came before an event of its aggregate that was recorded before it.
#[derive(Clone, Copy, Debug)]
pub struct Early {
    /// The place of its row in an inbox, or the offset of its record.
    pub at: u64,
    pub event: u128,
    /// The last event of its aggregate that was recorded before it.
    pub before: u128,
}

/// The rows of an inbox that came before the row of their aggregate that was recorded before them,
/// whether that one came later or never. Without one the inbox has of each aggregate the first
/// events, in their order. The error is out of memory.
pub fn early_rows(
    alloc: Global,
    events: &[&OutboxEvent],
    rows: &[InboxRow],
) -> Result<Vec<Early>, AllocError>
    ensures { IfOk result (λ early. early.items
        ≡ early_rows (map (λ event. event.now) events.now) rows.now) }
{
    let arrivals = row_arrivals(alloc, rows)?;
    early_in(alloc, events, &arrivals)
}

/// The arrivals, in their order, that came before the event of their aggregate that was recorded
/// before them.
pub(crate) fn early_in(
    alloc: Global,
    events: &[&OutboxEvent],
    arrivals: &[Arrival],
) -> Result<Vec<Early>, AllocError>
    ensures { IfOk result (λ early. early.items
        ≡ early_in (map (λ event. event.now) events.now) arrivals.now) }
{
    let earlier = earlier_ids(alloc, events)?;
    let mut come = HashSet::new(alloc);
    let mut early = Vec::new(alloc);
    for place in 0..arrivals.len() {
        let arrival = arrival_at(arrivals, place);
        let before = earlier.get(&arrival.event).copied().unwrap_or(None);
        push_unless(&mut early, is_next(&come, before), arrival, before)?;
        come.insert(arrival.event)?;
    }
    Ok(early)
}

/// Whether no event was recorded before, or it is among those that came.
fn is_next(come: &HashSet<u128>, before: Option<u128>) -> bool
    ensures { (earlier : List Arrival)
        → ((id : ℕ) → contains nat_eq come.now id ≡ has_come earlier id)
        → result ≡ is_next earlier before }
{
    match before {
        Some(before) => come.contains(&before),
        None => true,
    }
}

fn push_unless(
    early: &mut Vec<Early>,
    is_next: bool,
    arrival: Arrival,
    before: Option<u128>,
) -> Result<(), AllocError>
    ensures { OnOk result (early.new.items ≡ early.old.items ++ early_by is_next arrival before) }
{
    match before {
        Some(before) if !is_next => {
            early.push(Early {
                at: arrival.at,
                event: arrival.event,
                before,
            })?;
            Ok(())
        }
        _ => Ok(()),
    }
}

/// For the id of each event, the id of the event of its aggregate that was recorded before it.
fn earlier_ids(
    alloc: Global,
    events: &[&OutboxEvent],
) -> Result<HashMap<u128, Option<u128>>, AllocError>
    ensures { IfOk result (λ earlier. (id : ℕ) → unwrap_or (get nat_eq earlier id) None
        ≡ id_before id (reverse (map (λ event. event.now) events.now))) }
{
    let mut earlier = HashMap::new(alloc);
    let mut last = HashMap::new(alloc);
    for event in events {
        let id = event.id.as_u128();
        let aggregate = (event.aggregate_type.as_str(), event.aggregate_id.as_str());
        let before = last.insert(aggregate, id)?;
        earlier.insert(id, before)?;
    }
    Ok(earlier)
}
