//! Where each event of a service is.

ghost use Rattle.std.specs.Prelude.{◌≡◌, ℕ, IfOk, map, nat_eq};
ghost use Rattle.std.specs.HashSet.{contains};
ghost use Rattle.std.specs.List.{list_any};
ghost use Rattle.kob_delivery_check.specs.Fates.{fates_by, is_in_inbox, is_in_outbox};
ghost use Rattle.kob_delivery_check.specs.Logs.{number_of};

use crate::altered::{events_by_id, is_altered};
use crate::fate::{Fate, fate_by};
use crate::reach::Stored;
use kob_inbox::InboxRow;
use kob_outbox::{OutboxEvent, Row};
use std::alloc::{AllocError, Global};
use std::collections::HashSet;

/// Where each of a service's events is, in their order: by the rows of the consumer's inbox, by the
/// records that the consumer has before it, and by the rows of the service's outbox after the mark.
/// A row of the inbox with an event's id and another key or value is not the event's. The error is
/// out of memory.
pub fn fates_of(
    alloc: Global,
    events: &[&OutboxEvent],
    taken: &[InboxRow],
    ahead: &[Stored],
    waiting: &[Row],
) -> Result<Vec<Fate>, AllocError>
    ensures { IfOk result (λ fates. fates.items
        ≡ fates_by taken.now ahead.now waiting.now (map (λ event. event.now) events.now)) }
{
    let taken = ids_of_inbox(alloc, events, taken)?;
    let waiting = ids_of_outbox(alloc, waiting)?;
    let mut fates = Vec::new(alloc);
    for event in events {
        fates.push(fate_by(&taken, ahead, &waiting, event.id.as_u128()))?;
    }
    Ok(fates)
}

/// The ids of the rows of an inbox but those that have another key or value than their event.
fn ids_of_inbox(
    alloc: Global,
    events: &[&OutboxEvent],
    rows: &[InboxRow],
) -> Result<HashSet<u128>, AllocError>
    ensures { IfOk result (λ set. (id : ℕ) → contains nat_eq set id
        ≡ is_in_inbox (map (λ event. event.now) events.now) rows.now id) }
{
    let recorded = events_by_id(alloc, events)?;
    let mut set = HashSet::new(alloc);
    for row in rows {
        if is_altered(&recorded, row) {
            continue;
        }
        set.insert(row.id.as_u128())?;
    }
    Ok(set)
}

/// The ids of the rows of an outbox.
fn ids_of_outbox(alloc: Global, rows: &[Row]) -> Result<HashSet<u128>, AllocError>
    ensures { IfOk result (λ set. (id : ℕ) → contains nat_eq set id ≡ is_in_outbox rows.now id) }
{
    let mut set = HashSet::new(alloc);
    for row in rows {
        set.insert(row.event.id.as_u128())?;
    }
    Ok(set)
}
