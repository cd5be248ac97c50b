//! Which rows of an inbox have another key or value than their event was recorded with.

ghost use Rattle.std.specs.Prelude.{◌≡◌, ℕ, List, IfOk, map, nat_eq, reverse};
ghost use Rattle.std.specs.HashMap.{get};
ghost use Rattle.std.specs.Option.{option_copied};
ghost use Rattle.kob_delivery_check.specs.Altered.{altered_row, event_with, is_altered};
ghost use Rattle.kob_delivery_check.specs.Altered.{is_copy};
ghost use Rattle.kob_outbox.specs.declared.event.OutboxEvent.{OutboxEvent};

use kob_inbox::InboxRow;
use kob_outbox::OutboxEvent;
use std::alloc::{AllocError, Global};
use std::collections::HashMap;

/// The place of the first row of an inbox whose key is not the aggregate's id of its event, or whose
/// value is not its payload. Rows of events that the service did not record are skipped. The error
/// is out of memory.
#[tactic(auto, using(crate::proofs::First::found_at, crate::proofs::First::none_more))]
pub fn altered_row(
    alloc: Global,
    events: &[&OutboxEvent],
    rows: &[InboxRow],
) -> Result<Option<u64>, AllocError>
    ensures { IfOk result (λ place. place
        ≡ altered_row (map (λ event. event.now) events.now) rows.now) }
{
    let recorded = events_by_id(alloc, events)?;
    for row in rows {
        if is_altered(&recorded, row) {
            return Ok(Some(row.place));
        }
    }
    Ok(None)
}

/// Whether a row has another key or value than the event with its id, if there is one.
pub(crate) fn is_altered(recorded: &HashMap<u128, &OutboxEvent>, row: &InboxRow) -> bool
    ensures { (events : List OutboxEvent)
        → ((id : ℕ) → option_copied (get nat_eq recorded.now id) ≡ event_with id (reverse events))
        → result ≡ is_altered events row.now }
{
    let Some(event) = recorded.get(&row.id.as_u128()).copied() else {
        return false;
    };
    match &row.key {
        Some(key) => {
            !(key.as_slice() == event.aggregate_id.as_bytes()
                && row.value.as_slice() == event.payload.as_bytes())
        }
        None => true,
    }
}

/// Each event by its id.
pub(crate) fn events_by_id<'e>(
    alloc: Global,
    events: &[&'e OutboxEvent],
) -> Result<HashMap<u128, &'e OutboxEvent>, AllocError>
    ensures { IfOk result (λ recorded. (id : ℕ)
        → option_copied (get nat_eq recorded id)
        ≡ event_with id (reverse (map (λ event. event.now) events.now))) }
{
    let mut recorded = HashMap::new(alloc);
    for event in events {
        recorded.insert(event.id.as_u128(), *event)?;
    }
    Ok(recorded)
}
