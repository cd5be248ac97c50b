//! Events whose service crashed before it recorded them.

ghost use Rattle.std.specs.Prelude.{◌≡◌, ◌++◌, IfOk, OnOk, map};
ghost use Rattle.kob_delivery_check.specs.Unrecorded.{has_new_id, no_row_text};
ghost use Rattle.kob_delivery_check.specs.Unrecorded.{unrecorded_line, unrecorded_lines};
ghost use Rattle.kob_delivery_check.specs.Unrecorded.{unrecorded_of};

use crate::come::push_if;
use crate::printed_pieces::push_id;
use crate::sent::place_of;
use kob_outbox::OutboxEvent;
use kob_words::push_spaced;
use std::alloc::{AllocError, Global};

/// Those of the events of which a service wrote the business row alone that it did not record
/// afterwards. The error is out of memory.
pub fn unrecorded_of<'e>(
    alloc: Global,
    recorded: &[&OutboxEvent],
    unwritten: &[&'e OutboxEvent],
) -> Result<Vec<&'e OutboxEvent>, AllocError>
    ensures { IfOk result (λ found. map (λ event. event.now) found.items
        ≡ unrecorded_of (map (λ event. event.now) recorded.now)
        (map (λ event. event.now) unwritten.now)) }
{
    let mut found = Vec::new(alloc);
    for event in unwritten {
        push_if(&mut found, has_new_id(recorded, *event), *event)?;
    }
    Ok(found)
}

/// Whether none of these events has the event's id.
pub fn has_new_id(events: &[&OutboxEvent], event: &OutboxEvent) -> bool
    ensures { result ≡ has_new_id (map (λ event. event.now) events.now) event.now }
{
    place_of(event.id.as_u128(), events).is_none()
}

/// A line for each of these events.
pub(crate) fn push_unrecorded(out: &mut Vec<u8>, events: &[&OutboxEvent]) -> Result<(), AllocError>
    ensures { OnOk result (out.new.items
        ≡ out.old.items ++ unrecorded_lines (map (λ event. event.now) events.now)) }
{
    for event in events {
        push_line(out, *event)?;
    }
    Ok(())
}

#[tactic(auto, using(kob_words::proofs::Appending::appending))]
fn push_line(out: &mut Vec<u8>, event: &OutboxEvent) -> Result<(), AllocError>
    ensures { OnOk result (out.new.items ≡ out.old.items ++ unrecorded_line event.now) }
{
    out.extend_from_slice(b"lost")?;
    push_id(out, event.id)?;
    push_spaced(out, event.aggregate_type.as_bytes())?;
    push_spaced(out, event.aggregate_id.as_bytes())?;
    push_no_row(out)
}

#[tactic(auto, unfolding(crate::specs::Unrecorded::no_row_text))]
fn push_no_row(out: &mut Vec<u8>) -> Result<(), AllocError>
    ensures { OnOk result (out.new.items ≡ out.old.items ++ no_row_text) }
{
    out.extend_from_slice(b", no row: its service crashed before it recorded the event\n")
}
