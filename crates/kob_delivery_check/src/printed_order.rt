//! How events that are out of order are printed.

ghost use Rattle.std.specs.Prelude.{◌≡◌, ◌<◌, ◌++◌, OnOk, Some, length, map, slice_get};
ghost use Rattle.kob_delivery_check.specs.PrintedOrder.{before_named, early_named, inbox_place};
ghost use Rattle.kob_delivery_check.specs.PrintedOrder.{place_of, record_line, record_lines};
ghost use Rattle.kob_delivery_check.specs.PrintedOrder.{row_lines};

use crate::cause::event_at;
use crate::order::Early;
use crate::printed_pieces::{push_assigned, push_event, push_id};
use crate::printed_records::push_labelled;
use crate::record_order::EarlyRecord;
use crate::sent::place_of;
use kob_outbox::OutboxEvent;
use kob_router::Place;
use kob_words::push_counted;
use std::alloc::AllocError;

/// The event that came, by its id.
#[tactic(auto, using(kob_words::proofs::Appending::appending))]
fn push_early_named(out: &mut Vec<u8>, events: &[&OutboxEvent], id: u128) -> Result<(), AllocError>
    ensures { OnOk result (out.new.items ≡ out.old.items
        ++ early_named (map (λ event. event.now) events.now)
        (place_of id (map (λ event. event.now) events.now))) }
{
    let Some(place) = place_of(id, events) else {
        return Ok(());
    };
    let Some(event) = event_at(events, place) else {
        return Ok(());
    };
    out.extend_from_slice(b"misordered")?;
    push_event(out, (place as u64).saturating_add(1), event)
}

/// The event that was recorded before it, by its id.
#[tactic(auto, using(kob_words::proofs::Appending::appending))]
fn push_before_named(out: &mut Vec<u8>, events: &[&OutboxEvent], id: u128) -> Result<(), AllocError>
    ensures { OnOk result (out.new.items ≡ out.old.items
        ++ before_named (map (λ event. event.now) events.now)
        (place_of id (map (λ event. event.now) events.now))) }
{
    let Some(place) = place_of(id, events) else {
        return Ok(());
    };
    let Some(event) = event_at(events, place) else {
        return Ok(());
    };
    out.extend_from_slice(b", before")?;
    push_id(out, event.id)?;
    out.extend_from_slice(b" row")?;
    push_counted(out, (place as u64).saturating_add(1))?;
    out.extend_from_slice(b"\n")
}

pub(crate) fn push_inbox_place(out: &mut Vec<u8>, at: u64) -> Result<(), AllocError>
    ensures { OnOk result (out.new.items ≡ out.old.items ++ inbox_place at) }
{
    push_labelled(out, b" in the inbox at", at)
}

/// The line of a record.
#[tactic(auto, using(kob_words::proofs::Appending::appending))]
fn push_record(
    out: &mut Vec<u8>,
    events: &[&OutboxEvent],
    assignment: &[Place],
    found: EarlyRecord,
) -> Result<(), AllocError>
    ensures { OnOk result (out.new.items ≡ out.old.items
        ++ record_line (map (λ event. event.now) events.now) assignment.now found) }
{
    push_early_named(out, events, found.early.event)?;
    push_assigned(out, assignment, found.assigned, found.early.at)?;
    push_before_named(out, events, found.early.before)
}

/// A line for each row of the inbox that is out of order.
#[tactic(auto, using(kob_words::proofs::Appending::appending))]
pub(crate) fn push_rows(
    out: &mut Vec<u8>,
    events: &[&OutboxEvent],
    early: &[Early],
) -> Result<(), AllocError>
    ensures { OnOk result (out.new.items
        ≡ out.old.items ++ row_lines (map (λ event. event.now) events.now) early.now) }
{
    for one in early {
        push_early_named(out, events, one.event)?;
        push_inbox_place(out, one.at)?;
        push_before_named(out, events, one.before)?;
    }
    Ok(())
}

/// A line for each record that is out of order in its partition.
pub(crate) fn push_records(
    out: &mut Vec<u8>,
    events: &[&OutboxEvent],
    assignment: &[Place],
    early: &[EarlyRecord],
) -> Result<(), AllocError>
    ensures { OnOk result (out.new.items ≡ out.old.items
        ++ record_lines (map (λ event. event.now) events.now) assignment.now early.now) }
{
    for place in 0..early.len() {
        push_record(out, events, assignment, early[place])?;
    }
    Ok(())
}
