//! How the answer to a check is printed.

ghost use Rattle.std.specs.Prelude.{◌≡◌, ◌++◌, OnOk, map};
ghost use Rattle.std.specs.List.{count_by, position};
ghost use Rattle.std.specs.Option.{option_copied};
ghost use Rattle.kob_delivery_check.specs.Fates.{is_delivered, is_lost, is_waiting};
ghost use Rattle.kob_delivery_check.specs.Printed.{check_text, head_text, missing_lines, waits_at};
ghost use Rattle.kob_delivery_check.specs.Printed.{waits_line, waits_text, where_text};

use crate::cause::{LostEvent, event_at};
use crate::come::count_of;
use crate::fate::Fate;
use crate::order::Early;
use crate::printed_doubles::push_doubled_rows;
use crate::printed_order::{push_records, push_rows};
use crate::printed_pieces::{push_assigned, push_event};
use crate::printed_records::{push_doubles, push_losses};
use crate::reach::Stored;
use crate::record_order::EarlyRecord;
use crate::row_doubles::DoubledRow;
use crate::unrecorded::push_unrecorded;
use kob_names::sum_of;
use kob_outbox::OutboxEvent;
use kob_router::Place;
use kob_shared::Journal;
use kob_words::{push_counted, push_number};
use std::alloc::AllocError;

fn push_where(out: &mut Vec<u8>, assignment: &[Place], fate: Fate) -> Result<(), AllocError>
    ensures { OnOk result (out.new.items ≡ out.old.items ++ where_text assignment.now fate) }
{
    match fate {
        Fate::Ahead { assigned, offset } => push_assigned(out, assignment, assigned, offset),
        Fate::Outbox => out.extend_from_slice(b" in the outbox"),
        Fate::Delivered => Ok(()),
        Fate::Lost => Ok(()),
    }
}

/// The line of an event that waits.
#[tactic(auto, using(kob_words::proofs::Appending::appending))]
fn push_waits(
    out: &mut Vec<u8>,
    assignment: &[Place],
    place: usize,
    event: Option<&OutboxEvent>,
    fate: Option<Fate>,
) -> Result<(), AllocError>
    ensures { OnOk result (out.new.items
        ≡ out.old.items ++ waits_line assignment.now place (option_copied event.entry) fate) }
{
    let (Some(event), Some(fate)) = (event, fate) else {
        return Ok(());
    };
    out.extend_from_slice(b"waits")?;
    push_event(out, (place as u64).saturating_add(1), event)?;
    push_where(out, assignment, fate)?;
    out.extend_from_slice(b"\n")
}

fn push_first_waiting(
    out: &mut Vec<u8>,
    events: &[&OutboxEvent],
    fates: &[Fate],
    assignment: &[Place],
) -> Result<(), AllocError>
    ensures { OnOk result (out.new.items ≡ out.old.items
        ++ waits_text (map (λ event. event.now) events.now) fates.now assignment.now) }
{
    match first_waiting(fates) {
        None => Ok(()),
        Some(place) => {
            let fate = fates.get(place).copied();
            push_waits(out, assignment, place, event_at(events, place), fate)
        }
    }
}

fn first_waiting(fates: &[Fate]) -> Option<usize>
    ensures { result ≡ position is_waiting fates.now }
{
    fates.iter().position(|fate| fate.is_waiting())
}

#[tactic(auto, using(kob_words::proofs::Appending::appending))]
fn push_head(
    out: &mut Vec<u8>,
    number: u64,
    fates: &[Fate],
    unrecorded: &[&OutboxEvent],
) -> Result<(), AllocError>
    ensures { OnOk result (out.new.items ≡ out.old.items
        ++ head_text number fates.now (map (λ event. event.now) unrecorded.now)) }
{
    let all = sum_of(fates.len(), count_of(unrecorded))?;
    let lost = sum_of(lost(fates), count_of(unrecorded))?;
    push_number(out, number)?;
    out.extend_from_slice(b" delivered")?;
    push_counted(out, delivered(fates) as u64)?;
    out.extend_from_slice(b" of")?;
    push_counted(out, all as u64)?;
    out.extend_from_slice(b" waiting")?;
    push_counted(out, waiting(fates) as u64)?;
    out.extend_from_slice(b" lost")?;
    push_counted(out, lost as u64)?;
    out.extend_from_slice(b"\n")
}

fn delivered(fates: &[Fate]) -> usize
    ensures { result ≡ count_by is_delivered fates.now }
{
    fates.iter().filter(|fate| fate.is_delivered()).count()
}

fn waiting(fates: &[Fate]) -> usize
    ensures { result ≡ count_by is_waiting fates.now }
{
    fates.iter().filter(|fate| fate.is_waiting()).count()
}

fn lost(fates: &[Fate]) -> usize
    ensures { result ≡ count_by is_lost fates.now }
{
    fates.iter().filter(|fate| fate.is_lost()).count()
}

/// A line for each event that is lost, and then for each that was never recorded.
#[tactic(auto, using(kob_words::proofs::Appending::appending), unfolding(crate::specs::Printed::missing_lines))]
fn push_missing(
    out: &mut Vec<u8>,
    journal: &Journal,
    assignment: &[Place],
    events: &[&OutboxEvent],
    unrecorded: &[&OutboxEvent],
    losses: &[LostEvent],
) -> Result<(), AllocError>
    ensures { OnOk result (out.new.items ≡ out.old.items
        ++ missing_lines journal.now assignment.now (map (λ event. event.now) events.now)
        (map (λ event. event.now) unrecorded.now) losses.now) }
{
    push_losses(out, journal, assignment, events, losses)?;
    push_unrecorded(out, unrecorded)
}

/// What a check found: where each event is that a service recorded, in their order; the lost events,
/// each with its cause; the records of events in the consumer's partitions that have an earlier
/// record of the same event; the rows of the inbox that have an earlier row of the same event; and
/// the rows of the inbox and the records that are out of order.
pub struct Found {
    pub fates: Vec<Fate>,
    pub losses: Vec<LostEvent>,
    pub repeats: Vec<Stored>,
    pub doubled_rows: Vec<DoubledRow>,
    pub early_rows: Vec<Early>,
    pub early_records: Vec<EarlyRecord>,
}

/// Written out, so that a function that drops what a check found does not go through each list.
impl Drop for Found {
    fn drop(self) {
        let Found {
            fates: _,
            losses: _,
            repeats: _,
            doubled_rows: _,
            early_rows: _,
            early_records: _,
        } = self;
    }
}

/// Prints `N delivered D of M waiting W lost L`, then a line `waits ID AGGREGATETYPE AGGREGATEID row
/// ROW` with where for the first event that waits; a line `lost ID AGGREGATETYPE AGGREGATEID row ROW`
/// for each event that is lost, with the place of its record and the entry of the journal that put it
/// out of reach; a line `lost ID AGGREGATETYPE AGGREGATEID, no row: ..` for each of `unrecorded`, the
/// events that the service never recorded; a line `doubled ID AGGREGATETYPE AGGREGATEID row ROW in
/// TOPIC PARTITION at OFFSET` for each record of an event that has an earlier one, with the entries
/// that sent the two; a line `doubled ID AGGREGATETYPE AGGREGATEID row ROW in the inbox at PLACE,
/// first at PLACE` for each row of the inbox whose event has an earlier row; and a line `misordered ID
/// AGGREGATETYPE AGGREGATEID row ROW in the inbox at PLACE, before ID row ROW` for each row of the
/// inbox that is out of order, and for each such record. The error is out of memory; `out` has then
/// grown by a part of it.
#[tactic(auto, using(kob_words::proofs::Appending::appending))]
pub fn print_check(
    out: &mut Vec<u8>,
    number: u64,
    journal: &Journal,
    events: &[&OutboxEvent],
    unrecorded: &[&OutboxEvent],
    found: &Found,
    assignment: &[Place],
) -> Result<(), AllocError>
    ensures { OnOk result (out.new.items ≡ out.old.items
        ++ check_text number journal.now (map (λ event. event.now) events.now)
        (map (λ event. event.now) unrecorded.now) found.now assignment.now) }
{
    push_head(out, number, &found.fates, unrecorded)?;
    push_first_waiting(out, events, &found.fates, assignment)?;
    push_missing(out, journal, assignment, events, unrecorded, &found.losses)?;
    push_doubles(out, journal, assignment, events, &found.repeats)?;
    push_doubled_rows(out, events, &found.doubled_rows)?;
    push_rows(out, events, &found.early_rows)?;
    push_records(out, events, assignment, &found.early_records)
}
