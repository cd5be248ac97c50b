//! Why an event is lost to a consumer.

ghost use Rattle.std.specs.Prelude.{◌≡◌, ◌==◌, ◌<◌, IfOk, Some, length, map, slice_get};
ghost use Rattle.kob_delivery_check.specs.Logs.{is_on};
ghost use Rattle.std.specs.List.{find, position};
ghost use Rattle.std.specs.Option.{option_copied};
ghost use Rattle.kob_delivery_check.specs.Causes.{assigned_to, cause_beside, cause_in};
ghost use Rattle.kob_delivery_check.specs.Causes.{cause_of, losses_by, row_with};
ghost use Rattle.kob_delivery_check.specs.Logs.{number_of};

use crate::fate::Fate;
use crate::journaled::log_until;
use crate::obstacle::{obstacle_of, obstacles};
use crate::partition_log::is_on;
use crate::sent::{offset_of, sent_at};
use kob_inbox::{InboxRow, Subscription};
use kob_names::Text;
use kob_outbox::OutboxEvent;
use kob_rights::Request;
use kob_router::Place;
use kob_shared::Journal;
use std::alloc::{AllocError, Global};

/// Why no tick of a consumer takes an event in, by the journal of its broker. Entries are named by
/// their places in the journal, from 0.
#[derive(Clone, Copy, Debug)]
pub enum Cause {
    /// No entry of the journal sent it to where its record would be.
    Unknown,
    /// No entry of the journal sent it at all.
    Unsent,
    /// This entry sent it to a partition that the consumer does not read.
    Unread {
        sent: usize,
    },
    /// Its record is or was in this partition of the assignment at this offset. The entry `by`
    /// deleted the topic, deleted the record, or committed an offset past it for the group.
    OutOfReach {
        assigned: usize,
        offset: u64,
        by: Option<usize>,
    },
    /// The row of the inbox at this place has its id, with another key or value: a consumer takes
    /// each id in once.
    KeptOut {
        row: u64,
    },
}

/// A lost event, by its place among the events that the service recorded, from 0, and its cause.
#[derive(Clone, Copy, Debug)]
pub struct LostEvent {
    pub event: usize,
    pub cause: Cause,
}

/// The events that are lost to a consumer whose inbox has these rows, each with its cause. `fates`
/// has where each event is, in the order of the events. The error is out of memory.
pub fn losses_of(
    alloc: Global,
    reader: &Subscription,
    rows: &[InboxRow],
    journal: &Journal,
    events: &[&OutboxEvent],
    fates: &[Fate],
) -> Result<Vec<LostEvent>, AllocError>
    ensures { IfOk result (λ losses. losses.items ≡ losses_by reader.now rows.now journal.now
        (map (λ event. event.now) events.now) fates.now) }
{
    let mut losses = Vec::new(alloc);
    for place in 0..fates.len() {
        if !fates[place].is_lost() {
            continue;
        }
        let Some(event) = event_at(events, place) else {
            continue;
        };
        let id = event.id.as_u128();
        let cause = cause_beside(alloc, reader, journal, id, row_with(id, rows))?;
        losses.push(LostEvent {
            event: place,
            cause,
        })?;
    }
    Ok(losses)
}

/// The event at a place.
pub(crate) fn event_at<'e>(events: &[&'e OutboxEvent], place: usize) -> Option<&'e OutboxEvent>
    ensures { option_copied result ≡ slice_get (map (λ event. event.now) events.now) place }
{
    match events.get(place) {
        Some(event) => Some(*event),
        None => None,
    }
}

/// The first row of an inbox with an id.
fn row_with(id: u128, rows: &[InboxRow]) -> Option<&InboxRow>
    ensures { option_copied result ≡ row_with id rows.now }
{
    rows.iter().find(|row| row.id.as_u128() == id)
}

/// Why an event that is lost to a consumer is lost, by the row of its inbox with the event's id.
fn cause_beside(
    alloc: Global,
    reader: &Subscription,
    journal: &Journal,
    event: u128,
    row: Option<&InboxRow>,
) -> Result<Cause, AllocError>
    ensures { IfOk result (λ cause. cause
        ≡ cause_beside reader.now journal.now event (option_copied row.entry)) }
{
    match row {
        Some(row) => Ok(Cause::KeptOut { row: row.place }),
        None => cause_of(alloc, reader, journal, event),
    }
}

/// Why an event that is lost to a consumer is lost, by the journal. The error is out of memory.
fn cause_of(
    alloc: Global,
    reader: &Subscription,
    journal: &Journal,
    event: u128,
) -> Result<Cause, AllocError>
    ensures { IfOk result (λ cause. cause ≡ cause_of reader.now journal.now event) }
{
    let Some(sent) = sent_at(journal, event) else {
        return Ok(Cause::Unsent);
    };
    let request = &journal.entry_at(sent).event.request;
    match assigned_to(reader.assignment.as_slice(), request) {
        None => Ok(Cause::Unread { sent }),
        Some(assigned) => cause_in(alloc, reader, journal, event, sent, assigned),
    }
}

/// The partition that a PRODUCE names, by its place in the assignment.
fn assigned_to(assignment: &[Place], request: &Request) -> Option<usize>
    ensures { result ≡ assigned_to assignment.now request.now }
{
    match request {
        Request::Produce(asked) => place_of(assignment, &asked.topic, asked.partition),
        _ => None,
    }
}

fn place_of(assignment: &[Place], topic: &Text, partition: u64) -> Option<usize>
    ensures { result ≡ position (λ place. is_on place topic.now partition) assignment.now }
{
    assignment
        .iter()
        .position(|place| is_on(place, topic, partition))
}

fn cause_in(
    alloc: Global,
    reader: &Subscription,
    journal: &Journal,
    event: u128,
    sent: usize,
    assigned: usize,
) -> Result<Cause, AllocError>
    requires { sent < length journal.now }
    ensures { IfOk result (λ cause. cause ≡ cause_in reader.now journal.now event sent assigned
        (slice_get reader.now.assignment assigned)) }
{
    let Some(place) = reader.assignment.as_slice().get(assigned) else {
        return Ok(Cause::Unknown);
    };
    if sent >= journal.len() {
        unreachable!()
    }
    let log = log_until(alloc, &reader.group, place, journal, sent + 1)?;
    let Some(offset) = offset_of(event, log.events()) else {
        return Ok(Cause::Unknown);
    };
    let offset = offset as u64;
    let found = obstacles(alloc, &reader.group, place, offset, journal)?;
    let by = obstacle_of(sent, &found);
    Ok(Cause::OutOfReach {
        assigned,
        offset,
        by,
    })
}
