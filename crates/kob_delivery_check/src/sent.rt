//! Which entries of a journal send an event.

ghost use Rattle.std.specs.Prelude.{◌≡◌, ◌<◌, ◌==◌, IfSome, Some, length, map, slice_get};
ghost use Rattle.std.specs.List.{list_any, position};
ghost use Rattle.kob_delivery_check.specs.Logs.{number_of};
ghost use Rattle.kob_delivery_check.specs.PrintedOrder.{place_of};
ghost use Rattle.std.specs.Option.{option_copied};
ghost use Rattle.kob_delivery_check.specs.Sent.{has_event, is_event_of, is_number, put_at, put_on};
ghost use Rattle.kob_delivery_check.specs.Sent.{puts, sends, sent_at};

use crate::partition_log::{event_number, is_on};
use crate::reach::Stored;
use kob_names::Record;
use kob_outbox::OutboxEvent;
use kob_rights::{Body, Reply, Request};
use kob_router::Place;
use kob_shared::Journal;

/// The place of the first entry that sends an event: a PRODUCE that was done, of a batch with a
/// record of the event.
pub(crate) fn sent_at(journal: &Journal, event: u128) -> Option<usize>
    ensures at { result ≡ sent_at event journal.now }
    ensures within { IfSome result (λ at. at < length journal.now) }
{
    journal
        .iter()
        .position(|entry| sends(event, &entry.event.request, &entry.reply))
}

fn sends(event: u128, request: &Request, reply: &Reply) -> bool
    ensures { result ≡ sends event request.now reply.now }
{
    match (request, reply) {
        (Request::Produce(asked), Reply::Done(Body::Offset(_))) => {
            has_event(event, asked.batch.records.as_slice())
        }
        _ => false,
    }
}

fn has_event(event: u128, records: &[Record]) -> bool
    ensures { result ≡ list_any (has_event event) records.now }
{
    records
        .iter()
        .any(|message| is_number(event, event_number(message)))
}

/// Whether a record's event id is this number.
pub(crate) fn is_number(event: u128, number: Option<u128>) -> bool
    ensures { result ≡ is_number event number }
{
    match number {
        Some(number) => number == event,
        None => false,
    }
}

/// Where an event is in a partition, by the events of its records.
pub(crate) fn offset_of(event: u128, events: &[Option<u128>]) -> Option<usize>
    ensures { result ≡ position (is_number event) events.now }
{
    events.iter().position(|number| is_number(event, *number))
}

/// The place of the first entry that put a record of a partition of the assignment where it is.
pub(crate) fn put_at(assignment: &[Place], stored: Stored, journal: &Journal) -> Option<usize>
    ensures { result ≡ put_at assignment.now stored journal.now }
{
    let place = assignment.get(stored.assigned)?;
    put_on(place, stored, journal)
}

fn put_on(place: &Place, stored: Stored, journal: &Journal) -> Option<usize>
    ensures { result ≡ put_on stored journal.now (Some place.now) }
{
    journal.iter().position(|entry| puts(place, stored, &entry.event.request, &entry.reply))
}

fn puts(place: &Place, stored: Stored, request: &Request, reply: &Reply) -> bool
    ensures { result ≡ puts place.now stored request.now reply.now }
{
    match (request, reply) {
        (Request::Produce(asked), Reply::Done(Body::Offset(first))) => {
            is_on(place, &asked.topic, asked.partition)
                && *first <= stored.offset
                && is_event_of(
                    stored.event,
                    asked
                        .batch
                        .records
                        .as_slice()
                        .get((stored.offset - *first) as usize),
                )
        }
        _ => false,
    }
}

fn is_event_of(event: u128, message: Option<&Record>) -> bool
    ensures { result ≡ is_event_of event (option_copied message.entry) }
{
    match message {
        Some(message) => is_number(event, event_number(message)),
        None => false,
    }
}

/// The place of the event with this id among the events that a service recorded.
pub fn place_of(id: u128, events: &[&OutboxEvent]) -> Option<usize>
    ensures { result ≡ place_of id (map (λ event. event.now) events.now) }
{
    place_in(id, events)
}

fn place_in(id: u128, events: &[&OutboxEvent]) -> Option<usize>
    ensures { result ≡ position (λ event. number_of event.now.id == id) events.now }
{
    events.iter().position(|event| event.id.as_u128() == id)
}
