//! Whether the topics of an assignment are shared as the law for several services asks.

ghost use Rattle.std.specs.List.{list_any};
ghost use Rattle.std.specs.Prelude.{◌≡◌, ◌↔◌, IfOk, IsTrue, MatchOption, bytes_eq, map};
ghost use Rattle.kob_delivery.specs.Delivered.{ids_of, carried_id};
ghost use Rattle.kob_delivery.specs.Several.{AreRoutedTo, AreSharedTopics, IsFirstUnshared};
ghost use Rattle.kob_delivery.specs.Several.{IsSharedTopic, goes_to_topic, is_one_of};
ghost use Rattle.kob_outbox.specs.Contents.{id_text, stored_row};
ghost use Rattle.kob_router.specs.Run.{dispatch_of};

use crate::asked::{Asked, first_in};
use crate::premises::{deletion, other_committer, other_producer, produces};
use kob_names::{Record, Text};
use kob_outbox::Row;
use kob_rights::Request;
use kob_router::{Place, RecordFault, Target, event_id, record_of};
use kob_shared::{Entry, Journal};
use std::alloc::{AllocError, Global};
use uuid::Uuid;

/// A PRODUCE to the topic that was done is the worker's, or sends no event id of the rows.
#[derive(Drop)]
struct OwnOrApart<'a> {
    worker: usize,
    topic: &'a Text,
    rows: &'a [Row],
}

impl<'a> Asked for OwnOrApart<'a> {
    ghost use Rattle.std.specs.Prelude.{map};
    ghost use Rattle.kob_delivery.specs.Delivered.{ids_of};
    ghost use Rattle.kob_delivery.specs.Several.{IsOwnOrApart};
    ghost use Rattle.kob_outbox.specs.Contents.{stored_row};

    ghost holds = { λ asked. IsOwnOrApart asked.worker asked.topic.now
        (ids_of (map stored_row asked.rows.now)) };

    fn holds(&self, entry: &Entry) -> bool {
        if !produces(entry, self.topic) || entry.worker == self.worker {
            return true;
        }
        match &entry.event.request {
            Request::Produce(asked) => !carry_one(asked.batch.records.as_slice(), self.rows),
            _ => true,
        }
    }
}

/// The number of the first partition of an assignment whose topic is not shared as
/// `an_inbox_among_services_holds_a_prefix` asks for these rows: those of one aggregate that the
/// service has recorded. None means that it applies to them.
///
/// One pass over the journal for each of four conditions on each topic; each row is routed for each
/// topic to which others send. The error is out of memory.
pub fn first_unshared(
    alloc: Global,
    journal: &Journal,
    target: &Target,
    rows: &[Row],
    sender: usize,
    taker: usize,
    group: &Text,
    assignment: &[Place],
) -> Result<Option<usize>, AllocError>
    ensures { IfOk result (λ found. MatchOption found
        (AreSharedTopics (dispatch_of target.now) (map stored_row rows.now) sender taker
        group.now assignment.now journal.now)
        (IsFirstUnshared (dispatch_of target.now) (map stored_row rows.now) sender taker
        group.now assignment.now journal.now)) }
{
    for (assigned, place) in assignment.iter().enumerate() {
        let topic = &place.topic;
        if !is_shared(alloc, journal, target, rows, sender, taker, group, topic)? {
            return Ok(Some(assigned));
        }
    }
    Ok(None)
}

/// Whether a topic is so.
fn is_shared(
    alloc: Global,
    journal: &Journal,
    target: &Target,
    rows: &[Row],
    sender: usize,
    taker: usize,
    group: &Text,
    topic: &Text,
) -> Result<bool, AllocError>
    ensures { IfOk result (λ is. IsTrue is ↔ IsSharedTopic (dispatch_of target.now)
        (map stored_row rows.now) sender taker group.now topic.now journal.now) }
{
    let stranger = other_producer(journal, sender, topic);
    if stranger.is_some() && are_routed_to(alloc, target, rows, topic)? {
        return Ok(false);
    }
    let asked = OwnOrApart {
        worker: sender,
        topic,
        rows,
    };
    let carrier = first_in(journal, &asked);
    let committer = other_committer(journal, taker, group, topic);
    let deleted = deletion(journal, topic);
    Ok(carrier.is_none() && committer.is_none() && deleted.is_none())
}

/// Whether one of the rows is routed to the topic.
fn are_routed_to(
    alloc: Global,
    target: &Target,
    rows: &[Row],
    topic: &Text,
) -> Result<bool, AllocError>
    ensures { IfOk result (λ are. IsTrue are
        ↔ AreRoutedTo (dispatch_of target.now) (map stored_row rows.now) topic.now) }
{
    for row in rows {
        if goes_to_topic(alloc, target, row, topic)? {
            return Ok(true);
        }
    }
    Ok(false)
}

/// Whether a row is routed to the topic.
fn goes_to_topic(
    alloc: Global,
    target: &Target,
    row: &Row,
    topic: &Text,
) -> Result<bool, AllocError>
    ensures { IfOk result (λ goes. goes
        ≡ goes_to_topic (dispatch_of target.now) topic.now (stored_row row.now)) }
{
    match record_of(alloc, &target.route, row) {
        Ok(routed) => Ok(routed.topic.as_str() == topic.as_str()),
        Err(RecordFault::BadTopic) => Ok(false),
        Err(RecordFault::Memory(refused)) => Err(refused),
    }
}

/// Whether one of the records carries an event id of the rows.
fn carry_one(records: &[Record], rows: &[Row]) -> bool
    ensures { result ≡ list_any (λ message. is_one_of (ids_of (map stored_row rows.now))
        (carried_id message)) records.now }
{
    records.iter().any(|message| carries_one(message, rows))
}

fn carries_one(message: &Record, rows: &[Row]) -> bool
    ensures { result ≡ is_one_of (ids_of (map stored_row rows.now)) (carried_id message.now) }
{
    match event_id(message) {
        Some(id) => is_one_of(id, rows),
        None => false,
    }
}

/// Whether the event id is that of one of the rows.
fn is_one_of(id: Uuid, rows: &[Row]) -> bool
    ensures { result ≡ list_any (λ row. bytes_eq (id_text id) (id_text row.event.id)) rows.now }
{
    rows.iter().any(|row| has_id(row, id))
}

fn has_id(row: &Row, id: Uuid) -> bool
    ensures { result ≡ bytes_eq (id_text id) (id_text row.now.event.id) }
{
    let mut buffer = Uuid::encode_buffer();
    let mut other = Uuid::encode_buffer();
    let text = id.hyphenated().encode_lower(&mut buffer);
    let its_text = row.event.id.hyphenated().encode_lower(&mut other);
    *text == *its_text
}
