//! How lost events and doubled records are printed, with the entries of the journal to blame.

ghost use Rattle.std.specs.Prelude.{◌≡◌, ◌++◌, OnOk, Some, map};
ghost use Rattle.std.specs.Option.{option_copied};
ghost use Rattle.kob_words.specs.Words.{counted};
ghost use Rattle.kob_delivery_check.specs.PrintedRecords.{cause_text, deed_text};
ghost use Rattle.kob_delivery_check.specs.PrintedRecords.{doubled_by, doubled_item, doubled_lines};
ghost use Rattle.kob_delivery_check.specs.PrintedRecords.{lost_item, lost_line, lost_lines};
ghost use Rattle.kob_delivery_check.specs.PrintedRecords.{producer_of, sender_at, senders_text};
ghost use Rattle.kob_delivery_check.specs.PrintedRecords.{unread_at};

use crate::cause::{Cause, LostEvent, event_at};
use crate::printed_pieces::{push_assigned, push_event};
use crate::reach::{Stored, record_at};
use crate::sent::{put_at, sent_at};
use kob_outbox::OutboxEvent;
use kob_rights::{Body, Reply, Request};
use kob_router::Place;
use kob_shared::{Entry, Journal};
use kob_words::{push_counted, push_spaced};
use std::alloc::AllocError;

/// A number after a text.
#[tactic(auto, using(kob_words::proofs::Appending::appending))]
pub(crate) fn push_labelled(out: &mut Vec<u8>, label: &[u8], number: u64) -> Result<(), AllocError>
    ensures { OnOk result (out.new.items ≡ out.old.items ++ (label.now ++ counted number)) }
{
    out.extend_from_slice(label)?;
    push_counted(out, number)
}

/// What a request did that put a record out of reach.
#[tactic(auto, using(kob_words::proofs::Appending::appending))]
fn push_deed(out: &mut Vec<u8>, request: &Request, reply: &Reply) -> Result<(), AllocError>
    ensures { OnOk result (out.new.items ≡ out.old.items ++ deed_text request.now reply.now) }
{
    match request {
        Request::OffsetCommit(asked) => {
            out.extend_from_slice(b" committed")?;
            push_counted(out, asked.offset)?;
            out.extend_from_slice(b" for group")?;
            push_spaced(out, asked.group.as_str().as_bytes())
        }
        Request::DeleteRecords(_) => match reply {
            Reply::Done(Body::Start(start)) => {
                push_labelled(out, b" deleted the records before", *start)
            }
            _ => Ok(()),
        },
        Request::DeleteTopics(_) => out.extend_from_slice(b" deleted the topic"),
        _ => Ok(()),
    }
}

/// The partition that the PRODUCE of an entry names.
#[tactic(auto, using(kob_words::proofs::Appending::appending))]
fn push_unread(out: &mut Vec<u8>, entry: Option<&Entry>) -> Result<(), AllocError>
    ensures { OnOk result (out.new.items
        ≡ out.old.items ++ unread_at (option_copied entry.entry)) }
{
    let Some(entry) = entry else {
        return Ok(());
    };
    match &entry.event.request {
        Request::Produce(asked) => {
            out.extend_from_slice(b" in")?;
            push_spaced(out, asked.topic.as_str().as_bytes())?;
            push_counted(out, asked.partition)?;
            out.extend_from_slice(b", not read")
        }
        _ => Ok(()),
    }
}

#[tactic(auto, using(kob_words::proofs::Appending::appending))]
fn push_cause(
    out: &mut Vec<u8>,
    journal: &Journal,
    assignment: &[Place],
    cause: Cause,
) -> Result<(), AllocError>
    ensures { OnOk result (out.new.items
        ≡ out.old.items ++ cause_text journal.now assignment.now cause) }
{
    match cause {
        Cause::Unknown => Ok(()),
        Cause::Unsent => out.extend_from_slice(b", no entry sent it"),
        Cause::Unread { sent } => push_unread(out, journal.get(sent)),
        Cause::OutOfReach {
            assigned,
            offset,
            by,
        } => {
            push_assigned(out, assignment, assigned, offset)?;
            // (the entry that put the record out of reach)
            let Some(at) = by else {
                return Ok(());
            };
            let Some(entry) = journal.get(at) else {
                return Ok(());
            };
            out.extend_from_slice(b", entry")?;
            push_counted(out, at as u64)?;
            out.extend_from_slice(b":")?;
            push_spaced(out, entry.event.principal.as_str().as_bytes())?;
            push_deed(out, &entry.event.request, &entry.reply)
        }
        Cause::KeptOut { row } => push_labelled(out, b", the inbox has its id at", row),
    }
}

/// A line for each event that is lost.
#[tactic(auto, using(kob_words::proofs::Appending::appending))]
pub(crate) fn push_losses(
    out: &mut Vec<u8>,
    journal: &Journal,
    assignment: &[Place],
    events: &[&OutboxEvent],
    losses: &[LostEvent],
) -> Result<(), AllocError>
    ensures { OnOk result (out.new.items ≡ out.old.items ++ lost_lines journal.now
        assignment.now (map (λ event. event.now) events.now) losses.now) }
{
    for loss in losses {
        let Some(event) = event_at(events, loss.event) else {
            continue;
        };
        out.extend_from_slice(b"lost")?;
        push_event(out, (loss.event as u64).saturating_add(1), event)?;
        push_cause(out, journal, assignment, loss.cause)?;
        out.extend_from_slice(b"\n")?;
    }
    Ok(())
}

/// The producer id of a PRODUCE.
fn push_producer(out: &mut Vec<u8>, request: &Request) -> Result<(), AllocError>
    ensures { OnOk result (out.new.items ≡ out.old.items ++ producer_of request.now) }
{
    let Request::Produce(asked) = request else {
        return Ok(());
    };
    match asked.batch.idem {
        None => out.extend_from_slice(b" without a producer id"),
        Some(idem) => push_labelled(out, b" by producer", idem.id),
    }
}

/// An entry that sent an event, after a text, and its producer id.
#[tactic(auto, using(kob_words::proofs::Appending::appending))]
fn push_sender(
    out: &mut Vec<u8>,
    label: &[u8],
    journal: &Journal,
    at: Option<usize>,
) -> Result<(), AllocError>
    ensures { OnOk result (out.new.items ≡ out.old.items ++ sender_at label.now journal.now at) }
{
    let Some(at) = at else {
        return Ok(());
    };
    let Some(entry) = journal.get(at) else {
        return Ok(());
    };
    out.extend_from_slice(label)?;
    push_counted(out, at as u64)?;
    push_producer(out, &entry.event.request)
}

/// The entry that put a record where it is, and the first that sent its event.
#[tactic(auto, using(kob_words::proofs::Appending::appending))]
fn push_senders(
    out: &mut Vec<u8>,
    journal: &Journal,
    assignment: &[Place],
    stored: Stored,
) -> Result<(), AllocError>
    ensures { OnOk result (out.new.items
        ≡ out.old.items ++ senders_text journal.now assignment.now stored) }
{
    let put = put_at(assignment, stored, journal);
    push_sender(out, b", entry", journal, put)?;
    let sent = sent_at(journal, stored.event);
    push_sender(out, b", first entry", journal, sent)
}

/// The line of an event's record that has an earlier one; nothing for a record of another event.
#[tactic(auto, using(kob_words::proofs::Appending::appending))]
fn push_doubled(
    out: &mut Vec<u8>,
    journal: &Journal,
    assignment: &[Place],
    place: usize,
    event: &OutboxEvent,
    stored: Stored,
) -> Result<(), AllocError>
    ensures { OnOk result (out.new.items ≡ out.old.items
        ++ doubled_by journal.now assignment.now place event.now stored) }
{
    if stored.event != event.id.as_u128() {
        return Ok(());
    }
    out.extend_from_slice(b"doubled")?;
    push_event(out, (place as u64).saturating_add(1), event)?;
    push_assigned(out, assignment, stored.assigned, stored.offset)?;
    push_senders(out, journal, assignment, stored)?;
    out.extend_from_slice(b"\n")
}

/// The lines of an event's records that have an earlier one.
#[tactic(auto, using(kob_words::proofs::Appending::appending))]
fn push_doubles_of(
    out: &mut Vec<u8>,
    journal: &Journal,
    assignment: &[Place],
    repeats: &[Stored],
    place: usize,
    event: &OutboxEvent,
) -> Result<(), AllocError>
    ensures { OnOk result (out.new.items ≡ out.old.items
        ++ doubled_item journal.now assignment.now repeats.now (place, event.now)) }
{
    for at in 0..repeats.len() {
        let stored = record_at(repeats, at);
        push_doubled(out, journal, assignment, place, event, stored)?;
    }
    Ok(())
}

/// A line for each record of an event that has an earlier one.
pub(crate) fn push_doubles(
    out: &mut Vec<u8>,
    journal: &Journal,
    assignment: &[Place],
    events: &[&OutboxEvent],
    repeats: &[Stored],
) -> Result<(), AllocError>
    ensures { OnOk result (out.new.items ≡ out.old.items ++ doubled_lines journal.now
        assignment.now (map (λ event. event.now) events.now) repeats.now) }
{
    for place in 0..events.len() {
        push_doubles_of(out, journal, assignment, repeats, place, events[place])?;
    }
    Ok(())
}
