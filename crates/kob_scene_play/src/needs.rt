//! What a request lacked that was denied, or that named no topic or no partition that is there.

ghost use Rattle.std.specs.Prelude.{◌≡◌, ◌<◌, ◌++◌, [], IfOk, OnOk, length};
ghost use Rattle.std.specs.Prelude.{option_copied, option_map, slice_index_or};
ghost use Rattle.kob_rights.specs.Requests.{partition_named};
ghost use Rattle.kob_rights.specs.Table.{check_view, clause_view, rights};
ghost use Rattle.kob_scene_play.specs.Forms.{entry_note, last_entry, last_needs};
ghost use Rattle.kob_scene_play.specs.Needs.{absent_text, behind, check_text, has_code, lacked};
ghost use Rattle.kob_scene_play.specs.Needs.{named, needs_of, needs_text, noted};

use crate::output::push_counted;
use kob_rights::{Check, Clause, Code, Reason, Reply, Request, Rights};
use kob_shared::{Entry, Journal};
use kob_words::{operation_name, push_bytes, resource_name};
use std::alloc::{AllocError, Global};

/// The last entry of a journal, if it had fewer entries before.
fn last_entry(before: usize, journal: &Journal) -> Option<&Entry>
    ensures { option_copied result ≡ last_entry before journal.now }
{
    if journal.len() == before {
        return None;
    }
    journal.get(journal.len().saturating_sub(1))
}

/// Appends the line of the trace about the last request, if a principal made it.
pub(crate) fn push_last_note(
    alloc: Global,
    out: &mut Vec<u8>,
    before: usize,
    journal: &Journal,
) -> Result<(), AllocError>
    ensures { OnOk result (out.new.items
        ≡ out.old.items ++ entry_note (last_entry before journal.now)) }
{
    match last_entry(before, journal) {
        Some(entry) if entry.worker == 0 => {
            push_note(alloc, out, &entry.event.request, &entry.reply)
        }
        Some(_) => Ok(()),
        None => Ok(()),
    }
}

#[tactic(auto, using(kob_words::proofs::Appending::appending))]
fn push_note(
    alloc: Global,
    out: &mut Vec<u8>,
    request: &Request,
    reply: &Reply,
) -> Result<(), AllocError>
    ensures { OnOk result (out.new.items
        ≡ out.old.items ++ noted (needs_of request.now reply.now)) }
{
    let mut needs = Vec::new(alloc);
    push_needs(&mut needs, request, reply)?;
    if needs.is_empty() {
        return Ok(());
    }
    out.extend_from_slice(b"> # ")?;
    out.extend_from_slice(&needs)?;
    out.extend_from_slice(b"\n")
}

/// What the last request of a step lacked, behind a space; nothing if it is done. Before the step
/// the journal had so many entries.
#[tactic(auto, using(kob_words::proofs::Appending::appending))]
pub(crate) fn last_needs(
    alloc: Global,
    before: usize,
    journal: &Journal,
) -> Result<Vec<u8>, AllocError>
    ensures { IfOk result (λ text. text.items ≡ behind (last_needs before journal.now)) }
{
    let mut needs = Vec::new(alloc);
    let Some(entry) = last_entry(before, journal) else {
        return Ok(needs);
    };
    push_needs(&mut needs, &entry.event.request, &entry.reply)?;
    if needs.is_empty() {
        return Ok(needs);
    }
    let mut text = Vec::new(alloc);
    text.extend_from_slice(b" ")?;
    text.extend_from_slice(&needs)?;
    Ok(text)
}

/// Appends the right that the request lacked, if it was denied, or the topic or the partition that
/// it needs and that is not there.
fn push_needs(out: &mut Vec<u8>, request: &Request, reply: &Reply) -> Result<(), AllocError>
    ensures { OnOk result (out.new.items ≡ out.old.items ++ needs_of request.now reply.now) }
{
    match reply {
        Reply::Denied { code, .. } => push_lacked(out, request, *code),
        Reply::Refused { reason, .. } => push_absent(out, request, *reason),
        Reply::Done(_) => Ok(()),
    }
}

#[tactic(auto, using(kob_words::proofs::Appending::appending))]
fn push_absent(out: &mut Vec<u8>, request: &Request, reason: Reason) -> Result<(), AllocError>
    ensures { OnOk result (out.new.items
        ≡ out.old.items ++ absent_text reason (partition_named request.now)) }
{
    let Some((topic, partition)) = partition_named(request) else {
        return Ok(());
    };
    match reason {
        Reason::UnknownTopic => push_named(out, b"no topic ", topic),
        Reason::UnknownPartition => {
            push_counted(out, b"no partition ", partition, b"")?;
            push_named(out, b" of topic ", topic)
        }
        _ => Ok(()),
    }
}

/// The topic and the partition that a request needs to be there, if it needs one.
fn partition_named(request: &Request) -> Option<(&str, u64)>
    ensures { option_map (λ named. (named.0.now, named.1)) result ≡ partition_named request.now }
{
    match request {
        Request::Produce(asked) => Some((asked.topic.as_str(), asked.partition)),
        Request::Fetch(asked) => Some((asked.topic.as_str(), asked.partition)),
        Request::ListOffsets(asked) => Some((asked.topic.as_str(), asked.partition)),
        Request::OffsetCommit(asked) => Some((asked.topic.as_str(), asked.partition)),
        Request::DeleteRecords(asked) => Some((asked.topic.as_str(), asked.partition)),
        _ => None,
    }
}

/// A name behind a text.
#[tactic(auto, using(kob_words::proofs::Appending::appending))]
fn push_named(out: &mut Vec<u8>, before: &[u8], name: &str) -> Result<(), AllocError>
    ensures { OnOk result (out.new.items ≡ out.old.items ++ named before.now name.now) }
{
    out.extend_from_slice(before)?;
    push_bytes(out, name.as_bytes())
}

fn push_lacked(out: &mut Vec<u8>, request: &Request, code: Code) -> Result<(), AllocError>
    ensures { OnOk result (out.new.items
        ≡ out.old.items ++ needs_text (lacked code (rights request.now))) }
{
    match request.rights() {
        Rights::Free => Ok(()),
        Rights::One(only) if has_code(request, 0, code) => push_clause(out, &only),
        Rights::One(_) => Ok(()),
        Rights::Both(first, _) if has_code(request, 0, code) => push_clause(out, &first),
        Rights::Both(_, second) if has_code(request, 1, code) => push_clause(out, &second),
        Rights::Both(_, _) => Ok(()),
    }
}

/// Whether a denial by the clause at a place has this code.
fn has_code(request: &Request, place: usize, code: Code) -> bool
    requires { place < length (rights request.now) }
    ensures { result ≡ has_code code (slice_index_or (rights request.now) place []) }
{
    request.denial_code(place).number() == code.number()
}

#[tactic(auto, using(kob_words::proofs::Appending::appending))]
fn push_clause(out: &mut Vec<u8>, clause: &Clause<'_>) -> Result<(), AllocError>
    ensures { OnOk result (out.new.items ≡ out.old.items ++ needs_text (clause_view clause.now)) }
{
    out.extend_from_slice(b"needs ")?;
    match clause {
        Clause::Only(check) => push_check(out, check),
        Clause::Either(first, second) => {
            push_check(out, first)?;
            out.extend_from_slice(b" or ")?;
            push_check(out, second)
        }
    }
}

#[tactic(auto, using(kob_words::proofs::Appending::appending))]
fn push_check(out: &mut Vec<u8>, check: &Check<'_>) -> Result<(), AllocError>
    ensures { OnOk result (out.new.items ≡ out.old.items ++ check_text (check_view check.now)) }
{
    out.extend_from_slice(operation_name(check.operation).as_bytes())?;
    out.extend_from_slice(b" ")?;
    out.extend_from_slice(resource_name(check.resource).as_bytes())?;
    out.extend_from_slice(b" ")?;
    push_bytes(out, check.name.as_bytes())
}
