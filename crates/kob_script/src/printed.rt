//! How replies and faults are printed.
#![tactic(auto, using(kob_words::proofs::Appending::kept))]

ghost use Rattle.std.specs.Prelude.{◌≡◌, ◌++◌, ℕ, List, OnErr, OnOk, decimal, flat_map};
ghost use Rattle.kob_words.specs.Words.{IsKept, counted, spaced};
ghost use Rattle.kob_script.specs.Printed.{binding_item, body_text, code_text, fault_text};
ghost use Rattle.kob_script.specs.Printed.{kind_text, outcome_text, record_item};
ghost use Rattle.kob_script.specs.Printed.{reply_text, topic_item, verdict_item};
ghost use Rattle.kob_script.specs.Printed.{verdict_text, verdicts_text};

use crate::fault::{Fault, FaultKind};
use kob_names::{Binding, Record, Text, Verdict};
use kob_rights::{Body, Code, Reply};
use kob_words::{
    print_binding, push_bytes, push_counted, push_number, push_spaced, whole_or_nothing,
};
use std::alloc::AllocError;

/// Prints the number of a reply, the reply and a line feed. On an error `out` is as it was.
pub fn print_reply(out: &mut Vec<u8>, number: u64, reply: &Reply) -> Result<(), AllocError>
    ensures text { OnOk result (out.new.items ≡ out.old.items ++ reply_text number reply.now) }
    ensures same { OnErr result (out.new.items ≡ out.old.items) }
{
    let start = out.len();
    let printed = push_reply(out, number, reply);
    whole_or_nothing(out, start, printed)
}

fn push_reply(out: &mut Vec<u8>, number: u64, reply: &Reply) -> Result<(), AllocError>
    ensures text { OnOk result (out.new.items ≡ out.old.items ++ reply_text number reply.now) }
    ensures kept { OnErr result (IsKept out.old.items out.new.items) }
{
    push_number(out, number)?;
    push_parts(out, reply)?;
    out.push(b'\n')?;
    Ok(())
}

/// Prints a reply without a number or a line feed: `ok ..`, `denied ..` or `refused ..`. On an error
/// `out` is as it was.
pub fn push_outcome(out: &mut Vec<u8>, reply: &Reply) -> Result<(), AllocError>
    ensures text { OnOk result (out.new.items ≡ out.old.items ++ outcome_text reply.now) }
    ensures same { OnErr result (out.new.items ≡ out.old.items) }
{
    let start = out.len();
    let printed = push_parts(out, reply);
    whole_or_nothing(out, start, printed)
}

fn push_parts(out: &mut Vec<u8>, reply: &Reply) -> Result<(), AllocError>
    ensures text { OnOk result (out.new.items ≡ out.old.items ++ outcome_text reply.now) }
    ensures kept { OnErr result (IsKept out.old.items out.new.items) }
{
    match reply {
        Reply::Done(body) => {
            out.extend_from_slice(b" ok ")?;
            push_body(out, body)
        }
        Reply::Denied { code, verdicts } => {
            out.extend_from_slice(b" denied ")?;
            push_code(out, *code)?;
            out.push(b' ')?;
            push_verdicts(out, verdicts.as_slice())
        }
        Reply::Refused { code, reason } => {
            out.extend_from_slice(b" refused ")?;
            push_code(out, *code)?;
            out.push(b' ')?;
            out.extend_from_slice(reason.name().as_bytes())
        }
    }
}

fn push_code(out: &mut Vec<u8>, code: Code) -> Result<(), AllocError>
    ensures text { OnOk result (out.new.items ≡ out.old.items ++ code_text code) }
    ensures kept { OnErr result (IsKept out.old.items out.new.items) }
{
    push_number(out, code.number())?;
    out.push(b' ')?;
    out.extend_from_slice(code.name().as_bytes())
}

#[tactic(auto, using(kob_words::proofs::Appending::kept), unfolding(crate::specs::Printed::verdicts_text))]
fn push_verdicts(out: &mut Vec<u8>, verdicts: &[Verdict]) -> Result<(), AllocError>
    ensures text { OnOk result (out.new.items ≡ out.old.items ++ verdicts_text verdicts.now) }
    ensures kept { OnErr result (IsKept out.old.items out.new.items) }
{
    let Some((first, others)) = verdicts.split_first() else {
        return Ok(());
    };
    push_verdict(out, *first)?;
    push_list(out, b"", others)
}

fn push_verdict(out: &mut Vec<u8>, verdict: Verdict) -> Result<(), AllocError>
    ensures text { OnOk result (out.new.items ≡ out.old.items ++ verdict_text verdict) }
    ensures kept { OnErr result (IsKept out.old.items out.new.items) }
{
    match verdict {
        Verdict::DeniedBy(serial) => push_labelled(out, b"deny:", serial),
        Verdict::NoAllow => out.extend_from_slice(b"no-allow"),
        Verdict::AllowedBy(serial) => push_labelled(out, b"allow:", serial),
        Verdict::Super => out.extend_from_slice(b"super"),
        Verdict::NoAclFound => out.extend_from_slice(b"no-acl-found"),
    }
}

fn push_body(out: &mut Vec<u8>, body: &Body) -> Result<(), AllocError>
    ensures text { OnOk result (out.new.items ≡ out.old.items ++ body_text body.now) }
    ensures kept { OnErr result (IsKept out.old.items out.new.items) }
{
    match body {
        Body::Created => out.extend_from_slice(b"created"),
        Body::Deleted => out.extend_from_slice(b"deleted"),
        Body::Committed => out.extend_from_slice(b"committed"),
        Body::Serials(serials) => push_list(out, b"serials", serials.as_slice()),
        Body::Bindings(bindings) => {
            push_labelled(out, b"bindings ", bindings.len() as u64)?;
            push_list(out, b"", bindings.as_slice())
        }
        Body::Offset(offset) => push_labelled(out, b"offset ", *offset),
        Body::Start(start) => push_labelled(out, b"start ", *start),
        Body::Commit(Some(offset)) => push_labelled(out, b"commit ", *offset),
        Body::Commit(None) => out.extend_from_slice(b"commit -1"),
        Body::Records(records) => push_list(out, b"records", records.as_slice()),
        Body::Topics(topics) => push_list(out, b"topics", topics.as_slice()),
        Body::Groups(groups) => push_list(out, b"groups", groups.as_slice()),
        Body::Producer { id, epoch } => {
            push_labelled(out, b"producer ", *id)?;
            push_labelled(out, b" ", *epoch)
        }
    }
}

fn push_labelled(out: &mut Vec<u8>, label: &[u8], number: u64) -> Result<(), AllocError>
    ensures text { OnOk result (out.new.items ≡ out.old.items ++ label.now ++ decimal number) }
    ensures kept { OnErr result (IsKept out.old.items out.new.items) }
{
    out.extend_from_slice(label)?;
    push_number(out, number)
}

fn push_list<T: Item>(out: &mut Vec<u8>, word: &[u8], items: &[T]) -> Result<(), AllocError>
    ensures text { OnOk result
        (out.new.items ≡ out.old.items ++ word.now ++ flat_map T.text items.now) }
    ensures kept { OnErr result (IsKept out.old.items out.new.items) }
{
    out.extend_from_slice(word)?;
    for item in items {
        item.push(out)?;
    }
    Ok(())
}

/// What is in a list, behind a space, a comma or a line feed.
trait Item {
    ghost text: { Self → List ℕ };

    fn push(&self, out: &mut Vec<u8>) -> Result<(), AllocError>
        ensures text { OnOk result (out.new.items ≡ out.old.items ++ text self.now) }
        ensures kept { OnErr result (IsKept out.old.items out.new.items) };
}

impl Item for Verdict {
    ghost text = { verdict_item };

    fn push(&self, out: &mut Vec<u8>) -> Result<(), AllocError> {
        out.push(b',')?;
        push_verdict(out, *self)
    }
}

impl Item for u64 {
    ghost text = { counted };

    fn push(&self, out: &mut Vec<u8>) -> Result<(), AllocError> {
        push_counted(out, *self)
    }
}

impl Item for (u64, Binding) {
    ghost text = { binding_item };

    fn push(&self, out: &mut Vec<u8>) -> Result<(), AllocError> {
        out.push(b'\n')?;
        print_binding(out, self.0, &self.1)
    }
}

impl Item for (u64, Record) {
    ghost text = { record_item };

    fn push(&self, out: &mut Vec<u8>) -> Result<(), AllocError> {
        push_record(out, self.0, &self.1)
    }
}

impl Item for (Text, u64) {
    ghost text = { topic_item };

    fn push(&self, out: &mut Vec<u8>) -> Result<(), AllocError> {
        push_topic(out, &self.0, self.1)
    }
}

impl Item for Text {
    ghost text = { spaced };

    fn push(&self, out: &mut Vec<u8>) -> Result<(), AllocError> {
        push_spaced(out, self.as_str().as_bytes())
    }
}

/// Prints a space, the name of a topic, a colon and its number of partitions.
pub fn push_topic(out: &mut Vec<u8>, name: &Text, partitions: u64) -> Result<(), AllocError>
    ensures text { OnOk result (out.new.items ≡ out.old.items ++ topic_item (name.now, partitions)) }
    ensures kept { OnErr result (IsKept out.old.items out.new.items) }
{
    push_spaced(out, name.as_str().as_bytes())?;
    out.push(b':')?;
    push_number(out, partitions)
}

/// Prints a space, the offset of a record, its key if it has one, and its value:
/// ` OFFSET:KEY=VALUE` or ` OFFSET:VALUE`. Headers are not printed.
pub fn push_record(out: &mut Vec<u8>, offset: u64, message: &Record) -> Result<(), AllocError>
    ensures text { OnOk result (out.new.items ≡ out.old.items ++ record_item (offset, message.now)) }
    ensures kept { OnErr result (IsKept out.old.items out.new.items) }
{
    push_counted(out, offset)?;
    out.push(b':')?;
    if let Some(key) = &message.key {
        push_bytes(out, key.as_slice())?;
        out.push(b'=')?;
    }
    push_bytes(out, message.value.as_slice())
}

/// Prints the line `fault line LINE KIND` with its line feed. On an error `out` is as it was.
pub fn print_fault(out: &mut Vec<u8>, fault: Fault) -> Result<(), AllocError>
    ensures text { OnOk result (out.new.items ≡ out.old.items ++ fault_text fault) }
    ensures same { OnErr result (out.new.items ≡ out.old.items) }
{
    let start = out.len();
    let printed = push_fault(out, fault);
    whole_or_nothing(out, start, printed)
}

fn push_fault(out: &mut Vec<u8>, fault: Fault) -> Result<(), AllocError>
    ensures text { OnOk result (out.new.items ≡ out.old.items ++ fault_text fault) }
    ensures kept { OnErr result (IsKept out.old.items out.new.items) }
{
    push_labelled(out, b"fault line ", fault.line)?;
    out.push(b' ')?;
    out.extend_from_slice(kind_text(fault.kind).as_bytes())?;
    out.push(b'\n')?;
    Ok(())
}

/// The name of a kind of fault, as it is printed.
pub fn kind_text(kind: FaultKind) -> &'static str
    ensures { result.now ≡ kind_text kind }
{
    match kind {
        FaultKind::BadEscape => "BadEscape",
        FaultKind::LateSetting => "LateSetting",
        FaultKind::BadLine => "BadLine",
        FaultKind::BadText => "BadText",
        FaultKind::BadPrincipal => "BadPrincipal",
        FaultKind::BadHost => "BadHost",
        FaultKind::BadNumber => "BadNumber",
        FaultKind::BadWord => "BadWord",
        FaultKind::Usage => "Usage",
        FaultKind::NoAction => "NoAction",
        FaultKind::BadName => "BadName",
        FaultKind::BadMix => "BadMix",
        FaultKind::NoResource => "NoResource",
        FaultKind::NoPrincipal => "NoPrincipal",
    }
}
