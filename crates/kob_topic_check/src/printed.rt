//! How a row and a record are printed.

ghost use Rattle.std.specs.Prelude.{◌≡◌, ◌++◌, OnOk};
ghost use Rattle.kob_topic_check.specs.Findings.{event_text, id_text, missing_text, order_text};
ghost use Rattle.kob_topic_check.specs.Findings.{pair_text, record_text, row_text};

use crate::record::Record;
use crate::row::Row;
use kob_words::{push_bytes, push_number};
use std::alloc::AllocError;
use uuid::Uuid;

#[tactic(auto, using(kob_words::proofs::Appending::appending))]
fn push_id(out: &mut Vec<u8>, id: Uuid) -> Result<(), AllocError>
    ensures { OnOk result (out.new.items ≡ out.old.items ++ id_text id) }
{
    let mut buffer = Uuid::encode_buffer();
    let text = id.hyphenated().encode_lower(&mut buffer);
    out.extend_from_slice(b" ")?;
    out.extend_from_slice(text.as_bytes())
}

#[tactic(auto, using(kob_words::proofs::Appending::appending))]
fn push_record(out: &mut Vec<u8>, sent: Record) -> Result<(), AllocError>
    ensures { OnOk result (out.new.items ≡ out.old.items ++ record_text sent) }
{
    push_id(out, sent.id)?;
    out.extend_from_slice(b" partition ")?;
    push_number(out, sent.partition)?;
    out.extend_from_slice(b" offset ")?;
    push_number(out, sent.offset)
}

#[tactic(auto, using(kob_words::proofs::Appending::appending))]
fn push_pair(out: &mut Vec<u8>, wrong: &[u8], sent: Record, other: Record) -> Result<(), AllocError>
    ensures { OnOk result (out.new.items ≡ out.old.items ++ pair_text wrong.now sent other) }
{
    out.extend_from_slice(wrong)?;
    push_record(out, sent)?;
    out.extend_from_slice(b", before it")?;
    push_record(out, other)?;
    out.extend_from_slice(b"\n")
}

fn push_order(out: &mut Vec<u8>, sent: Record, earlier: Record) -> Result<(), AllocError>
    ensures { OnOk result (out.new.items ≡ out.old.items ++ order_text sent earlier) }
{
    if sent.partition != earlier.partition {
        push_pair(out, b"apart", sent, earlier)
    } else if sent.offset < earlier.offset {
        push_pair(out, b"out of order", earlier, sent)
    } else {
        Ok(())
    }
}

#[tactic(auto, using(kob_words::proofs::Appending::appending))]
fn push_missing(out: &mut Vec<u8>, row: &Row) -> Result<(), AllocError>
    ensures { OnOk result (out.new.items ≡ out.old.items ++ missing_text row.now) }
{
    out.extend_from_slice(b"missing")?;
    push_id(out, row.id)?;
    out.extend_from_slice(b" key ")?;
    push_bytes(out, row.key.as_str().as_bytes())?;
    out.extend_from_slice(b"\n")
}

/// What is wrong with a row: it has no record, or its record stands before that of the row of its
/// key before it, or in another partition.
pub(crate) fn push_row(
    out: &mut Vec<u8>,
    row: &Row,
    sent: Option<Record>,
    earlier: Option<Record>,
) -> Result<(), AllocError>
    ensures { OnOk result (out.new.items ≡ out.old.items ++ row_text row.now sent earlier) }
{
    match (sent, earlier) {
        (None, _) => push_missing(out, row),
        (Some(_), None) => Ok(()),
        (Some(sent), Some(earlier)) => push_order(out, sent, earlier),
    }
}

/// What is wrong with a record: another one of its event stands before it, or no row has its event.
#[tactic(auto, using(kob_words::proofs::Appending::appending))]
pub(crate) fn push_event(
    out: &mut Vec<u8>,
    sent: Record,
    known: bool,
    earlier: Option<Record>,
) -> Result<(), AllocError>
    ensures { OnOk result (out.new.items ≡ out.old.items ++ event_text sent known earlier) }
{
    match earlier {
        Some(earlier) => push_pair(out, b"doubled", sent, earlier),
        None if known => Ok(()),
        None => {
            out.extend_from_slice(b"unknown")?;
            push_record(out, sent)?;
            out.extend_from_slice(b"\n")
        }
    }
}
