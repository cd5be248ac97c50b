//! How the rows of an outbox and of an inbox are printed.

ghost use Rattle.std.specs.Prelude.{◌≡◌, ◌++◌, OnOk, option_map, string_bytes};
ghost use Rattle.kob_script.specs.Printed.{key_text};
ghost use Rattle.kob_scene_text.specs.PrintedRows.{inbox_item, inbox_text, outbox_item};
ghost use Rattle.kob_scene_text.specs.PrintedRows.{outbox_text, state_text};
ghost use Rattle.kob_words.specs.Words.{spaced};
ghost use Rattle.kob_outbox.specs.Contents.{id_text};

use kob_inbox::InboxRow;
use kob_names::Bytes;
use kob_outbox::Row;
use kob_words::{push_bytes, push_counted, push_number, push_spaced};
use std::alloc::AllocError;
use uuid::Uuid;

/// An event's id after a space, in lower case with hyphens.
#[tactic(auto, using(kob_words::proofs::Appending::appending))]
fn push_id(out: &mut Vec<u8>, id: Uuid) -> Result<(), AllocError>
    ensures { OnOk result (out.new.items ≡ out.old.items ++ spaced (id_text id)) }
{
    let mut buffer = Uuid::encode_buffer();
    let text = id.hyphenated().encode_lower(&mut buffer);
    push_spaced(out, text.as_bytes())
}

#[tactic(auto, using(kob_words::proofs::Appending::appending))]
fn push_outbox_row(out: &mut Vec<u8>, row: &Row) -> Result<(), AllocError>
    ensures { OnOk result (out.new.items ≡ out.old.items ++ outbox_item row.now) }
{
    out.extend_from_slice(b"row")?;
    push_counted(out, row.seq)?;
    push_id(out, row.event.id)?;
    push_spaced(out, row.event.aggregate_type.as_bytes())?;
    push_spaced(out, row.event.aggregate_id.as_bytes())?;
    push_spaced(out, row.event.event_type.as_bytes())?;
    push_spaced(out, row.event.payload.as_bytes())?;
    out.extend_from_slice(b"\n")
}

/// Prints `N ok mark MARK waiting COUNT`, and a line for each row that waits. The error is out of
/// memory; `out` has then grown by a part of it.
#[tactic(auto, using(kob_words::proofs::Appending::appending))]
pub fn print_outbox(
    out: &mut Vec<u8>,
    number: u64,
    mark: u64,
    rows: &[Row],
) -> Result<(), AllocError>
    ensures { OnOk result (out.new.items ≡ out.old.items ++ outbox_text number mark rows.now) }
{
    push_number(out, number)?;
    out.extend_from_slice(b" ok mark")?;
    push_counted(out, mark)?;
    out.extend_from_slice(b" waiting")?;
    push_counted(out, rows.len() as u64)?;
    out.extend_from_slice(b"\n")?;
    for row in rows {
        push_outbox_row(out, row)?;
    }
    Ok(())
}

#[tactic(auto, using(kob_words::proofs::Appending::appending))]
pub(crate) fn push_key(out: &mut Vec<u8>, key: &Option<Bytes>) -> Result<(), AllocError>
    ensures { OnOk result (out.new.items ≡ out.old.items ++ key_text key.now) }
{
    match key {
        None => Ok(()),
        Some(key) => {
            push_bytes(out, key.as_slice())?;
            out.extend_from_slice(b"=")
        }
    }
}

#[tactic(auto, using(kob_words::proofs::Appending::appending))]
fn push_inbox_row(out: &mut Vec<u8>, row: &InboxRow) -> Result<(), AllocError>
    ensures { OnOk result (out.new.items ≡ out.old.items ++ inbox_item row.now) }
{
    out.extend_from_slice(b"row")?;
    push_counted(out, row.place)?;
    push_id(out, row.id)?;
    push_spaced(out, row.topic.as_str().as_bytes())?;
    push_counted(out, row.partition)?;
    push_counted(out, row.offset)?;
    out.extend_from_slice(b" ")?;
    push_key(out, &row.key)?;
    push_bytes(out, row.value.as_slice())?;
    out.extend_from_slice(b"\n")
}

/// Prints `N ok inbox COUNT`, and a line for each row. The error is out of memory; `out` has then
/// grown by a part of it.
#[tactic(auto, using(kob_words::proofs::Appending::appending))]
pub fn print_inbox(out: &mut Vec<u8>, number: u64, rows: &[InboxRow]) -> Result<(), AllocError>
    ensures { OnOk result (out.new.items ≡ out.old.items ++ inbox_text number rows.now) }
{
    push_number(out, number)?;
    out.extend_from_slice(b" ok inbox ")?;
    push_number(out, rows.len() as u64)?;
    out.extend_from_slice(b"\n")?;
    for row in rows {
        push_inbox_row(out, row)?;
    }
    Ok(())
}

/// Prints `N ok state STATE`, or `N ok no-state`. The error is out of memory; `out` has then grown by
/// a part of it.
#[tactic(auto, using(kob_words::proofs::Appending::appending))]
pub fn print_state(out: &mut Vec<u8>, number: u64, state: &Option<String>) -> Result<(), AllocError>
    ensures { OnOk result (out.new.items
        ≡ out.old.items ++ state_text number (option_map string_bytes state.now)) }
{
    push_number(out, number)?;
    match state {
        None => out.extend_from_slice(b" ok no-state\n"),
        Some(state) => {
            out.extend_from_slice(b" ok state")?;
            push_spaced(out, state.as_bytes())?;
            out.extend_from_slice(b"\n")
        }
    }
}
