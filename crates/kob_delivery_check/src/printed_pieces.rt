//! How an event and its place are printed.

ghost use Rattle.std.specs.Prelude.{◌≡◌, ◌++◌, OnOk, slice_get};
ghost use Rattle.std.specs.Option.{option_copied};
ghost use Rattle.kob_outbox.specs.Contents.{id_text};
ghost use Rattle.kob_words.specs.Words.{spaced};
ghost use Rattle.kob_delivery_check.specs.PrintedPieces.{event_text, place_text};

use kob_outbox::OutboxEvent;
use kob_router::Place;
use kob_words::{push_counted, push_spaced};
use std::alloc::AllocError;
use uuid::Uuid;

/// An event's id after a space, in lower case with hyphens.
#[tactic(auto, using(kob_words::proofs::Appending::appending))]
pub(crate) fn push_id(out: &mut Vec<u8>, id: Uuid) -> Result<(), AllocError>
    ensures { OnOk result (out.new.items ≡ out.old.items ++ spaced (id_text id)) }
{
    let mut buffer = Uuid::encode_buffer();
    let text = id.hyphenated().encode_lower(&mut buffer);
    push_spaced(out, text.as_bytes())
}

/// An event by its id, its aggregate and its row.
#[tactic(auto, using(kob_words::proofs::Appending::appending))]
pub(crate) fn push_event(out: &mut Vec<u8>, row: u64, event: &OutboxEvent) -> Result<(), AllocError>
    ensures { OnOk result (out.new.items ≡ out.old.items ++ event_text row event.now) }
{
    push_id(out, event.id)?;
    push_spaced(out, event.aggregate_type.as_bytes())?;
    push_spaced(out, event.aggregate_id.as_bytes())?;
    out.extend_from_slice(b" row")?;
    push_counted(out, row)
}

#[tactic(auto, using(kob_words::proofs::Appending::appending))]
fn push_place(out: &mut Vec<u8>, offset: u64, place: Option<&Place>) -> Result<(), AllocError>
    ensures { OnOk result (out.new.items
        ≡ out.old.items ++ place_text offset (option_copied place.entry)) }
{
    match place {
        None => Ok(()),
        Some(place) => {
            out.extend_from_slice(b" in")?;
            push_spaced(out, place.topic.as_str().as_bytes())?;
            push_counted(out, place.partition)?;
            out.extend_from_slice(b" at")?;
            push_counted(out, offset)
        }
    }
}

/// The partition at a place of the assignment, and an offset in it.
pub(crate) fn push_assigned(
    out: &mut Vec<u8>,
    assignment: &[Place],
    assigned: usize,
    offset: u64,
) -> Result<(), AllocError>
    ensures { OnOk result (out.new.items
        ≡ out.old.items ++ place_text offset (slice_get assignment.now assigned)) }
{
    push_place(out, offset, assignment.get(assigned))
}
