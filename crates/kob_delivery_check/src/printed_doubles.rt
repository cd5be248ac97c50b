//! How rows of an inbox are printed whose event has an earlier row.

ghost use Rattle.std.specs.Prelude.{◌≡◌, ◌<◌, ◌++◌, OnOk, Some, length, map, slice_get};
ghost use Rattle.std.specs.Option.{option_copied};
ghost use Rattle.kob_delivery_check.specs.Doubles.{double_line, double_lines, double_text};
ghost use Rattle.kob_delivery_check.specs.Doubles.{places_text};

use crate::cause::event_at;
use crate::printed_order::push_inbox_place;
use crate::printed_pieces::push_event;
use crate::row_doubles::DoubledRow;
use crate::sent::place_of;
use kob_outbox::OutboxEvent;
use kob_words::push_counted;
use std::alloc::AllocError;

/// The place of a row, and that of the first row of its event.
#[tactic(auto, using(kob_words::proofs::Appending::appending))]
fn push_places(out: &mut Vec<u8>, double: DoubledRow) -> Result<(), AllocError>
    ensures { OnOk result (out.new.items ≡ out.old.items ++ places_text double) }
{
    push_inbox_place(out, double.at)?;
    out.extend_from_slice(b", first at")?;
    push_counted(out, double.first)?;
    out.extend_from_slice(b"\n")
}

/// The line of a row; nothing if its event is none of these.
#[tactic(auto, using(kob_words::proofs::Appending::appending))]
fn push_double(
    out: &mut Vec<u8>,
    events: &[&OutboxEvent],
    double: DoubledRow,
) -> Result<(), AllocError>
    ensures { OnOk result (out.new.items
        ≡ out.old.items ++ double_line (map (λ event. event.now) events.now) double) }
{
    let Some(place) = place_of(double.event, events) else {
        return Ok(());
    };
    let Some(event) = event_at(events, place) else {
        return Ok(());
    };
    out.extend_from_slice(b"doubled")?;
    push_event(out, (place as u64).saturating_add(1), event)?;
    push_places(out, double)
}

/// A line for each row of the inbox whose event has an earlier row.
pub(crate) fn push_doubled_rows(
    out: &mut Vec<u8>,
    events: &[&OutboxEvent],
    doubles: &[DoubledRow],
) -> Result<(), AllocError>
    ensures { OnOk result (out.new.items
        ≡ out.old.items ++ double_lines (map (λ event. event.now) events.now) doubles.now) }
{
    for place in 0..doubles.len() {
        push_double(out, events, doubles[place])?;
    }
    Ok(())
}
