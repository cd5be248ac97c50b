//! How the results of steps are printed, each on a line after its number.

ghost use Rattle.std.specs.Prelude.{◌≡◌, ◌++◌, OnOk, codes};
ghost use Rattle.std.specs.Fmt.{decimal};
ghost use Rattle.kob_scene_text.specs.PrintedRows.{consumer_tick_text, numbered};
ghost use Rattle.kob_scene_text.specs.PrintedRows.{crashed_text, recorded_text};
ghost use Rattle.kob_scene_text.specs.PrintedRows.{service_tick_text, stop_text};

use kob_outbox::{Column, RecordFault};
use kob_router::StopReason;
use kob_script::push_outcome;
use kob_words::push_number;
use std::alloc::AllocError;

/// Prints what a tick of a service came to: `N moved SEQ`, `N idle`, `N repeat`, or `N stopped` with
/// the reason, and `behind`, a text that follows it in the line. The error is out of memory; `out`
/// has then grown by a part of it.
#[tactic(auto, using(kob_words::proofs::Appending::appending))]
pub fn print_service_tick(
    out: &mut Vec<u8>,
    number: u64,
    tick: kob_router::Tick,
    behind: &[u8],
) -> Result<(), AllocError>
    ensures { OnOk result (out.new.items
        ≡ out.old.items ++ numbered number (service_tick_text tick ++ behind.now)) }
{
    push_number(out, number)?;
    push_service_tick(out, tick)?;
    out.extend_from_slice(behind)?;
    out.extend_from_slice(b"\n")
}

fn push_service_tick(out: &mut Vec<u8>, tick: kob_router::Tick) -> Result<(), AllocError>
    ensures { OnOk result (out.new.items ≡ out.old.items ++ service_tick_text tick) }
{
    match tick {
        kob_router::Tick::Moved(seq) => push_labelled(out, b" moved ", seq),
        kob_router::Tick::Idle => out.extend_from_slice(b" idle"),
        kob_router::Tick::Repeat => out.extend_from_slice(b" repeat"),
        kob_router::Tick::Stopped(reason) => push_stop(out, &reason),
    }
}

#[tactic(auto, using(kob_words::proofs::Appending::appending))]
fn push_stop(out: &mut Vec<u8>, reason: &StopReason) -> Result<(), AllocError>
    ensures { OnOk result (out.new.items ≡ out.old.items ++ stop_text reason.now) }
{
    match reason {
        StopReason::Rejected(reply) => {
            out.extend_from_slice(b" stopped")?;
            push_outcome(out, reply)
        }
        StopReason::BadTopic => out.extend_from_slice(b" stopped bad-topic"),
        StopReason::Memory(_) => out.extend_from_slice(b" stopped memory"),
        StopReason::Store => out.extend_from_slice(b" stopped store"),
    }
}

#[tactic(auto, using(kob_words::proofs::Appending::appending))]
fn push_labelled(out: &mut Vec<u8>, word: &[u8], count: u64) -> Result<(), AllocError>
    ensures { OnOk result (out.new.items ≡ out.old.items ++ (word.now ++ decimal count)) }
{
    out.extend_from_slice(word)?;
    push_number(out, count)
}

#[tactic(auto, using(kob_words::proofs::Appending::appending))]
fn print_word(out: &mut Vec<u8>, number: u64, word: &[u8]) -> Result<(), AllocError>
    ensures { OnOk result (out.new.items ≡ out.old.items ++ numbered number word.now) }
{
    push_number(out, number)?;
    out.extend_from_slice(word)?;
    out.extend_from_slice(b"\n")
}

#[tactic(auto, using(kob_words::proofs::Appending::appending))]
fn print_counted(out: &mut Vec<u8>, number: u64, word: &[u8], count: u64) -> Result<(), AllocError>
    ensures { OnOk result (out.new.items
        ≡ out.old.items ++ numbered number (word.now ++ decimal count)) }
{
    push_number(out, number)?;
    push_labelled(out, word, count)?;
    out.extend_from_slice(b"\n")
}

/// Prints what a tick of a consumer came to: `N placed POSITION`, `N took COUNT`, `N committed`,
/// `N idle`, `N repeat`, or `N stopped` with the reason, and `behind`, a text that follows it in the
/// line. The error is out of memory; `out` has then grown by a part of it.
#[tactic(auto, using(kob_words::proofs::Appending::appending))]
pub fn print_consumer_tick(
    out: &mut Vec<u8>,
    number: u64,
    tick: kob_inbox::Tick,
    behind: &[u8],
) -> Result<(), AllocError>
    ensures { OnOk result (out.new.items
        ≡ out.old.items ++ numbered number (consumer_tick_text tick ++ behind.now)) }
{
    push_number(out, number)?;
    push_consumer_tick(out, tick)?;
    out.extend_from_slice(behind)?;
    out.extend_from_slice(b"\n")
}

fn push_consumer_tick(out: &mut Vec<u8>, tick: kob_inbox::Tick) -> Result<(), AllocError>
    ensures { OnOk result (out.new.items ≡ out.old.items ++ consumer_tick_text tick) }
{
    match tick {
        kob_inbox::Tick::Placed(position) => push_labelled(out, b" placed ", position),
        kob_inbox::Tick::Took(count) => push_labelled(out, b" took ", count),
        kob_inbox::Tick::Committed => out.extend_from_slice(b" committed"),
        kob_inbox::Tick::Idle => out.extend_from_slice(b" idle"),
        kob_inbox::Tick::Repeat => out.extend_from_slice(b" repeat"),
        kob_inbox::Tick::Stopped(reason) => push_stop(out, &reason),
    }
}

/// Prints what became of a record: `N ok recorded SEQ`, `N refused BadField COLUMN`,
/// `N refused DuplicateId`, `N stopped memory` or `N stopped store`. `COLUMN` is the name of the
/// column in the tables that does not accept its text, and `key` for the id of a business row. The
/// error is out of memory; `out` has then grown by a part of it.
pub fn print_recorded(
    out: &mut Vec<u8>,
    number: u64,
    recorded: Result<u64, RecordFault>,
) -> Result<(), AllocError>
    ensures { OnOk result (out.new.items
        ≡ out.old.items ++ numbered number (recorded_text recorded)) }
{
    match recorded {
        Ok(seq) => print_counted(out, number, b" ok recorded ", seq),
        Err(RecordFault::BadField(Column::Kind)) => {
            print_word(out, number, b" refused BadField kind")
        }
        Err(RecordFault::BadField(Column::Id)) => {
            print_word(out, number, b" refused BadField key")
        }
        Err(RecordFault::BadField(Column::State)) => {
            print_word(out, number, b" refused BadField state")
        }
        Err(RecordFault::BadField(Column::AggregateType)) => {
            print_word(out, number, b" refused BadField aggregatetype")
        }
        Err(RecordFault::BadField(Column::AggregateId)) => {
            print_word(out, number, b" refused BadField aggregateid")
        }
        Err(RecordFault::BadField(Column::Type)) => {
            print_word(out, number, b" refused BadField type")
        }
        Err(RecordFault::BadField(Column::Payload)) => {
            print_word(out, number, b" refused BadField payload")
        }
        Err(RecordFault::DuplicateId) => print_word(out, number, b" refused DuplicateId"),
        Err(RecordFault::Memory(_)) => print_word(out, number, b" stopped memory"),
        Err(RecordFault::Store) => print_word(out, number, b" stopped store"),
    }
}

/// Prints what became of a record whose service crashed: `N crashed`, `N refused BadField COLUMN`,
/// `N stopped memory` or `N stopped store`. The error is out of memory; `out` has then grown by a
/// part of it.
pub fn print_crashed(
    out: &mut Vec<u8>,
    number: u64,
    crashed: Result<(), RecordFault>,
) -> Result<(), AllocError>
    ensures { OnOk result (out.new.items
        ≡ out.old.items ++ numbered number (crashed_text crashed)) }
{
    match crashed {
        Ok(()) => print_word(out, number, b" crashed"),
        Err(fault) => print_recorded(out, number, Err(fault)),
    }
}

/// Prints `N ok restarted`. The error is out of memory; `out` has then grown by a part of it.
pub fn print_restarted(out: &mut Vec<u8>, number: u64) -> Result<(), AllocError>
    ensures { OnOk result (out.new.items
        ≡ out.old.items ++ numbered number (codes " ok restarted")) }
{
    print_word(out, number, b" ok restarted")
}

/// Prints `N ok swept COUNT`. The error is out of memory; `out` has then grown by a part of it.
pub fn print_swept(out: &mut Vec<u8>, number: u64, count: u64) -> Result<(), AllocError>
    ensures { OnOk result (out.new.items
        ≡ out.old.items ++ numbered number (codes " ok swept " ++ decimal count)) }
{
    print_counted(out, number, b" ok swept ", count)
}

/// Prints `N ok visible COUNT`. The error is out of memory; `out` has then grown by a part of it.
pub fn print_visible(out: &mut Vec<u8>, number: u64, count: u64) -> Result<(), AllocError>
    ensures { OnOk result (out.new.items
        ≡ out.old.items ++ numbered number (codes " ok visible " ++ decimal count)) }
{
    print_counted(out, number, b" ok visible ", count)
}
