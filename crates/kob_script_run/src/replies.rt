//! The replies to a script, served, printed and written one after another.

ghost use Rattle.std.specs.Prelude.{◌≡◌, ◌<◌, ◌≤◌, List, [], ◌∷◌, ◌++◌, Ok, length};
ghost use Rattle.std.specs.Prelude.{vec_len, vec_capacity};
ghost use Rattle.std.specs.Prelude.{IfOk, OnOk, OnErr};
ghost use Rattle.kob_broker.specs.Step.{state_of, step, replies_of};
ghost use Rattle.kob_partition.specs.Retained.{retained_meaning};
ghost use Rattle.kob_rights.specs.declared.event.Event as event;
ghost use Rattle.kob_script.specs.Checks.{checked};
ghost use Rattle.kob_script.specs.Printed.{reply_text};
ghost use Rattle.kob_script_run.specs.Output.{piece_limit};
ghost use Rattle.kob_script_run.specs.Output.{IsWritten, WritesPartOfRun, WritesRun, replies_from};
ghost use Rattle.kob_script_run.specs.Output.{replies_to};

use crate::fault::OutputFault;
use crate::lent::{print_records, print_topics};
use crate::limits::PIECE_LIMIT;
use crate::output::Ended;
use crate::pieces::{put, write_stopped};
use crate::transfer::write_all;
use crate::writing::WriteFailed;
use kob_broker::{Broker, OpenFault};
use kob_names::Settings;
use kob_rights::{Event, Request};
use kob_script::{CheckedScript, Requests, print_reply};
use std::alloc::{AllocError, Global};
use std::io::Write;

// A script opens no bindings, so that out of memory is the only error.
fn broker_by(alloc: Global, settings: Settings) -> Result<Broker, AllocError>
    requires { settings.opening ≡ [] }
    ensures { IfOk result (λ broker. (events : List event.Event)
        → replies_of retained_meaning events (state_of broker) ≡ replies_to settings events) }
{
    match Broker::open(alloc, settings) {
        Ok(broker) => Ok(broker),
        Err(OpenFault::Memory(error)) => Err(error),
        Err(OpenFault::TooMany) => unreachable!(),
    }
}

// Serves an event, and prints its reply after its number in place of what `out` held.
fn print_reply_to(
    alloc: Global,
    broker: &mut Broker,
    event: &mut Event,
    number: u64,
    out: &mut Vec<u8>,
) -> Result<(), AllocError>
    ensures text { OnOk result (out.new.items
        ≡ reply_text number (step retained_meaning (state_of broker.old) event.old).reply) }
    ensures state { OnOk result (state_of broker.new
        ≡ (step retained_meaning (state_of broker.old) event.old).state) }
{
    out.clear();
    match &event.request {
        Request::Fetch(_) | Request::Metadata(_) => print_lent(alloc, broker, event, number, out),
        _ => print_served(alloc, broker, event, number, out),
    }
}

// The same behind what `out` has. The records of a FETCH are printed from the log, and the names of
// all topics from the catalog; none is copied before. A frame of its own, since both take much room.
#[inline(never)]
fn print_lent(
    alloc: Global,
    broker: &mut Broker,
    event: &mut Event,
    number: u64,
    out: &mut Vec<u8>,
) -> Result<(), AllocError>
    ensures text { OnOk result (out.new.items ≡ out.old.items
        ++ reply_text number (step retained_meaning (state_of broker.old) event.old).reply) }
    ensures state { OnOk result (state_of broker.new
        ≡ (step retained_meaning (state_of broker.old) event.old).state) }
{
    if let Some(records) = broker.lend_records(alloc, event)? {
        return print_records(out, number, &records);
    }
    if let Some(topics) = broker.lend_topics(event) {
        return print_topics(out, number, topics);
    }
    print_served(alloc, broker, event, number, out)
}

fn print_served(
    alloc: Global,
    broker: &mut Broker,
    event: &mut Event,
    number: u64,
    out: &mut Vec<u8>,
) -> Result<(), AllocError>
    ensures text { OnOk result (out.new.items ≡ out.old.items
        ++ reply_text number (step retained_meaning (state_of broker.old) event.old).reply) }
    ensures state { OnOk result (state_of broker.new
        ≡ (step retained_meaning (state_of broker.old) event.old).state) }
{
    let reply = broker.serve_taking(alloc, event)?;
    print_reply(out, number, &reply)
}

// Serves the next request, whose event `next` is then, and prints its reply after its number in place
// of what `out` held.
fn print_next(
    alloc: Global,
    broker: &mut Broker,
    requests: &mut Requests,
    next: &mut Option<Event>,
    number: u64,
    out: &mut Vec<u8>,
) -> Result<(), AllocError>
    requires { 0 < length requests.old }
    ensures { OnOk result ((event : event.Event) × (requests.old ≡ event ∷ requests.new)
        × (out.new.items
        ≡ reply_text number (step retained_meaning (state_of broker.old) event).reply)
        × (state_of broker.new
        ≡ (step retained_meaning (state_of broker.old) event).state)) }
{
    requests.next_event(alloc, next)?;
    let Some(event) = next else { unreachable!() };
    print_reply_to(alloc, broker, event, number, out)
}

/// Serves requests and writes the replies as they are made, at most 65,536 bytes or one reply at a
/// time. Each event is read when it is its turn; a batch is moved to the broker. Out of memory ends
/// the run as `Stopped`.
fn write_replies<W: Write>(
    alloc: Global,
    writer: &mut W,
    held: &mut Vec<u8>,
    broker: &mut Broker,
    mut requests: Requests,
    next: &mut Option<Event>,
) -> Result<Ended, WriteFailed>
    requires none { held.old.items ≡ [] }
    requires piece { vec_len held.old ≤ piece_limit }
    requires room { piece_limit ≤ vec_capacity held.old }
    ensures output { IfOk result (λ ended. WritesRun (replies_from (state_of broker.old))
        requests ended (W.contents writer.old) (W.contents writer.new)) }
    ensures part { OnErr result (WritesPartOfRun (replies_from (state_of broker.old)) requests
        (W.contents writer.old) (W.contents writer.new)) }
{
    let mut text = Vec::new(alloc);
    for done in 0..requests.len() {
        if print_next(alloc, broker, &mut requests, next, done + 1, &mut text).is_err() {
            write_stopped(writer, held, done)?;
            return Ok(Ended::Stopped);
        }
        put(writer, held, &text)?;
    }
    write_all(writer, held)?;
    Ok(Ended::Clean)
}

// What is costly to drop has a `drop` of its own: otherwise a proof goes through it at each return.
fn write_served<W: Write>(
    alloc: Global,
    writer: &mut W,
    held: &mut Vec<u8>,
    script: CheckedScript,
) -> Result<Ended, OutputFault>
    requires none { held.old.items ≡ [] }
    requires piece { vec_len held.old ≤ piece_limit }
    requires room { piece_limit ≤ vec_capacity held.old }
    ensures { IsWritten (Ok (checked script)) (W.contents writer.old) (W.contents writer.new) result }
{
    let CheckedScript { settings, requests } = script;
    let mut broker = match broker_by(alloc, settings) {
        Ok(broker) => broker,
        Err(error) => {
            drop(requests);
            return Err(OutputFault::Memory(error));
        }
    };
    let mut next = None;
    let written = write_replies(alloc, writer, held, &mut broker, requests, &mut next);
    drop(next);
    drop(broker);
    match written {
        Ok(ended) => Ok(ended),
        Err(failed) => Err(OutputFault::WriteFailed(failed)),
    }
}

/// Serves a script and writes its output. `Memory` is returned only before the first request.
pub fn write_run<W: Write>(
    alloc: Global,
    writer: &mut W,
    script: CheckedScript,
) -> Result<Ended, OutputFault>
    ensures { IsWritten (Ok (checked script)) (W.contents writer.old) (W.contents writer.new) result }
{
    match Vec::with_capacity(alloc, PIECE_LIMIT) {
        Ok(held) => {
            let mut held = held;
            write_served(alloc, writer, &mut held, script)
        }
        Err(error) => {
            drop(script);
            Err(OutputFault::Memory(error))
        }
    }
}
