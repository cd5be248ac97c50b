//! Fleets of scripts.

ghost use Rattle.std.specs.Prelude.{◌≡◌, ◌≤◌, ◌<◌, ◌↔◌, vec_len, IfOk, IfErr, IsTrue};
ghost use Rattle.std.specs.Prelude.{IsErrOf};
ghost use Rattle.std.specs.List.{AllZip};
ghost use Rattle.kob_broker.specs.Step.{state_of};
ghost use Rattle.kob_broker.specs.State.{settings_of};
ghost use Rattle.kob_shared.specs.Journals.{IsFresh, opened_by, IsSound, entry_limit, worker_limit};
ghost use Rattle.kob_shared.specs.Fleets.{Follows, asked_of_all, entries_asked, events_of_script};
ghost use Rattle.kob_shared.specs.Fleets.{IsFleet};
ghost use Rattle.kob_shared.specs.Runs.{IsTornOnlyWhere, IsLater, NamesWorkerWithin};
ghost use Rattle.kob_shared.specs.Runs.{IsTaken, notes_of};

use crate::fleet::{Ran, find_tear, run_fleet};
use crate::fleet_fault::FleetFault;
use crate::fleet_stop::FleetStop;
use crate::journal::Journal;
use crate::notes::Notes;
use crate::recorded::{ENTRY_LIMIT, Recorded};
use crate::script::{Script, Transcript};
use crate::work::{Done, Gate};
use kob_broker::{Broker, Settings};
use kob_rights::Event;
use std::alloc::{AllocError, Global};
use std::sync::Wait;
use std::thread::Threads;

/// The maximum number of workers of a fleet, worker 0 not counted.
pub const WORKER_LIMIT: usize = 64;

const _: () = prove!(WORKER_LIMIT == 64);

/// The result of a fleet: the broker, the journal, and the receipts of each worker, worker 0 first.
#[derive(Drop)]
pub struct FleetEnd {
    pub broker: Broker,
    pub journal: Journal,
    pub transcripts: Vec<Transcript>,
}

/// Whether the events of all workers fit a journal.
fn has_room(first: &[Event], scripts: &[Script]) -> bool
    ensures { IsTrue result ↔ (entries_asked first.now scripts.now ≤ entry_limit) }
{
    if first.len() > ENTRY_LIMIT {
        return false;
    }
    let mut room = ENTRY_LIMIT - first.len();
    for script in scripts {
        let requests = script.requests.len();
        if requests > room {
            return false;
        }
        room -= requests;
    }
    true
}

/// The receipts of each worker, worker 0 first. The error is out of memory.
fn transcripts_of(
    alloc: Global,
    first: Notes,
    done: Vec<Done<()>>,
) -> Result<Vec<Transcript>, AllocError>
    ensures { IfOk result (λ v. AllZip IsTaken (notes_of first done.items) v.items) }
{
    let mut transcripts = Vec::new(alloc);
    transcripts.push(first.into_transcript())?;
    for one in done {
        transcripts.push(one.notes.into_transcript())?;
    }
    Ok(transcripts)
}

/// Compares the journal with the workers' receipts.
fn end_of(
    alloc: Global,
    opening: &Settings,
    ran: Ran<()>,
    scripts: &[Script],
) -> Result<FleetEnd, FleetFault>
    requires sound { IsSound ran.found }
    requires first { Follows 0 ran.first.told }
    requires each { AllZip (λ s d. d.notes.events ≡ events_of_script s) scripts.now ran.done.items }
    ensures ok { IfOk result (λ end. IsFleet (opened_by opening.now) ran.first.events scripts.now
        end.journal (state_of end.broker) end.transcripts.items) }
    ensures torn { IfErr result
        (IsTornOnlyWhere opening.now (asked_of_all ran.first.events scripts.now)) }
    ensures later { IfErr result IsLater }
    ensures named { IfErr result (NamesWorkerWithin 0) }
{
    let difference = find_tear(opening, &ran);
    let Ran {
        found,
        first: noted,
        done,
    } = ran;
    let transcripts = match transcripts_of(alloc, noted, done) {
        Ok(transcripts) => transcripts,
        Err(refused) => return Err(FleetFault::Stopped(FleetStop::Memory(refused))),
    };
    if let Some(difference) = difference {
        return Err(FleetFault::Torn {
            worker: difference.worker,
            place: difference.place,
            found,
            transcripts,
        });
    }
    let (broker, journal) = found.into_parts();
    Ok(FleetEnd {
        broker,
        journal,
        transcripts,
    })
}

/// Serves the first events as worker 0, and then runs each script in a thread of its own, numbered
/// from 1.
pub fn run_scripts<R: Threads + Wait + Sync, G: Gate + Sync>(
    rt: &R,
    alloc: Global,
    broker: Broker,
    first: Vec<Event>,
    scripts: Vec<Script>,
    gate: &G,
) -> Result<FleetEnd, FleetFault>
    requires { IsFresh broker }
    ensures ok { IfOk result (λ end. IsFleet (state_of broker) first.items scripts.items
        end.journal (state_of end.broker) end.transcripts.items) }
    ensures workers { IsErrOf result FleetFault.TooManyWorkers
        ↔ (worker_limit < vec_len scripts) }
    ensures full { IsErrOf result FleetFault.JournalFull ↔ ((vec_len scripts ≤ worker_limit)
        × (entry_limit < entries_asked first.items scripts.items)) }
    ensures torn { IfErr result
        (IsTornOnlyWhere (settings_of (state_of broker)) (asked_of_all first.items scripts.items)) }
    ensures named { IfErr result (NamesWorkerWithin (vec_len scripts)) }
{
    if scripts.len() > WORKER_LIMIT {
        return Err(FleetFault::TooManyWorkers);
    }
    if !has_room(first.as_slice(), scripts.as_slice()) {
        return Err(FleetFault::JournalFull);
    }
    run_fitting(rt, alloc, broker, first, scripts, gate)
}

/// Runs scripts whose counts fit, and compares the journal with the workers' receipts. A copy of the
/// broker's settings is kept first.
fn run_fitting<R: Threads + Wait + Sync, G: Gate + Sync>(
    rt: &R,
    alloc: Global,
    broker: Broker,
    first: Vec<Event>,
    scripts: Vec<Script>,
    gate: &G,
) -> Result<FleetEnd, FleetFault>
    requires fresh { IsFresh broker }
    requires few { vec_len scripts ≤ worker_limit }
    requires fits { entries_asked first.items scripts.items ≤ entry_limit }
    ensures ok { IfOk result (λ end. IsFleet (state_of broker) first.items scripts.items
        end.journal (state_of end.broker) end.transcripts.items) }
    ensures torn { IfErr result
        (IsTornOnlyWhere (settings_of (state_of broker)) (asked_of_all first.items scripts.items)) }
    ensures later { IfErr result IsLater }
    ensures named { IfErr result (NamesWorkerWithin (vec_len scripts)) }
{
    let opening = match broker.opening(alloc) {
        Ok(opening) => opening,
        Err(refused) => return Err(FleetFault::Stopped(FleetStop::Memory(refused))),
    };
    let ran = run_fleet(rt, alloc, broker, first, scripts.as_slice(), gate)?;
    end_of(alloc, &opening, ran, scripts.as_slice())
}
