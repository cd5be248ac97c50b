//! Fleets: workers that run at once over one broker.

ghost use Rattle.std.specs.Prelude.{◌≡◌, ◌≤◌, [], length, map, vec_capacity, vec_len, IfOk, IfErr};
ghost use Rattle.std.specs.Prelude.{MatchOption, Ok};
ghost use Rattle.kob_broker.specs.Step.{state_of};
ghost use Rattle.kob_broker.specs.State.{settings_of};
ghost use Rattle.kob_shared.specs.Journals.{entry_limit, worker_limit, IsFresh, IsSound};
ghost use Rattle.kob_shared.specs.Fleets.{Follows, entries_told};
ghost use Rattle.kob_shared.specs.Runs.{EachKeeps, EachResultKeeps, HasBegun, IsAsNoted};
ghost use Rattle.kob_shared.specs.Runs.{IsFullOnlyPast, IsNamedWithin, IsTear, NamesFirstFault};
ghost use Rattle.kob_shared.specs.Runs.{NamesOneOf, as_of_worker, notes_of};

use crate::compare::{Difference, compare};
use crate::faults::CallFault;
use crate::fleet_stop::FleetStop;
use crate::journal::Receipt;
use crate::notes::Notes;
use crate::recorded::{ENTRY_LIMIT, Recorded};
use crate::session::SharedBroker;
use crate::work::{Done, Gate, Work};
use kob_broker::{Broker, Settings};
use kob_names::PlainValue;
use kob_rights::Event;
use std::alloc::{AllocError, Global};
use std::snapshot::Snapshot;
use std::sync::Wait;
use std::thread;
use std::thread::{Promise, Threads};

/// The postcondition of a worker's thread: what it leaves is as its kind of work says, as a worker
/// of its number.
#[derive(Drop)]
struct Keeps<W: Work>(Snapshot<W>, usize);

impl<W: Work> Promise<Result<Done<W::End>, CallFault>> for Keeps<W> {
    ghost use Rattle.std.specs.Prelude.{IfOk};

    ghost kept_by = { λ p r. IfOk r (λ d. W.keeps p.0.value p.1 d.notes d.end) };
}

/// Runs each worker in a thread of its own, numbered from 1, and waits for all.
fn run_workers<R: Threads + Wait + Sync, G: Gate + Sync, W: Work + Sync>(
    rt: &R,
    alloc: Global,
    shared: &W::Shared,
    works: &[W],
    gate: &G,
) -> Result<Vec<Result<Done<W::End>, CallFault>>, FleetStop>
where
    W::Shared: Sync,
    W::End: Send + Drop,
    requires { length works.now ≤ worker_limit }
    ensures each { IfOk result
        (λ v. EachResultKeeps W.keeps works.now v.items) }
    ensures named { IfErr result (NamesOneOf 0) }
{
    thread::scope(
        thread::scope_env(),
        rt,
        |scope| -> Result<Vec<Result<Done<W::End>, CallFault>>, FleetStop>
            requires { length works.now ≤ worker_limit }
            ensures each { IfOk result
                (λ v. EachResultKeeps W.keeps works.entry.now v.items) }
            ensures named { IfErr result (NamesOneOf 0) }
        {
            let mut handles = Vec::with_capacity(alloc, works.len())?;
            for (i, work) in works.iter().enumerate() {
                let worker = i + 1;
                let promise = Keeps(Snapshot::of(work), worker);
                let begun = scope.spawn_with(promise, move || {
                    work.work(rt, alloc, worker, shared, gate)
                });
                let Ok(handle) = begun else {
                    return Err(FleetStop::NotBegun);
                };
                handles.push(handle)?;
            }
            Ok(thread::join_promised(rt, handles)?)
        },
    )
}

/// Serves the first events, as worker 0, into an empty journal. `Full` is returned only if there
/// are more of them than the journal may have entries.
fn serve_first(
    alloc: Global,
    recorded: &mut Recorded,
    first: &[Event],
) -> Result<Vec<Receipt>, FleetStop>
    requires { recorded.old.journal ≡ [] }
    ensures told { IfOk result (λ v. (length v.items ≡ length first.now) × Follows 0 v.items) }
    ensures served { IfOk result
        (λ v. recorded.new.journal ≡ entries_told 0 first.now v.items) }
    ensures limit { recorded.new.limit ≡ recorded.old.limit }
    ensures opening { recorded.new.opening ≡ recorded.old.opening }
    ensures named { IfErr result (IsNamedWithin 0) }
    ensures full { IfErr result (IsFullOnlyPast recorded.old.limit (length first.now)) }
{
    let mut told = Vec::new(alloc);
    for event in first {
        match recorded.serve_as(alloc, 0, event) {
            Ok(receipt) => told.push(receipt)?,
            Err(fault) => return Err(stop_of(0, fault)),
        }
    }
    Ok(told)
}

/// Opens the journal, and serves the first events.
fn begin(alloc: Global, broker: Broker, first: Vec<Event>) -> Result<(Recorded, Notes), FleetStop>
    requires { IsFresh broker }
    ensures told { IfOk result
        (λ begun. (begun.1.events ≡ first.items) × Follows 0 begun.1.told) }
    ensures begun { IfOk result
        (λ begun. HasBegun (settings_of (state_of broker)) begun.1 begun.0) }
    ensures named { IfErr result (IsNamedWithin 0) }
    ensures full { IfErr result (IsFullOnlyPast entry_limit (vec_len first)) }
{
    let mut recorded = Recorded::open(alloc, broker, ENTRY_LIMIT).map_err(AllocError::from)?;
    let told = serve_first(alloc, &mut recorded, first.as_slice())?;
    Ok((recorded, Notes::new(first, told)))
}

/// The fault of the fleet for a worker's fault.
fn stop_of(worker: usize, fault: CallFault) -> FleetStop
    ensures { result ≡ as_of_worker worker fault }
{
    match fault {
        CallFault::Memory(refused) => FleetStop::Memory(refused),
        CallFault::Stale { length } => FleetStop::Stale { worker, length },
        CallFault::JournalFull => FleetStop::Full { worker },
    }
}

/// What all workers left, from worker 1 on, or the first fault. It is put into reserved capacity,
/// so that `Memory` is the fault of a worker.
fn gather<T: Drop>(room: Vec<T>, results: Vec<Result<T, CallFault>>) -> Result<Vec<T>, FleetStop>
    requires empty { room.items ≡ [] }
    requires room { vec_len results ≤ vec_capacity room }
    ensures all { IfOk result (λ v. map Ok v.items ≡ results.items) }
    ensures named { IfErr result (NamesFirstFault results.items) }
{
    let mut done = room;
    for outcome in results {
        let k = done.len();
        match outcome {
            Ok(one) => done.push_reserved(one),
            Err(fault) => return Err(stop_of(k + 1, fault)),
        }
    }
    Ok(done)
}

/// The result of a fleet: the broker with its journal, the notes of worker 0, and what the others
/// left, from worker 1 on.
#[derive(Drop)]
pub struct Ran<E> {
    pub found: Recorded,
    pub first: Notes,
    pub done: Vec<Done<E>>,
}

/// Serves the first events as worker 0, and then runs each worker in a thread of its own, numbered
/// from 1. The journal is not yet compared with the notes: `find_tear` does that. `Full` names
/// worker 0 only if there are more first events than a journal may have entries. Capacity for what
/// the workers leave is reserved before they run.
pub fn run_fleet<R: Threads + Wait + Sync, G: Gate + Sync, W: Work<Shared = SharedBroker> + Sync>(
    rt: &R,
    alloc: Global,
    broker: Broker,
    first: Vec<Event>,
    works: &[W],
    gate: &G,
) -> Result<Ran<W::End>, FleetStop>
where
    W::End: Send + Drop,
    requires fresh { IsFresh broker }
    requires few { length works.now ≤ worker_limit }
    ensures sound { IfOk result (λ ran. IsSound ran.found) }
    ensures first { IfOk result
        (λ ran. (ran.first.events ≡ first.items) × Follows 0 ran.first.told) }
    ensures each { IfOk result
        (λ ran. EachKeeps W.keeps works.now ran.done.items) }
    ensures named { IfErr result (IsNamedWithin (length works.now)) }
    ensures full { IfErr result (IsFullOnlyPast entry_limit (vec_len first)) }
{
    let room = Vec::with_capacity(alloc, works.len())?;
    match begin(alloc, broker, first) {
        Ok((recorded, noted)) => run_begun(rt, alloc, recorded, noted, works, room, gate),
        Err(stop) => Err(stop),
    }
}

/// Runs the workers over a broker whose first events were served.
#[tactic(auto, using(crate::proofs::Crossing::shared_sync))]
fn run_begun<R: Threads + Wait + Sync, G: Gate + Sync, W: Work<Shared = SharedBroker> + Sync>(
    rt: &R,
    alloc: Global,
    recorded: Recorded,
    noted: Notes,
    works: &[W],
    room: Vec<Done<W::End>>,
    gate: &G,
) -> Result<Ran<W::End>, FleetStop>
where
    W::End: Send + Drop,
    requires few { length works.now ≤ worker_limit }
    requires empty { room.items ≡ [] }
    requires room { length works.now ≤ vec_capacity room }
    ensures sound { IfOk result (λ ran. IsSound ran.found) }
    ensures first { IfOk result (λ ran. ran.first ≡ noted) }
    ensures each { IfOk result
        (λ ran. EachKeeps W.keeps works.now ran.done.items) }
    ensures named { IfErr result (NamesOneOf (length works.now)) }
{
    let shared = SharedBroker::open(recorded);
    let results = run_workers(rt, alloc, &shared, works, gate)?;
    let done = gather(room, results)?;
    Ok(Ran {
        found: shared.finish(),
        first: noted,
        done,
    })
}

/// The first place where the journal differs from the workers' notes; place 0 of worker 0 also if
/// another opening was stored. None means that the journal agrees with the notes, from this opening
/// on.
pub fn find_tear<E>(opening: &Settings, ran: &Ran<E>) -> Option<Difference>
    ensures { let notes = notes_of ran.now.first ran.now.done.items in
        MatchOption result
        ((ran.now.found.opening ≡ opening.now) × IsAsNoted notes ran.now.found)
        (IsTear opening.now notes ran.now.found) }
{
    if !ran.found.opening().same(opening) {
        return Some(Difference {
            worker: 0,
            place: 0,
        });
    }
    compare(ran.found.journal(), &ran.first, ran.done.as_slice())
}
