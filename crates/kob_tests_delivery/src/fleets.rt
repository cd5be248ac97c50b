//! Fleets: scripts that run at once.

ghost use Rattle.std.specs.Prelude.{◌≤◌};

use crate::fixtures::{CREATE, METADATA, WRITE, broker, events_of, offset_of, scripts_of};
use crate::gates::Holding;
use kob_names::Binding;
use kob_rights::Event;
use kob_shared::{FleetEnd, FleetFault, Script, Transcript, run_scripts};
use std::alloc::Global;
use std::process::Abort;
use std::sync::Wait;
use std::thread::Threads;

/// What the scripts come to on a new broker with these bindings, after the first events.
pub(crate) fn ended<R: Abort + Threads + Wait + Sync>(
    rt: &R,
    alloc: Global,
    opening: Vec<Binding>,
    first: Vec<Event>,
    scripts: Vec<Script>,
    gate: &Holding<'_>,
) -> Result<FleetEnd, FleetFault> {
    let broker = broker(rt, alloc, opening);
    run_scripts(rt, alloc, broker, first, scripts, gate)
}

/// Runs them to the end.
pub(crate) fn run<R: Abort + Threads + Wait + Sync>(
    rt: &R,
    alloc: Global,
    opening: Vec<Binding>,
    first: Vec<Event>,
    scripts: Vec<Script>,
    gate: &Holding<'_>,
) -> FleetEnd {
    let ended = ended(rt, alloc, opening, first, scripts, gate);
    ended.ok().expect(rt, "the end of the scripts")
}

/// Whether each of this number of workers received two replies, and nothing else happened.
pub(crate) fn tells_two_each(end: &FleetEnd, workers: usize) -> bool
    requires { workers ≤ 64 }
{
    for told in end.transcripts.iter().skip(1) {
        if told.len() != 2 {
            return false;
        }
    }
    end.journal.len() == 2 * workers && end.transcripts.len() == workers + 1
}

/// This number of workers are served, two requests each. Each is held at its second request until
/// all have come to theirs.
fn serve_at_once<R: Abort + Threads + Wait + Sync>(rt: &R, alloc: Global, workers: usize)
    requires { workers ≤ 64 }
{
    let gate = Holding::at(&[], workers as u64);
    let scripts = scripts_of(rt, alloc, METADATA, workers, 2);
    let end = run(rt, alloc, Vec::new(alloc), Vec::new(alloc), scripts, &gate);
    assert!(rt; tells_two_each(&end, workers));
    assert!(rt; gate.all_came());
}

#[test]
fn two_workers_at_once(rt: HostRuntime) {
    serve_at_once(&rt, rt.alloc(), 2);
}

#[test]
fn sixty_four_workers(rt: HostRuntime) {
    serve_at_once(&rt, rt.alloc(), 64);
}

/// Notes a worker's offsets, which rise, and which no other worker received.
fn note(rt: &impl Abort, told: &Transcript, seen: &mut [bool; 200]) {
    let mut next = 0;
    for receipt in told.receipts() {
        let offset = offset_of(&receipt.reply).expect(rt, "an offset");
        let slot = seen
            .get_mut(offset as usize)
            .expect(rt, "an offset below 200");
        assert!(rt; !*slot && next <= offset);
        *slot = true;
        next = offset.wrapping_add(1);
    }
}

/// Two workers who write a hundred records each to one partition receive each offset once, and
/// nothing else happens. The gate is called before each request and after each worker's last.
#[test]
fn two_hundred_produces(rt: HostRuntime) {
    let alloc = rt.alloc();
    let gate = Holding::at(&[], 0);
    let first = events_of(&rt, alloc, CREATE);
    let scripts = scripts_of(&rt, alloc, WRITE, 2, 100);
    let end = run(&rt, alloc, Vec::new(alloc), first, scripts, &gate);
    assert_eq!(rt; end.journal.len(), 201);
    let mut seen = [false; 200];
    for told in end.transcripts.iter().skip(1) {
        note(&rt, told, &mut seen);
    }
    assert!(rt; !seen.contains(&false));
    assert_eq!(rt; gate.calls(), 202);
}

/// Why this number of scripts with this number of requests each are refused.
fn refusal<R: Abort + Threads + Wait + Sync>(
    rt: &R,
    alloc: Global,
    (workers, requests): (usize, usize),
    gate: &Holding<'_>,
) -> FleetFault {
    let scripts = scripts_of(rt, alloc, METADATA, workers, requests);
    let ended = ended(rt, alloc, Vec::new(alloc), Vec::new(alloc), scripts, gate);
    ended.err().expect(rt, "a refusal")
}

/// 65 workers are refused, and a script longer than a journal, before any gate is called.
#[test]
fn too_many_workers_or_entries(rt: HostRuntime) {
    let gate = Holding::at(&[], 0);
    let many = refusal(&rt, rt.alloc(), (65, 1), &gate);
    assert!(rt; matches!(&many, FleetFault::TooManyWorkers));
    let long = refusal(&rt, rt.alloc(), (1, 1_000_001), &gate);
    assert!(rt; matches!(&long, FleetFault::JournalFull));
    assert_eq!(rt; gate.calls(), 0);
}
