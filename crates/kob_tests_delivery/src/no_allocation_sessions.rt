//! Calls on shared brokers, on desks and on the ends of pipelines that do not allocate.
//! `.ci/refuse` runs them with every allocation refused from `refuse_from_here` on.

use crate::fixtures::{
    CREATE, METADATA, READY, asker, recorded, refuse_from_here, request_of, serve_all, shared,
};
use crate::gates::Holding;
use crate::pipeline_end::{call_laws, each_begins, is_marked};
use crate::pipelines::run;
use crate::plans::{FIRST_EVENTS, plan_of_two};
use crate::sessions::session;
use kob_names::PlainValue;
use kob_pipeline::Plan;
use kob_shared::{Desk, Journal, Receipt, SharedBroker};
use std::alloc::Global;
use std::process::Abort;
use std::sync::Wait;
use std::thread::Threads;

/// Whether a journal has one entry, of worker 1.
fn has_one(journal: &Journal) -> bool {
    match journal.get(0) {
        Some(entry) => journal.len() == 1 && entry.worker == 1 && entry.same(entry),
        None => false,
    }
}

/// A record has its opening and its journal, is shared with a session that has seen nothing,
/// returned and taken apart.
#[test]
fn a_record_goes_round(rt: HostRuntime) {
    let alloc = rt.alloc();
    let (principal, host) = asker(&rt, alloc, "User:root");
    let mut recorded = recorded(&rt, alloc, 1);
    serve_all(&rt, alloc, &mut recorded, &[(1, CREATE)]);
    refuse_from_here(alloc);
    let opening = recorded.opening();
    assert!(rt; opening.supers.len() == 1 && !opening.everyone && opening.same(opening));
    assert!(rt; has_one(recorded.journal()));
    let shared = SharedBroker::open(recorded);
    assert_eq!(rt; shared.session(1, principal, host).seen(), 0);
    let (broker, journal) = shared.finish().into_parts();
    assert!(rt; has_one(&journal));
}

/// Whether one event was noted, at the place 0.
fn are_of_one(receipts: &[Receipt]) -> bool {
    match receipts {
        [receipt] => receipt.place == 0 && receipt.same(receipt),
        _ => false,
    }
}

/// One desk is opened. Another notes one event, which it returns, also once it is closed.
#[test]
fn desks_open_and_close(rt: HostRuntime) {
    let alloc = rt.alloc();
    let shared = shared(&rt, alloc, 1);
    let other = session(&rt, alloc, &shared, 2);
    let mut desk = Desk::open(alloc, session(&rt, alloc, &shared, 1));
    let request = request_of(&rt, alloc, METADATA);
    desk.call(&rt, alloc, request).expect(&rt, READY);
    refuse_from_here(alloc);
    assert_eq!(rt; Desk::open(alloc, other).len(), 0);
    assert!(rt; desk.len() == 1 && are_of_one(desk.receipts()));
    let notes = desk.close();
    assert!(rt; notes.len() == 1 && notes.events().len() == 1 && are_of_one(notes.receipts()));
}

/// The laws are called on the end of a plan. A pipeline of a service that sends two events and of a
/// consumer leaves what is expected, in any order of its workers: six calls besides the first
/// events, three of each worker.
fn call_on_end<R: Abort + Threads + Wait + Sync>(rt: &R, alloc: Global, plan: &Plan) {
    let gate = Holding::at(&[], 0);
    let ran = run(rt, alloc, plan, &gate);
    let end = ran.ok().expect(rt, "the end of the pipeline");
    refuse_from_here(alloc);
    call_laws(plan, &end);
    assert_eq!(rt; end.done.len(), 2);
    for worker in &end.done {
        assert_eq!(rt; worker.notes.len(), 3);
    }
    assert_eq!(rt; end.journal.len(), FIRST_EVENTS + 6);
    assert_eq!(rt; end.journal.iter().count(), FIRST_EVENTS + 6);
    assert_eq!(rt; end.first.len(), FIRST_EVENTS);
    assert!(rt; is_marked(&end) && each_begins(&end, 0));
}

#[test]
fn laws_are_called(rt: HostRuntime) {
    let plan = plan_of_two(&rt, rt.alloc());
    call_on_end(&rt, rt.alloc(), &plan);
}
