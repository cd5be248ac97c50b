//! Sessions over a broker, also while its journal is handed out.

use crate::fixtures::{READY, asker, recorded, request_of};
use kob_rights::Request;
use kob_shared::{CallFault, RotateFault, RotatingBroker, Session, SharedBroker};
use std::alloc::Global;
use std::process::Abort;
use std::sync::Wait;

/// A session of a worker for the super user.
pub(crate) fn session<'a>(
    rt: &impl Abort,
    alloc: Global,
    shared: &'a SharedBroker,
    worker: usize,
) -> Session<'a> {
    let (principal, host) = asker(rt, alloc, "User:root");
    shared.session(worker, principal, host)
}

/// The place of the entry of the request of a script's line.
pub(crate) fn place_of<R: Abort + Wait>(
    rt: &R,
    alloc: Global,
    session: &mut Session<'_>,
    line: &str,
) -> usize {
    let request = request_of(rt, alloc, line);
    let receipt = session.call(rt, alloc, request).expect(rt, READY);
    receipt.place
}

/// The place of a session's next call, or why it is not served.
fn place<R: Wait>(rt: &R, alloc: Global, session: &mut Session<'_>) -> Result<usize, CallFault> {
    let receipt = session.call(rt, alloc, Request::InitProducerId)?;
    Ok(receipt.place)
}

/// The journal that is handed out has two entries, from the place 0 on, the second of worker 4.
fn rotate<R: Abort + Wait>(rt: &R, alloc: Global, shared: &RotatingBroker) {
    let past = shared.rotate(rt, alloc, 0).expect(rt, "a journal");
    assert_eq!(rt; (past.first_place, past.journal.len()), (0, 2));
    let entry = past.journal.get(1).expect(rt, "a second entry");
    assert_eq!(rt; entry.worker, 4);
}

/// Two calls fill the journal, a third is refused, the journal is handed out only from its first
/// place on, and then the session continues at the place 2.
fn go_on<R: Abort + Wait>(rt: &R, alloc: Global, shared: &RotatingBroker) {
    let (principal, host) = asker(rt, alloc, "User:root");
    let mut session = shared.session(4, principal, host);
    for due in [Ok(0), Ok(1), Err(CallFault::JournalFull)] {
        assert_eq!(rt; place(rt, alloc, &mut session), due);
    }
    assert_eq!(rt; session.seen(), 2);
    let refused = shared.rotate(rt, alloc, 1).err();
    assert_eq!(rt; refused, Some(RotateFault::OutOfTurn { first_place: 0 }));
    rotate(rt, alloc, shared);
    assert_eq!(rt; place(rt, alloc, &mut session), Ok(2));
    assert_eq!(rt; session.seen(), 3);
}

/// A session does so on a broker whose journal has at most two entries, after an empty one, and the
/// third entry is the only one that was not handed out.
#[test]
fn a_session_goes_on_in_the_next_journal(rt: HostRuntime) {
    let alloc = rt.alloc();
    let (first, continued) = recorded(&rt, alloc, 2).next(alloc);
    let shared = RotatingBroker::open(continued);
    go_on(&rt, alloc, &shared);
    let continued = shared.finish();
    assert_eq!(rt; continued.first_place(), 2);
    assert_eq!(rt; continued.journal().len(), 1);
}
