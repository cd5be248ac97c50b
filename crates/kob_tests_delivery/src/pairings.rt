//! The calls of a line that loses one before it is served and one after, beside a journal's
//! entries.

use crate::fixtures::{READY, asker, recorded};
use kob_connections::{IntoCalls, Loss, Lossy, RecordedLine};
use kob_endpoints::{Part, is_served};
use kob_names::PlainValue;
use kob_rights::Request;
use kob_router::{Call, Line};
use kob_shared::Recorded;
use std::alloc::Global;
use std::process::Abort;

/// Makes a call that is lost so, and the same call again, which is not lost.
fn send_twice<L: Line>(
    rt: &impl Abort,
    alloc: Global,
    line: &mut Lossy<L>,
    loss: Loss,
    request: Request,
) {
    let again = request.copy(alloc).expect(rt, READY);
    line.lose(loss);
    let _ = line.send(alloc, request);
    let _ = line.send(alloc, again);
}

/// The calls of worker 7: an introduction that was not served, one that was, and a listing that was
/// served twice, since the first reply was lost.
fn calls_of(rt: &impl Abort, alloc: Global, recorded: &mut Recorded) -> Vec<Call> {
    let (principal, host) = asker(rt, alloc, "User:root");
    let line = RecordedLine::open(alloc, recorded, 7, principal, host);
    let mut line = Lossy::over(alloc, line);
    send_twice(
        rt,
        alloc,
        &mut line,
        Loss::BeforeServe,
        Request::InitProducerId,
    );
    send_twice(rt, alloc, &mut line, Loss::AfterServe, Request::ListGroups);
    line.into_calls()
}

// A call that was lost before it was served takes no entry from one that was served: the journal's
// three entries are those of the four calls, and not of three of them.
#[test]
fn lost_calls_are_paired(rt: HostRuntime) {
    let alloc = rt.alloc();
    let mut recorded = recorded(&rt, alloc, 10);
    let calls = calls_of(&rt, alloc, &mut recorded);
    let mut part = Part { worker: 7, calls };
    assert_eq!(rt; recorded.journal().len(), 3);
    assert_eq!(rt; is_served(alloc, recorded.journal(), &part), Ok(true));
    let _ = part.calls.pop();
    assert_eq!(rt; is_served(alloc, recorded.journal(), &part), Ok(false));
}
