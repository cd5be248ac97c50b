//! A line to a broker whose journal is full.

use crate::fixtures::{asker, recorded};
use kob_connections::{IntoCalls, RecordedLine};
use kob_rights::Request;
use kob_router::{Delivery, Line};
use kob_shared::{CallFault, Recorded};
use std::alloc::Global;
use std::process::Abort;

/// Whether the reply to a call of a line is received.
fn is_heard<L: Line>(alloc: Global, line: &mut L) -> bool {
    let delivery = line.send(alloc, Request::InitProducerId);
    matches!(&delivery, Delivery::Delivered(_))
}

/// Two of three calls over a journal for two entries are served, where the second is none of the
/// line, and the line reports the full journal after the third and not before. The third call is
/// counted, and not noted.
fn fills(rt: &impl Abort, alloc: Global, recorded: &mut Recorded) {
    let (principal, host) = asker(rt, alloc, "User:root");
    let mut line = RecordedLine::open(alloc, recorded, 7, principal, host);
    let first = is_heard(alloc, &mut line);
    let second = line.server.call(alloc, Request::InitProducerId);
    let _ = second.expect(rt, "a reply");
    let before = line.calls.fault;
    let third = is_heard(alloc, &mut line);
    let (after, unmade) = (line.calls.fault, line.unmade_calls());
    let made = line.into_calls().len();
    assert_eq!(rt; (first, third), (true, false));
    assert_eq!(rt; (before, after), (None, Some(CallFault::JournalFull)));
    assert_eq!(rt; (made, unmade), (1, 1));
}

// A journal for two entries: the third call is not served, and the line reports why.
#[test]
fn a_full_journal_is_named(rt: HostRuntime) {
    let mut recorded = recorded(&rt, rt.alloc(), 2);
    fills(&rt, rt.alloc(), &mut recorded);
    let workers = recorded.journal().iter().map(|entry| entry.worker);
    assert!(rt; workers.eq([7, 7]));
}
