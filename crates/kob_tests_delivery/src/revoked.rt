//! A right that is revoked while its owner uses it.

use crate::fixtures::{CREATE, READY, events_of, offset_of, request_of, script};
use crate::fleets::run;
use crate::gates::{Hold, Holding};
use kob_names::{Binding, Verdict};
use kob_rights::{Code, Reply, Request};
use kob_shared::{FleetEnd, Transcript};
use std::alloc::Global;
use std::process::Abort;
use std::sync::Wait;
use std::thread::Threads;

/// `User:svc` may write to the topic `t`, from every host.
const ALLOW: &str = "User:root h create-acl allow User:svc * Write Topic literal t";

/// It does.
const SERVICE_WRITE: &str = "User:svc h produce t 0 - v";

/// The binding that allows it is deleted.
const REVOKE: &str = "User:root h delete-acls - - any User:svc - Write -";

/// The binding that allows `User:svc` to write.
pub(crate) fn write_allowed(rt: &impl Abort, alloc: Global) -> Vec<Binding> {
    let request = request_of(rt, alloc, ALLOW);
    let draft = match &request {
        Request::CreateAcls(asked) => asked.drafts.as_slice().first(),
        _ => None,
    };
    let binding = Binding::new(alloc, draft.expect(rt, READY)).expect(rt, READY);
    vec![in alloc; binding].expect(rt, READY)
}

/// The end of four PRODUCE requests of `User:svc` and one DELETE_ACLS of `User:root`, if the gate
/// admits the second.
fn revoke_at<R: Abort + Threads + Wait + Sync>(
    rt: &R,
    alloc: Global,
    gate: &Holding<'_>,
) -> FleetEnd {
    let writer = script(rt, alloc, SERVICE_WRITE, 4);
    let revoker = script(rt, alloc, REVOKE, 1);
    let scripts = vec![in alloc; writer, revoker].expect(rt, READY);
    let opening = write_allowed(rt, alloc);
    let first = events_of(rt, alloc, CREATE);
    run(rt, alloc, opening, first, scripts, gate)
}

/// Whether the reply denies a topic, since nothing allows it.
fn is_denied(reply: &Reply) -> bool {
    match reply {
        Reply::Denied { code, verdicts } => {
            matches!(code, Code::TopicAuthorizationFailed)
                && matches!(verdicts.as_slice(), [Verdict::NoAllow])
        }
        _ => false,
    }
}

/// Whether what was produced before the request of this number was served, and what came from it on
/// was denied.
fn is_told(told: &Transcript, number: usize) -> bool {
    for (place, receipt) in told.receipts().iter().enumerate() {
        let is_due = if place < number.wrapping_sub(1) {
            offset_of(&receipt.reply) == Some(place as u64)
        } else {
            is_denied(&receipt.reply)
        };
        if !is_due {
            return false;
        }
    }
    told.len() == 4
}

/// Whether the fleet ends with the revocation before the service's request of this number.
fn is_revoked(end: &FleetEnd, number: usize) -> bool {
    match (end.transcripts.get(1), end.journal.get(number)) {
        (Some(told), Some(entry)) => {
            is_told(told, number)
                && end.journal.len() == 6
                && matches!(&entry.event.request, Request::DeleteAcls(_))
        }
        _ => false,
    }
}

/// A right that is revoked before the service's request of this number, from 1, is gone from there
/// on. Worker 2 is held until worker 1 has come to that request, and worker 1 there until worker 2
/// is done.
fn revoke_before<R: Abort + Threads + Wait + Sync>(rt: &R, alloc: Global, number: usize) {
    let holds = [
        Hold {
            worker: 2,
            number: 1,
            other: 1,
            comes_to: number as u64,
        },
        Hold {
            worker: 1,
            number,
            other: 2,
            comes_to: 2,
        },
    ];
    let gate = Holding::at(&holds, 0);
    let end = revoke_at(rt, alloc, &gate);
    assert!(rt; is_revoked(&end, number), "before request {number}");
    assert!(rt; gate.all_came(), "before request {number}");
}

#[test]
fn revoked_while_producing(rt: HostRuntime) {
    for number in 1..6 {
        revoke_before(&rt, rt.alloc(), number);
    }
}
