//! Sessions, fleets and pipelines that run out of memory. `.ci/refuse` runs them with each
//! allocation and each start of a thread refused in turn.

ghost use Rattle.std.specs.Prelude.{◌≤◌};

use crate::fixtures::{CREATE, METADATA, WRITE, offset_of, request_of, scripts_of, shared};
use crate::fleets::{ended, tells_two_each};
use crate::gates::Holding;
use crate::pipeline_end::{RECORDED, are_records, each_begins, is_marked};
use crate::pipelines::run;
use crate::plans::plan_of_two;
use crate::sessions::{place_of, session};
use kob_names::PlainValue;
use kob_pipeline::{PipelineEnd, PipelineFault};
use kob_rights::Request;
use kob_shared::{CallFault, FleetFault, FleetStop, Session};
use std::alloc::Global;
use std::process::Abort;
use std::sync::Wait;
use std::thread::Threads;

/// Whether a write gets this offset, with an entry at this place.
fn write<R: Wait>(
    rt: &R,
    alloc: Global,
    session: &mut Session<'_>,
    request: &Request,
    (offset, place): (u64, usize),
) -> Result<bool, CallFault> {
    let request = request.copy(alloc)?;
    let receipt = session.call(rt, alloc, request)?;
    Ok(offset_of(&receipt.reply) == Some(offset) && receipt.place == place)
}

/// The same. If memory runs out and the session has seen nothing new, the write is made again.
fn writes<R: Wait>(
    rt: &R,
    alloc: Global,
    session: &mut Session<'_>,
    request: &Request,
    due: (u64, usize),
) -> Result<bool, CallFault> {
    let seen = session.seen();
    let written = write(rt, alloc, session, request, due);
    if matches!(written, Err(CallFault::Memory(_))) && session.seen() == seen {
        return write(rt, alloc, session, request, due);
    }
    written
}

/// Two writes are served one after another.
#[test]
fn calls_of_a_session(rt: HostRuntime) {
    let alloc = rt.alloc();
    let request = request_of(&rt, alloc, WRITE);
    let shared = shared(&rt, alloc, 10);
    let mut root = session(&rt, alloc, &shared, 1);
    assert_eq!(rt; place_of(&rt, alloc, &mut root, CREATE), 0);
    for due in [(0, 1), (1, 2)] {
        assert_eq!(rt; writes(&rt, alloc, &mut root, &request, due), Ok(true));
    }
    assert_eq!(rt; root.seen(), 3);
}

/// Whether two scripts are run to the right end. `None` if memory or a thread was refused.
fn serves_two<R: Abort + Threads + Wait + Sync>(rt: &R, alloc: Global) -> Option<bool> {
    let scripts = scripts_of(rt, alloc, METADATA, 2, 2);
    let gate = Holding::at(&[], 0);
    let ended = ended(rt, alloc, Vec::new(alloc), Vec::new(alloc), scripts, &gate);
    match &ended {
        Ok(end) => Some(tells_two_each(end, 2)),
        Err(FleetFault::Stopped(FleetStop::Memory(_) | FleetStop::NotBegun)) => None,
        Err(_) => Some(false),
    }
}

#[test]
fn two_scripts(rt: HostRuntime) {
    let served = match serves_two(&rt, rt.alloc()) {
        None => serves_two(&rt, rt.alloc()),
        served => served,
    };
    assert_eq!(rt; served, Some(true));
}

/// Whether both events were sent, and each inbox begins with them. What could not be read for lack
/// of memory is read again.
fn is_whole(alloc: Global, end: &mut PipelineEnd) -> bool {
    let both = are_records(alloc, &mut end.broker, &RECORDED)
        || are_records(alloc, &mut end.broker, &RECORDED);
    both && each_begins(end, 0) && is_marked(end)
}

/// Whether a pipeline comes to such an end. `None` if memory or a thread was refused.
fn delivers_two<R: Abort + Threads + Wait + Sync>(rt: &R, alloc: Global) -> Option<bool> {
    let plan = plan_of_two(rt, alloc);
    let mut ran = run(rt, alloc, &plan, &Holding::at(&[], 0));
    match &mut ran {
        Ok(end) => Some(is_whole(alloc, end)),
        Err(PipelineFault::Stopped(FleetStop::Memory(_) | FleetStop::NotBegun)) => None,
        Err(_) => Some(false),
    }
}

#[test]
fn a_pipeline(rt: HostRuntime) {
    let delivered = match delivers_two(&rt, rt.alloc()) {
        None => delivers_two(&rt, rt.alloc()),
        delivered => delivered,
    };
    assert_eq!(rt; delivered, Some(true));
}
