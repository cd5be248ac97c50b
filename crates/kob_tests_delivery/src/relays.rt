//! A service, which threads share.

ghost use Rattle.std.specs.Prelude.{◌≡◌, []};

use crate::fixtures::{CREATE_ORDERS, READY, default_route, order, shared};
use crate::pipeline_end::are_records;
use crate::sessions::{place_of, session};
use kob_connections::{IntoCalls, SessionLine};
use kob_endpoints::{RunningService, ServiceEnd, SharedService, is_served};
use kob_outbox::Outbox;
use kob_router::{Line, Tick};
use kob_shared::SharedBroker;
use std::alloc::Global;
use std::process::Abort;
use std::sync::Wait;
use std::sync::atomic::{AtomicBool, Ordering};
use std::thread;
use std::thread::Threads;

/// The ids of the events, in the order in which they are recorded.
const IDS: [u128; 12] = [7, 3, 12, 1, 9, 5, 11, 2, 8, 4, 10, 6];

/// Records the events, which get the numbers 1, 2 and so on. Notes at the end that no more follow.
fn record_all<R: Abort + Wait, L: Line>(
    rt: &R,
    alloc: Global,
    service: &SharedService<L>,
    is_over: &AtomicBool,
) {
    for (place, id) in IDS.iter().enumerate() {
        let (change, event) = order(alloc, *id, "paid").expect(rt, READY);
        assert_eq!(rt; service.record(rt, &change, &event), Ok(place as u64 + 1));
    }
    is_over.store(true, Ordering::SeqCst);
}

/// Each tick sends a row or finds none, until one finds none after the last was recorded.
fn send_all<R: Abort + Wait, L: Line>(
    rt: &R,
    alloc: Global,
    service: &SharedService<L>,
    is_over: &AtomicBool,
) {
    for _ in rt.forever() {
        let is_last = is_over.load(Ordering::SeqCst);
        let tick = service.tick(rt, alloc);
        let is_idle = matches!(&tick, Tick::Idle);
        assert!(rt; is_idle || matches!(&tick, Tick::Moved(_)));
        if is_idle && is_last {
            break;
        }
        thread::yield_now();
    }
}

/// One thread records what another sends at the same time.
fn record_and_send<R: Abort + Threads + Wait + Sync, L: Line + Send>(
    rt: &R,
    alloc: Global,
    service: &SharedService<L>,
) {
    let is_over = AtomicBool::new(false);
    thread::join(
        rt,
        || record_all(rt, alloc, service, &is_over),
        || send_all(rt, alloc, service, &is_over),
    );
}

/// A service with an empty outbox and the default route.
pub(crate) fn service<L: Line>(rt: &impl Abort, alloc: Global, line: L) -> RunningService<L>
    requires { L.calls line ≡ [] }
    ensures { result.earlier ≡ [] }
{
    let outbox = Outbox::open_in_memory(alloc).expect(rt, READY);
    let route = default_route(rt, alloc);
    RunningService::new(alloc, outbox, route, 1, line)
}

/// What the service leaves after its events were sent and its line was changed.
fn run<R: Abort + Threads + Wait + Sync, L: IntoCalls + Send + Drop>(
    rt: &R,
    alloc: Global,
    service: SharedService<L>,
    next: L,
) -> ServiceEnd
    requires { L.calls next ≡ [] }
{
    record_and_send(rt, alloc, &service);
    let all = Ok(IDS.len() as u64);
    assert_eq!(rt; service.mark(rt), all);
    assert_eq!(rt; service.sweep(rt), all);
    service.change_line(rt, next).expect(rt, "another line");
    let (service, earlier) = service.finish();
    service
        .close_after(1, earlier)
        .expect(rt, "the calls of both lines")
}

fn run_over<R: Abort + Threads + Wait + Sync>(
    rt: &R,
    alloc: Global,
    shared: &SharedBroker,
) -> ServiceEnd {
    let line = SessionLine::open(rt, alloc, session(rt, alloc, shared, 1));
    let next = SessionLine::open(rt, alloc, session(rt, alloc, shared, 1));
    let service = SharedService::open(service(rt, alloc, line), Vec::new(alloc));
    run(rt, alloc, service, next)
}

/// The place of the entry of the topic's creation.
fn create<R: Abort + Wait>(rt: &R, alloc: Global, shared: &SharedBroker) -> usize {
    let mut admin = session(rt, alloc, shared, 2);
    place_of(rt, alloc, &mut admin, CREATE_ORDERS)
}

// The service's calls, over both lines, are its entries, and the topic has the events in the order
// of their numbers, each once.
#[test]
fn events_are_recorded_while_others_are_sent(rt: HostRuntime) {
    let alloc = rt.alloc();
    let shared = shared(&rt, alloc, IDS.len() + 2);
    assert_eq!(rt; create(&rt, alloc, &shared), 0);
    let end = run_over(&rt, alloc, &shared);
    let (mut broker, journal) = shared.finish().into_parts();
    assert!(rt; are_records(alloc, &mut broker, &IDS));
    assert_eq!(rt; is_served(alloc, &journal, end.part()), Ok(true));
}
