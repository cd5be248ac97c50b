//! Two orders are placed and paid, and their events reach an inbox. Two threads record the changes
//! with their events, a third sends the events, and a fourth takes them in. An administrator revokes
//! the service's right to write, and grants it again. The reply to the first call of each line is
//! lost. Between the two states the service changes its line and restarts its router. The broker
//! hands its journal out after each event that is sent. In the end all journals are judged.
#![tactic(auto)]

ghost use Rattle.std.specs.Prelude.{◌≡◌, [], IfOk};

mod journals;
mod orders;

use crate::journals::HandedOut;
use crate::orders::{Delivered, Worked, broker, order_event, print, script};
use kob_connections::{AsWorker, IntoCalls, Loss, Lossy, ProgramFault, SessionLine};
use kob_endpoints::{
    ConsumerEnd, RunningConsumer, RunningService, ServiceEnd, SharedService, judged_in_turn,
    rotating_session_of,
};
use kob_inbox::{Inbox, Subscription};
use kob_names::PlainValue;
use kob_outbox::Outbox;
use kob_rights::Event;
use kob_router::{Line, Route, RouteSettings, Tick};
use kob_script::Script;
use kob_shared::{RotatingBroker, Session};
use std::alloc::Global;
use std::sync::Wait;
use std::thread;
use std::thread::{Threads, join};

/// How many events both orders have.
const EVENTS: usize = 4;

/// The service's right to write is revoked, and granted again.
const CHANGES: &str = "User:root h delete-acls - - any User:orders - Write -
User:root h create-acl allow User:orders * Write Topic literal outbox.event.order
";

fn main(rt: HostRuntime) -> Worked<()> {
    let alloc = rt.alloc();
    let delivered = deliver(&rt, alloc)?;
    print(&mut rt.stdout(), &delivered)
}

/// Delivers the orders over one broker: worker 1 sends, worker 2 takes in, and worker 3 administers.
fn deliver<R: Threads + Wait + Sync>(rt: &R, alloc: Global) -> Worked<Delivered> {
    let (opening, continued) = broker(alloc)?.next(alloc);
    let shared = RotatingBroker::open(continued);
    let mut handed = HandedOut::none(alloc);
    let begun = handed.keep(opening);
    let (sent, (taken, changed)) = join(
        rt,
        || serve(rt, alloc, &shared, &mut handed),
        || join(
            rt,
            || consume(rt, alloc, &shared),
            || administer(rt, alloc, &shared),
        ),
    );
    let (_, last) = shared.finish().into_parts();
    let ended = handed.keep(last);
    let mut taken = taken;
    let delivered = delivered(alloc, &handed, &sent, &mut taken);
    begun.and(ended).and(changed).and(delivered)
}

/// What has reached the inbox, judged by all journals in turn.
fn delivered(
    alloc: Global,
    handed: &HandedOut,
    sent: &Worked<ServiceEnd>,
    taken: &mut Worked<ConsumerEnd>,
) -> Worked<Delivered> {
    match (taken, sent) {
        (Ok(taken), Ok(sent)) => {
            let journals = handed.in_turn(alloc)?;
            let judged = judged_in_turn(alloc, &journals, sent, taken);
            let rows = taken.taken()?;
            Ok(Delivered { judged, rows })
        }
        (Err(fault), _) => Err(*fault),
        (_, Err(fault)) => Err(*fault),
    }
}

/// Worker 1 sends the events over two lines, also while its right is revoked.
fn serve<R: Threads + Wait + Sync>(
    rt: &R,
    alloc: Global,
    shared: &RotatingBroker,
    handed: &mut HandedOut,
) -> Worked<ServiceEnd> {
    let service = service(alloc, line(rt, alloc, shared)?)?;
    let service = SharedService::open(service, Vec::new(alloc));
    let next = line(rt, alloc, shared);
    serve_over(rt, alloc, shared, handed, service, next)
}

/// The orders are placed, and then paid. Between the two the service changes its line and restarts
/// its router.
fn serve_over<R: Threads + Wait + Sync, L: IntoCalls + AsWorker + Send + Drop>(
    rt: &R,
    alloc: Global,
    shared: &RotatingBroker,
    handed: &mut HandedOut,
    service: SharedService<L>,
    next: Worked<L>,
) -> Worked<ServiceEnd>
    requires { IfOk next (λ line. L.calls line ≡ []) }
{
    let placed = record_and_send(rt, alloc, shared, handed, &service, [1, 3], "placed");
    let changed = match next {
        Ok(line) => service
            .change_line(rt, line)
            .map_err(|refused| ProgramFault::from(refused)),
        Err(fault) => Err(fault),
    };
    service.restart(rt);
    let paid = record_and_send(rt, alloc, shared, handed, &service, [2, 4], "paid");
    let (service, earlier) = service.finish();
    let end = service.finish_after(earlier);
    placed.and(changed).and(paid)?;
    Ok(end?)
}

/// Two threads record the state of an order each, and a third sends the events.
fn record_and_send<R: Threads + Wait + Sync, L: Line + Send>(
    rt: &R,
    alloc: Global,
    shared: &RotatingBroker,
    handed: &mut HandedOut,
    service: &SharedService<L>,
    ids: [u128; 2],
    state: &str,
) -> Worked<()> {
    let (sent, (one, other)) = join(
        rt,
        || send_two(rt, alloc, shared, handed, service),
        || join(
            rt,
            || record(rt, alloc, service, ids[0], "41", state),
            || record(rt, alloc, service, ids[1], "42", state),
        ),
    );
    one.and(other).and(sent)
}

fn record<R: Wait, L: Line>(
    rt: &R,
    alloc: Global,
    service: &SharedService<L>,
    id: u128,
    order: &str,
    state: &str,
) -> Worked<()> {
    let (change, event) = order_event(alloc, id, order, state)?;
    service.record(rt, &change, &event)?;
    Ok(())
}

/// Ticks until two events are acknowledged. After each the broker hands its journal out.
fn send_two<R: Wait, L: Line>(
    rt: &R,
    alloc: Global,
    shared: &RotatingBroker,
    handed: &mut HandedOut,
    service: &SharedService<L>,
) -> Worked<()> {
    for _ in 0..2 {
        send_one(rt, alloc, service)?;
        handed.hand_out(rt, alloc, shared)?;
    }
    Ok(())
}

/// Ticks until an event is acknowledged.
fn send_one<R: Wait, L: Line>(rt: &R, alloc: Global, service: &SharedService<L>) -> Worked<()> {
    for _ in 0..u32::MAX {
        if matches!(service.tick(rt, alloc), Tick::Moved(_)) {
            return Ok(());
        }
        thread::yield_now();
    }
    Err(ProgramFault::Stopped)
}

/// A service with an empty outbox, whose events go to topics of one partition by the default route.
fn service<L: Line + Drop>(alloc: Global, line: L) -> Worked<RunningService<L>>
    requires { L.calls line ≡ [] }
    ensures { IfOk result (λ service. service.earlier ≡ []) }
{
    let route = Route::new(alloc, &RouteSettings::by_default(alloc)?)?;
    let outbox = Outbox::open_in_memory(alloc)?;
    Ok(RunningService::new(alloc, outbox, route, 1, line))
}

/// A line that loses the reply to its first call. The router makes the call again.
fn line<'a, R: Wait>(
    rt: &'a R,
    alloc: Global,
    shared: &'a RotatingBroker,
) -> Worked<Lossy<SessionLine<'a, R>>>
    ensures { IfOk result (λ line. line.calls.made.items ≡ []) }
{
    let session = rotating_session_of(alloc, shared, 1, "User:orders", "10.0.0.1")?;
    let mut line = Lossy::over(alloc, SessionLine::open(rt, alloc, session));
    line.lose(Loss::AfterServe);
    Ok(line)
}

/// Worker 2 takes the events in until all are there.
fn consume<R: Wait>(rt: &R, alloc: Global, shared: &RotatingBroker) -> Worked<ConsumerEnd> {
    let session = rotating_session_of(alloc, shared, 2, "User:mail", "10.0.0.2")?;
    let mut consumer = consumer(alloc, SessionLine::open(rt, alloc, session))?;
    let taken = consumer.take_rows(alloc, EVENTS, u32::MAX);
    consumer.finish_with(taken)
}

/// A consumer with an empty inbox, which takes in the events of all orders.
fn consumer<L: Line + Drop>(alloc: Global, line: L) -> Worked<RunningConsumer<L>>
    requires { L.calls line ≡ [] }
    ensures begun { IfOk result (λ consumer. consumer.earlier ≡ []) }
    ensures line { IfOk result (λ consumer. consumer.line ≡ line) }
{
    let subscription = Subscription::of(alloc, "mail", "outbox.event.order", 1, 10)?;
    let inbox = Inbox::open_in_memory(alloc)?;
    Ok(RunningConsumer::new(alloc, inbox, subscription, line))
}

/// Worker 3 revokes the service's right to write, and grants it again.
fn administer<R: Wait>(rt: &R, alloc: Global, shared: &RotatingBroker) -> Worked<()> {
    let mut session = rotating_session_of(alloc, shared, 3, "User:root", "10.0.0.3")?;
    let Script {
        settings: _,
        events,
    } = script(alloc, CHANGES)?;
    call_all(rt, alloc, &mut session, events.as_slice())
}

fn call_all<R: Wait>(
    rt: &R,
    alloc: Global,
    session: &mut Session<'_>,
    events: &[Event],
) -> Worked<()> {
    for event in events {
        let request = event.request.copy(alloc)?;
        session.call(rt, alloc, request)?;
    }
    Ok(())
}
