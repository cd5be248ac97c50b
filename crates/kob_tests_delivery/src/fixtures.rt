//! Brokers, requests, scripts, lines and outboxes that the tests share.

ghost use Rattle.std.specs.Prelude.{IfOk, ◌≤◌};
ghost use Rattle.kob_shared.specs.Journals.{IsFresh};

use kob_broker::{Broker, OpenFault, Settings};
use kob_connections::BrokerLine;
use kob_names::{Binding, Host, Items, PlainValue, Principal};
use kob_outbox::{Change, Outbox, OutboxEvent, RecordFault};
use kob_rights::{Body, Event, Reply, Request};
use kob_router::{Route, RouteSettings};
use kob_script::read_script;
use kob_shared::{Entry, Journal, Recorded, Script, SharedBroker};
use std::alloc::{AllocError, Global};
use std::process::Abort;
use uuid::Uuid;

/// What a failed step of making ready says. `.ci/refuse` knows by it that a test did not begin.
pub(crate) const READY: &str = "making ready";

/// The topic of events about orders.
pub(crate) const ORDERS: &str = "outbox.event.orders";

/// It is created, with one partition.
pub(crate) const CREATE_ORDERS: &str = "User:root h create-topic outbox.event.orders 1";

/// A record is written to it.
pub(crate) const WRITE_ORDERS: &str = "User:root h produce outbox.event.orders 0 - v";

/// The topic `t` with one partition is created.
pub(crate) const CREATE: &str = "User:root h create-topic t 1";

/// One record is written to it.
pub(crate) const WRITE: &str = "User:root h produce t 0 - v";

/// All topics are asked for.
pub(crate) const METADATA: &str = "User:root h metadata";

/// The size of the allocation by which `.ci/refuse` knows that all that come after it are to be
/// refused.
const CUE: usize = 7_654_321;

/// Nothing is allocated from here on. If `.ci/refuse` runs the test, each allocation from here on
/// is refused.
pub(crate) fn refuse_from_here(alloc: Global) -> bool {
    Vec::<u8>::with_capacity(alloc, CUE).is_ok()
}

/// The events of a script.
pub(crate) fn events_of(rt: &impl Abort, alloc: Global, lines: &str) -> Vec<Event> {
    let script = read_script(alloc, lines.as_bytes()).expect(rt, READY);
    script.events.into_vec()
}

/// The one event of a script's line.
pub(crate) fn event_of(rt: &impl Abort, alloc: Global, line: &str) -> Event {
    events_of(rt, alloc, line).pop().expect(rt, READY)
}

/// The request of a script's line.
pub(crate) fn request_of(rt: &impl Abort, alloc: Global, line: &str) -> Request {
    event_of(rt, alloc, line).into_request()
}

/// This number of copies of the request of a line, by the principal of the line.
pub(crate) fn script(rt: &impl Abort, alloc: Global, line: &str, times: usize) -> Script {
    let event = event_of(rt, alloc, line);
    let mut requests = Vec::new(alloc);
    for _ in 0..times {
        let copy = event.request.copy(alloc).expect(rt, READY);
        requests.push(copy).expect(rt, READY);
    }
    Script {
        principal: event.principal.copy(alloc).expect(rt, READY),
        host: event.host.copy(alloc).expect(rt, READY),
        requests,
    }
}

/// This number of such scripts.
pub(crate) fn scripts_of(
    rt: &impl Abort,
    alloc: Global,
    line: &str,
    workers: usize,
    times: usize,
) -> Vec<Script> {
    let mut scripts = Vec::new(alloc);
    for _ in 0..workers {
        let script = script(rt, alloc, line, times);
        scripts.push(script).expect(rt, READY);
    }
    scripts
}

/// A new broker.
fn opened(alloc: Global, settings: Settings) -> Result<Broker, OpenFault>
    ensures { IfOk result IsFresh }
{
    Broker::open(alloc, settings)
}

/// A broker whose one super user is `User:root`, with these bindings in force.
pub(crate) fn broker(rt: &impl Abort, alloc: Global, opening: Vec<Binding>) -> Broker
    ensures { IsFresh result }
{
    let script = read_script(alloc, b"super User:root").expect(rt, READY);
    let mut settings = script.settings;
    settings.opening = Items::from_vec(opening);
    opened(alloc, settings).expect(rt, READY)
}

/// Such a broker, without bindings, with a journal of at most this number of entries.
pub(crate) fn recorded(rt: &impl Abort, alloc: Global, limit: usize) -> Recorded
    requires { limit ≤ 1000000 }
{
    let broker = broker(rt, alloc, Vec::new(alloc));
    Recorded::open(alloc, broker, limit).expect(rt, READY)
}

/// Serves a worker's event.
pub(crate) fn serve(
    rt: &impl Abort,
    alloc: Global,
    recorded: &mut Recorded,
    worker: usize,
    event: &Event,
) {
    recorded.serve_as(alloc, worker, event).expect(rt, READY);
}

/// Serves the events of a script's lines, each with its worker.
pub(crate) fn serve_all(
    rt: &impl Abort,
    alloc: Global,
    recorded: &mut Recorded,
    lines: &[(usize, &str)],
) {
    for (worker, line) in lines {
        let event = event_of(rt, alloc, line);
        serve(rt, alloc, recorded, *worker, &event);
    }
}

/// Copies of a journal's entries from a place on.
pub(crate) fn copies(
    rt: &impl Abort,
    alloc: Global,
    journal: &Journal,
    from: usize,
    to: usize,
) -> Vec<Entry> {
    let mut entries = Vec::new(alloc);
    for place in from..to {
        let entry = journal.get(place).expect(rt, READY);
        let copy = entry.copy(alloc).expect(rt, READY);
        entries.push(copy).expect(rt, READY);
    }
    entries
}

/// Such a broker and journal under a lock.
pub(crate) fn shared(rt: &impl Abort, alloc: Global, limit: usize) -> SharedBroker
    requires { limit ≤ 1000000 }
{
    SharedBroker::open(recorded(rt, alloc, limit))
}

/// Such a broker with the topic of orders.
pub(crate) fn broker_of_orders(rt: &impl Abort, alloc: Global) -> Broker {
    let mut broker = broker(rt, alloc, Vec::new(alloc));
    let event = event_of(rt, alloc, CREATE_ORDERS);
    broker.serve(alloc, &event).expect(rt, READY);
    broker
}

/// The reply to a line of a script, or `None` if memory is refused.
pub(crate) fn answer(alloc: Global, broker: &mut Broker, line: &str) -> Option<Reply> {
    let script = read_script(alloc, line.as_bytes()).ok()?;
    let event = script.events.into_vec().pop()?;
    broker.serve(alloc, &event).ok()
}

/// The offset in the reply.
pub(crate) fn offset_of(reply: &Reply) -> Option<u64> {
    match reply {
        Reply::Done(Body::Offset(offset)) => Some(*offset),
        _ => None,
    }
}

/// A principal, and the host `h`.
pub(crate) fn asker(rt: &impl Abort, alloc: Global, who: &str) -> (Principal, Host) {
    let principal = Principal::parse(alloc, who).expect(rt, READY);
    (principal, Host::parse(alloc, "h").expect(rt, READY))
}

/// A line of the super user.
pub(crate) fn line_to<'a>(
    rt: &impl Abort,
    alloc: Global,
    broker: &'a mut Broker,
) -> BrokerLine<'a> {
    let (principal, host) = asker(rt, alloc, "User:root");
    BrokerLine::open(alloc, broker, principal, host)
}

/// The default route.
pub(crate) fn default_route(rt: &impl Abort, alloc: Global) -> Route {
    let settings = RouteSettings::by_default(alloc).expect(rt, READY);
    Route::new(alloc, &settings).expect(rt, READY)
}

/// The change that gives the order 42 this state, and its event with this id.
pub(crate) fn order(
    alloc: Global,
    id: u128,
    state: &str,
) -> Result<(Change, OutboxEvent), AllocError> {
    let change = Change::of(alloc, "orders", "42", state)?;
    let event = OutboxEvent::of(alloc, Uuid::from_u128(id), &change, "{}")?;
    Ok((change, event))
}

/// Records that the order 42 has this state, with an event of this id.
pub(crate) fn record(
    alloc: Global,
    outbox: &mut Outbox,
    id: u128,
    state: &str,
) -> Result<u64, RecordFault> {
    let (change, event) = order(alloc, id, state).map_err(RecordFault::Memory)?;
    outbox.record(&change, &event)
}

/// An outbox with this number of events about orders, whose ids are 1, 2 and so on.
pub(crate) fn outbox(rt: &impl Abort, alloc: Global, count: u128) -> Outbox {
    let mut outbox = Outbox::open_in_memory(alloc).expect(rt, READY);
    for id in 0..count {
        record(alloc, &mut outbox, id.wrapping_add(1), "paid").expect(rt, READY);
    }
    outbox
}
