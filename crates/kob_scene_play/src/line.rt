//! One tick of a worker over a line to the broker that may lose its first call.

ghost use Rattle.std.specs.Prelude.{◌≡◌};
ghost use Rattle.kob_inbox.specs.Tick.{Ticks, point_of};
ghost use Rattle.kob_connections.specs.Calls.{Journals, PassesCallsOn};
ghost use Rattle.kob_connections.specs.Relayed.{IsTick};
ghost use Rattle.kob_scene_play.specs.Services.{sent_as};

use crate::sent_line::SentLine;
use kob_connections::{Lossy, Receiver, RecordedLine, Relay};
use kob_inbox::Tick as ConsumerTick;
use kob_router::Tick as ServiceTick;
use std::alloc::Global;

/// One step of a router over the line.
pub(crate) fn send_over(
    relay: &mut Relay,
    alloc: Global,
    line: &mut Lossy<SentLine<'_>>,
) -> ServiceTick
    ensures same_broker { line.new.server.line.server.below.recorded.ghost_name
        ≡ line.old.server.line.server.below.recorded.ghost_name }
    ensures done { IsTick relay.old relay.new line.old.calls.made.items line.new.calls.made.items
        line.old.calls.unmade line.new.calls.unmade result }
    ensures passed { PassesCallsOn line.old.calls.made.items line.new.calls.made.items
        line.old.server.line.calls.made.items line.new.server.line.calls.made.items }
    ensures journaled { let was = line.old.server.line in
        let below = was.server.below in
        Journals below.worker below.principal below.host
        (sent_as was.server.is_bare was.calls.made.items)
        (sent_as was.server.is_bare line.new.server.line.calls.made.items)
        below.recorded.now line.new.server.line.server.below.recorded.now }
{
    relay.tick(alloc, line)
}

/// One step of a consumer over the line.
pub(crate) fn take_over(
    receiver: &mut Receiver,
    alloc: Global,
    line: &mut Lossy<RecordedLine<'_>>,
) -> ConsumerTick
    ensures same_broker { line.new.server.line.server.recorded.ghost_name
        ≡ line.old.server.line.server.recorded.ghost_name }
    ensures same { receiver.new.fetcher.subscription ≡ receiver.old.fetcher.subscription }
    ensures done { Ticks receiver.old.fetcher.subscription
        (point_of receiver.old.fetcher receiver.old.inbox line.old.calls.made.items
        line.old.calls.unmade)
        (point_of receiver.new.fetcher receiver.new.inbox line.new.calls.made.items
        line.new.calls.unmade) result }
    ensures passed { PassesCallsOn line.old.calls.made.items line.new.calls.made.items
        line.old.server.line.calls.made.items line.new.server.line.calls.made.items }
    ensures journaled { let was = line.old.server.line in
        Journals was.server.worker was.server.principal was.server.host
        was.calls.made.items line.new.server.line.calls.made.items
        was.server.recorded.now line.new.server.line.server.recorded.now }
{
    receiver.tick(alloc, line)
}
