//! One step of the router of a service, and what the service does after it.

ghost use Rattle.std.specs.Prelude.{◌≡◌, IfOk, OnOk};
ghost use Rattle.kob_scene_play.specs.Services.{GivesUp, GoesOn, IsRouterTick, Skips, StartsAgain};
ghost use Rattle.kob_scene_play.specs.Services.{sent_as, sent_by};

use crate::fault::{TickFault, line_fault, loses_first, stop_of_service, unless};
use crate::line::send_over;
use crate::sent_line::SentServer;
use crate::service_worker::ServiceWorker;
use crate::skip::skip_first;
use kob_connections::{Connection, Loss, LossyServer, RecordedServer};
use kob_names::PlainValue;
use kob_router::Tick;
use kob_scene_text::Sending;
use kob_shared::Recorded;
use std::alloc::Global;

impl<'s> ServiceWorker<'s> {
    /// One step of the router.
    pub(crate) fn send(
        &mut self,
        alloc: Global,
        recorded: &mut Recorded,
        sending: Sending,
        loss: Loss,
    ) -> Result<Tick, TickFault>
        ensures { IfOk result (IsRouterTick (sent_by sending) loss self.old self.new recorded.old
            recorded.new) }
    {
        match sending {
            Sending::Proved => self.send_as(alloc, recorded, false, loss),
            Sending::RetriesNew => self.send_as(alloc, recorded, false, loss),
            Sending::DeletesFirst => self.send_as(alloc, recorded, false, loss),
            Sending::NotIdempotent => self.send_as(alloc, recorded, true, loss),
            Sending::Separate => self.send_as(alloc, recorded, false, loss),
            Sending::VisibleLate => self.send_as(alloc, recorded, false, loss),
        }
    }

    /// One step of the router, whose calls are served without producer ids, or as they are.
    fn send_as(
        &mut self,
        alloc: Global,
        recorded: &mut Recorded,
        is_bare: bool,
        loss: Loss,
    ) -> Result<Tick, TickFault>
        ensures { IfOk result (IsRouterTick (sent_as is_bare) loss self.old self.new recorded.old
            recorded.new) }
    {
        let principal = self.principal.copy(alloc)?;
        let host = self.host.copy(alloc)?;
        let below = RecordedServer {
            recorded,
            worker: self.worker,
            principal,
            host,
        };
        let sent = Connection::new(alloc, SentServer { below, is_bare });
        let mut line = Connection::new(alloc, LossyServer { line: sent, loss });
        let tick = send_over(&mut self.relay, alloc, &mut line);
        let line_fault = line_fault(line.calls.fault, line.server.line.calls.fault);
        let fault = stop_of_service(&tick).or(line_fault);
        let is_lost = loses_first(loss, &line.calls.made);
        let (
            LossyServer {
                line: sent,
                loss: _,
            },
            calls,
        ) = line.close();
        drop(calls);
        let (SentServer { below, is_bare: _ }, calls) = sent.close();
        drop(calls);
        let RecordedServer {
            recorded,
            worker: _,
            principal,
            host,
        } = below;
        drop((principal, host));
        let _ = *recorded;
        let tick = unless(fault, is_lost, tick)?;
        Ok(tick)
    }

    /// What is done after a step of the router.
    pub(crate) fn go_on(&mut self, sending: Sending, tick: &Tick) -> Result<(), TickFault>
        ensures { OnOk result (GoesOn sending tick.now self.old self.new) }
    {
        match sending {
            Sending::Proved => Ok(()),
            Sending::RetriesNew => self.start_again(tick),
            Sending::DeletesFirst => self.give_up(tick),
            Sending::NotIdempotent => Ok(()),
            Sending::Separate => Ok(()),
            Sending::VisibleLate => Ok(()),
        }
    }

    /// Restarts the router after a call that was lost.
    fn start_again(&mut self, tick: &Tick) -> Result<(), TickFault>
        ensures { OnOk result (StartsAgain tick.now self.old self.new) }
    {
        match tick {
            Tick::Moved(_) => Ok(()),
            Tick::Idle => Ok(()),
            Tick::Repeat => {
                self.restart();
                Ok(())
            }
            Tick::Stopped(_) => Ok(()),
        }
    }

    /// Gives a row up that was not acknowledged.
    fn give_up(&mut self, tick: &Tick) -> Result<(), TickFault>
        ensures { OnOk result (GivesUp tick.now self.old self.new) }
    {
        match tick {
            Tick::Moved(_) => Ok(()),
            Tick::Idle => Ok(()),
            Tick::Repeat => self.skip(),
            Tick::Stopped(_) => self.skip(),
        }
    }

    /// Restarts the router, and moves the mark past the first row after it.
    fn skip(&mut self) -> Result<(), TickFault>
        ensures { OnOk result (Skips self.old self.new) }
    {
        self.relay.restart();
        skip_first(&mut self.relay)?;
        Ok(())
    }
}
