//! One step of a consumer, by how it takes in.

ghost use Rattle.std.specs.Prelude.{◌≡◌, IfOk, OnOk};
ghost use Rattle.kob_scene_play.specs.Steps.{IsAheadTick, IsCalled, IsOwnTick, IsTakingTick};
ghost use Rattle.kob_scene_play.specs.Takings.{asked_event, inbox_by, inbox_with};
ghost use Rattle.kob_scene_text.specs.declared.scene.Taking.TheVariants.{CommitsBefore};

use crate::ask::ask;
use crate::commits_before::{handle_reply, take_held};
use crate::consumer_worker::ConsumerWorker;
use crate::fault::{TickFault, line_fault, loses_first, stop_of_consumer, unless};
use crate::holding::asked_next;
use crate::line::take_over;
use kob_connections::{Connection, Loss, LossyServer, RecordedLine, RecordedServer};
use kob_inbox::Tick;
use kob_names::PlainValue;
use kob_rights::Event;
use kob_router::Call;
use kob_scene_text::Taking;
use kob_shared::{Recorded, event_of};
use std::alloc::{AllocError, Global};

impl ConsumerWorker {
    /// One step by how it takes in.
    pub(crate) fn take_turn(
        &mut self,
        alloc: Global,
        recorded: &mut Recorded,
        taking: Taking,
        loss: Loss,
    ) -> Result<Tick, TickFault>
        requires { self.old.taking ≡ taking }
        ensures { IfOk result
            (IsTakingTick taking loss self.old self.new recorded.old recorded.new) }
    {
        match taking {
            Taking::Proved => self.go_on(alloc, recorded, loss),
            Taking::CommitsBefore => self.go_ahead(alloc, recorded, loss),
            Taking::NoDedup => self.go_on(alloc, recorded, loss),
        }
    }

    /// One step of the consumer itself. What its calls brought is noted if it is without dedup.
    #[tactic(auto, using(crate::proofs::Ticking::calls_noted))]
    fn go_on(
        &mut self,
        alloc: Global,
        recorded: &mut Recorded,
        loss: Loss,
    ) -> Result<Tick, TickFault>
        ensures { IfOk result (IsOwnTick loss self.old self.new recorded.old recorded.new) }
    {
        let (tick, calls) = self.tick_over(alloc, recorded, loss)?;
        match self.note(alloc, &calls) {
            Ok(()) => Ok(tick),
            Err(refused) => {
                drop(tick);
                Err(TickFault::Memory(refused))
            }
        }
    }

    /// Takes in each record that calls brought, if it is without dedup.
    fn note(&mut self, alloc: Global, calls: &[Call]) -> Result<(), AllocError>
        ensures { OnOk result (self.new ≡ record self.old {
          inbox = inbox_with self.old.taking self.old.inbox calls.now;
        }) }
    {
        match self.taking {
            Taking::Proved => Ok(()),
            Taking::CommitsBefore => Ok(()),
            Taking::NoDedup => self.every.take_in(alloc, calls),
        }
    }

    /// One step of the consumer itself, with its calls.
    fn tick_over(
        &mut self,
        alloc: Global,
        recorded: &mut Recorded,
        loss: Loss,
    ) -> Result<(Tick, Vec<Call>), TickFault>
        ensures called { IfOk result (λ told. IsCalled loss self.old self.new recorded.old
            recorded.new told.1.items told.0) }
        ensures inbox { self.new.inbox ≡ inbox_by self.old.taking self.new.own self.old.inbox }
    {
        let principal = self.principal.copy(alloc)?;
        let host = self.host.copy(alloc)?;
        let below = RecordedLine::open(alloc, recorded, self.worker, principal, host);
        let mut line = Connection::new(alloc, LossyServer { line: below, loss });
        let tick = take_over(&mut self.receiver, alloc, &mut line);
        let line_fault = line_fault(line.calls.fault, line.server.line.calls.fault);
        let fault = stop_of_consumer(&tick).or(line_fault);
        let is_lost = loses_first(loss, &line.calls.made);
        let (
            LossyServer {
                line: below,
                loss: _,
            },
            made,
        ) = line.close();
        let (below, calls) = below.close();
        drop(calls);
        let RecordedServer {
            recorded,
            worker: _,
            principal,
            host,
        } = below;
        drop((principal, host));
        let _ = *recorded;
        let told = unless(fault, is_lost, (tick, made))?;
        Ok(told)
    }

    /// One step of a consumer that commits before it takes in.
    fn go_ahead(
        &mut self,
        alloc: Global,
        recorded: &mut Recorded,
        loss: Loss,
    ) -> Result<Tick, TickFault>
        requires { self.old.taking ≡ CommitsBefore }
        ensures { IfOk result (IsAheadTick loss self.old self.new recorded.old recorded.new) }
    {
        let Some(event) = self.asked_next(alloc)? else {
            return take_held(alloc, &mut self.receiver, &mut self.holding);
        };
        match ask(alloc, recorded, self.worker, loss, &event) {
            Ok(heard) => {
                handle_reply(alloc, &mut self.receiver, &mut self.holding, event, heard)
            }
            Err(fault) => Err(TickFault::from(fault)),
        }
    }

    /// The next request, as it is asked.
    fn asked_next(&self, alloc: Global) -> Result<Option<Event>, AllocError>
        ensures { IfOk result (λ event. event ≡ asked_event self.now.principal self.now.host
            self.now.fetcher self.now.holding) }
    {
        let Some(request) = asked_next(alloc, self.receiver.consumer(), &self.holding)? else {
            return Ok(None);
        };
        let event = event_of(alloc, &self.principal, &self.host, request)?;
        Ok(Some(event))
    }
}
