//! A service as a worker of the journal.

ghost use Rattle.std.specs.Prelude.{◌≡◌, ◌≤◌, [], None, Some, IfOk, IsErrOf, IsTrue, OnErr, OnOk};
ghost use Rattle.std.specs.Prelude.{length, map, option_map, string_bytes};
ghost use Rattle.kob_outbox.specs.Contents.{empty, id_text, stored_row, first_bad};
ghost use Rattle.kob_outbox.specs.Contents.{first_after, state_at, up_to, is_recorded, next_seq};
ghost use Rattle.kob_router.specs.Run.Move.{Recorded as RecordedMove, Restarted, Swept};
ghost use Rattle.kob_scene_play.specs.Services.{Does, IsSeenTick, IsServiceTick};
ghost use Rattle.kob_scene_play.specs.Services.{IsTickOfService, is_repeat};

use crate::fault::{TickFault, has_loss};
use crate::poll::Poll;
use kob_connections::{Loss, Relay};
use kob_names::{Host, Principal};
use kob_outbox::{Change, OutboxEvent, OutboxFault, RecordFault, Row};
use kob_router::{Target, Tick};
use kob_scene_text::Sending;
use kob_shared::Recorded;
use std::alloc::{AllocError, Global};
use std::marker::Model;

/// A service: its number in the journal, who it is, how it sends, its router with its outbox, the
/// events of its scene that it recorded, those of which it wrote the business row alone, and the
/// numbers of its hidden rows.
#[derive(Drop)]
pub struct ServiceWorker<'s> {
    pub(crate) worker: usize,
    pub(crate) principal: Principal,
    pub(crate) host: Host,
    pub(crate) sending: Sending,
    pub(crate) relay: Relay,
    recorded: Vec<&'s OutboxEvent>,
    pub(crate) unwritten: Vec<&'s OutboxEvent>,
    pub(crate) hidden: Vec<u64>,
}

impl<'s> Model for ServiceWorker<'s> {
    ghost use Rattle.std.specs.Coded.{codes};
    ghost use Rattle.std.specs.Prelude.{map};
    ghost use Rattle.kob_outbox.specs.Contents.{contents_code};
    ghost use Rattle.kob_scene_play.specs.Services.{Service};

    ghost Value = { Service };

    ghost coded = { Prim.hlevel (codes, contents_code) };

    ghost view = { λ w. record {
      worker = w.worker;
      principal = w.principal;
      host = w.host;
      sending = w.sending;
      sender = w.relay.router;
      outbox = w.relay.outbox;
      recorded = map (λ event. event.now) w.recorded.items;
      unwritten = map (λ event. event.now) w.unwritten.items;
      hidden = w.hidden.items;
    } };
}

impl<'s> ServiceWorker<'s> {
    /// A service with an empty outbox and a router that has made no call.
    pub fn open(
        alloc: Global,
        worker: usize,
        principal: Principal,
        host: Host,
        sending: Sending,
        target: Target,
    ) -> Result<ServiceWorker<'s>, OutboxFault>
        requires some { 1 ≤ target.partitions }
        requires most { target.partitions ≤ 1000 }
        ensures { IfOk result (λ w. w ≡ record {
          worker = worker;
          principal = principal;
          host = host;
          sending = sending;
          sender = record { target = target; producer = None; sequences = []; hand = None };
          outbox = empty;
          recorded = [];
          unwritten = [];
          hidden = [];
        }) }
    {
        let relay = Relay::open(alloc, target)?;
        Ok(ServiceWorker {
            worker,
            principal,
            host,
            sending,
            relay,
            recorded: Vec::new(alloc),
            unwritten: Vec::new(alloc),
            hidden: Vec::new(alloc),
        })
    }

    /// Its number in the journal.
    pub fn number(&self) -> usize
        ensures { result ≡ self.now.worker }
    {
        self.worker
    }

    /// The events that it recorded, in their order. Those that were swept are among them.
    pub fn recorded(&self) -> &[&'s OutboxEvent]
        ensures { map (λ event. event.now) result.now ≡ self.now.recorded }
    {
        &self.recorded
    }

    /// Records an event together with the change that it reports.
    pub fn record(&mut self, change: &Change, event: &'s OutboxEvent) -> Result<u64, RecordFault>
        ensures value { IfOk result (λ seq. seq ≡ next_seq self.old.outbox) }
        ensures ok { OnOk result (Does (RecordedMove change.now event.now) self.old self.new) }
        ensures err { OnErr result (self.new ≡ self.old) }
        ensures bad { (column : _) → IsErrOf result (RecordFault.BadField column)
            → first_bad change.now event.now ≡ Some column }
        ensures duplicate { IsErrOf result RecordFault.DuplicateId
            → IsTrue (is_recorded self.old.outbox.ids (id_text event.now.id)) }
    {
        if let Err(refused) = self.recorded.reserve(1) {
            return Err(RecordFault::Memory(refused));
        }
        match self.relay.record(change, event) {
            Ok(seq) => {
                self.recorded.push_reserved(event);
                Ok(seq)
            }
            Err(fault) => Err(fault),
        }
    }

    fn sending(&self) -> Sending
        ensures { result ≡ self.now.sending }
    {
        self.sending
    }

    /// One step over the broker, whose first call has this loss. Its calls get their entries in the
    /// journal under its number, its principal and its host. A variant does what it does before and
    /// after such a step. One that sees hidden rows alone makes no call, and is idle.
    pub fn tick(
        &mut self,
        alloc: Global,
        recorded: &mut Recorded,
        loss: Loss,
    ) -> Result<Tick, TickFault>
        ensures { IfOk result (IsServiceTick loss self.old self.new recorded.old recorded.new) }
    {
        let before = recorded.journal().len();
        let tick = self.make_tick(alloc, recorded, loss)?;
        let after = recorded.journal().len();
        if has_loss(loss, is_repeat(&tick), before, after) {
            Ok(tick)
        } else {
            drop(tick);
            Err(TickFault::NotLost)
        }
    }

    /// One step, by what its router sees.
    #[tactic(auto, using(crate::proofs::Polling::tick_as_ever, crate::proofs::Polling::tick_past, crate::proofs::Polling::tick_sees_none, crate::proofs::Polling::none_in_flight))]
    fn make_tick(
        &mut self,
        alloc: Global,
        recorded: &mut Recorded,
        loss: Loss,
    ) -> Result<Tick, TickFault>
        ensures { IfOk result (IsTickOfService loss self.old self.new recorded.old recorded.new) }
    {
        match self.poll()? {
            Poll::Own => self.tick_seen(alloc, recorded, loss),
            Poll::Past(seq) => {
                self.pass_to(seq)?;
                self.tick_seen(alloc, recorded, loss)
            }
            Poll::Nothing => Ok(Tick::Idle),
        }
    }

    /// One step of the router, and what is done after it.
    fn tick_seen(
        &mut self,
        alloc: Global,
        recorded: &mut Recorded,
        loss: Loss,
    ) -> Result<Tick, TickFault>
        ensures { IfOk result (IsSeenTick loss self.old self.new recorded.old recorded.new) }
    {
        let sending = self.sending();
        let tick = self.send(alloc, recorded, sending, loss)?;
        match self.go_on(sending, &tick) {
            Ok(()) => Ok(tick),
            Err(fault) => {
                drop(tick);
                Err(fault)
            }
        }
    }

    /// Restarts the router. The outbox is unchanged. Does not allocate.
    pub fn restart(&mut self)
        ensures { Does Restarted self.old self.new }
    {
        self.relay.restart();
    }

    /// Removes the rows up to the mark, and returns how many they were.
    pub fn sweep(&mut self) -> Result<u64, OutboxFault>
        ensures value { IfOk result (λ count. count
            ≡ length (up_to self.old.outbox.mark self.old.outbox.events)) }
        ensures ok { OnOk result (Does Swept self.old self.new) }
        ensures err { OnErr result (self.new ≡ self.old) }
    {
        self.relay.sweep()
    }

    /// The mark of its outbox. The error is out of memory.
    pub fn mark(&mut self) -> Result<u64, AllocError>
        ensures value { IfOk result (λ mark. mark ≡ self.old.outbox.mark) }
        ensures same { self.new ≡ self.old }
    {
        match self.relay.mark() {
            Ok(mark) => Ok(mark),
            Err(OutboxFault::Memory(refused)) => Err(refused),
            Err(OutboxFault::Store) => unreachable!(),
        }
    }

    /// The first rows after this number that were not swept, at most this many. The error is out of
    /// memory.
    pub fn rows_after(&mut self, seq: u64, limit: u32) -> Result<Vec<Row>, AllocError>
        ensures rows { IfOk result (λ rows. map stored_row rows.items
            ≡ first_after seq limit self.old.outbox.events) }
        ensures same { self.new ≡ self.old }
    {
        match self.relay.after(seq, limit) {
            Ok(rows) => Ok(rows),
            Err(OutboxFault::Memory(refused)) => Err(refused),
            Err(OutboxFault::Store) => unreachable!(),
        }
    }

    /// The state of its business row with this kind and id, if there is one. The error is out of
    /// memory.
    pub fn business(&mut self, kind: &str, id: &str) -> Result<Option<String>, AllocError>
        ensures value { IfOk result (λ found. option_map string_bytes found
            ≡ state_at kind.now id.now self.old.outbox.business) }
        ensures same { self.new ≡ self.old }
    {
        match self.relay.business(kind, id) {
            Ok(found) => Ok(found),
            Err(OutboxFault::Memory(refused)) => Err(refused),
            Err(OutboxFault::Store) => unreachable!(),
        }
    }
}

/// Whether a step has to be made again.
fn is_repeat(tick: &Tick) -> bool
    ensures { result ≡ is_repeat tick.now }
{
    match tick {
        Tick::Repeat => true,
        Tick::Moved(_) | Tick::Idle | Tick::Stopped(_) => false,
    }
}
