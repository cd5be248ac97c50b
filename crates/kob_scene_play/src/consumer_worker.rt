//! A consumer as a worker of the journal.

ghost use Rattle.std.specs.Prelude.{◌≡◌, [], IfOk, OnOk, map};
ghost use Rattle.std.specs.List.{enumerate_from};
ghost use Rattle.kob_inbox.specs.Contents.{placed_intake};
ghost use Rattle.kob_inbox.specs.Run.{start as new_state};
ghost use Rattle.kob_scene_play.specs.Begins.{IsBegun, start_event};
ghost use Rattle.kob_scene_play.specs.Steps.{IsConsumerTick, IsTickOfConsumer, Restarts};
ghost use Rattle.kob_scene_play.specs.Steps.{consumer_state, is_repeat_of_consumer};
ghost use Rattle.kob_scene_play.specs.declared.holding.Holding.TheVariants.{Nothing};

use crate::ask::{ask, committed_by};
use crate::every::Every;
use crate::fault::{TickFault, has_loss};
use crate::holding::Holding;
use kob_connections::{Loss, Receiver};
use kob_delivery_check::start_due;
use kob_inbox::{Consumer, InboxFault, InboxRow, Subscription, Tick};
use kob_names::{Host, Principal};
use kob_rights::{Event, Request};
use kob_scene_text::{Start, Taking};
use kob_shared::{Journal, Recorded, event_of};
use std::alloc::{AllocError, Global};
use std::marker::Model;

/// A consumer: its number in the journal, who it is, where it begins, how it takes in, its
/// progress with its inbox, what it holds if it commits before it takes in, and the events of each
/// record if it is without dedup.
#[derive(Drop)]
pub struct ConsumerWorker {
    pub(crate) worker: usize,
    pub(crate) principal: Principal,
    pub(crate) host: Host,
    start: Start,
    pub(crate) taking: Taking,
    pub(crate) receiver: Receiver,
    pub(crate) holding: Holding,
    pub(crate) every: Every,
}

impl Model for ConsumerWorker {
    ghost use Rattle.kob_scene_play.specs.Steps.{Consumer};
    ghost use Rattle.kob_scene_play.specs.Takings.{AreWithin, inbox_by};

    ghost Value = { Consumer };

    ghost view = { λ w. record {
      worker = w.worker;
      principal = w.principal;
      host = w.host;
      start = w.start;
      taking = w.taking;
      fetcher = w.receiver.fetcher;
      own = w.receiver.inbox;
      holding = w.holding;
      inbox = inbox_by w.taking w.receiver.inbox w.every;
    } };

    ghost invariant = { λ w. AreWithin w.holding };
}

impl ConsumerWorker {
    /// A consumer without a position, with an empty inbox.
    pub fn open(
        alloc: Global,
        worker: usize,
        principal: Principal,
        host: Host,
        start: Start,
        taking: Taking,
        subscription: Subscription,
    ) -> Result<ConsumerWorker, InboxFault>
        ensures worker { IfOk result (λ w. w.worker ≡ worker) }
        ensures principal { IfOk result (λ w. w.principal ≡ principal) }
        ensures host { IfOk result (λ w. w.host ≡ host) }
        ensures start { IfOk result (λ w. w.start ≡ start) }
        ensures taking { IfOk result (λ w. w.taking ≡ taking) }
        ensures subscription { IfOk result (λ w. w.fetcher.subscription ≡ subscription) }
        ensures state { IfOk result (λ w. consumer_state w ≡ new_state) }
        ensures holding { IfOk result (λ w. w.holding ≡ Nothing) }
        ensures inbox { IfOk result (λ w. w.inbox ≡ []) }
    {
        let receiver = Receiver::open(alloc, subscription)?;
        Ok(ConsumerWorker {
            worker,
            principal,
            host,
            start,
            taking,
            receiver,
            holding: Holding::Nothing,
            every: Every::new(alloc),
        })
    }

    /// Its number in the journal.
    pub fn number(&self) -> usize
        ensures { result ≡ self.now.worker }
    {
        self.worker
    }

    /// Its group, and the partitions that it reads.
    pub fn subscription(&self) -> &Subscription
        ensures { result.now ≡ self.now.fetcher.subscription }
    {
        self.receiver.consumer().subscription()
    }

    /// Where it begins on a partition without a commit of its group.
    pub fn start(&self) -> Start
        ensures { result ≡ self.now.start }
    {
        self.start
    }

    fn taking(&self) -> Taking
        ensures { result ≡ self.now.taking }
    {
        self.taking
    }

    /// The consumer itself.
    pub fn consumer(&self) -> &Consumer
        ensures { result.now ≡ self.now.fetcher }
    {
        self.receiver.consumer()
    }

    /// One step over the broker, whose first call has this loss. Its call gets its entry in the
    /// journal under its number, its principal and its host. One that begins at the end first
    /// commits the end of each partition on which it knows no position and its group has no commit,
    /// a step each.
    pub fn tick(
        &mut self,
        alloc: Global,
        recorded: &mut Recorded,
        loss: Loss,
    ) -> Result<Tick, TickFault>
        ensures { IfOk result (IsConsumerTick loss self.old self.new recorded.old recorded.new) }
    {
        let before = recorded.journal().len();
        let tick = self.make_tick(alloc, recorded, loss)?;
        let after = recorded.journal().len();
        if has_loss(loss, is_repeat(&tick), before, after) {
            Ok(tick)
        } else {
            drop(tick);
            Err(TickFault::NotLost)
        }
    }

    /// One step, by where it begins and how it takes in.
    #[tactic(auto, using(crate::proofs::Ticking::tick_begun, crate::proofs::Ticking::tick_own))]
    fn make_tick(
        &mut self,
        alloc: Global,
        recorded: &mut Recorded,
        loss: Loss,
    ) -> Result<Tick, TickFault>
        ensures { IfOk result (IsTickOfConsumer loss self.old self.new recorded.old recorded.new) }
    {
        let taking = self.taking();
        match self.start_due(alloc, recorded.journal())? {
            Some(event) => begin(alloc, recorded, self.worker, loss, &event),
            None => self.take_turn(alloc, recorded, taking, loss),
        }
    }

    /// The commit with which it begins on a partition.
    fn start_due(&self, alloc: Global, journal: &Journal) -> Result<Option<Event>, AllocError>
        ensures { IfOk result (λ event. event ≡ start_event self.now.start self.now.principal
            self.now.host self.now.fetcher journal.now) }
    {
        if self.start == Start::Earliest {
            return Ok(None);
        }
        let Some(asked) = start_due(alloc, journal, self.receiver.consumer())? else {
            return Ok(None);
        };
        let request = Request::OffsetCommit(asked);
        let event = event_of(alloc, &self.principal, &self.host, request)?;
        Ok(Some(event))
    }

    /// Restarts the consumer, which forgets what it holds. What was taken in stays. Does not
    /// allocate.
    pub fn restart(&mut self)
        ensures { Restarts self.old self.new }
    {
        self.receiver.restart();
        self.holding = Holding::Nothing;
    }

    /// The rows of its inbox, in the order of their intake. The error is out of memory.
    pub fn rows(&mut self, alloc: Global) -> Result<Vec<InboxRow>, AllocError>
        ensures rows { IfOk result (λ rows.
            map placed_intake rows.items ≡ enumerate_from 1 self.old.inbox) }
        ensures same { self.new ≡ self.old }
    {
        match self.taking {
            Taking::Proved => taken(&mut self.receiver),
            Taking::CommitsBefore => taken(&mut self.receiver),
            Taking::NoDedup => self.every.rows(alloc),
        }
    }
}

/// The rows of the inbox of the consumer itself.
fn taken(receiver: &mut Receiver) -> Result<Vec<InboxRow>, AllocError>
    ensures rows { IfOk result (λ rows.
        map placed_intake rows.items ≡ enumerate_from 1 receiver.old.inbox) }
    ensures same { receiver.new ≡ receiver.old }
{
    match receiver.taken() {
        Ok(rows) => Ok(rows),
        Err(InboxFault::Memory(refused)) => Err(refused),
        Err(InboxFault::Store) => unreachable!(),
    }
}

/// Asks for the commit with which a consumer begins.
#[tactic(auto, using(crate::proofs::Ticking::begun))]
fn begin(
    alloc: Global,
    recorded: &mut Recorded,
    worker: usize,
    loss: Loss,
    event: &Event,
) -> Result<Tick, TickFault>
    ensures { IfOk result (IsBegun loss worker event.now recorded.old recorded.new) }
{
    let heard = ask(alloc, recorded, worker, loss, event)?;
    Ok(committed_by(heard))
}

/// Whether a step has to be made again.
fn is_repeat(tick: &Tick) -> bool
    ensures { result ≡ is_repeat_of_consumer tick.now }
{
    match tick {
        Tick::Repeat => true,
        Tick::Placed(_) | Tick::Took(_) | Tick::Committed | Tick::Idle | Tick::Stopped(_) => false,
    }
}
