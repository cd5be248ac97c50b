//! A consumer with its inbox.

ghost use Rattle.std.specs.Prelude.{◌≡◌, [], IfErr, IfOk, IfSome, OnErr, alloc_error, map};
ghost use Rattle.std.specs.List.{enumerate_from};
ghost use Rattle.kob_inbox.specs.Contents.{placed_intake};
ghost use Rattle.kob_inbox.specs.Run.Move.{Restarted};
ghost use Rattle.kob_inbox.specs.Run.{after, due_now};
ghost use Rattle.kob_inbox.specs.Tick.{Hears, Ticks, point_of, state_of};
ghost use Rattle.kob_rights.specs.Requests.{BodyWithin, IsBodyOf};

use kob_inbox::{Consumer, Inbox, InboxFault, InboxRow, Subscription, Tick};
use kob_rights::Body;
use kob_router::Line;
use std::alloc::{AllocError, Global};
use std::marker::Model;

/// A consumer, and the inbox into which it takes records.
#[derive(Drop)]
pub struct Receiver {
    consumer: Consumer,
    inbox: Inbox,
}

impl Model for Receiver {
    ghost use Rattle.std.specs.Coded.{codes};
    ghost use Rattle.kob_connections.specs.Received.{Received};

    ghost Value = { Received };

    ghost coded = { Prim.hlevel (codes) };

    ghost view = { λ r. record { fetcher = r.consumer; inbox = r.inbox } };
}

impl Receiver {
    /// A consumer that knows no position, with this inbox. Does not allocate.
    pub fn new(alloc: Global, inbox: Inbox, subscription: Subscription) -> Receiver
        ensures inbox { result.inbox ≡ inbox }
        ensures subscription { result.fetcher.subscription ≡ subscription }
        ensures state { state_of result.fetcher result.inbox
            ≡ record { inbox = inbox; cursors = []; turn = 0 } }
    {
        let Subscription {
            group,
            assignment,
            max,
        } = subscription;
        Receiver {
            consumer: Consumer::new(alloc, group, assignment, max),
            inbox,
        }
    }

    /// A consumer that knows no position, with an empty inbox in memory.
    pub fn open(alloc: Global, subscription: Subscription) -> Result<Receiver, InboxFault>
        ensures inbox { IfOk result (λ r. r.inbox ≡ []) }
        ensures subscription { IfOk result (λ r. r.fetcher.subscription ≡ subscription) }
        ensures state { IfOk result (λ r. state_of r.fetcher r.inbox
            ≡ record { inbox = []; cursors = []; turn = 0 }) }
    {
        let inbox = Inbox::open_in_memory(alloc)?;
        Ok(Receiver::new(alloc, inbox, subscription))
    }

    /// One step of the consumer, as [`Consumer::tick`] makes it.
    pub fn tick<L: Line>(&mut self, alloc: Global, line: &mut L) -> Tick
        ensures same { self.new.fetcher.subscription ≡ self.old.fetcher.subscription }
        ensures done { Ticks self.old.fetcher.subscription
            (point_of self.old.fetcher self.old.inbox (L.calls line.old) (L.unmade line.old))
            (point_of self.new.fetcher self.new.inbox (L.calls line.new) (L.unmade line.new))
            result }
        ensures line { L.becomes line.old line.new }
    {
        self.consumer.tick(alloc, &mut self.inbox, line)
    }

    /// Handles the body of a reply to the request that is due, as [`Consumer::hear`] does. The
    /// error is out of memory.
    pub fn hear(&mut self, alloc: Global, body: Body) -> Result<Tick, AllocError>
        requires fits { IfSome (due_now self.old.fetcher.subscription self.old.fetcher.cursors.items
            self.old.fetcher.turn) (λ request. IsBodyOf request body) }
        requires within { BodyWithin body }
        ensures same { self.new.fetcher.subscription ≡ self.old.fetcher.subscription }
        ensures done { IfOk result (λ tick. IfSome (due_now self.old.fetcher.subscription
            self.old.fetcher.cursors.items self.old.fetcher.turn)
            (λ request. Hears self.old.fetcher.subscription
            (state_of self.old.fetcher self.old.inbox)
            (state_of self.new.fetcher self.new.inbox) request body tick)) }
        ensures err { OnErr result (state_of self.new.fetcher self.new.inbox
            ≡ state_of self.old.fetcher self.old.inbox) }
    {
        self.consumer.hear(alloc, &mut self.inbox, body)
    }

    /// Restarts the consumer, as [`Consumer::restart`] does: it forgets all positions. What was
    /// taken in stays. Does not allocate.
    pub fn restart(&mut self)
        ensures same { self.new.fetcher.subscription ≡ self.old.fetcher.subscription }
        ensures done { state_of self.new.fetcher self.new.inbox
            ≡ after self.old.fetcher.subscription
            (state_of self.old.fetcher self.old.inbox) Restarted }
        ensures inbox { self.new.inbox ≡ self.old.inbox }
    {
        self.consumer.restart();
    }

    /// All events that were taken in, in the order of their intake, as [`Inbox::taken`] reads them.
    pub fn taken(&mut self) -> Result<Vec<InboxRow>, InboxFault>
        ensures rows { IfOk result (λ rows.
            map placed_intake rows.items ≡ enumerate_from 1 self.old.inbox) }
        ensures memory { IfErr result (λ fault. fault ≡ InboxFault.Memory alloc_error) }
        ensures same { self.new ≡ self.old }
    {
        self.inbox.taken()
    }

    /// The consumer, with its subscription, its positions and the request that is due. Does not
    /// allocate.
    pub fn consumer(&self) -> &Consumer
        ensures { result.now ≡ self.now.fetcher }
    {
        &self.consumer
    }

    /// The consumer and its inbox. Does not allocate.
    pub fn into_parts(self) -> (Consumer, Inbox)
        ensures consumer { result.0 ≡ self.fetcher }
        ensures inbox { result.1 ≡ self.inbox }
    {
        let Receiver { consumer, inbox } = self;
        (consumer, inbox)
    }
}
