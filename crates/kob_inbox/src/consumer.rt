//! A consumer of partitions that it assigned to itself.

use crate::cursors::standing_of;
use crate::fetcher::{Fetcher, Subscription, place_on};
use crate::inbox::Inbox;
use crate::tick::Tick;
use kob_names::{Items, PlainValue, Text};
use kob_rights::{Body, Request};
use kob_router::{Line, Place};
use std::alloc::{AllocError, Global};
use std::marker::Model;

/// Takes the records of its partitions into an inbox, and commits its positions for its group after
/// that.
///
/// Each record is taken in at least once and each event id once, as by Kafka's consumers that
/// commit what they have processed.
#[derive(Debug, Drop)]
pub struct Consumer {
    fetcher: Fetcher,
}

impl Model for Consumer {
    ghost use Rattle.kob_inbox.specs.declared.fetcher.Fetcher.{Fetcher};
    ghost use Rattle.kob_inbox.specs.Tick.{IsOnTurn};

    ghost Value = { Fetcher };

    ghost view = { λ consumer. consumer.fetcher };

    ghost invariant = { λ consumer. IsOnTurn consumer.fetcher };
}

impl Consumer {
    ghost use Rattle.std.specs.Prelude.{◌≡◌, [], IfOk, IfSome, OnErr, option_map};
    ghost use Rattle.kob_inbox.specs.Contents.{Contents};
    ghost use Rattle.kob_inbox.specs.Run.{after, cursor_of, due_now, standing};
    ghost use Rattle.kob_inbox.specs.Run.Move.{Restarted};
    ghost use Rattle.kob_inbox.specs.Tick.{Hears, Ticks, point_of, state_of};
    ghost use Rattle.kob_rights.specs.Requests.{BodyWithin, IsBodyOf};

    /// A consumer that knows no position. The first assigned partition has the first turn; one that
    /// is assigned twice has two turns and one position. A FETCH asks for at most `max` records, of
    /// which the broker returns at most 1,000. Does not allocate.
    pub fn new(alloc: Global, group: Text, assignment: Items<Place>, max: u64) -> Consumer
        ensures settings { result.subscription
            ≡ record { group = group; assignment = assignment; max = max } }
        ensures state { (inbox : Contents)
            → state_of result inbox ≡ record { inbox = inbox; cursors = []; turn = 0 } }
    {
        Consumer {
            fetcher: Fetcher {
                subscription: Subscription {
                    group,
                    assignment,
                    max,
                },
                cursors: Vec::new(alloc),
                turn: 0,
            },
        }
    }

    /// One step: one request on the assigned partition that has the turn.
    ///
    /// If its position is not known, the step asks for the group's commit (`Placed`). If records
    /// were processed and no commit of them was acknowledged, it commits the position, and the next
    /// partition has the turn (`Committed`). Otherwise it fetches records at the position and takes
    /// them in one after another (`Took`). If there are none, the next partition has the turn
    /// (`Idle`). After `Repeat` and `Stopped` the partition keeps the turn. If the inbox fails on a
    /// record, the position stays before it.
    pub fn tick<L: Line>(&mut self, alloc: Global, inbox: &mut Inbox, line: &mut L) -> Tick
        ensures same { self.new.subscription ≡ self.old.subscription }
        ensures done { Ticks self.old.subscription
            (point_of self.old inbox.old (L.calls line.old) (L.unmade line.old))
            (point_of self.new inbox.new (L.calls line.new) (L.unmade line.new))
            result }
        ensures line { L.becomes line.old line.new }
    {
        self.fetcher.tick(alloc, inbox, line)
    }

    /// The request that the next step makes. None if no partition is assigned. The error is out of
    /// memory.
    pub fn due(&self, alloc: Global) -> Result<Option<Request>, AllocError>
        ensures { IfOk result (λ request. request
            ≡ due_now self.now.subscription self.now.cursors.items self.now.turn) }
    {
        let assignment = self.fetcher.subscription.assignment.as_slice();
        let Some(place) = place_on(assignment, self.fetcher.turn) else {
            return Ok(None);
        };
        let stood = standing_of(&self.fetcher.cursors, place);
        Ok(Some(self.fetcher.due(alloc, place, stood)?))
    }

    /// Handles the body of a reply to the request that is due, as a step does that received it. The
    /// error is out of memory.
    pub fn hear(&mut self, alloc: Global, inbox: &mut Inbox, body: Body) -> Result<Tick, AllocError>
        requires fits { IfSome (due_now self.old.subscription self.old.cursors.items self.old.turn)
            (λ request. IsBodyOf request body) }
        requires within { BodyWithin body }
        ensures same { self.new.subscription ≡ self.old.subscription }
        ensures done { IfOk result (λ tick.
            IfSome (due_now self.old.subscription self.old.cursors.items self.old.turn)
            (λ request. Hears self.old.subscription (state_of self.old inbox.old)
            (state_of self.new inbox.new) request body tick)) }
        ensures err { OnErr result (state_of self.new inbox.new ≡ state_of self.old inbox.old) }
    {
        let assignment = self.fetcher.subscription.assignment.as_slice();
        let Some(assigned) = place_on(assignment, self.fetcher.turn) else {
            drop(body);
            return Ok(Tick::Idle);
        };
        let place = match assigned.copy(alloc) {
            Ok(place) => place,
            Err(refused) => {
                drop(body);
                return Err(refused);
            }
        };
        let stood = standing_of(&self.fetcher.cursors, &place);
        if let Err(refused) = self.fetcher.cursors.reserve(1) {
            drop((place, body));
            return Err(refused);
        }
        Ok(self.fetcher.hear(inbox, place, stood, body))
    }

    /// The group, the assigned partitions and the most records of a FETCH. Does not allocate.
    pub fn subscription(&self) -> &Subscription
        ensures { result.now ≡ self.now.subscription }
    {
        &self.fetcher.subscription
    }

    /// The offset of the next record that it takes in from this partition. None where it has not
    /// asked for its group's commit since it was made or restarted. Does not allocate.
    pub fn position(&self, place: &Place) -> Option<u64>
        ensures { result ≡ option_map (λ standing. standing.position)
            (standing (cursor_of self.now.cursors.items place.now)) }
    {
        let standing = standing_of(&self.fetcher.cursors, place)?;
        Some(standing.position)
    }

    /// Forgets all positions and which records were processed, as a consumer that restarts does.
    /// The first assigned partition has the next turn. Does not allocate.
    pub fn restart(&mut self)
        ensures same { self.new.subscription ≡ self.old.subscription }
        ensures done { (inbox : Contents)
            → state_of self.new inbox
            ≡ after self.old.subscription (state_of self.old inbox) Restarted }
    {
        self.fetcher.cursors.clear();
        self.fetcher.turn = 0;
    }
}
