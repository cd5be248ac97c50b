//! A consumer's step.

ghost use Rattle.std.specs.Prelude.{◌≡◌, ◌≤◌, IsSome, MatchOption, length, slice_get, Some};

use crate::cursors::{Cursor, Standing, set, standing_of};
use crate::fault::InboxFault;
use crate::inbox::Inbox;
use crate::intake::{Passed, take_all};
use crate::tick::Tick;
use kob_names::{Items, PlainValue, Record, Text};
use kob_rights::{Body, Fetch, OffsetCommit, OffsetFetch, Reply, Request};
use kob_router::{Delivery, Line, Place, StopReason};
use std::alloc::{AllocError, Global};

/// What a consumer reads: for which group, which partitions, and how many records at most at once.
#[derive(Debug, Drop)]
pub struct Subscription {
    pub group: Text,
    pub assignment: Items<Place>,
    pub max: u64,
}

impl Subscription {
    ghost use Rattle.std.specs.Prelude.{IfOk};
    ghost use Rattle.kob_inbox.specs.Run.{first_partitions};

    /// The first partitions of a topic, for this group. The error is out of memory.
    pub fn of(
        alloc: Global,
        group: &str,
        topic: &str,
        partitions: u32,
        max: u64,
    ) -> Result<Subscription, AllocError>
        ensures { IfOk result (λ made. made ≡ record {
          group = group.now;
          assignment = first_partitions topic.now partitions;
          max = max;
        }) }
    {
        let group = Text::copied(alloc, group)?;
        let mut assignment = Vec::new(alloc);
        for partition in 0..partitions {
            let topic = Text::copied(alloc, topic)?;
            let partition = u64::from(partition);
            assignment.push(Place { topic, partition })?;
        }
        Ok(Subscription {
            group,
            assignment: Items::from_vec(assignment),
            max,
        })
    }

    /// An equal subscription. The error is out of memory.
    pub fn copy(&self, alloc: Global) -> Result<Subscription, AllocError>
        ensures { IfOk result (λ made. made ≡ self.now) }
    {
        let group = self.group.copy(alloc)?;
        let assignment = self.assignment.copy(alloc)?;
        Ok(Subscription {
            group,
            assignment,
            max: self.max,
        })
    }
}

/// The state of a consumer: its progress, and which of its assigned partitions has the turn.
#[derive(Debug, Drop)]
pub struct Fetcher {
    pub subscription: Subscription,
    pub cursors: Vec<Cursor>,
    pub turn: usize,
}

impl Fetcher {
    ghost use Rattle.std.specs.Prelude.{ℕ, ◌<◌, ◌+◌, ◌%◌, List, None, IfOk, vec_len, vec_capacity};
    ghost use Rattle.std.specs.Prelude.{true, false};
    ghost use Rattle.std.specs.List.{All};
    ghost use Rattle.kob_names.specs.declared.record.Record.{Record};
    ghost use Rattle.kob_rights.specs.Requests.{IsBodyOf, BodyWithin, greatest_offset};
    ghost use Rattle.kob_inbox.specs.Contents.{Contents};
    ghost use Rattle.kob_inbox.specs.Run.{with_progress, cursor_of, standing, after_answer, due};
    ghost use Rattle.kob_inbox.specs.Tick.{Hears, IsOnTurn, Ticks, point_of, state_of};

    /// One step: one request on the partition that has the turn. Capacity for its cursor is
    /// reserved before the request, so that only the inbox can fail once a reply is received.
    pub(crate) fn tick<L: Line>(&mut self, alloc: Global, inbox: &mut Inbox, line: &mut L) -> Tick
        requires { IsOnTurn self.old }
        ensures same { self.new.subscription ≡ self.old.subscription }
        ensures turn { IsOnTurn self.new }
        ensures done { Ticks self.old.subscription
            (point_of self.old inbox.old (L.calls line.old) (L.unmade line.old))
            (point_of self.new inbox.new (L.calls line.new) (L.unmade line.new))
            result }
        ensures line { L.becomes line.old line.new }
    {
        let Some(assigned) = place_on(self.subscription.assignment.as_slice(), self.turn) else {
            return Tick::Idle;
        };
        let place = match assigned.copy(alloc) {
            Ok(place) => place,
            Err(refused) => return Tick::Stopped(StopReason::Memory(refused)),
        };
        let stood = standing_of(&self.cursors, &place);
        if let Err(refused) = self.cursors.reserve(1) {
            return Tick::Stopped(StopReason::Memory(refused));
        }
        let request = match self.due(alloc, &place, stood) {
            Ok(request) => request,
            Err(refused) => return Tick::Stopped(StopReason::Memory(refused)),
        };
        let Delivery::Delivered(reply) = line.send(alloc, request) else {
            return Tick::Repeat;
        };
        match reply {
            Reply::Done(body) => self.hear(inbox, place, stood, body),
            reply => Tick::Stopped(StopReason::Rejected(reply)),
        }
    }

    /// The request that is due on a partition.
    pub(crate) fn due(
        &self,
        alloc: Global,
        place: &Place,
        stood: Option<Standing>,
    ) -> Result<Request, AllocError>
        ensures { IfOk result (λ request. request ≡ due self.now.subscription place.now stood) }
    {
        let topic = place.topic.copy(alloc)?;
        let partition = place.partition;
        let Some(standing) = stood else {
            let group = self.subscription.group.copy(alloc)?;
            return Ok(Request::OffsetFetch(OffsetFetch {
                group,
                topic,
                partition,
            }));
        };
        let offset = standing.position;
        if standing.uncommitted {
            let group = self.subscription.group.copy(alloc)?;
            return Ok(Request::OffsetCommit(OffsetCommit {
                group,
                topic,
                partition,
                offset,
            }));
        }
        Ok(Request::Fetch(Fetch {
            topic,
            partition,
            offset,
            max: self.subscription.max,
        }))
    }

    /// Handles the body of a reply that is done.
    #[tactic(auto, using(crate::proofs::Ticking::moved_new))]
    pub(crate) fn hear(
        &mut self,
        inbox: &mut Inbox,
        place: Place,
        stood: Option<Standing>,
        body: Body,
    ) -> Tick
        requires turn { self.old.turn < length self.old.subscription.assignment }
        requires room { vec_len self.old.cursors < vec_capacity self.old.cursors }
        requires stands { standing (cursor_of self.old.cursors.items place) ≡ stood }
        requires fits { IsBodyOf (due self.old.subscription place stood) body }
        requires within { BodyWithin body }
        ensures same { self.new.subscription ≡ self.old.subscription }
        ensures turn { self.new.turn < length self.new.subscription.assignment }
        ensures done { Hears self.old.subscription
            (state_of self.old inbox.old) (state_of self.new inbox.new)
            (due self.old.subscription place stood) body result }
    {
        let Some(standing) = stood else {
            return match body {
                Body::Commit(committed) => {
                    let position = committed.unwrap_or(0);
                    self.cursors.push_reserved(Cursor {
                        place,
                        position,
                        uncommitted: false,
                    });
                    Tick::Placed(position)
                }
                _ => unreachable!(),
            };
        };
        if standing.uncommitted {
            return match body {
                Body::Committed => {
                    self.committed(&place, standing.position);
                    Tick::Committed
                }
                _ => unreachable!(),
            };
        }
        match body {
            Body::Records(records) => {
                self.take(inbox, &place, standing.position, records.as_slice())
            }
            _ => unreachable!(),
        }
    }

    /// Handles an acknowledged commit of the position.
    fn committed(&mut self, place: &Place, position: u64)
        requires turn { self.old.turn < length self.old.subscription.assignment }
        requires known { IsSome (cursor_of self.old.cursors.items place.now) }
        ensures same { self.new.subscription ≡ self.old.subscription }
        ensures turn { self.new.turn < length self.new.subscription.assignment }
        ensures done { (inbox : Contents) → state_of self.new inbox
            ≡ after_answer self.old.subscription (state_of self.old inbox)
            (Request.OffsetCommit (record {
              group = self.old.subscription.group;
              topic = place.now.topic;
              partition = place.now.partition;
              offset = position;
            }))
            (Some (Reply.Done Body.Committed)) 0 }
    {
        set(&mut self.cursors, place, position, false);
        self.pass_turn();
    }

    /// Handles the records of a reply.
    fn take(
        &mut self,
        inbox: &mut Inbox,
        place: &Place,
        position: u64,
        records: &[(u64, Record)],
    ) -> Tick
        requires turn { self.old.turn < length self.old.subscription.assignment }
        requires known { IsSome (cursor_of self.old.cursors.items place.now) }
        requires within { All (λ (entry : ℕ × Record). entry.0 < greatest_offset) records.now }
        ensures same { self.new.subscription ≡ self.old.subscription }
        ensures turn { self.new.turn < length self.new.subscription.assignment }
        ensures done { Hears self.old.subscription
            (state_of self.old inbox.old) (state_of self.new inbox.new)
            (Request.Fetch (record {
              topic = place.now.topic;
              partition = place.now.partition;
              offset = position;
              max = self.old.subscription.max;
            }))
            (Body.Records records.now) result }
    {
        if records.len() == 0 {
            self.pass_turn();
            return Tick::Idle;
        }
        let passed = take_all(inbox, place, position, records);
        self.advance(place, passed);
        match passed.fault {
            None => Tick::Took(passed.count),
            Some(InboxFault::Memory(refused)) => Tick::Stopped(StopReason::Memory(refused)),
            Some(InboxFault::Store) => Tick::Stopped(StopReason::Store),
        }
    }

    /// Moves the position after the records that were processed.
    fn advance(&mut self, place: &Place, passed: Passed)
        requires { IsSome (cursor_of self.old.cursors.items place.now) }
        ensures same { self.new.subscription ≡ self.old.subscription }
        ensures turn { self.new.turn ≡ self.old.turn }
        ensures moved { self.new.cursors.items
            ≡ with_progress self.old.cursors.items place.now passed.count passed.position }
    {
        if passed.count == 0 {
            return;
        }
        set(&mut self.cursors, place, passed.position, true);
    }

    /// Gives the turn to the next assigned partition.
    fn pass_turn(&mut self)
        requires { self.old.turn < length self.old.subscription.assignment }
        ensures { self.new ≡ record self.old {
          turn = (self.old.turn + 1) % length self.old.subscription.assignment;
        } }
    {
        let count = self.subscription.assignment.as_slice().len();
        self.turn = (self.turn + 1) % count;
    }
}

/// The assigned partition that has the turn.
pub(crate) fn place_on(assignment: &[Place], turn: usize) -> Option<&Place>
    ensures { MatchOption result (length assignment.now ≤ turn)
        (λ place. slice_get assignment.now turn ≡ Some place.now) }
{
    assignment.get(turn)
}
