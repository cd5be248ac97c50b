//! The router.

ghost use Rattle.std.specs.Prelude.{◌≡◌, ◌≤◌};

use crate::dispatch::Target;
use crate::line::Line;
use crate::route::Route;
use crate::sender::Sender;
use crate::sequences::Sequences;
use crate::tick::Tick;
use kob_outbox::Outbox;
use std::alloc::Global;
use std::marker::Model;

/// Sends the rows of one outbox to the topics that a route names, in the order of their numbers,
/// each until it is acknowledged. The batches have the router's own producer id and, on each
/// partition, ascending sequences, so that the broker recognises a batch that is sent again.
#[derive(Debug, Drop)]
pub struct Router {
    sender: Sender,
}

impl Model for Router {
    ghost use Rattle.kob_router.specs.declared.sender.Sender.{Sender};
    ghost use Rattle.kob_router.specs.Tick.{IsInOrder};

    ghost Value = { Sender };

    ghost view = { λ router. router.sender };

    ghost invariant = { λ router. IsInOrder router.sender };
}

impl Router {
    ghost use Rattle.std.specs.Prelude.{None, [], option_map};
    ghost use Rattle.kob_outbox.specs.Contents.{Contents};
    ghost use Rattle.kob_router.specs.Run.{dispatch_of, after};
    ghost use Rattle.kob_router.specs.Run.Move.{Restarted};
    ghost use Rattle.kob_router.specs.Tick.{IsFirst, IsOneTick, Ticks, hand_of, point_of, state_of};

    /// A router for topics with this number of partitions each, 1 to 1,000. It has no producer id,
    /// and no row in flight. Does not allocate.
    pub fn new(alloc: Global, route: Route, partitions: u32) -> Router
        requires some { 1 ≤ partitions }
        requires most { partitions ≤ 1000 }
        ensures { result ≡ record {
          target = record { route = route; partitions = partitions };
          producer = None;
          sequences = [];
          hand = None;
        } }
    {
        Router {
            sender: Sender {
                target: Target { route, partitions },
                producer: None,
                sequences: Sequences::new(alloc),
                hand: None,
            },
        }
    }

    /// One step. Without a producer id it first asks for one. Then it sends the first row after the
    /// mark, as a batch of one record with the next sequence of its partition. Once the broker
    /// acknowledged it, the mark moves: `Moved`. If a call was lost, it returns `Repeat`, and the
    /// next step makes the same call again. `Idle` means that no row waits.
    ///
    /// The condition is that the row in flight is the first one after this outbox's mark: a router
    /// serves one outbox, whose mark nobody else moves.
    pub fn tick<L: Line>(&mut self, alloc: Global, outbox: &mut Outbox, line: &mut L) -> Tick
        requires { IsFirst (option_map hand_of self.old.hand) outbox.old }
        ensures same { self.new.target ≡ self.old.target }
        ensures done { Ticks IsOneTick (dispatch_of self.old.target)
            (point_of self.old outbox.old (L.calls line.old) (L.unmade line.old))
            (point_of self.new outbox.new (L.calls line.new) (L.unmade line.new))
            result }
        ensures first { IsFirst (option_map hand_of self.new.hand) outbox.new }
        ensures line { L.becomes line.old line.new }
    {
        self.sender.tick(alloc, outbox, line)
    }

    /// The number of the row in flight: it was sent, or was to be sent, and is not acknowledged.
    /// Does not allocate.
    pub fn in_flight(&self) -> Option<u64>
        ensures { result ≡ option_map (λ held. held.row.seq) self.now.hand }
    {
        match &self.sender.hand {
            Some(held) => Some(held.row.seq),
            None => None,
        }
    }

    /// Forgets the row in flight, the producer id and all sequences, as a service that restarts
    /// does. Then the next step asks for a producer id, and the broker cannot recognise the row
    /// that was in flight: it may get it twice. Does not allocate.
    pub fn restart(&mut self)
        ensures same { self.new.target ≡ self.old.target }
        ensures done { (outbox : Contents)
            → state_of self.new outbox ≡ after (state_of self.old outbox) Restarted }
        ensures empty { self.new.hand ≡ None }
    {
        self.sender.restart()
    }
}
