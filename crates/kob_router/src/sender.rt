//! The state of a router, and the parts of its step.

ghost use Rattle.std.specs.Prelude.{◌≡◌, ◌<◌, IfErr, IfOk, option_map};
ghost use Rattle.std.specs.Prelude.{alloc_error};
ghost use Rattle.kob_outbox.specs.Contents.{stored_row};
ghost use Rattle.kob_router.specs.Run.{next_row};

use crate::dispatch::Target;
use crate::fault::RecordFault;
use crate::line::{Delivery, Line};
use crate::partitioner::partition_of;
use crate::place::Place;
use crate::routed::{message_of, topic_for};
use crate::sequences::Sequences;
use crate::tick::{StopReason, Tick};
use kob_names::{Batch, Idem, Items, PlainValue};
use kob_outbox::{MarkFault, Outbox, OutboxFault, Row};
use kob_rights::{Body, Produce, Reply, Request};
use std::alloc::{AllocError, Global};

/// The row that is sent until it is acknowledged, and where it goes.
#[derive(Debug, Drop)]
pub struct HeldRow {
    pub row: Row,
    pub place: Place,
}

/// A producer id with its epoch.
#[derive(Clone, Copy, Debug, PartialEq, Eq)]
pub struct Producer {
    pub id: u64,
    pub epoch: u64,
}

/// The state of a router: its target, its producer id, its sequences, and the row in flight.
#[derive(Debug, Drop)]
pub struct Sender {
    pub target: Target,
    pub producer: Option<Producer>,
    pub sequences: Sequences,
    pub hand: Option<HeldRow>,
}

impl Sender {
    ghost use Rattle.std.specs.Prelude.{[], Some, None};
    ghost use Rattle.kob_router.specs.Run.{dispatch_of};
    ghost use Rattle.kob_router.specs.Tick.{Acknowledges, HasHand, Introduces, Requests, Takes};
    ghost use Rattle.kob_router.specs.Tick.{IsAtMostOne, IsHeld, IsOneTick, IsPlaced, Ticks};
    ghost use Rattle.kob_router.specs.Tick.{hand_of, point_of, state_of};

    /// One step: asks for a producer id if it has none, then sends the first row after the
    /// mark.
    pub(crate) fn tick<L: Line>(&mut self, alloc: Global, outbox: &mut Outbox, line: &mut L) -> Tick
        requires some { 0 < self.old.target.partitions }
        requires held { IsHeld (dispatch_of self.old.target) (state_of self.old outbox.old) }
        ensures same { self.new.target ≡ self.old.target }
        ensures done { Ticks IsOneTick (dispatch_of self.old.target)
            (point_of self.old outbox.old (L.calls line.old) (L.unmade line.old))
            (point_of self.new outbox.new (L.calls line.new) (L.unmade line.new))
            result }
        ensures line { L.becomes line.old line.new }
    {
        let producer = match self.introduce(alloc, line) {
            Ok(producer) => producer,
            Err(tick) => return tick,
        };
        match self.take_in_hand(alloc, outbox) {
            Ok(true) => self.deliver(alloc, outbox, line, producer),
            Ok(false) => Tick::Idle,
            Err(reason) => Tick::Stopped(reason),
        }
    }

    /// Forgets the row in flight, the producer id and all sequences.
    pub(crate) fn restart(&mut self)
        ensures { self.new ≡ record self.old { producer = None; sequences = []; hand = None } }
    {
        self.producer = None;
        self.sequences.clear();
        self.hand = None;
    }

    /// Asks for a producer id, if it has none.
    fn introduce<L: Line>(&mut self, alloc: Global, line: &mut L) -> Result<Producer, Tick>
        ensures rest { self.new ≡ record self.old { producer = self.new.producer } }
        ensures made { Introduces self.old.producer self.new.producer
            (L.calls line.old) (L.calls line.new) (L.unmade line.old) (L.unmade line.new) result }
        ensures line { L.becomes line.old line.new }
    {
        if let Some(producer) = self.producer {
            return Ok(producer);
        }
        let Delivery::Delivered(reply) = line.send(alloc, Request::InitProducerId) else {
            return Err(Tick::Repeat);
        };
        match reply {
            Reply::Done(Body::Producer { id, epoch }) => {
                let producer = Producer { id, epoch };
                self.producer = Some(producer);
                Ok(producer)
            }
            Reply::Done(_) => unreachable!(),
            reply => Err(Tick::Stopped(StopReason::Rejected(reply))),
        }
    }

    /// Puts the first row after the mark in flight, if no row is. False if no row waits.
    fn take_in_hand(&mut self, alloc: Global, outbox: &mut Outbox) -> Result<bool, StopReason>
        requires { 0 < self.old.target.partitions }
        ensures same { outbox.new ≡ outbox.old }
        ensures done { Takes (dispatch_of self.old.target) outbox.old self.old self.new result }
    {
        if self.hand.is_some() {
            return Ok(true);
        }
        let row = match next_row(outbox) {
            Ok(Some(row)) => row,
            Ok(None) => return Ok(false),
            Err(OutboxFault::Memory(refused)) => return Err(StopReason::Memory(refused)),
            Err(OutboxFault::Store) => unreachable!(),
        };
        let topic = match topic_for(alloc, self.target.route.as_routing(), &row) {
            Ok(topic) => topic.into_text(),
            Err(RecordFault::BadTopic) => return Err(StopReason::BadTopic),
            Err(RecordFault::Memory(refused)) => return Err(StopReason::Memory(refused)),
        };
        let partition = partition_of(row.event.aggregate_id.as_bytes(), self.target.partitions);
        let place = Place {
            topic,
            partition: partition as u64,
        };
        if let Err(refused) = self.sequences.prepare(alloc, &place) {
            return Err(StopReason::Memory(refused));
        }
        self.hand = Some(HeldRow { row, place });
        Ok(true)
    }

    /// Sends the row in flight.
    fn deliver<L: Line>(
        &mut self,
        alloc: Global,
        outbox: &mut Outbox,
        line: &mut L,
        producer: Producer,
    ) -> Tick
        requires known { self.old.producer ≡ Some producer }
        requires full { HasHand self.old }
        requires held { IsHeld (dispatch_of self.old.target) (state_of self.old outbox.old) }
        ensures same { self.new.target ≡ self.old.target }
        ensures done { Ticks IsAtMostOne (dispatch_of self.old.target)
            (point_of self.old outbox.old (L.calls line.old) (L.unmade line.old))
            (point_of self.new outbox.new (L.calls line.new) (L.unmade line.new))
            result }
        ensures line { L.becomes line.old line.new }
    {
        let request = match self.request(alloc, producer) {
            Ok(request) => request,
            Err(refused) => return Tick::Stopped(StopReason::Memory(refused)),
        };
        let Delivery::Delivered(reply) = line.send(alloc, request) else {
            return Tick::Repeat;
        };
        match reply {
            Reply::Done(body) => {
                drop(body);
                match self.acknowledge(outbox) {
                    Ok(seq) => Tick::Moved(seq),
                    Err(reason) => Tick::Stopped(reason),
                }
            }
            reply => Tick::Stopped(StopReason::Rejected(reply)),
        }
    }

    /// The request that sends the row in flight.
    fn request(&self, alloc: Global, producer: Producer) -> Result<Request, AllocError>
        requires known { self.now.producer ≡ Some producer }
        requires full { HasHand self.now }
        requires placed { IsPlaced (dispatch_of self.now.target) (option_map hand_of self.now.hand)
            self.now.sequences }
        ensures { IfOk result (Requests (dispatch_of self.now.target) self.now) }
    {
        let Some(hand) = &self.hand else {
            unreachable!();
        };
        let message = message_of(alloc, self.target.route.as_routing(), &hand.row)?;
        let base = self.sequences.next(&hand.place);
        let mut records = Vec::new(alloc);
        records.push(message)?;
        let topic = hand.place.topic.copy(alloc)?;
        Ok(Request::Produce(Produce {
            topic,
            partition: hand.place.partition,
            batch: Batch {
                idem: Some(Idem {
                    id: producer.id,
                    epoch: producer.epoch,
                    base,
                }),
                records: Items::from_vec(records),
            },
        }))
    }

    /// Moves the mark to the row in flight, which is then no longer in flight.
    fn acknowledge(&mut self, outbox: &mut Outbox) -> Result<u64, StopReason>
        requires full { HasHand self.old }
        requires placed { IsPlaced (dispatch_of self.old.target) (option_map hand_of self.old.hand)
            self.old.sequences }
        ensures same { self.new.target ≡ self.old.target }
        ensures done { Acknowledges (state_of self.old outbox.old) (state_of self.new outbox.new)
            result }
    {
        let Some(hand) = &self.hand else {
            unreachable!();
        };
        let seq = hand.row.seq;
        match outbox.set_mark(seq) {
            Ok(()) => {}
            Err(MarkFault::Memory(refused)) => return Err(StopReason::Memory(refused)),
            Err(_) => return Err(StopReason::Store),
        }
        self.sequences.use_one(&hand.place);
        self.hand = None;
        Ok(seq)
    }
}

/// The first row after the mark.
fn next_row(outbox: &mut Outbox) -> Result<Option<Row>, OutboxFault>
    ensures row { IfOk result (λ row. option_map stored_row row ≡ next_row outbox.old) }
    ensures memory { IfErr result (λ fault. fault ≡ OutboxFault.Memory alloc_error) }
    ensures same { outbox.new ≡ outbox.old }
{
    let mark = outbox.mark()?;
    let mut rows = outbox.after(mark, 1)?;
    Ok(rows.pop())
}
