//! What a consumer holds that commits before it takes in.

ghost use Rattle.std.specs.Prelude.{◌≡◌, IfOk};
ghost use Rattle.kob_rights.specs.Requests.{BodyWithin};
ghost use Rattle.kob_rights.specs.declared.reply.Body.TheVariants as bodies;
ghost use Rattle.kob_scene_play.specs.Takings.{AreWithin, asked_next, commit_of, held_or};
ghost use Rattle.kob_scene_play.specs.Takings.{position_of};

use kob_inbox::{Consumer, Subscription};
use kob_names::{Items, PlainValue, Record};
use kob_rights::{Body, Fetch, OffsetCommit, Request};
use std::alloc::{AllocError, Global};

/// The records that a FETCH brought, and the FETCH.
#[derive(Drop)]
pub(crate) struct Held {
    pub(crate) asked: Fetch,
    pub(crate) records: Items<(u64, Record)>,
}

/// What a consumer holds.
#[derive(Drop)]
pub(crate) enum Holding {
    Nothing,
    /// Records whose commit is not acknowledged.
    Fetched(Held),
    /// Records whose commit is acknowledged. The next tick takes them in.
    Committed(Held),
}

impl Held {
    /// The position behind its records.
    pub(crate) fn position(&self) -> u64
        requires { BodyWithin (bodies.Records self.now.records) }
        ensures { result ≡ position_of self.now }
    {
        let records = self.records.as_slice();
        let mut position = self.asked.offset;
        for (at, _) in records {
            position = *at + 1;
        }
        position
    }

    /// The commit of that position.
    fn commit(&self, alloc: Global, reader: &Subscription) -> Result<OffsetCommit, AllocError>
        requires { BodyWithin (bodies.Records self.now.records) }
        ensures { IfOk result (λ commit. commit ≡ commit_of reader.now self.now) }
    {
        let group = reader.group.copy(alloc)?;
        let topic = self.asked.topic.copy(alloc)?;
        Ok(OffsetCommit {
            group,
            topic,
            partition: self.asked.partition,
            offset: self.position(),
        })
    }
}

/// What is held of a body that a request brought: the records of a FETCH, if there are any. Any
/// other body is returned.
pub(crate) fn held_of(request: Request, body: Body) -> Result<Held, Body>
    ensures { result ≡ held_or request body }
{
    match request {
        Request::Fetch(asked) => match body {
            Body::Records(records) => held_records(asked, records),
            other => Err(other),
        },
        _ => Err(body),
    }
}

fn held_records(asked: Fetch, records: Items<(u64, Record)>) -> Result<Held, Body>
    ensures { result ≡ held_or (Request.Fetch asked) (bodies.Records records) }
{
    if records.len() == 0 {
        return Err(Body::Records(records));
    }
    Ok(Held { asked, records })
}

/// The next request of a consumer that commits before it takes in. None if it takes in what it
/// holds, or if no partition is assigned.
pub(crate) fn asked_next(
    alloc: Global,
    consumer: &Consumer,
    holding: &Holding,
) -> Result<Option<Request>, AllocError>
    requires { AreWithin holding.now }
    ensures { IfOk result (λ request. request ≡ asked_next consumer.now.subscription
        consumer.now.cursors.items consumer.now.turn holding.now) }
{
    match holding {
        Holding::Nothing => consumer.due(alloc),
        Holding::Fetched(held) => {
            let commit = held.commit(alloc, consumer.subscription())?;
            Ok(Some(Request::OffsetCommit(commit)))
        }
        Holding::Committed(_) => Ok(None),
    }
}
