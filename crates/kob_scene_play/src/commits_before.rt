//! A consumer that commits before it takes in.

ghost use Rattle.std.specs.Prelude.{◌≡◌, None, Some, IfOk, IfSome, OnOk, length};
ghost use Rattle.kob_inbox.specs.Run.{due_now};
ghost use Rattle.kob_connections.specs.Received.{received_state};
ghost use Rattle.kob_rights.specs.Requests.{BodyWithin, Fits, IsBodyOf, OffsetsWithin};
ghost use Rattle.kob_rights.specs.declared.reply.Body.TheVariants as bodies;
ghost use Rattle.kob_scene_play.specs.Takings.{AreWithin, HandlesBody, HandlesReply};
ghost use Rattle.kob_scene_play.specs.Takings.{IsHandled, TakesHeld, ahead};
ghost use Rattle.kob_scene_play.specs.Takings.{asked_next, held_or, with_held};
ghost use Rattle.kob_scene_play.specs.declared.holding.Holding.TheVariants.{Nothing};

use crate::ask::committed_by;
use crate::fault::{TickFault, stop_of_consumer};
use crate::holding::{Held, Holding, held_of};
use kob_connections::Receiver;
use kob_inbox::Tick;
use kob_names::PlainValue;
use kob_rights::{Body, Event, Fetch, Reply, Request};
use std::alloc::Global;
use std::mem;

/// Handles what was heard of the next request.
pub(crate) fn handle_reply(
    alloc: Global,
    receiver: &mut Receiver,
    holding: &mut Holding,
    event: Event,
    heard: Option<Reply>,
) -> Result<Tick, TickFault>
    requires within { AreWithin holding.old }
    requires asked { asked_next receiver.old.fetcher.subscription receiver.old.fetcher.cursors.items
        receiver.old.fetcher.turn holding.old ≡ Some event.request }
    requires fits { IfSome heard (λ reply. Fits event.request reply) }
    requires offsets { IfSome heard (λ reply. OffsetsWithin reply) }
    ensures same { receiver.new.fetcher.subscription ≡ receiver.old.fetcher.subscription }
    ensures within { AreWithin holding.new }
    ensures done { IfOk result (HandlesReply receiver.old.fetcher.subscription event.request heard
        (ahead receiver.old holding.old) (ahead receiver.new holding.new)) }
{
    match heard {
        Some(Reply::Done(body)) => {
            let request = event.into_request();
            handle_body(alloc, receiver, holding, request, body)
        }
        None => Ok(committed_by(None)),
        Some(Reply::Denied { code, verdicts }) => {
            Ok(committed_by(Some(Reply::Denied { code, verdicts })))
        }
        Some(Reply::Refused { code, reason }) => {
            Ok(committed_by(Some(Reply::Refused { code, reason })))
        }
    }
}

fn handle_body(
    alloc: Global,
    receiver: &mut Receiver,
    holding: &mut Holding,
    request: Request,
    body: Body,
) -> Result<Tick, TickFault>
    requires within { AreWithin holding.old }
    requires asked { asked_next receiver.old.fetcher.subscription receiver.old.fetcher.cursors.items
        receiver.old.fetcher.turn holding.old ≡ Some request }
    requires fits { IsBodyOf request body }
    requires offsets { BodyWithin body }
    ensures same { receiver.new.fetcher.subscription ≡ receiver.old.fetcher.subscription }
    ensures within { AreWithin holding.new }
    ensures done { IfOk result (HandlesBody holding.old receiver.old.fetcher.subscription request
        body (ahead receiver.old holding.old) (ahead receiver.new holding.new)) }
{
    match mem::replace(holding, Holding::Nothing) {
        Holding::Nothing => handle_due(alloc, receiver, holding, request, body),
        Holding::Fetched(held) => {
            *holding = Holding::Committed(held);
            Ok(Tick::Committed)
        }
        Holding::Committed(_) => unreachable!(),
    }
}

/// Holds the records that a FETCH brought. Any other body is handled by the consumer.
fn handle_due(
    alloc: Global,
    receiver: &mut Receiver,
    holding: &mut Holding,
    request: Request,
    body: Body,
) -> Result<Tick, TickFault>
    requires nothing { holding.old ≡ Nothing }
    requires due { due_now receiver.old.fetcher.subscription receiver.old.fetcher.cursors.items
        receiver.old.fetcher.turn ≡ Some request }
    requires fits { IsBodyOf request body }
    requires offsets { BodyWithin body }
    ensures same { receiver.new.fetcher.subscription ≡ receiver.old.fetcher.subscription }
    ensures within { AreWithin holding.new }
    ensures done { IfOk result (IsHandled (held_or request body)
        receiver.old.fetcher.subscription request (ahead receiver.old holding.old)
        (ahead receiver.new holding.new)) }
{
    match held_of(request, body) {
        Ok(held) => {
            let position = held.position();
            *holding = Holding::Fetched(held);
            Ok(Tick::Placed(position))
        }
        Err(body) => Ok(receiver.hear(alloc, body)?),
    }
}

/// Takes in what is held, for which its commit is acknowledged. Nothing is done if nothing is held.
#[tactic(auto, using(crate::proofs::Taking::counted))]
pub(crate) fn take_held(
    alloc: Global,
    receiver: &mut Receiver,
    holding: &mut Holding,
) -> Result<Tick, TickFault>
    requires within { AreWithin holding.old }
    requires asked { asked_next receiver.old.fetcher.subscription receiver.old.fetcher.cursors.items
        receiver.old.fetcher.turn holding.old ≡ None }
    ensures same { receiver.new.fetcher.subscription ≡ receiver.old.fetcher.subscription }
    ensures within { AreWithin holding.new }
    ensures done { IfOk result (TakesHeld holding.old receiver.old.fetcher.subscription
        (ahead receiver.old holding.old) (ahead receiver.new holding.new)) }
{
    match mem::replace(holding, Holding::Nothing) {
        Holding::Nothing => Ok(Tick::Idle),
        Holding::Fetched(_) => unreachable!(),
        Holding::Committed(held) => {
            let count = take_records(alloc, receiver, held)?;
            match receiver.consumer().due(alloc)? {
                Some(Request::OffsetCommit(_)) => {
                    receiver.hear(alloc, Body::Committed)?;
                    Ok(Tick::Took(count))
                }
                _ => Err(TickFault::NotDue),
            }
        }
    }
}

/// The consumer takes in what is held, as it does with the reply to its FETCH. Returns the number
/// of records.
#[tactic(auto, using(crate::proofs::Taking::all_taken))]
fn take_records(alloc: Global, receiver: &mut Receiver, held: Held) -> Result<u64, TickFault>
    requires { BodyWithin (bodies.Records held.records) }
    ensures same { receiver.new.fetcher.subscription ≡ receiver.old.fetcher.subscription }
    ensures count { IfOk result (λ count. count ≡ length held.records) }
    ensures done { OnOk result (received_state receiver.new
        ≡ with_held receiver.old.fetcher.subscription (received_state receiver.old) held) }
{
    let Held { asked, records } = held;
    let Some(Request::Fetch(due)) = receiver.consumer().due(alloc)? else {
        return Err(TickFault::NotDue);
    };
    if !due.same(&asked) {
        return Err(TickFault::NotDue);
    }
    match receiver.hear(alloc, Body::Records(records))? {
        Tick::Took(count) => Ok(count),
        tick => Err(stop_of_consumer(&tick).unwrap_or(TickFault::NotDue)),
    }
}
