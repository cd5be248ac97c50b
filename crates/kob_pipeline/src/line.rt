//! A line over a desk, which loses the calls that a plan loses.

ghost use Rattle.std.specs.Prelude.{◌≡◌, ◌<◌, ◌⊎◌, [], ◌∷◌, ◌++◌, None, OnOk, Some, IfErr, IfNone};
ghost use Rattle.std.specs.Prelude.{IfOk, IfSome, alloc_error, vec_capacity, vec_len};
ghost use Rattle.kob_connections.specs.Calls.{reply_of};
ghost use Rattle.kob_rights.specs.Requests.{Fits, OffsetsWithin};
ghost use Rattle.kob_pipeline.specs.Served.{AreNotedOrLost};
ghost use Rattle.kob_router.specs.Line.{Adds, IsFaithful};

use kob_connections::{Calls, Loss};
use kob_names::PlainValue;
use kob_rights::{Reply, Request};
use kob_router::{Call, Delivery, Line};
use kob_shared::{CallFault, Desk, Gate, Notes};
use std::alloc::{AllocError, Global};
use std::sync::Wait;

/// A line over a desk. Each call is made once the gate lets it pass, and noted with the reply that
/// was received. A call that the plan loses has no reply, or is not made.
#[derive(Drop)]
pub(crate) struct DeskLine<'a, R, G> {
    rt: &'a R,
    gate: &'a G,
    worker: usize,
    desk: Desk<'a>,
    calls: Calls,
    /// What happens to the next call.
    loss: Loss,
    /// Why a call was not served, or could not be noted. It stays set until the worker ends.
    fault: Option<CallFault>,
}

impl<'a, R: Wait, G: Gate> DeskLine<'a, R, G> {
    /// A line over a desk that has made no call. Does not allocate.
    pub(crate) fn open(
        rt: &'a R,
        alloc: Global,
        gate: &'a G,
        worker: usize,
        desk: Desk<'a>,
    ) -> DeskLine<'a, R, G>
        ensures desk { result.desk ≡ desk.entry }
        ensures unmade { result.calls.unmade ≡ 0 }
    {
        DeskLine {
            rt,
            gate,
            worker,
            desk,
            calls: Calls::new(alloc),
            loss: Loss::None,
            fault: None,
        }
    }

    /// Sets what happens to the next call. All replies after it are received.
    pub(crate) fn lose(&mut self, loss: Loss)
        ensures { self.new ≡ record self.old { loss = loss } }
    {
        self.loss = loss;
    }

    /// Why a call was not served or not noted, unless it was lost on purpose.
    pub(crate) fn goes_on(&self) -> Result<(), CallFault>
        ensures fault { OnOk result (self.now.fault ≡ None) }
        ensures unmade { OnOk result (self.now.calls.unmade ≡ 0) }
        ensures own { IfErr result (λ fault. (self.now.fault ≡ Some fault)
            ⊎ ((fault ≡ CallFault.Memory alloc_error) × (0 < self.now.calls.unmade))) }
    {
        if let Some(fault) = self.fault {
            return Err(fault);
        }
        if self.calls.unmade > 0 {
            return Err(CallFault::Memory(AllocError));
        }
        Ok(())
    }

    /// Asks the gate before the next call, or after the last.
    fn ask(&self) {
        self.gate.before(self.worker, self.calls.made.len() + 1);
    }

    /// The notes, after the last call.
    pub(crate) fn settle(self) -> Notes
        ensures { result ≡ self.entry.desk.noted }
    {
        self.ask();
        self.close()
    }

    /// The notes. Does not allocate.
    pub(crate) fn close(self) -> Notes
        ensures { result ≡ self.entry.desk.noted }
    {
        let DeskLine {
            rt: _,
            gate: _,
            worker: _,
            desk,
            calls: _,
            loss: _,
            fault: _,
        } = self;
        desk.close()
    }

    /// Makes a call, unless it is lost before. Returns the reply, unless it is lost.
    #[tactic(auto, using(crate::proofs::Worked::noted_if_served, crate::proofs::Worked::noted_if_unheard, crate::proofs::Worked::faultless_before, crate::proofs::Worked::unserved_is_noted))]
    fn make(&mut self, alloc: Global, request: Request, loss: Loss) -> Option<Reply>
        ensures calls { self.new.calls ≡ self.old.calls }
        ensures loss { self.new.loss ≡ self.old.loss }
        ensures fault { self.new.fault ≡ None → self.old.fault ≡ None }
        ensures unsent { loss ≡ Loss.BeforeServe → self.new ≡ self.old }
        ensures noted { self.new.fault ≡ None → AreNotedOrLost loss
            (record { request = request; heard = result } ∷ []) self.old.desk self.new.desk }
        ensures fits { IfSome result (λ reply. Fits request reply) }
        ensures within { IfSome result (λ reply. OffsetsWithin reply) }
    {
        match loss {
            Loss::None => self.serve(alloc, request),
            Loss::BeforeServe => None,
            Loss::AfterServe => {
                self.serve(alloc, request);
                None
            }
        }
    }

    /// Makes a call, and keeps why it was not served, or its reply not kept.
    #[tactic(auto, using(crate::proofs::Worked::a_fault_is_one))]
    fn serve(&mut self, alloc: Global, request: Request) -> Option<Reply>
        ensures calls { self.new.calls ≡ self.old.calls }
        ensures loss { self.new.loss ≡ self.old.loss }
        ensures fault { IfSome result (λ _. self.new.fault ≡ self.old.fault) }
        ensures unserved { IfNone result (self.new.fault ≡ None → ⊥) }
        ensures noted { IfSome result (λ reply. AreNotedOrLost Loss.None
            (record { request = request; heard = Some reply } ∷ []) self.old.desk self.new.desk) }
        ensures fits { IfSome result (λ reply. Fits request reply) }
        ensures within { IfSome result (λ reply. OffsetsWithin reply) }
    {
        match reply_at(self.rt, alloc, &mut self.desk, request) {
            Ok(reply) => Some(reply),
            Err(fault) => {
                self.fault = Some(fault);
                None
            }
        }
    }

    /// Notes a call with the reply that was received, if one was. A reply without a second copy
    /// counts as lost, which is a fault.
    #[tactic(auto, using(crate::proofs::Worked::a_fault_is_one))]
    fn note(&mut self, alloc: Global, request: Request, heard: Option<Reply>) -> Delivery
        requires room { vec_len self.old.calls.made < vec_capacity self.old.calls.made }
        requires fits { IfSome heard (λ reply. Fits request reply) }
        requires within { IfSome heard (λ reply. OffsetsWithin reply) }
        ensures added { Adds self.old.calls.made.items self.new.calls.made.items
            self.old.calls.unmade self.new.calls.unmade request result }
        ensures faithful { IsFaithful request result }
        ensures noted { self.new.calls.made.items ≡ self.old.calls.made.items
            ++ record { request = request; heard = reply_of result } ∷ [] }
        ensures desk { self.new.desk ≡ self.old.desk }
        ensures loss { self.new.loss ≡ self.old.loss }
        ensures fault { self.new.fault ≡ None → self.old.fault ≡ None }
        ensures kept { self.new.fault ≡ None → reply_of result ≡ heard }
    {
        let is_heard = heard.is_some();
        match self.calls.note(alloc, request, heard) {
            Delivery::Delivered(reply) => Delivery::Delivered(reply),
            Delivery::Lost => {
                if is_heard {
                    self.fault = self.calls.fault;
                }
                Delivery::Lost
            }
        }
    }
}

impl<'a, R: Wait, G: Gate> Line for DeskLine<'a, R, G> {
    ghost use Rattle.kob_pipeline.specs.Served.{AreMade};
    ghost use Rattle.kob_pipeline.specs.Noting.{calls_are_made, no_call_is_made};

    ghost calls = { λ line. line.calls.made.items };

    ghost unmade = { λ line. line.calls.unmade };

    /// If there is no fault, each call is noted at the desk or lost on purpose.
    ghost becomes = { λ old new. new.fault ≡ None
        → AreMade old.fault old.loss new.loss old.calls.made.items new.calls.made.items
        old.desk new.desk };

    fn send(&mut self, alloc: Global, request: Request) -> Delivery {
        let loss = self.loss;
        self.loss = Loss::None;
        let Some(noted) = self.calls.room_for(alloc, &request) else {
            self.fault = self.calls.fault;
            return Delivery::Lost;
        };
        self.ask();
        let heard = self.make(alloc, request, loss);
        self.note(alloc, noted, heard)
    }

    fn made_calls(&self) -> &[Call] {
        &self.calls.made
    }

    fn unmade_calls(&self) -> u64 {
        self.calls.unmade
    }

    ghost stays = { λ line faultless.
        no_call_is_made line.fault line.loss line.calls.made.items line.desk faultless };

    ghost goes_on = { λ a b c one two faultless.
        let last = two faultless in
        calls_are_made a.fault b.fault a.loss b.loss c.loss a.calls.made.items b.calls.made.items
        c.calls.made.items a.desk b.desk c.desk (one last.begun) last };
}

/// Makes a call, and returns a copy of the reply that the desk has.
fn reply_at<R: Wait>(
    rt: &R,
    alloc: Global,
    desk: &mut Desk<'_>,
    request: Request,
) -> Result<Reply, CallFault>
    ensures noted { IfOk result (λ reply. AreNotedOrLost Loss.None
        (record { request = request; heard = Some reply } ∷ []) desk.old desk.new) }
    ensures fits { IfOk result (λ reply. Fits request reply) }
    ensures within { IfOk result (λ reply. OffsetsWithin reply) }
{
    desk.call(rt, alloc, request)?;
    let receipt = &desk.receipts()[desk.len() - 1];
    Ok(receipt.reply.copy(alloc)?)
}
