//! A line over anything that serves requests.

ghost use Rattle.std.specs.Prelude.{◌≡◌, ◌≢◌, ◌⊎◌, [], None, IfErr, IfNone, IfSome, IsErrOf};
ghost use Rattle.std.specs.Prelude.{Option, Some, alloc_error};
ghost use Rattle.kob_connections.specs.Calls.{IsAnswered, MayAnswer, IsSent, MakesCalls};
ghost use Rattle.kob_connections.specs.Calls.{fault_kept, reply_in};
ghost use Rattle.kob_rights.specs.Requests.{Fits, OffsetsWithin};
ghost use Rattle.kob_router.specs.Line.{Adds, IsFaithful};

use crate::calls::Calls;
use kob_rights::{Reply, Request};
use kob_router::{Call, Delivery, Line};
use kob_shared::{CallFault, fits, has_offsets_within};
use std::alloc::Global;

/// What serves requests: a broker, a session, a client of a broker in another process, or a queue to
/// another thread.
pub trait Serve {
    ghost use Rattle.kob_rights.specs.declared.reply.Reply.{Reply};
    ghost use Rattle.kob_rights.specs.declared.request.Request.{Request};
    ghost use Rattle.kob_shared.specs.declared.faults.CallFault.{CallFault};

    /// What serving a request makes of the server, and of which reply. Nothing is known of a server
    /// that does not say it.
    ghost serves: { Self → Self → Request → Option Reply → Type 0 } = { λ _ _ _ _. Unit {0} };

    /// When serving a request ends with which fault. Nothing is known of a server that does not say
    /// it.
    ghost refuses: { Self → Request → CallFault → Type 0 } = { λ _ _ _. Unit {0} };

    /// Serves a request, and returns the reply. `Ok(None)` is returned if no reply was received. Then
    /// the request may have been served, or not. The error is the fault that the connection keeps;
    /// after `JournalFull` the request was not served.
    fn serve(&mut self, alloc: Global, request: Request) -> Result<Option<Reply>, CallFault>
        ensures served { serves self.old self.new request (reply_in result) }
        ensures refused { IfErr result (refuses self.old request) }
        ensures full { IsErrOf result CallFault.JournalFull → self.new ≡ self.old };
}

/// A line: it notes each call that is made of a server. A reply that can't be one to the request
/// counts as not received: one with the body of another kind of request, or with an offset past
/// 9,223,372,036,854,775,807.
#[derive(Drop)]
pub struct Connection<S> {
    pub server: S,
    pub calls: Calls,
}

impl<S: Serve> Connection<S> {
    /// A line that has made no call. Does not allocate.
    pub fn new(alloc: Global, server: S) -> Connection<S>
        ensures server { result.server ≡ server }
        ensures made { result.calls.made.items ≡ [] }
        ensures unmade { result.calls.unmade ≡ 0 }
        ensures fault { result.calls.fault ≡ None }
    {
        Connection {
            server,
            calls: Calls::new(alloc),
        }
    }

    /// The server, and the calls that were made, the oldest first. Does not allocate.
    pub fn close(self) -> (S, Vec<Call>)
        ensures server { result.0 ≡ self.server }
        ensures calls { result.1.items ≡ self.calls.made.items }
    {
        let Connection { server, calls } = self;
        (server, calls.made)
    }
}

impl<S: Serve> Line for Connection<S> {
    ghost use Rattle.kob_connections.specs.Joined.{calls_are_made, no_call_is_made};

    ghost calls = { λ line. line.calls.made.items };

    ghost unmade = { λ line. line.calls.unmade };

    /// Calls were added, and the server became what these calls make of it.
    ghost becomes = { λ old new. MakesCalls S.serves old.server new.server
        old.calls.made.items new.calls.made.items };

    /// Makes a call of the server, and notes it. A call for which there was no entry left in the
    /// journal is counted among those that were not made.
    #[tactic(auto, using(crate::proofs::Adding::heard_as_told, crate::proofs::Adding::one_call_is_made, crate::proofs::Adding::sent))]
    fn send(&mut self, alloc: Global, request: Request) -> Delivery
        ensures added { Adds self.old.calls.made.items self.new.calls.made.items
            self.old.calls.unmade self.new.calls.unmade request result }
        ensures faithful { IsFaithful request result }
        ensures line { MakesCalls S.serves self.old.server self.new.server
            self.old.calls.made.items self.new.calls.made.items }
        ensures served { IsSent S.serves self.old.server self.new.server
            self.old.calls.unmade self.new.calls.unmade request result }
        ensures fault { result ≢ Delivery.Lost → self.new.calls.fault ≡ None }
        ensures refused { IfSome self.new.calls.fault (λ fault.
            (fault ≡ CallFault.Memory alloc_error) ⊎ S.refuses self.old.server request fault) }
        ensures full { self.new.calls.fault ≡ Some CallFault.JournalFull
            → self.new.calls.made.items ≡ self.old.calls.made.items }
        ensures kept { IsAnswered S.serves S.refuses self.old.server self.new.server
            request result self.new.calls.fault }
    {
        let Some(noted) = self.calls.room_for(alloc, &request) else {
            return Delivery::Lost;
        };
        let answer = self.server.serve(alloc, request);
        if let Err(CallFault::JournalFull) = answer {
            self.calls.refuse(CallFault::JournalFull);
            return Delivery::Lost;
        }
        let heard = heard(&mut self.calls, &noted, answer);
        self.calls.note(alloc, noted, heard)
    }

    fn made_calls(&self) -> &[Call] {
        &self.calls.made
    }

    fn unmade_calls(&self) -> u64 {
        self.calls.unmade
    }

    ghost stays = { λ line. no_call_is_made S.serves line.server line.calls.made.items };

    ghost goes_on = { λ a b c. calls_are_made S.serves a.server b.server c.server
        a.calls.made.items b.calls.made.items c.calls.made.items };
}

/// The reply that a server returned, if it may be one to the request. A fault is kept.
fn heard(
    calls: &mut Calls,
    request: &Request,
    answer: Result<Option<Reply>, CallFault>,
) -> Option<Reply>
    ensures same { IfSome result (λ reply. reply_in answer ≡ Some reply) }
    ensures fits { IfSome result (λ reply. Fits request.now reply) }
    ensures within { IfSome result (λ reply. OffsetsWithin reply) }
    ensures unheard { IfNone result
        (IfSome (reply_in answer) (λ reply. MayAnswer request.now reply → ⊥)) }
    ensures kept { calls.new ≡ record calls.old { fault = fault_kept calls.old.fault answer } }
{
    match answer {
        Ok(there) => received(request, there),
        Err(fault) => {
            calls.fault = Some(fault);
            None
        }
    }
}

/// The reply, if it may be one to the request.
fn received(request: &Request, there: Option<Reply>) -> Option<Reply>
    ensures same { IfSome result (λ reply. there ≡ Some reply) }
    ensures fits { IfSome result (λ reply. Fits request.now reply) }
    ensures within { IfSome result (λ reply. OffsetsWithin reply) }
    ensures unheard { IfNone result (IfSome there (λ reply. MayAnswer request.now reply → ⊥)) }
{
    let reply = there?;
    if !fits(request, &reply) || !has_offsets_within(&reply) {
        return None;
    }
    Some(reply)
}
