//! What a line keeps of its calls.

ghost use Rattle.std.specs.Prelude.{◌≡◌, ◌<◌, [], ◌∷◌, ◌++◌, None, IfSome, IfNone, IfOk, OnOk, OnSome};
ghost use Rattle.std.specs.Prelude.{Some, alloc_error, vec_capacity, vec_len};
ghost use Rattle.kob_connections.specs.Calls.{IsHeardOf, fault_after, reply_of};
ghost use Rattle.kob_rights.specs.Requests.{Fits, OffsetsWithin};
ghost use Rattle.kob_router.specs.Line.{Adds, IsFaithful, one_more};

use kob_names::PlainValue;
use kob_rights::{Reply, Request};
use kob_router::{Call, Delivery};
use kob_shared::CallFault;
use std::alloc::{AllocError, Global};

/// The calls of a line, the oldest first. A line reserves capacity for a call before it makes it,
/// and notes it after, so that each call that was made is noted.
#[derive(Drop)]
pub struct Calls {
    pub made: Vec<Call>,
    /// How many calls were not made, since there was no memory to note them or no entry left in the
    /// journal, counted up to 18,446,744,073,709,551,615.
    pub unmade: u64,
    /// Why the last call has no reply: it was not made or not served, or its reply could not be
    /// kept. `None` if a reply was received, or lost on purpose.
    pub fault: Option<CallFault>,
}

impl Calls {
    /// No calls. Does not allocate.
    pub fn new(alloc: Global) -> Calls
        ensures made { result.made.items ≡ [] }
        ensures unmade { result.unmade ≡ 0 }
        ensures fault { result.fault ≡ None }
    {
        Calls {
            made: Vec::new(alloc),
            unmade: 0,
            fault: None,
        }
    }

    /// Reserves capacity for one more call, and returns an equal request for the note. `None` if
    /// out of memory: the call must not be made, and is counted.
    pub fn room_for(&mut self, alloc: Global, request: &Request) -> Option<Request>
        ensures made { self.new.made.items ≡ self.old.made.items }
        ensures room { OnSome result (vec_len self.new.made < vec_capacity self.new.made) }
        ensures same { IfSome result (λ noted. noted ≡ request.now) }
        ensures counted { OnSome result (self.new.unmade ≡ self.old.unmade) }
        ensures refused { IfNone result (self.new.unmade ≡ one_more self.old.unmade) }
        ensures cleared { OnSome result (self.new.fault ≡ None) }
        ensures told { IfNone result (self.new.fault ≡ Some (CallFault.Memory alloc_error)) }
    {
        match note_of(&mut self.made, alloc, request) {
            Ok(noted) => {
                self.fault = None;
                Some(noted)
            }
            Err(refused) => {
                self.refuse(CallFault::Memory(refused));
                None
            }
        }
    }

    /// Counts a call that was not made, and keeps why. Does not allocate.
    pub fn refuse(&mut self, fault: CallFault)
        ensures made { self.new.made.items ≡ self.old.made.items }
        ensures counted { self.new.unmade ≡ one_more self.old.unmade }
        ensures fault { self.new.fault ≡ Some fault }
    {
        self.unmade = self.unmade.saturating_add(1);
        self.fault = Some(fault);
    }

    /// Notes a call, for which capacity is reserved, with its reply, if one was received. If there
    /// is no memory for a second copy of the reply, it counts as not received.
    pub fn note(&mut self, alloc: Global, request: Request, heard: Option<Reply>) -> Delivery
        requires room { vec_len self.old.made < vec_capacity self.old.made }
        requires fits { IfSome heard (λ reply. Fits request reply) }
        requires within { IfSome heard (λ reply. OffsetsWithin reply) }
        ensures added { Adds self.old.made.items self.new.made.items self.old.unmade self.new.unmade
            request result }
        ensures faithful { IsFaithful request result }
        ensures heard { IsHeardOf heard result }
        ensures noted { self.new.made.items
            ≡ self.old.made.items ++ record { request = request; heard = reply_of result } ∷ [] }
        ensures counted { self.new.unmade ≡ self.old.unmade }
        ensures told { self.new.fault ≡ fault_after self.old.fault heard result }
    {
        let Some(reply) = heard else {
            self.made.push_reserved(Call {
                request,
                heard: None,
            });
            return Delivery::Lost;
        };
        match reply.copy(alloc) {
            Ok(kept) => {
                self.made.push_reserved(Call {
                    request,
                    heard: Some(kept),
                });
                Delivery::Delivered(reply)
            }
            Err(refused) => {
                self.fault = Some(CallFault::Memory(refused));
                self.made.push_reserved(Call {
                    request,
                    heard: None,
                });
                Delivery::Lost
            }
        }
    }
}

/// Reserves capacity for one more call, and copies the request for its note.
fn note_of(made: &mut Vec<Call>, alloc: Global, request: &Request) -> Result<Request, AllocError>
    ensures made { made.new.items ≡ made.old.items }
    ensures room { OnOk result (vec_len made.new < vec_capacity made.new) }
    ensures same { IfOk result (λ noted. noted ≡ request.now) }
{
    made.reserve(1)?;
    request.copy(alloc)
}
