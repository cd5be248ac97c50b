//! Calls to a broker, of which some are lost.

ghost use Rattle.std.specs.Prelude.{◌≡◌, List, ℕ, IfOk};
ghost use Rattle.kob_router.specs.Line.{Adds, IsFaithful};

use kob_names::PlainValue;
use kob_rights::{Reply, Request};
use std::alloc::{AllocError, Global};

/// A request that was made, and the reply that was received, or none if the call was lost.
#[derive(Debug, Drop)]
pub struct Call {
    pub request: Request,
    pub heard: Option<Reply>,
}

impl Call {
    /// An equal call. The error is out of memory.
    pub fn copy(&self, alloc: Global) -> Result<Call, AllocError>
        ensures { IfOk result (λ made. made ≡ self.now) }
    {
        let request = self.request.copy(alloc)?;
        match self.heard.copy(alloc) {
            Ok(heard) => Ok(Call { request, heard }),
            Err(refused) => {
                drop(request);
                Err(refused)
            }
        }
    }
}

/// The result of a call.
#[derive(Debug, Drop)]
pub enum Delivery {
    /// The broker served the request, and this is its reply.
    Delivered(Reply),
    /// No reply was received. The broker may have served the request, or may not.
    Lost,
}

/// Which message of a call is lost.
#[derive(Clone, Copy, Debug, PartialEq, Eq)]
pub enum Loss {
    /// None: the call is served, and its reply is received.
    None,
    /// The request: it never reaches the broker.
    BeforeServe,
    /// The reply: the call is served.
    AfterServe,
}

/// A connection to a broker, which makes requests one after another. It keeps each request with the
/// reply that was received.
pub trait Line {
    ghost use Rattle.kob_router.specs.declared.line.Call.{Call};

    /// The calls that were made, the oldest first.
    ghost calls: { Self → List Call };

    /// How many calls were not made, since there was no memory to note them.
    ghost unmade: { Self → ℕ };

    /// Whether the first line may become the second one by any number of calls: what stays the
    /// same, and what the calls added.
    ghost becomes: { Self → Self → Type 0 };

    /// Makes a call. If there is no memory to note it, it is not made, and the result is `Lost`;
    /// this is counted.
    fn send(&mut self, alloc: Global, request: Request) -> Delivery
        ensures added { Adds (calls self.old) (calls self.new) (unmade self.old) (unmade self.new)
            request result }
        ensures faithful { IsFaithful request result }
        ensures line { becomes self.old self.new };

    /// The calls that were made, the oldest first. Does not allocate.
    fn made_calls(&self) -> &[Call]
        ensures { result.now ≡ calls self.now };

    /// How many calls were not made, since there was no memory to note them, counted up to
    /// 18,446,744,073,709,551,615.
    fn unmade_calls(&self) -> u64
        ensures { result ≡ unmade self.now };

    /// A line on which no call was made is unchanged.
    ghost stays: { (line : Self) → becomes line line };

    /// Calls after calls are calls.
    ghost goes_on: { (first : Self) (mid : Self) (last : Self)
        → becomes first mid → becomes mid last → becomes first last };
}
