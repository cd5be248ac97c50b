//! Sessions over a broker under one lock.

ghost use Rattle.std.specs.Prelude.{◌≡◌, ◌+◌, ◌<◌, ◌≤◌, IfOk, IfErr, OnErr};
ghost use Rattle.kob_rights.specs.Requests.{OffsetsWithin, Fits};
ghost use Rattle.kob_shared.specs.Journals.{Continuation, IsContinued, IsNotHandedOut, IsPast};
ghost use Rattle.kob_shared.specs.Journals.{IsSound, entry_limit, place_limit};
ghost use Rattle.kob_shared.specs.Journals.{event_by, new_seat, IsServed, IsStaleOnlyBelow};

use crate::event::event_of;
use crate::faults::{CallFault, RotateFault};
use crate::journal::{PastJournal, Receipt};
use crate::recorded::Recorded;
use crate::rotated_broker::RotatedBroker;
use kob_names::{Host, Principal};
use kob_rights::{Event, Request};
use std::alloc::{AllocError, Global};
use std::marker::Model;
use std::sync::{Mutex, Wait};

/// A broker and its journal, under one lock. No other state is shared.
#[derive(Drop)]
pub struct SharedBroker {
    recorded: Mutex<Recorded>,
}

impl SharedBroker {
    /// Puts the broker and its journal under the lock. Does not allocate.
    pub fn open(recorded: Recorded) -> SharedBroker {
        SharedBroker {
            recorded: Mutex::new(recorded),
        }
    }

    /// A session of a worker, for one principal at one host, that has seen no entries yet. Does not
    /// allocate.
    pub fn session(&self, worker: usize, principal: Principal, host: Host) -> Session<'_>
        ensures { result ≡ new_seat worker principal host entry_limit }
    {
        Session {
            shared: Shared::Whole(self),
            worker,
            principal,
            host,
            seen: 0,
        }
    }

    /// Returns the broker and its journal, which replays to the broker's state. Does not wait.
    pub fn finish(self) -> Recorded
        ensures { IsSound result }
    {
        let recorded = self.recorded.into_inner();
        let _ = recorded.journal();
        recorded
    }
}

/// A broker under one lock, whose journal is handed out from time to time. It is for a process that
/// runs for long. No other state is shared.
#[derive(Drop)]
pub struct RotatingBroker {
    continued: Mutex<RotatedBroker>,
}

impl RotatingBroker {
    /// Puts the broker and its journal under the lock. Does not allocate.
    pub fn open(continued: RotatedBroker) -> RotatingBroker {
        RotatingBroker {
            continued: Mutex::new(continued),
        }
    }

    /// A session of a worker, for one principal at one host, that has seen no entries yet. It goes
    /// on when the journal is handed out. Does not allocate.
    pub fn session(&self, worker: usize, principal: Principal, host: Host) -> Session<'_>
        ensures { result ≡ new_seat worker principal host place_limit }
    {
        Session {
            shared: Shared::Rotating(self),
            worker,
            principal,
            host,
            seen: 0,
        }
    }

    /// Hands out the journal under the lock, and continues with an empty one, as
    /// `RotatedBroker::rotate` does. Sessions go on, and places count on. `first_place` is the place
    /// where the journal begins: that after the last entry which was handed out. `OutOfTurn` is
    /// returned exactly if it begins elsewhere, so that no two callers hand out journals in turn
    /// unnoticed. Does not allocate.
    pub fn rotate<R: Wait>(
        &self,
        rt: &R,
        alloc: Global,
        first_place: usize,
    ) -> Result<PastJournal, RotateFault>
        ensures first { IfOk result (λ past. past.first_place ≡ first_place) }
        ensures past { IfOk result IsPast }
        ensures refused { IfErr result
            (λ fault. (c : Continuation) × IsContinued c × IsNotHandedOut c first_place fault) }
    {
        let mut continued = self.continued.lock(rt);
        continued.rotate_from(alloc, first_place)
    }

    /// Returns the broker and the journal that was not handed out. Does not wait.
    pub fn finish(self) -> RotatedBroker
        ensures { IsContinued result }
    {
        let continued = self.continued.into_inner();
        let _ = continued.journal();
        continued
    }
}

/// The broker that a session calls.
#[derive(Clone, Copy)]
enum Shared<'a> {
    Whole(&'a SharedBroker),
    Rotating(&'a RotatingBroker),
}

impl<'a> Shared<'a> {
    ghost use Rattle.kob_shared.specs.Sessions.{places_of};

    /// Serves an event under the broker's lock, for a worker who has seen `seen` entries.
    #[tactic(auto, using(crate::proofs::Seats::within_places))]
    fn serve<R: Wait>(
        &self,
        rt: &R,
        alloc: Global,
        worker: usize,
        event: Event,
        seen: usize,
    ) -> Result<Receipt, CallFault>
        ensures place { IfOk result
            (λ r. (seen ≤ r.place) × (r.place < places_of self.now)) }
        ensures served { IfOk result (λ r. IsServed event r) }
        ensures fits { IfOk result (λ r. Fits event.request r.reply) }
        ensures offsets { IfOk result (λ r. OffsetsWithin r.reply) }
        ensures stale { IfErr result (IsStaleOnlyBelow seen) }
    {
        match self {
            Shared::Whole(shared) => {
                let mut recorded = shared.recorded.lock(rt);
                recorded.serve_after(alloc, worker, event, seen)
            }
            Shared::Rotating(shared) => {
                let mut continued = shared.continued.lock(rt);
                continued.serve_after(alloc, worker, event, seen)
            }
        }
    }
}

/// A worker's access to a shared broker. It knows how many entries of the journals the worker has
/// seen.
#[derive(Drop)]
pub struct Session<'a> {
    shared: Shared<'a>,
    worker: usize,
    principal: Principal,
    host: Host,
    seen: usize,
}

impl<'a> Model for Session<'a> {
    ghost use Rattle.kob_shared.specs.Journals.{Seat};
    ghost use Rattle.kob_shared.specs.Sessions.{places_of};

    ghost Value = { Seat };

    ghost view = { λ s. record {
      worker = s.worker;
      principal = s.principal;
      host = s.host;
      seen = s.seen;
      places = places_of s.shared;
    } };
}

impl<'a> Session<'a> {
    /// The worker's number in the journal.
    pub fn worker(&self) -> usize
        ensures { result ≡ self.now.worker }
    {
        self.worker
    }

    /// How many entries of the journal the session knows of.
    pub fn seen(&self) -> usize
        ensures { result ≡ self.now.seen }
    {
        self.seen
    }

    /// Serves a request under the lock. The event is made before the lock is taken (`Memory`).
    /// Under the lock the faults are `Stale`, `JournalFull` and `Memory`, in this order. After a
    /// fault there is no entry, and the session has seen no more.
    pub fn call<R: Wait>(
        &mut self,
        rt: &R,
        alloc: Global,
        request: Request,
    ) -> Result<Receipt, CallFault>
        ensures ok { IfOk result (λ r. (self.old.seen ≤ r.place)
            × (self.new ≡ record self.old { seen = r.place + 1 })) }
        ensures below { IfOk result (λ r. r.place < self.old.places) }
        ensures err { OnErr result (self.new ≡ self.old) }
        ensures served { IfOk result
            (λ r. IsServed (event_by self.old.principal self.old.host request) r) }
        ensures fits { IfOk result (λ r. Fits request r.reply) }
        ensures offsets { IfOk result (λ r. OffsetsWithin r.reply) }
        ensures stale { IfErr result (IsStaleOnlyBelow self.old.seen) }
    {
        let event = self.event(alloc, request)?;
        self.send(rt, alloc, event)
    }

    /// Serves an event under the lock, as `call` does.
    pub(crate) fn send<R: Wait>(
        &mut self,
        rt: &R,
        alloc: Global,
        event: Event,
    ) -> Result<Receipt, CallFault>
        ensures ok { IfOk result (λ r. (self.old.seen ≤ r.place)
            × (self.new ≡ record self.old { seen = r.place + 1 })) }
        ensures below { IfOk result (λ r. r.place < self.old.places) }
        ensures err { OnErr result (self.new ≡ self.old) }
        ensures served { IfOk result (λ r. IsServed event r) }
        ensures fits { IfOk result (λ r. Fits event.request r.reply) }
        ensures offsets { IfOk result (λ r. OffsetsWithin r.reply) }
        ensures stale { IfErr result (IsStaleOnlyBelow self.old.seen) }
    {
        let receipt = self.shared.serve(rt, alloc, self.worker, event, self.seen)?;
        self.seen = receipt.place + 1;
        Ok(receipt)
    }

    /// The event of the session's principal and host with the request.
    pub(crate) fn event(&self, alloc: Global, request: Request) -> Result<Event, AllocError>
        ensures { IfOk result
            (λ event. event ≡ event_by self.now.principal self.now.host request) }
    {
        event_of(alloc, &self.principal, &self.host, request)
    }
}
