//! A service under one lock.

ghost use Rattle.std.specs.Prelude.{◌≡◌, ◌<◌, ◌≤◌, ◌^◌, ◌↔◌, ◌⊎◌, ◌++◌, [], Some, None, IfOk, OnOk};
ghost use Rattle.std.specs.Prelude.{IfErr, IsErrOf, OnErr, alloc_error, length, map, option_map};
ghost use Rattle.std.specs.Prelude.{string_bytes};
ghost use Rattle.kob_endpoints.specs.Running.{IsSomeTick, OfSomeService};
ghost use Rattle.kob_outbox.specs.Contents.{first_after, first_bad, state_at, stored_row, up_to};

use crate::running_service::RunningService;
use kob_connections::IntoCalls;
use kob_outbox::{Change, OutboxEvent, OutboxFault, RecordFault, Row};
use kob_router::{Call, Line, Tick};
use std::alloc::{AllocError, Global};
use std::marker::Model;
use std::sync::{Mutex, Wait};

/// A service, and the calls of the lines that it handed out, in turn.
#[derive(Drop)]
struct Held<L: Line> {
    service: RunningService<L>,
    earlier: Vec<Call>,
}

impl<L: Line> Model for Held<L> {
    ghost use Rattle.std.specs.Prelude.{◌≡◌};
    ghost use Rattle.std.specs.Coded.{codes};
    ghost use Rattle.kob_endpoints.specs.Running.{Service};
    ghost use Rattle.kob_outbox.specs.Contents.{contents_code};

    ghost Value = { Service L };

    ghost coded = { Prim.hlevel (codes, contents_code, L.code) };

    ghost view = { λ h. h.service };

    ghost invariant = { λ h. h.earlier.items ≡ h.service.earlier };
}

/// A service that threads share: some record events, and one or more tick its router. Each call
/// waits for the lock, and holds it until it returns. So a thread that records waits until a step
/// of the router has its reply. The service keeps its run under the lock.
#[derive(Drop)]
pub struct SharedService<L: Line> {
    held: Mutex<Held<L>>,
}

impl<L: Line> SharedService<L> {
    /// Puts the service under the lock, with the calls of the lines that it handed out, in turn. Does
    /// not allocate.
    pub fn open(service: RunningService<L>, earlier: Vec<Call>) -> SharedService<L>
        requires { earlier.items ≡ service.earlier }
    {
        SharedService {
            held: Mutex::new(Held { service, earlier }),
        }
    }

    /// Records an event under the lock, as [`RunningService::record`] does, and returns its number.
    pub fn record<R: Wait>(
        &self,
        rt: &R,
        change: &Change,
        event: &OutboxEvent,
    ) -> Result<u64, RecordFault>
        ensures value { IfOk result (λ seq. (1 ≤ seq) × (seq < 2 ^ 63)) }
        ensures bad { (column : _) → (IsErrOf result (RecordFault.BadField column))
            ↔ (first_bad change.now event.now ≡ Some column) }
        ensures good { OnOk result (first_bad change.now event.now ≡ None) }
        ensures duplicate { IsErrOf result RecordFault.DuplicateId
            → first_bad change.now event.now ≡ None }
        ensures store { IsErrOf result RecordFault.Store
            → first_bad change.now event.now ≡ None }
    {
        let mut held = self.held.lock(rt);
        held.service.record(change, event)
    }

    /// One step of the router under the lock, as [`RunningService::tick`] makes it.
    pub fn tick<R: Wait>(&self, rt: &R, alloc: Global) -> Tick
        ensures { IsSomeTick result }
    {
        let mut held = self.held.lock(rt);
        held.service.tick(alloc)
    }

    /// Restarts the router under the lock, as [`RunningService::restart`] does.
    pub fn restart<R: Wait>(&self, rt: &R) {
        let mut held = self.held.lock(rt);
        held.service.restart();
    }

    /// Deletes the events that were sent, under the lock, and returns how many they were.
    pub fn sweep<R: Wait>(&self, rt: &R) -> Result<u64, OutboxFault>
        ensures { IfOk result (λ count. OfSomeService (λ r.
            count ≡ length (up_to r.outbox.mark r.outbox.events))) }
    {
        let mut held = self.held.lock(rt);
        held.service.sweep()
    }

    /// The first events after this number, under the lock, as [`RunningService::after`] reads them.
    pub fn after<R: Wait>(&self, rt: &R, seq: u64, limit: u32) -> Result<Vec<Row>, OutboxFault>
        ensures rows { IfOk result (λ rows. OfSomeService (λ r.
            map stored_row rows.items ≡ first_after seq limit r.outbox.events)) }
        ensures memory { IfErr result (λ f. f ≡ OutboxFault.Memory alloc_error) }
    {
        let mut held = self.held.lock(rt);
        held.service.after(seq, limit)
    }

    /// The state of the business row with this kind and id, if there is one, under the lock.
    pub fn business<R: Wait>(
        &self,
        rt: &R,
        kind: &str,
        id: &str,
    ) -> Result<Option<String>, OutboxFault>
        ensures value { IfOk result (λ found. OfSomeService (λ r.
            option_map string_bytes found ≡ state_at kind.now id.now r.outbox.business)) }
        ensures memory { IfErr result (λ f. f ≡ OutboxFault.Memory alloc_error) }
    {
        let mut held = self.held.lock(rt);
        held.service.business(kind, id)
    }

    /// The number up to which the events were sent, or 0, under the lock.
    pub fn mark<R: Wait>(&self, rt: &R) -> Result<u64, OutboxFault>
        ensures value { IfOk result (λ mark. OfSomeService (λ r. mark ≡ r.outbox.mark)) }
        ensures memory { IfErr result (λ f. f ≡ OutboxFault.Memory alloc_error) }
    {
        let mut held = self.held.lock(rt);
        held.service.mark()
    }

    /// Returns the service, and the calls of the lines that it handed out, in turn. Does not wait.
    pub fn finish(self) -> (RunningService<L>, Vec<Call>)
        ensures { result.1.items ≡ result.0.earlier }
    {
        let Held { service, earlier } = self.held.into_inner();
        (service, earlier)
    }
}

impl<L: IntoCalls + Drop> SharedService<L> {
    /// Ends the line under the lock, keeps its calls, and goes on with a line that made no call. The
    /// error is out of memory: then the service goes on with the line that it has.
    pub fn change_line<R: Wait>(&self, rt: &R, line: L) -> Result<(), AllocError>
        requires { L.calls line ≡ [] }
    {
        let mut held = self.held.lock(rt);
        held.change_line(line)
    }
}

impl<L: IntoCalls + Drop> Held<L> {
    fn change_line(&mut self, line: L) -> Result<(), AllocError>
        requires { L.calls line ≡ [] }
        ensures relayed { self.new.relayed ≡ self.old.relayed }
        ensures earlier { OnOk result
            (self.new.earlier ≡ self.old.earlier ++ L.calls self.old.line) }
        ensures line { OnOk result (self.new.line ≡ line) }
        ensures err { OnErr result (self.new ≡ self.old) }
    {
        let made = self.service.line().made_calls().len();
        self.earlier.reserve(made)?;
        let mut calls = self.service.change_line(line).into_calls();
        self.earlier.append(&mut calls).unwrap();
        Ok(())
    }
}
