//! A service with its router and its outbox, and its steps.

ghost use Rattle.std.specs.Prelude.{◌≡◌, ◌≤◌, ◌⊎◌, ◌^◌, ◌++◌, [], map, IfErr, IfOk, IsErrOf};
ghost use Rattle.std.specs.Prelude.{alloc_error, None};
ghost use Rattle.std.specs.Prelude.{OnErr, OnOk, false};
ghost use Rattle.kob_connections.specs.Relayed.{relayed_state};
ghost use Rattle.kob_outbox.specs.Contents.{id_text, stored_row, first_bad, later_than};
ghost use Rattle.kob_outbox.specs.Contents.{is_recorded, next_seq};
ghost use Rattle.kob_router.specs.Run.{dispatch_of, start};
ghost use Rattle.kob_pipeline.specs.declared.plan.ServiceStep.TheVariants as steps;
ghost use Rattle.kob_delivery.specs.Delivered.{IsPrefixOf};
ghost use Rattle.kob_pipeline.specs.Steps.{ServiceGoesOn, IsServiceStep, Leads, Steps, with_desk};

use crate::end::OutboxEnd;
use crate::line::DeskLine;
use crate::plan::{Service, ServiceStep};
use crate::step_fault::{StepFault, goes_on_after};
use kob_connections::{Loss, Relay};
use kob_outbox::{Change, Outbox, OutboxEvent, RecordFault, Row};
use kob_router::{Line, Tick};
use kob_shared::{CallFault, Gate};
use std::alloc::Global;
use std::sync::Wait;

/// The most rows that one read of the outbox returns.
const PAGE: u32 = 1_000;

/// A service's router with its outbox.
#[derive(Drop)]
pub(crate) struct Posting {
    relay: Relay,
}

impl Posting {
    ghost use Rattle.kob_shared.specs.Journals.{AtDesk};

    /// A service's database and router, before its first step.
    pub(crate) fn open(alloc: Global, service: &Service) -> Result<Posting, StepFault>
        requires some { 1 ≤ service.now.target.partitions }
        requires most { service.now.target.partitions ≤ 1000 }
        ensures target { IfOk result (λ posting.
            posting.relay.router.target ≡ service.now.target) }
        ensures state { IfOk result (λ posting. relayed_state posting.relay ≡ start) }
    {
        let target = service.target.copy(alloc)?;
        let relay = Relay::open(alloc, target)?;
        Ok(Posting { relay })
    }

    /// Makes the steps, one after another.
    pub(crate) fn run<R: Wait, G: Gate>(
        &mut self,
        alloc: Global,
        line: &mut DeskLine<'_, R, G>,
        steps: &[ServiceStep],
    ) -> Result<(), StepFault>
        requires { line.old.calls.unmade ≡ 0 }
        ensures { OnOk result (Leads
            (Steps (IsServiceStep (dispatch_of self.old.relay.router.target)))
            (with_desk (relayed_state self.old.relay) line.old.desk)
            steps.now
            (with_desk (relayed_state self.new.relay) line.new.desk)) }
    {
        for step in steps {
            self.step(alloc, line, step)?;
        }
        Ok(())
    }

    /// Makes one step. It fails if out of memory, if the database fails, or if a call was not
    /// served that was not lost on purpose.
    fn step<R: Wait, G: Gate>(
        &mut self,
        alloc: Global,
        line: &mut DeskLine<'_, R, G>,
        step: &ServiceStep,
    ) -> Result<(), StepFault>
        requires { line.old.calls.unmade ≡ 0 }
        ensures made { OnOk result (line.new.calls.unmade ≡ 0) }
        ensures same { OnOk result (self.new.relay.router.target ≡ self.old.relay.router.target) }
        ensures done { OnOk result (Leads (IsServiceStep (dispatch_of self.old.relay.router.target))
            (with_desk (relayed_state self.old.relay) line.old.desk)
            step.now
            (with_desk (relayed_state self.new.relay) line.new.desk)) }
    {
        match step {
            ServiceStep::Record(change, event) => self.note(change, event),
            ServiceStep::Tick(loss) => self.tick(alloc, line, *loss),
            ServiceStep::Restart => {
                self.relay.restart();
                Ok(())
            }
            ServiceStep::Sweep => self.sweep(),
        }
    }

    /// Records an event. A text that does not fit and an id that is spent change nothing, and the
    /// service goes on.
    fn note(&mut self, change: &Change, event: &OutboxEvent) -> Result<(), StepFault>
        ensures same { OnOk result (self.new.relay.router ≡ self.old.relay.router) }
        ensures done { OnOk result ((desk : AtDesk)
            → Leads (IsServiceStep (dispatch_of self.old.relay.router.target))
            (with_desk (relayed_state self.old.relay) desk)
            (steps.Record change.now event.now)
            (with_desk (relayed_state self.new.relay) desk)) }
        ensures fits { OnErr result (first_bad change.now event.now ≡ None) }
        ensures own { IfErr result (λ fault.
            (fault ≡ StepFault.Store) ⊎ (fault ≡ StepFault.Call (CallFault.Memory alloc_error))) }
        ensures fresh { IsErrOf result StepFault.Store
            → (is_recorded self.old.relay.outbox.ids (id_text event.now.id) ≡ false)
            ⊎ (next_seq self.old.relay.outbox ≡ 2 ^ 63) }
    {
        match self.relay.record(change, event) {
            Ok(_) => Ok(()),
            Err(RecordFault::BadField(_)) => Ok(()),
            Err(RecordFault::DuplicateId) => Ok(()),
            Err(RecordFault::Memory(refused)) => Err(StepFault::Call(CallFault::Memory(refused))),
            Err(RecordFault::Store) => Err(StepFault::Store),
        }
    }

    /// Deletes the rows up to the mark.
    fn sweep(&mut self) -> Result<(), StepFault>
        ensures same { OnOk result (self.new.relay.router ≡ self.old.relay.router) }
        ensures done { OnOk result ((desk : AtDesk)
            → Leads (IsServiceStep (dispatch_of self.old.relay.router.target))
            (with_desk (relayed_state self.old.relay) desk)
            steps.Sweep
            (with_desk (relayed_state self.new.relay) desk)) }
    {
        self.relay.sweep()?;
        Ok(())
    }

    /// One step of the router. `loss` says what happens to its first call.
    fn tick<R: Wait, G: Gate>(
        &mut self,
        alloc: Global,
        line: &mut DeskLine<'_, R, G>,
        loss: Loss,
    ) -> Result<(), StepFault>
        requires { line.old.calls.unmade ≡ 0 }
        ensures made { OnOk result (line.new.calls.unmade ≡ 0) }
        ensures same { OnOk result (self.new.relay.router.target ≡ self.old.relay.router.target) }
        ensures done { OnOk result (Leads (IsServiceStep (dispatch_of self.old.relay.router.target))
            (with_desk (relayed_state self.old.relay) line.old.desk)
            (steps.Tick loss)
            (with_desk (relayed_state self.new.relay) line.new.desk)) }
    {
        line.lose(loss);
        let tick = self.relay.tick(alloc, line);
        goes_on(tick)?;
        line.goes_on()?;
        Ok(())
    }

    /// What the outbox holds.
    pub(crate) fn close(self) -> Result<OutboxEnd, StepFault>
        ensures rows { IfOk result (λ left.
            map stored_row left.rows.items ≡ later_than 0 self.relay.outbox.events) }
        ensures mark { IfOk result (λ left. left.mark ≡ self.relay.outbox.mark) }
    {
        let Posting { relay } = self;
        let (mut outbox, _) = relay.into_parts();
        let mark = outbox.mark()?;
        let rows = rows_of(&mut outbox)?;
        Ok(OutboxEnd { rows, mark })
    }
}

/// The fault, if out of memory or the database stopped a tick.
fn goes_on(tick: Tick) -> Result<(), StepFault>
    ensures ok { OnOk result (ServiceGoesOn tick) }
    ensures err { OnErr result (¬ (ServiceGoesOn tick)) }
{
    match tick {
        Tick::Stopped(reason) => goes_on_after(reason),
        _ => Ok(()),
    }
}

/// All rows that were not swept, by ascending number, read a page at a time. The error is out of
/// memory, if an allocation failed.
fn rows_of(outbox: &mut Outbox) -> Result<Vec<Row>, StepFault>
    ensures rows { IfOk result (λ rows.
        map stored_row rows.items ≡ later_than 0 outbox.old.events) }
    ensures same { outbox.new ≡ outbox.old }
{
    let mut rows = outbox.after(0, PAGE)?;
    loop {
        let mut page = page_after(outbox, &rows)?;
        if page.is_empty() {
            return Ok(rows);
        }
        rows.append(&mut page)?;
    }
}

/// The next rows after those that were read, up to a page. None are left if there are none.
fn page_after(outbox: &mut Outbox, rows: &[Row]) -> Result<Vec<Row>, StepFault>
    requires { IsPrefixOf (map stored_row rows.now) (later_than 0 outbox.old.events) }
    ensures next { IfOk result (λ page.
        IsPrefixOf (map stored_row (rows.now ++ page.items)) (later_than 0 outbox.old.events)) }
    ensures over { IfOk result (λ page. page.items ≡ []
        → map stored_row rows.now ≡ later_than 0 outbox.old.events) }
    ensures same { outbox.new ≡ outbox.old }
{
    let last = rows.last().map(|row| row.seq).unwrap_or(0);
    Ok(outbox.after(last, PAGE)?)
}
