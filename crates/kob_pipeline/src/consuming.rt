//! A consumer with its inbox, and its steps.

ghost use Rattle.std.specs.Prelude.{◌≡◌, map, IfOk, OnErr, OnOk};
ghost use Rattle.std.specs.List.{enumerate_from};
ghost use Rattle.kob_inbox.specs.Contents.{placed_intake};
ghost use Rattle.kob_inbox.specs.Run.{start};
ghost use Rattle.kob_connections.specs.Received.{received_state};
ghost use Rattle.kob_pipeline.specs.declared.plan.ConsumerStep.TheVariants as steps;
ghost use Rattle.kob_pipeline.specs.Steps.{ConsumerGoesOn, IsConsumerStep, Leads, Steps, with_desk};

use crate::end::InboxEnd;
use crate::line::DeskLine;
use crate::plan::{ConsumerPlan, ConsumerStep};
use crate::step_fault::{StepFault, goes_on_after};
use kob_connections::{Loss, Receiver};
use kob_inbox::Tick;
use kob_router::Line;
use kob_shared::Gate;
use std::alloc::Global;
use std::sync::Wait;

/// A consumer with its inbox.
#[derive(Drop)]
pub(crate) struct Consuming {
    receiver: Receiver,
}

impl Consuming {
    /// A consumer and its inbox, before its first step.
    pub(crate) fn open(alloc: Global, plan: &ConsumerPlan) -> Result<Consuming, StepFault>
        ensures subscription { IfOk result (λ at_work.
            at_work.receiver.fetcher.subscription ≡ plan.now.subscription) }
        ensures state { IfOk result (λ at_work. received_state at_work.receiver ≡ start) }
    {
        let subscription = plan.subscription.copy(alloc)?;
        let receiver = Receiver::open(alloc, subscription)?;
        Ok(Consuming { receiver })
    }

    /// Makes the steps, one after another.
    pub(crate) fn run<R: Wait, G: Gate>(
        &mut self,
        alloc: Global,
        line: &mut DeskLine<'_, R, G>,
        steps: &[ConsumerStep],
    ) -> Result<(), StepFault>
        requires { line.old.calls.unmade ≡ 0 }
        ensures { OnOk result (Leads (Steps (IsConsumerStep self.old.receiver.fetcher.subscription))
            (with_desk (received_state self.old.receiver) line.old.desk)
            steps.now
            (with_desk (received_state self.new.receiver) line.new.desk)) }
    {
        for step in steps {
            self.step(alloc, line, step)?;
        }
        Ok(())
    }

    /// Makes one step. It fails if out of memory, if the database fails, or if a call was not
    /// served that was not lost on purpose.
    fn step<R: Wait, G: Gate>(
        &mut self,
        alloc: Global,
        line: &mut DeskLine<'_, R, G>,
        step: &ConsumerStep,
    ) -> Result<(), StepFault>
        requires { line.old.calls.unmade ≡ 0 }
        ensures made { OnOk result (line.new.calls.unmade ≡ 0) }
        ensures same { OnOk result
            (self.new.receiver.fetcher.subscription ≡ self.old.receiver.fetcher.subscription) }
        ensures done { OnOk result (Leads (IsConsumerStep self.old.receiver.fetcher.subscription)
            (with_desk (received_state self.old.receiver) line.old.desk)
            step.now
            (with_desk (received_state self.new.receiver) line.new.desk)) }
    {
        match step {
            ConsumerStep::Tick(loss) => self.tick(alloc, line, *loss),
            ConsumerStep::Restart => {
                self.receiver.restart();
                Ok(())
            }
        }
    }

    /// One step of the consumer. `loss` says what happens to its first call.
    fn tick<R: Wait, G: Gate>(
        &mut self,
        alloc: Global,
        line: &mut DeskLine<'_, R, G>,
        loss: Loss,
    ) -> Result<(), StepFault>
        requires { line.old.calls.unmade ≡ 0 }
        ensures made { OnOk result (line.new.calls.unmade ≡ 0) }
        ensures same { OnOk result
            (self.new.receiver.fetcher.subscription ≡ self.old.receiver.fetcher.subscription) }
        ensures done { OnOk result (Leads (IsConsumerStep self.old.receiver.fetcher.subscription)
            (with_desk (received_state self.old.receiver) line.old.desk)
            (steps.Tick loss)
            (with_desk (received_state self.new.receiver) line.new.desk)) }
    {
        line.lose(loss);
        let tick = self.receiver.tick(alloc, line);
        goes_on(tick)?;
        line.goes_on()?;
        Ok(())
    }

    /// What the inbox holds.
    pub(crate) fn close(self) -> Result<InboxEnd, StepFault>
        ensures { IfOk result (λ left.
            map placed_intake left.rows.items ≡ enumerate_from 1 self.receiver.inbox) }
    {
        let Consuming { mut receiver } = self;
        let rows = receiver.taken()?;
        Ok(InboxEnd { rows })
    }
}

/// The fault, if out of memory or the database stopped a tick.
fn goes_on(tick: Tick) -> Result<(), StepFault>
    ensures ok { OnOk result (ConsumerGoesOn tick) }
    ensures err { OnErr result (¬ (ConsumerGoesOn tick)) }
{
    match tick {
        Tick::Stopped(reason) => goes_on_after(reason),
        _ => Ok(()),
    }
}
