//! A consumer that takes records into its inbox over a line.

ghost use Rattle.std.specs.Prelude.{◌≡◌, ◌<◌, ◌≤◌, ◌^◌, ◌-◌, ◌↔◌, ◌⊎◌, ◌++◌, [], List, length, map};
ghost use Rattle.std.specs.Prelude.{IfErr, IfOk, IsErrOf, IsTrue, OnErr, OnOk, None, Some, max};
ghost use Rattle.std.specs.Prelude.{alloc_error, false, ℕ};
ghost use Rattle.kob_endpoints.specs.Running.{AreTicks, EndsTakingAll, EndsTakingRows, TicksBelow};
ghost use Rattle.kob_endpoints.specs.Running.{idle_after, taking_after};
ghost use Rattle.std.specs.List.{enumerate_from};
ghost use Rattle.kob_inbox.specs.Contents.{placed_intake};
ghost use Rattle.kob_inbox.specs.Run.Move.{Restarted};
ghost use Rattle.kob_inbox.specs.Run.{after};
ghost use Rattle.kob_inbox.specs.Tick.{Ticks, point_of, state_of};

use crate::consumer_end::ConsumerEnd;
use crate::part::{Part, joined};
use crate::past_calls::PastCalls;
use kob_connections::{IntoCalls, Loss, Lossy, ProgramFault, Receiver};
use kob_inbox::{Inbox, InboxFault, InboxRow, Subscription, Tick};
use kob_rights::{Code, Reply};
use kob_router::{Call, Line, StopReason};
use std::alloc::{AllocError, Global};
use std::marker::Model;
use std::{mem, thread};

/// A consumer with its inbox, and the line of its calls. It may change its line: the calls of the
/// earlier ones come first. Its invariant: all it did since it began is a run of the consumer, so
/// that the law of delivery applies to it.
#[derive(Drop)]
pub struct RunningConsumer<L: Line> {
    receiver: Receiver,
    past: PastCalls,
    line: L,
}

impl<L: Line> Model for RunningConsumer<L> {
    ghost use Rattle.std.specs.Prelude.{◌++◌};
    ghost use Rattle.std.specs.Coded.{codes};
    ghost use Rattle.kob_endpoints.specs.Running.{IsReaderRun, Reader};

    ghost Value = { Reader L };

    ghost coded = { Prim.hlevel (codes, L.code) };

    ghost view = { λ r. record {
      fetcher = r.receiver.fetcher;
      inbox = r.receiver.inbox;
      earlier = r.past.calls;
      line = r.line;
    } };

    ghost invariant = { λ r.
        IsReaderRun r.receiver.fetcher r.receiver.inbox (r.past.calls ++ L.calls r.line) };
}

impl<L: Line> RunningConsumer<L> {
    /// Begins with an empty inbox, no position, and a line that made no call. Does not allocate.
    pub fn new(
        alloc: Global,
        inbox: Inbox,
        subscription: Subscription,
        line: L,
    ) -> RunningConsumer<L>
        requires empty { inbox ≡ [] }
        requires unused { L.calls line ≡ [] }
        ensures inbox { result.inbox ≡ inbox }
        ensures subscription { result.fetcher.subscription ≡ subscription }
        ensures earlier { result.earlier ≡ [] }
        ensures line { result.line ≡ line }
    {
        let receiver = Receiver::new(alloc, inbox, subscription);
        let past = PastCalls::none();
        RunningConsumer {
            receiver,
            past,
            line,
        }
    }

    /// One step of the consumer, as [`Consumer::tick`] makes it.
    pub fn tick(&mut self, alloc: Global) -> Tick
        ensures same { self.new.fetcher.subscription ≡ self.old.fetcher.subscription }
        ensures done { Ticks self.old.fetcher.subscription
            (point_of self.old.fetcher self.old.inbox
            (L.calls self.old.line) (L.unmade self.old.line))
            (point_of self.new.fetcher self.new.inbox
            (L.calls self.new.line) (L.unmade self.new.line))
            result }
        ensures earlier { self.new.earlier ≡ self.old.earlier }
        ensures line { L.becomes self.old.line self.new.line }
    {
        self.receiver.tick(alloc, &mut self.line)
    }

    /// Ticks until no assigned partition has a record, at most `most` times: it is done once each of
    /// them had its turn, and all these ticks returned `Idle`. It goes on if a tick is denied or
    /// refused, or its call is lost: then a later tick may take the records in. It ends at once where
    /// none can: the error is `NotServed` if a position is not an offset of its partition
    /// (`OFFSET_OUT_OF_RANGE`), `Memory`, or `Store` if the database failed. Otherwise the error is
    /// `Stopped`, after `most` ticks.
    pub fn take_all(&mut self, alloc: Global, most: u32) -> Result<(), ProgramFault>
        ensures same { self.new.fetcher.subscription ≡ self.old.fetcher.subscription }
        ensures ticks { (ticks : List Tick)
            × AreTicks (Ticks self.old.fetcher.subscription) ticks
            (point_of self.old.fetcher self.old.inbox
            (L.calls self.old.line) (L.unmade self.old.line))
            (point_of self.new.fetcher self.new.inbox
            (L.calls self.new.line) (L.unmade self.new.line))
            × EndsTakingAll (max 1 (length self.old.fetcher.subscription.assignment))
            most ticks result }
        ensures earlier { self.new.earlier ≡ self.old.earlier }
        ensures line { L.becomes self.old.line self.new.line }
    {
        let subscription = self.receiver.consumer().subscription();
        let round = subscription.assignment.len().max(1);
        let mut idle = 0;
        for _ in 0..most {
            let tick = self.step(alloc)?;
            idle = idle_after(tick, idle);
            if idle >= round {
                return Ok(());
            }
            thread::yield_now();
        }
        Err(ProgramFault::Stopped)
    }

    /// Makes one step. The error is what no further step mends.
    fn step(&mut self, alloc: Global) -> Result<Tick, ProgramFault>
        ensures same { self.new.fetcher.subscription ≡ self.old.fetcher.subscription }
        ensures done { IfOk result (λ tick. (taking_after tick ≡ None)
            × Ticks self.old.fetcher.subscription
            (point_of self.old.fetcher self.old.inbox
            (L.calls self.old.line) (L.unmade self.old.line))
            (point_of self.new.fetcher self.new.inbox
            (L.calls self.new.line) (L.unmade self.new.line)) tick) }
        ensures ends { IfErr result (λ fault. (tick : Tick) × (taking_after tick ≡ Some fault)
            × Ticks self.old.fetcher.subscription
            (point_of self.old.fetcher self.old.inbox
            (L.calls self.old.line) (L.unmade self.old.line))
            (point_of self.new.fetcher self.new.inbox
            (L.calls self.new.line) (L.unmade self.new.line)) tick) }
        ensures earlier { self.new.earlier ≡ self.old.earlier }
        ensures line { L.becomes self.old.line self.new.line }
    {
        let tick = self.tick(alloc);
        match &tick {
            Tick::Stopped(
                StopReason::Rejected(
                    Reply::Refused {
                        code: Code::OffsetOutOfRange,
                        ..
                    },
                ),
            ) => Err(ProgramFault::NotServed),
            Tick::Stopped(StopReason::Memory(refused)) => Err(ProgramFault::Memory(*refused)),
            Tick::Stopped(StopReason::Store) => Err(ProgramFault::Store),
            _ => Ok(tick),
        }
    }

    /// Ticks while the inbox has fewer than `count` rows, at most `most` times; not at all if it has
    /// them already. The errors are those of `take_all`, and `Memory` also where the rows of the inbox
    /// could not be read. After `Stopped` it has fewer than `count` rows.
    pub fn take_rows(&mut self, alloc: Global, count: usize, most: u32) -> Result<(), ProgramFault>
        ensures taken { OnOk result (count ≤ length self.new.inbox) }
        ensures there { count ≤ length self.old.inbox → OnOk result (self.new ≡ self.old) }
        ensures same { self.new.fetcher.subscription ≡ self.old.fetcher.subscription }
        ensures ticks { (ticks : List Tick)
            × AreTicks (TicksBelow count self.old.fetcher.subscription) ticks
            (point_of self.old.fetcher self.old.inbox
            (L.calls self.old.line) (L.unmade self.old.line))
            (point_of self.new.fetcher self.new.inbox
            (L.calls self.new.line) (L.unmade self.new.line))
            × EndsTakingRows count most ticks (length self.new.inbox) result }
        ensures earlier { self.new.earlier ≡ self.old.earlier }
        ensures line { L.becomes self.old.line self.new.line }
    {
        if self.has_enough(count)? {
            return Ok(());
        }
        for _ in 0..most {
            let tick = self.step(alloc)?;
            if self.has_rows(tick, count)? {
                return Ok(());
            }
            thread::yield_now();
        }
        Err(ProgramFault::Stopped)
    }

    /// Whether the inbox has `count` rows or more after a step that took records in.
    fn has_rows(&mut self, tick: Tick, count: usize) -> Result<bool, ProgramFault>
        ensures taken { IfOk result (λ has. IsTrue has → count ≤ length self.old.inbox) }
        ensures few { IfOk result (λ has. has ≡ false → (records : ℕ) → tick ≡ Tick.Took records
            → length self.old.inbox < count) }
        ensures memory { IfErr result (λ fault. fault ≡ ProgramFault.Memory alloc_error) }
        ensures same { self.new ≡ self.old }
    {
        match tick {
            Tick::Took(_) => self.has_enough(count),
            _ => Ok(false),
        }
    }

    /// Whether the inbox has `count` rows or more.
    fn has_enough(&mut self, count: usize) -> Result<bool, ProgramFault>
        ensures has { IfOk result (λ has. IsTrue has ↔ (count ≤ length self.old.inbox)) }
        ensures memory { IfErr result (λ fault. fault ≡ ProgramFault.Memory alloc_error) }
        ensures same { self.new ≡ self.old }
    {
        Ok(self.taken()?.len() >= count)
    }

    /// Hands out the line that was used, with its calls, and goes on with one that made no call. All
    /// else stays. Does not allocate.
    pub fn change_line(&mut self, line: L) -> L
        requires { L.calls line ≡ [] }
        ensures used { result ≡ self.old.line }
        ensures next { self.new ≡ record self.old {
          earlier = self.old.earlier ++ L.calls self.old.line;
          line = line;
        } }
    {
        self.past = self.past.and(self.line.made_calls());
        mem::replace(&mut self.line, line)
    }

    /// The line, with the calls that were made. Does not allocate.
    pub fn line(&self) -> &L
        ensures { result.now ≡ self.now.line }
    {
        &self.line
    }

    /// Restarts the consumer, as [`Consumer::restart`] does: it forgets all positions.
    pub fn restart(&mut self)
        ensures same { self.new.fetcher.subscription ≡ self.old.fetcher.subscription }
        ensures done { state_of self.new.fetcher self.new.inbox
            ≡ after self.old.fetcher.subscription
            (state_of self.old.fetcher self.old.inbox) Restarted }
        ensures inbox { self.new.inbox ≡ self.old.inbox }
        ensures earlier { self.new.earlier ≡ self.old.earlier }
        ensures line { self.new.line ≡ self.old.line }
    {
        self.receiver.restart();
    }

    /// All events that were taken in, in the order of their intake, as [`Inbox::taken`] reads them.
    pub fn taken(&mut self) -> Result<Vec<InboxRow>, InboxFault>
        ensures rows { IfOk result (λ rows.
            map placed_intake rows.items ≡ enumerate_from 1 self.old.inbox) }
        ensures memory { IfErr result (λ fault. fault ≡ InboxFault.Memory alloc_error) }
        ensures same { self.new ≡ self.old }
    {
        self.receiver.taken()
    }
}

/// How many steps in a row found no record, after one more.
fn idle_after(tick: Tick, before: usize) -> usize
    requires { before < 2 ^ 64 - 1 }
    ensures { result ≡ idle_after tick before }
{
    match tick {
        Tick::Idle => before + 1,
        _ => 0,
    }
}

impl<L: Line> RunningConsumer<Lossy<L>> {
    /// Sets what happens to the next call, as [`Lossy::lose`] does. All else stays. Does not allocate.
    pub fn lose(&mut self, loss: Loss)
        ensures { self.new ≡ record self.old {
          line = record self.old.line {
            server = record self.old.line.server { loss = loss };
          };
        } }
    {
        self.line.lose(loss);
    }
}

impl<L: IntoCalls> RunningConsumer<L> {
    /// Ends the line, whose calls are those of this worker. The consumer changed no line. Does not
    /// allocate.
    pub fn close(self, worker: usize) -> ConsumerEnd
        requires { self.earlier ≡ [] }
        ensures worker { result.worker ≡ worker }
        ensures calls { result.calls ≡ L.calls self.line }
        ensures fetcher { result.fetcher ≡ self.fetcher }
        ensures inbox { result.inbox ≡ self.inbox }
    {
        let RunningConsumer {
            receiver,
            past: _,
            line,
        } = self;
        let calls = line.into_calls();
        ConsumerEnd::new(Part { worker, calls }, receiver)
    }

    /// Ends the line. The calls of this worker are those of the lines that were handed out, in turn,
    /// and then those of this line. The error is out of memory.
    pub fn close_after(self, worker: usize, earlier: Vec<Call>) -> Result<ConsumerEnd, AllocError>
        requires { earlier.items ≡ self.earlier }
        ensures worker { IfOk result (λ e. e.worker ≡ worker) }
        ensures calls { IfOk result (λ e. e.calls ≡ earlier.items ++ L.calls self.line) }
        ensures fetcher { IfOk result (λ e. e.fetcher ≡ self.fetcher) }
        ensures inbox { IfOk result (λ e. e.inbox ≡ self.inbox) }
    {
        let RunningConsumer {
            receiver,
            past: _,
            line,
        } = self;
        let calls = joined(earlier, line.into_calls())?;
        Ok(ConsumerEnd::new(Part { worker, calls }, receiver))
    }
}

impl<L: IntoCalls + Drop> RunningConsumer<L> {
    /// Ends the line, if the work before went well. Otherwise the fault is that of the work. The
    /// consumer changed no line.
    pub fn end(
        self,
        worker: usize,
        done: Result<(), ProgramFault>,
    ) -> Result<ConsumerEnd, ProgramFault>
        requires { self.earlier ≡ [] }
        ensures left { IfOk result (λ e. (e.worker ≡ worker)
            × (e.calls ≡ L.calls self.line)
            × (e.fetcher ≡ self.fetcher)
            × (e.inbox ≡ self.inbox)) }
        ensures ok { OnOk done (OnErr result ⊥) }
        ensures fault { IfErr done (λ fault. IsErrOf result fault) }
    {
        done?;
        Ok(self.close(worker))
    }
}
