//! A service that records events and sends them over a line.

ghost use Rattle.std.specs.Prelude.{◌≡◌, ◌<◌, ◌≤◌, ◌^◌, ◌↔◌, ◌⊎◌, ◌++◌, ◌∷◌, [], false, List};
ghost use Rattle.std.specs.Prelude.{Some, None, IfErr, IfOk, IsErrOf, IsSome, IsTrue, OnErr, OnOk};
ghost use Rattle.std.specs.Prelude.{alloc_error, length, map, option_map, string_bytes};
ghost use Rattle.kob_endpoints.specs.Running.{HasRun, IsSenderRun, RecordsNoRow, SendsFor, at};
ghost use Rattle.kob_endpoints.specs.Running.{TriesFor, sending_after};
ghost use Rattle.kob_connections.specs.Relayed.{IsTick};
ghost use Rattle.kob_outbox.specs.Contents.{Event, empty, id_text, stored_event, first_bad};
ghost use Rattle.kob_outbox.specs.Contents.{first_after, state_at, stored_row, up_to, without_sent};
ghost use Rattle.kob_outbox.specs.Contents.{after_record, is_recorded, next_seq};
ghost use Rattle.kob_router.specs.Run.Move.{Restarted};
ghost use Rattle.kob_router.specs.Run.{after, next_row};
ghost use Rattle.kob_router.specs.Tick.{state_of};

use crate::part::{Part, joined};
use crate::past_calls::PastCalls;
use crate::service_end::ServiceEnd;
use kob_connections::{IntoCalls, Loss, Lossy, ProgramFault, Relay};
use kob_outbox::{Change, Outbox, OutboxEvent, OutboxFault, RecordFault, Row};
use kob_router::{Call, Line, Route, Router, StopReason, Tick};
use std::alloc::{AllocError, Global};
use std::marker::Model;
use std::{mem, thread};

/// A service: its outbox with its router, and the line of the router's calls. It may change its
/// line: the calls of the earlier ones come first. Its invariant: all it did since it began is a run
/// of the router, so that the law of delivery applies to it.
#[derive(Drop)]
pub struct RunningService<L: Line> {
    relay: Relay,
    past: PastCalls,
    line: L,
}

impl<L: Line> Model for RunningService<L> {
    ghost use Rattle.std.specs.Prelude.{◌++◌};
    ghost use Rattle.std.specs.Coded.{codes};
    ghost use Rattle.kob_endpoints.specs.Running.{HasRun, Service};
    ghost use Rattle.kob_outbox.specs.Contents.{contents_code};

    ghost Value = { Service L };

    ghost coded = { Prim.hlevel (codes, contents_code, L.code) };

    ghost view = { λ s. record {
      relayed = s.relay;
      earlier = s.past.calls;
      line = s.line;
    } };

    ghost invariant = { λ s. HasRun s.relay (s.past.calls ++ L.calls s.line) };
}

impl<L: Line> RunningService<L> {
    /// Begins with an empty outbox and a line that made no call. The topics that the route names
    /// have this number of partitions. Does not allocate.
    pub fn new(
        alloc: Global,
        outbox: Outbox,
        route: Route,
        partitions: u32,
        line: L,
    ) -> RunningService<L>
        requires empty { outbox ≡ empty }
        requires some { 1 ≤ partitions }
        requires most { partitions ≤ 1000 }
        requires unused { L.calls line ≡ [] }
        ensures { result ≡ record {
          relayed = record {
            outbox = outbox;
            router = record {
              target = record { route = route; partitions = partitions };
              producer = None;
              sequences = [];
              hand = None;
            };
          };
          earlier = [];
          line = line;
        } }
    {
        let router = Router::new(alloc, route, partitions);
        let past = PastCalls::none();
        RunningService {
            relay: Relay::new(outbox, router),
            past,
            line,
        }
    }

    /// Writes the business row and adds the event to the outbox, both or neither, as
    /// [`Outbox::record`] does.
    pub fn record(&mut self, change: &Change, event: &OutboxEvent) -> Result<u64, RecordFault>
        ensures value { IfOk result (λ seq. seq ≡ next_seq self.old.relayed.outbox) }
        ensures ok { OnOk result (self.new ≡ record self.old {
          relayed = record self.old.relayed {
            outbox = after_record self.old.relayed.outbox change.now event.now;
          };
        }) }
        ensures run { OnOk result ((rows : List Event)
            → IsSenderRun self.old.relayed (self.old.earlier ++ L.calls self.old.line) rows
            → IsSenderRun self.new.relayed (self.new.earlier ++ L.calls self.new.line)
            (rows ++ stored_event (next_seq self.old.relayed.outbox) event.now ∷ [])) }
        ensures err { OnErr result (self.new ≡ self.old) }
        ensures bad { (column : _) → (IsErrOf result (RecordFault.BadField column))
            ↔ (first_bad change.now event.now ≡ Some column) }
        ensures good { OnOk result (first_bad change.now event.now ≡ None) }
        ensures duplicate { IsErrOf result RecordFault.DuplicateId
            → (first_bad change.now event.now ≡ None)
            × IsTrue (is_recorded self.old.relayed.outbox.ids (id_text event.now.id)) }
        ensures fresh { OnOk result
            (is_recorded self.old.relayed.outbox.ids (id_text event.now.id) ≡ false) }
        ensures room { OnOk result (next_seq self.old.relayed.outbox < 2 ^ 63) }
        ensures store { IsErrOf result RecordFault.Store
            → (first_bad change.now event.now ≡ None)
            × ((is_recorded self.old.relayed.outbox.ids (id_text event.now.id) ≡ false)
            ⊎ (next_seq self.old.relayed.outbox ≡ 2 ^ 63)) }
    {
        self.relay.record(change, event)
    }

    /// One step of the router, as [`Router::tick`] makes it.
    pub fn tick(&mut self, alloc: Global) -> Tick
        ensures done { IsTick self.old.relayed self.new.relayed
            (L.calls self.old.line) (L.calls self.new.line)
            (L.unmade self.old.line) (L.unmade self.new.line) result }
        ensures ran { HasRun self.old.relayed (self.old.earlier ++ L.calls self.old.line) }
        ensures earlier { self.new.earlier ≡ self.old.earlier }
        ensures run { RecordsNoRow self.old.relayed (self.old.earlier ++ L.calls self.old.line)
            self.new.relayed (self.new.earlier ++ L.calls self.new.line) }
        ensures line { L.becomes self.old.line self.new.line }
    {
        self.relay.tick(alloc, &mut self.line)
    }

    /// Ticks while a row waits, at most `most` times: not at all if none does. It goes on if a tick is
    /// denied or refused, or its call is lost: then a later tick may send the row. It ends at once
    /// where none can: the error is `BadText` if the route makes no valid topic name of the first row
    /// that waits, `Memory`, or `Store` if the database failed to move the mark. Otherwise the error
    /// is `Stopped`, after `most` ticks. But for `Memory`, the result is Ok exactly if no row waits.
    pub fn send_all(&mut self, alloc: Global, most: u32) -> Result<(), ProgramFault>
        ensures sent { OnOk result (next_row self.new.relayed.outbox ≡ None) }
        ensures tries { TriesFor most
            (at self.old.relayed (L.calls self.old.line) (L.unmade self.old.line))
            (at self.new.relayed (L.calls self.new.line) (L.unmade self.new.line)) }
        ensures waits { IfErr result (λ fault. (fault ≡ ProgramFault.Memory alloc_error)
            ⊎ IsSome (next_row self.new.relayed.outbox)) }
        ensures none { next_row self.old.relayed.outbox ≡ None → self.new ≡ self.old }
        ensures zero { most ≡ 0 → self.new ≡ self.old }
        ensures ends { IfErr result (λ fault. (fault ≡ ProgramFault.Memory alloc_error)
            ⊎ SendsFor most
            (at self.old.relayed (L.calls self.old.line) (L.unmade self.old.line))
            (at self.new.relayed (L.calls self.new.line) (L.unmade self.new.line)) fault) }
        ensures target { self.new.relayed.router.target ≡ self.old.relayed.router.target }
        ensures earlier { self.new.earlier ≡ self.old.earlier }
        ensures run { RecordsNoRow self.old.relayed (self.old.earlier ++ L.calls self.old.line)
            self.new.relayed (self.new.earlier ++ L.calls self.new.line) }
        ensures line { L.becomes self.old.line self.new.line }
    {
        if !self.waits()? {
            return Ok(());
        }
        let Err(fault) = self.send_for(alloc, most) else {
            return Ok(());
        };
        if self.waits()? {
            return Err(fault);
        }
        Ok(())
    }

    /// Ticks until one returns `Idle`, or no further one mends what stopped it.
    fn send_for(&mut self, alloc: Global, most: u32) -> Result<(), ProgramFault>
        ensures sent { OnOk result (next_row self.new.relayed.outbox ≡ None) }
        ensures zero { most ≡ 0 → self.new ≡ self.old }
        ensures tries { TriesFor most
            (at self.old.relayed (L.calls self.old.line) (L.unmade self.old.line))
            (at self.new.relayed (L.calls self.new.line) (L.unmade self.new.line)) }
        ensures ends { IfErr result (λ fault. SendsFor most
            (at self.old.relayed (L.calls self.old.line) (L.unmade self.old.line))
            (at self.new.relayed (L.calls self.new.line) (L.unmade self.new.line)) fault) }
        ensures target { self.new.relayed.router.target ≡ self.old.relayed.router.target }
        ensures earlier { self.new.earlier ≡ self.old.earlier }
        ensures run { RecordsNoRow self.old.relayed (self.old.earlier ++ L.calls self.old.line)
            self.new.relayed (self.new.earlier ++ L.calls self.new.line) }
        ensures line { L.becomes self.old.line self.new.line }
    {
        for _ in 0..most {
            let tick = self.tick(alloc);
            if let Some(ended) = sending_after(tick) {
                return ended;
            }
            thread::yield_now();
        }
        Err(ProgramFault::Stopped)
    }

    /// Whether a row waits.
    fn waits(&mut self) -> Result<bool, ProgramFault>
        ensures waits { IfOk result (λ waits.
            IsTrue waits ↔ IsSome (next_row self.old.relayed.outbox)) }
        ensures memory { IfErr result (λ fault. fault ≡ ProgramFault.Memory alloc_error) }
        ensures same { self.new ≡ self.old }
    {
        let mark = self.mark()?;
        let first = self.after(mark, 1)?;
        Ok(first.len() > 0)
    }

    /// Restarts the router, as [`Router::restart`] does: the topic may get the row in flight twice.
    pub fn restart(&mut self)
        ensures outbox { self.new.relayed.outbox ≡ self.old.relayed.outbox }
        ensures target { self.new.relayed.router.target ≡ self.old.relayed.router.target }
        ensures earlier { self.new.earlier ≡ self.old.earlier }
        ensures line { self.new.line ≡ self.old.line }
        ensures done { state_of self.new.relayed.router self.new.relayed.outbox
            ≡ after (state_of self.old.relayed.router self.old.relayed.outbox) Restarted }
        ensures run { RecordsNoRow self.old.relayed (self.old.earlier ++ L.calls self.old.line)
            self.new.relayed (self.new.earlier ++ L.calls self.new.line) }
    {
        self.relay.restart();
    }

    /// Deletes the events that were sent, and returns how many they were.
    pub fn sweep(&mut self) -> Result<u64, OutboxFault>
        ensures value { IfOk result (λ count. count
            ≡ length (up_to self.old.relayed.outbox.mark self.old.relayed.outbox.events)) }
        ensures ok { OnOk result (self.new ≡ record self.old {
          relayed = record self.old.relayed {
            outbox = without_sent self.old.relayed.outbox.mark self.old.relayed.outbox;
          };
        }) }
        ensures run { RecordsNoRow self.old.relayed (self.old.earlier ++ L.calls self.old.line)
            self.new.relayed (self.new.earlier ++ L.calls self.new.line) }
        ensures ran { HasRun self.old.relayed (self.old.earlier ++ L.calls self.old.line) }
        ensures err { OnErr result (self.new ≡ self.old) }
    {
        Ok(self.relay.sweep()?)
    }

    /// Hands out the line that was used, with its calls, and goes on with one that made no call. All
    /// else stays, also the row in flight. Does not allocate.
    pub fn change_line(&mut self, line: L) -> L
        requires { L.calls line ≡ [] }
        ensures used { result ≡ self.old.line }
        ensures next { self.new ≡ record self.old {
          earlier = self.old.earlier ++ L.calls self.old.line;
          line = line;
        } }
        ensures run { RecordsNoRow self.old.relayed (self.old.earlier ++ L.calls self.old.line)
            self.new.relayed (self.new.earlier ++ L.calls self.new.line) }
    {
        self.past = self.past.and(self.line.made_calls());
        mem::replace(&mut self.line, line)
    }

    /// The line, with the calls that were made. Does not allocate.
    pub fn line(&self) -> &L
        ensures { result.now ≡ self.now.line }
    {
        &self.line
    }

    /// The first events after this number, by ascending number, and no more than `limit` of them, as
    /// [`Outbox::after`] reads them. After the mark are those that wait.
    pub fn after(&mut self, seq: u64, limit: u32) -> Result<Vec<Row>, OutboxFault>
        ensures rows { IfOk result (λ rows. map stored_row rows.items
            ≡ first_after seq limit self.old.relayed.outbox.events) }
        ensures memory { IfErr result (λ f. f ≡ OutboxFault.Memory alloc_error) }
        ensures ran { HasRun self.old.relayed (self.old.earlier ++ L.calls self.old.line) }
        ensures same { self.new ≡ self.old }
    {
        self.relay.after(seq, limit)
    }

    /// The state of the business row with this kind and id, if there is one.
    pub fn business(&mut self, kind: &str, id: &str) -> Result<Option<String>, OutboxFault>
        ensures value { IfOk result (λ found. option_map string_bytes found
            ≡ state_at kind.now id.now self.old.relayed.outbox.business) }
        ensures memory { IfErr result (λ f. f ≡ OutboxFault.Memory alloc_error) }
        ensures ran { HasRun self.old.relayed (self.old.earlier ++ L.calls self.old.line) }
        ensures same { self.new ≡ self.old }
    {
        self.relay.business(kind, id)
    }

    /// The number up to which the events were sent, or 0.
    pub fn mark(&mut self) -> Result<u64, OutboxFault>
        ensures value { IfOk result (λ mark. mark ≡ self.old.relayed.outbox.mark) }
        ensures memory { IfErr result (λ f. f ≡ OutboxFault.Memory alloc_error) }
        ensures ran { HasRun self.old.relayed (self.old.earlier ++ L.calls self.old.line) }
        ensures same { self.new ≡ self.old }
    {
        self.relay.mark()
    }

    /// The outbox. Does not allocate.
    pub fn outbox(&self) -> &Outbox
        ensures { result.now ≡ self.now.relayed.outbox }
    {
        self.relay.outbox()
    }
}

/// How the work of sending all rows ends at a step, if it does.
fn sending_after(tick: Tick) -> Option<Result<(), ProgramFault>>
    ensures { result ≡ sending_after tick }
{
    match tick {
        Tick::Idle => Some(Ok(())),
        Tick::Moved(_) | Tick::Repeat | Tick::Stopped(StopReason::Rejected(_)) => None,
        Tick::Stopped(StopReason::BadTopic) => Some(Err(ProgramFault::BadText)),
        Tick::Stopped(StopReason::Memory(refused)) => Some(Err(ProgramFault::Memory(refused))),
        Tick::Stopped(StopReason::Store) => Some(Err(ProgramFault::Store)),
    }
}

impl<L: Line> RunningService<Lossy<L>> {
    /// Sets what happens to the next call, as [`Lossy::lose`] does. All else stays. Does not allocate.
    pub fn lose(&mut self, loss: Loss)
        ensures { self.new ≡ record self.old {
          line = record self.old.line {
            server = record self.old.line.server { loss = loss };
          };
        } }
    {
        self.line.lose(loss);
    }
}

impl<L: IntoCalls> RunningService<L> {
    /// Ends the line, whose calls are those of this worker. The service changed no line. Does not
    /// allocate.
    pub fn close(self, worker: usize) -> ServiceEnd
        requires { self.earlier ≡ [] }
        ensures worker { result.worker ≡ worker }
        ensures calls { result.calls ≡ L.calls self.line }
        ensures relayed { result.relayed ≡ self.relayed }
    {
        let RunningService {
            relay,
            past: _,
            line,
        } = self;
        let calls = line.into_calls();
        ServiceEnd::new(Part { worker, calls }, relay)
    }

    /// Ends the line. The calls of this worker are those of the lines that were handed out, in turn,
    /// and then those of this line. The error is out of memory.
    pub fn close_after(self, worker: usize, earlier: Vec<Call>) -> Result<ServiceEnd, AllocError>
        requires { earlier.items ≡ self.earlier }
        ensures worker { IfOk result (λ e. e.worker ≡ worker) }
        ensures calls { IfOk result (λ e. e.calls ≡ earlier.items ++ L.calls self.line) }
        ensures relayed { IfOk result (λ e. e.relayed ≡ self.relayed) }
    {
        let RunningService {
            relay,
            past: _,
            line,
        } = self;
        let calls = joined(earlier, line.into_calls())?;
        Ok(ServiceEnd::new(Part { worker, calls }, relay))
    }
}

impl<L: IntoCalls + Drop> RunningService<L> {
    /// Ends the line, if the work before went well. Otherwise the fault is that of the work. The
    /// service changed no line.
    pub fn end(
        self,
        worker: usize,
        done: Result<(), ProgramFault>,
    ) -> Result<ServiceEnd, ProgramFault>
        requires { self.earlier ≡ [] }
        ensures left { IfOk result (λ e. (e.worker ≡ worker)
            × (e.calls ≡ L.calls self.line)
            × (e.relayed ≡ self.relayed)) }
        ensures ok { OnOk done (OnErr result ⊥) }
        ensures fault { IfErr done (λ fault. IsErrOf result fault) }
    {
        done?;
        Ok(self.close(worker))
    }
}
