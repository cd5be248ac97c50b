//! The steps of a service.

ghost use Rattle.std.specs.Prelude.{◌≡◌, IfErr, IfOk, OnErr, OnOk};
ghost use Rattle.kob_scene_play.specs.Steps.{BeginsService, IsPrinted};
ghost use Rattle.kob_scene_text.specs.PrintedRows.{recorded_text};
ghost use Rattle.kob_scene_play.specs.Steps.{IsServiceChange, IsServiceStep, IsTold, Tells};
ghost use Rattle.kob_scene_play.specs.Steps.{goes_on_after, service_lacks};
ghost use Rattle.kob_scene_play.specs.Forms.{last_needs};
ghost use Rattle.kob_scene_play.specs.Stops.{IsMemory, IsMemoryOrStore, StopsService, StopsTick};
ghost use Rattle.kob_scene_text.specs.declared.scene.Recording.TheVariants as recordings;
ghost use Rattle.kob_scene_text.specs.declared.scene.ServiceStep.TheVariants as service_steps;

use crate::fault::PlayFault;
use crate::needs::last_needs;
use crate::output::Output;
use crate::service_worker::ServiceWorker;
use kob_names::Text;
use kob_outbox::{Change, OutboxEvent, RecordFault};
use kob_router::{Loss, Tick};
use kob_scene_text::{
    Recording, ServiceStep, print_crashed, print_outbox, print_recorded, print_restarted,
    print_service_tick, print_state, print_swept, print_visible,
};
use kob_shared::Recorded;
use std::alloc::{AllocError, Global};

/// A step `run` makes no more ticks than this.
pub(crate) const RUN_LIMIT: u32 = 1_000_000;

/// Makes a step, and prints its result.
#[tactic(auto, using(crate::proofs::Played::service_changed))]
pub(crate) fn play_service<'s>(
    alloc: Global,
    recorded: &mut Recorded,
    service: &mut ServiceWorker<'s>,
    step: &'s ServiceStep,
    out: &mut Output,
) -> Result<(), PlayFault>
    ensures done { OnOk result (Tells (IsServiceStep step.now service.old service.new recorded.old
        recorded.new out.old.told out.new.told) out.old.text.items out.new.text.items) }
    ensures left { OnErr result (step.now ≡ service_steps.Run → Tells (BeginsService service.old
        recorded.old out.old.told out.new.told) out.old.text.items out.new.text.items) }
    ensures stopped { IfErr result (StopsService step.now) }
{
    match step {
        ServiceStep::Record(change, event, recording) => {
            record_as(service, change, event, *recording, out)
        }
        ServiceStep::Tick(loss) => {
            tick(alloc, recorded, service, *loss, out)?;
            Ok(())
        }
        ServiceStep::Run => run(alloc, recorded, service, out),
        ServiceStep::Restart => restart(service, out),
        ServiceStep::Sweep => sweep(service, out),
        ServiceStep::Outbox => show_outbox(service, out),
        ServiceStep::Business { kind, key } => show_state(service, kind, key, out),
        ServiceStep::Visible => show_rows(service, out),
    }
}

fn record_as<'s>(
    service: &mut ServiceWorker<'s>,
    change: &Change,
    event: &'s OutboxEvent,
    recording: Recording,
    out: &mut Output,
) -> Result<(), PlayFault>
    ensures done { OnOk result (Tells (IsServiceChange
        (service_steps.Record change.now event.now recording) service.old service.new
        out.old.told out.new.told) out.old.text.items out.new.text.items) }
    ensures stopped { IfErr result IsMemoryOrStore }
{
    match recording {
        Recording::Whole => record(service, change, event, out),
        Recording::Crash => crash(service, change, event, out),
        Recording::Late => record_late(service, change, event, out),
    }
}

/// Records an event with its change.
fn record<'s>(
    service: &mut ServiceWorker<'s>,
    change: &Change,
    event: &'s OutboxEvent,
    out: &mut Output,
) -> Result<(), PlayFault>
    ensures done { OnOk result (Tells (IsServiceChange
        (service_steps.Record change.now event.now recordings.Whole) service.old service.new
        out.old.told out.new.told) out.old.text.items out.new.text.items) }
    ensures stopped { IfErr result IsMemoryOrStore }
{
    let recorded = service.record(change, event);
    print_record(recorded, out)
}

/// Records an event with its change. Its row is hidden.
#[tactic(auto, using(crate::proofs::Kept::records))]
fn record_late<'s>(
    service: &mut ServiceWorker<'s>,
    change: &Change,
    event: &'s OutboxEvent,
    out: &mut Output,
) -> Result<(), PlayFault>
    ensures done { OnOk result (Tells (IsServiceChange
        (service_steps.Record change.now event.now recordings.Late) service.old service.new
        out.old.told out.new.told) out.old.text.items out.new.text.items) }
    ensures stopped { IfErr result IsMemoryOrStore }
{
    let recorded = service.record(change, event);
    service.hide(&recorded)?;
    print_record(recorded, out)
}

/// Prints what a record answered, unless it failed.
fn print_record(recorded: Result<u64, RecordFault>, out: &mut Output) -> Result<(), PlayFault>
    ensures done { OnOk result (Tells (IsPrinted (recorded_text recorded) out.old.told out.new.told)
        out.old.text.items out.new.text.items) }
    ensures stopped { IfErr result IsMemoryOrStore }
{
    match recorded {
        Ok(_) => {}
        Err(RecordFault::Memory(refused)) => return Err(PlayFault::Memory(refused)),
        Err(RecordFault::Store) => return Err(PlayFault::Store),
        Err(RecordFault::BadField(_)) => {}
        Err(RecordFault::DuplicateId) => {}
    }
    let number = out.number();
    print_recorded(&mut out.text, number, recorded)?;
    out.tell();
    Ok(())
}

/// Writes the business row of a change, without the event.
#[tactic(auto, using(crate::proofs::Kept::crashes))]
fn crash<'s>(
    service: &mut ServiceWorker<'s>,
    change: &Change,
    event: &'s OutboxEvent,
    out: &mut Output,
) -> Result<(), PlayFault>
    ensures done { OnOk result (Tells (IsServiceChange
        (service_steps.Record change.now event.now recordings.Crash) service.old service.new
        out.old.told out.new.told) out.old.text.items out.new.text.items) }
    ensures stopped { IfErr result IsMemoryOrStore }
{
    let crashed = service.crash(change, event);
    match crashed {
        Ok(()) => {}
        Err(RecordFault::Memory(refused)) => return Err(PlayFault::Memory(refused)),
        Err(RecordFault::Store) => return Err(PlayFault::Store),
        Err(RecordFault::BadField(_)) => {}
        Err(RecordFault::DuplicateId) => {}
    }
    let number = out.number();
    print_crashed(&mut out.text, number, crashed)?;
    out.tell();
    Ok(())
}

/// Makes all hidden rows visible.
fn show_rows(service: &mut ServiceWorker<'_>, out: &mut Output) -> Result<(), PlayFault>
    ensures done { OnOk result (Tells (IsServiceChange service_steps.Visible service.old
        service.new out.old.told out.new.told) out.old.text.items out.new.text.items) }
    ensures stopped { IfErr result IsMemory }
{
    let count = service.show();
    let number = out.number();
    print_visible(&mut out.text, number, count as u64)?;
    out.tell();
    Ok(())
}

/// One tick. Returns true if the next one has something to do. On an error nothing is printed.
#[tactic(auto, using(crate::proofs::Stopping::tick_stops, crate::proofs::Stopping::memory_stops_tick))]
fn tick(
    alloc: Global,
    recorded: &mut Recorded,
    service: &mut ServiceWorker<'_>,
    loss: Loss,
    out: &mut Output,
) -> Result<bool, PlayFault>
    ensures done { IfOk result (λ goes_on. IsTold loss goes_on service.old service.new
        recorded.old recorded.new out.old.told out.new.told out.old.text.items
        out.new.text.items) }
    ensures kept { OnErr result (out.new.text.items ≡ out.old.text.items) }
    ensures count { OnErr result (out.new.told ≡ out.old.told) }
    ensures stopped { IfErr result StopsTick }
{
    let before = recorded.journal().len();
    let tick = service.tick(alloc, recorded, loss)?;
    let goes_on = goes_on(&tick);
    let lacks = lacks_of(alloc, &tick, before, recorded)?;
    let mut line = Vec::new(alloc);
    print_service_tick(&mut line, out.number(), tick, &lacks)?;
    out.push(&line)?;
    Ok(goes_on)
}

/// What the last request of a tick lacked that stopped the router, behind a space.
fn lacks_of(
    alloc: Global,
    tick: &Tick,
    before: usize,
    recorded: &Recorded,
) -> Result<Vec<u8>, AllocError>
    ensures { IfOk result (λ text. text.items
        ≡ service_lacks tick.now (last_needs before recorded.now.journal)) }
{
    match tick {
        Tick::Stopped(_) => last_needs(alloc, before, recorded.journal()),
        Tick::Moved(_) | Tick::Idle | Tick::Repeat => Ok(Vec::new(alloc)),
    }
}

/// Whether a tick moved the mark, or has to be made again.
fn goes_on(tick: &Tick) -> bool
    ensures { result ≡ goes_on_after tick.now }
{
    match tick {
        Tick::Moved(_) => true,
        Tick::Repeat => true,
        Tick::Idle => false,
        Tick::Stopped(_) => false,
    }
}

/// Makes ticks until one neither moves nor repeats.
#[tactic(auto, using(crate::proofs::Running::none_at_first, crate::proofs::Running::spent))]
fn run(
    alloc: Global,
    recorded: &mut Recorded,
    service: &mut ServiceWorker<'_>,
    out: &mut Output,
) -> Result<(), PlayFault>
    ensures done { OnOk result (Tells (IsServiceStep service_steps.Run service.old service.new
        recorded.old recorded.new out.old.told out.new.told) out.old.text.items
        out.new.text.items) }
    ensures left { OnErr result (Tells (BeginsService service.old recorded.old out.old.told
        out.new.told) out.old.text.items out.new.text.items) }
    ensures stopped { IfErr result StopsTick }
{
    for _ in 0..RUN_LIMIT {
        if !tick(alloc, recorded, service, Loss::None, out)? {
            return Ok(());
        }
    }
    Ok(())
}

fn restart(service: &mut ServiceWorker<'_>, out: &mut Output) -> Result<(), PlayFault>
    ensures done { OnOk result (Tells (IsServiceChange service_steps.Restart service.old
        service.new out.old.told out.new.told) out.old.text.items out.new.text.items) }
    ensures stopped { IfErr result IsMemory }
{
    service.restart();
    let number = out.number();
    print_restarted(&mut out.text, number)?;
    out.tell();
    Ok(())
}

#[tactic(auto, using(crate::proofs::Stopping::outbox_stops))]
fn sweep(service: &mut ServiceWorker<'_>, out: &mut Output) -> Result<(), PlayFault>
    ensures done { OnOk result (Tells (IsServiceChange service_steps.Sweep service.old
        service.new out.old.told out.new.told) out.old.text.items out.new.text.items) }
    ensures stopped { IfErr result IsMemoryOrStore }
{
    let count = service.sweep()?;
    let number = out.number();
    print_swept(&mut out.text, number, count)?;
    out.tell();
    Ok(())
}

/// Prints the mark, and the rows after it.
fn show_outbox(service: &mut ServiceWorker<'_>, out: &mut Output) -> Result<(), PlayFault>
    ensures done { OnOk result (Tells (IsServiceChange service_steps.Outbox service.old
        service.new out.old.told out.new.told) out.old.text.items out.new.text.items) }
    ensures stopped { IfErr result IsMemory }
{
    let mark = service.mark()?;
    let rows = service.rows_after(mark, u32::MAX)?;
    let number = out.number();
    print_outbox(&mut out.text, number, mark, &rows)?;
    out.tell();
    Ok(())
}

fn show_state(
    service: &mut ServiceWorker<'_>,
    kind: &Text,
    key: &Text,
    out: &mut Output,
) -> Result<(), PlayFault>
    ensures done { OnOk result (Tells (IsServiceChange (service_steps.Business kind.now key.now)
        service.old service.new out.old.told out.new.told) out.old.text.items
        out.new.text.items) }
    ensures stopped { IfErr result IsMemory }
{
    let state = service.business(kind.as_str(), key.as_str())?;
    let number = out.number();
    print_state(&mut out.text, number, &state)?;
    out.tell();
    Ok(())
}
