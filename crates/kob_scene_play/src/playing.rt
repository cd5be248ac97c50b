//! The playing of a scene.

ghost use Rattle.std.specs.Prelude.{◌≡◌, ◌++◌, [], IfErr, IfOk, OnErr, OnOk, slice_get, true};
ghost use Rattle.kob_router.specs.Line.{one_more};
ghost use Rattle.kob_scene_play.specs.Steps.{Tells};
ghost use Rattle.kob_scene_play.specs.Scenes.{IsConsumerBeginning, IsRunBeginning};
ghost use Rattle.kob_scene_play.specs.Scenes.{IsRead, IsServed, IsServiceBeginning, IsShown};
ghost use Rattle.kob_scene_play.specs.Scenes.{IsStep, Leaves, OthersStay, is_run};
ghost use Rattle.kob_scene_play.specs.Scenes.{EndsAs, EndsScene, EndsSteps, show_by};
ghost use Rattle.kob_scene_play.specs.Stops.{MayStop, StopsConsumerAt, StopsRequest};
ghost use Rattle.kob_scene_play.specs.Stops.{StopsServiceAt};
ghost use Rattle.kob_script.specs.Printed.{reply_text};
ghost use Rattle.kob_scene_text.specs.declared.scene.ConsumerStep.TheVariants as consumer_steps;
ghost use Rattle.kob_scene_text.specs.declared.scene.ServiceStep.TheVariants as service_steps;
ghost use Rattle.kob_shared.specs.Journals.{after_event, outcome_of};

use crate::check::show_check;
use crate::consumer_steps::play_consumer;
use crate::expect::show_expected;
use crate::fault::PlayFault;
use crate::form::{Showing, Shown, line_at};
use crate::journal::show_journal;
use crate::law::show_law;
use crate::output::Output;
use crate::page::Page;
use crate::service_steps::play_service;
use crate::stage::{Stage, Unmet};
use crate::text::Ended;
use kob_rights::Event;
use kob_scene_text::{ConsumerStep, Scene, ServiceStep, Step};
use kob_script::print_reply;
use kob_shared::Recorded;
use std::alloc::Global;
use std::io::Write;

/// Plays a scene, one step after another, and writes the answers in this form and nothing else. The
/// fault is `WriteFailed`, or `Memory` before the first step.
pub fn play<W: Write>(
    alloc: Global,
    shown: &Shown,
    scene: Scene,
    writer: &mut W,
) -> Result<Ended, PlayFault>
    ensures { IfOk result
        (EndsAs shown.now scene (W.contents writer.old) (W.contents writer.new)) }
{
    let mut page = match Page::open(alloc) {
        Ok(page) => page,
        Err(refused) => {
            drop(scene);
            return Err(PlayFault::Memory(refused));
        }
    };
    match play_scene(alloc, shown, scene, &mut page, writer)? {
        Played::Whole(unmet) => {
            page.write(writer)?;
            if unmet.count == 0 {
                Ok(Ended::Clean)
            } else {
                Ok(Ended::Unmet(unmet))
            }
        }
        Played::Stopped(fault) => {
            page.stop(shown, writer)?;
            Ok(Ended::Stopped(fault))
        }
    }
}

/// How the steps of a scene were played.
#[derive(Clone, Copy)]
pub(crate) enum Played {
    /// All of them, and what was expected in them and not so.
    Whole(Unmet),
    /// Up to one that this fault stopped.
    Stopped(PlayFault),
}

/// Plays a scene from an empty page on. The only error is `WriteFailed`.
fn play_scene<W: Write>(
    alloc: Global,
    shown: &Shown,
    scene: Scene,
    page: &mut Page,
    writer: &mut W,
) -> Result<Played, PlayFault>
    requires text { page.old.text.items ≡ [] }
    requires told { page.old.told ≡ 0 }
    ensures { IfOk result (EndsScene shown.now scene page.new.told (W.contents writer.old)
        (W.contents writer.new) page.new.text.items) }
{
    let Scene {
        settings,
        services,
        consumers,
        steps,
        lines,
    } = scene;
    let mut stage = match Stage::open(alloc, settings, services, consumers) {
        Ok(stage) => stage,
        Err(fault) => {
            drop(steps);
            return Ok(Played::Stopped(fault));
        }
    };
    let showing = Showing {
        shown,
        lines: &lines,
    };
    let played = play_steps(alloc, showing, &mut stage, &steps, page, writer);
    let unmet = stage.unmet;
    drop(stage);
    drop(steps);
    match played? {
        None => Ok(Played::Whole(unmet)),
        Some(fault) => Ok(Played::Stopped(fault)),
    }
}

/// Plays the steps, up to one that stops.
fn play_steps<'s, W: Write>(
    alloc: Global,
    showing: Showing<'_>,
    stage: &mut Stage<'s>,
    steps: &'s [Step],
    page: &mut Page,
    writer: &mut W,
) -> Result<Option<PlayFault>, PlayFault>
    ensures { IfOk result
        (EndsSteps (show_by showing.entry.shown.now showing.entry.lines.now) steps.now
        stage.old stage.new page.old.told page.new.told (W.contents writer.old)
        page.old.text.items (W.contents writer.new) page.new.text.items) }
{
    let mut out = Output::new(alloc);
    for place in 0..steps.len() {
        let step = &steps[place];
        match show_step(alloc, showing, stage, place, step, &mut out, page) {
            Ok(()) => page.write_piece(writer)?,
            Err(fault) => return Ok(Some(fault)),
        }
    }
    Ok(None)
}

/// Plays the step at this place of the scene, and shows its answers.
#[tactic(auto, using(crate::proofs::Stopping::memory_stops))]
fn show_step<'s>(
    alloc: Global,
    showing: Showing<'_>,
    stage: &mut Stage<'s>,
    place: usize,
    step: &'s Step,
    out: &mut Output,
    page: &mut Page,
) -> Result<(), PlayFault>
    ensures shown { OnOk result (Tells
        (IsShown (show_by showing.entry.shown.now showing.entry.lines.now) place step.now
        stage.old stage.new page.old.told page.new.told)
        page.old.text.items page.new.text.items) }
    ensures stopped { OnErr result (Tells
        (Leaves (show_by showing.entry.shown.now showing.entry.lines.now) place step.now
        stage.old stage.new.recorded.journal page.old.told page.new.told)
        page.old.text.items page.new.text.items) }
    ensures fault { IfErr result (MayStop step.now stage.old) }
{
    out.begin(page.told);
    let before = stage.recorded.journal().len();
    match play_step(alloc, stage, step, line_at(showing.lines, place), out) {
        Ok(()) => Ok(page.show(alloc, showing, place, before, stage.recorded.journal(), out)?),
        Err(fault) => {
            if is_run(step) {
                let _ = page.show(alloc, showing, place, before, stage.recorded.journal(), out);
            }
            Err(fault)
        }
    }
}

/// Whether a step is ticks, each with an answer.
fn is_run(step: &Step) -> bool
    ensures { result ≡ is_run step.now }
{
    match step {
        Step::Service(_, ServiceStep::Run) => true,
        Step::Consumer(_, ConsumerStep::Run) => true,
        _ => false,
    }
}

/// Plays the step on this line.
fn play_step<'s>(
    alloc: Global,
    stage: &mut Stage<'s>,
    step: &'s Step,
    line: u64,
    out: &mut Output,
) -> Result<(), PlayFault>
    ensures done { OnOk result (Tells
        (IsStep step.now line stage.old stage.new out.old.told out.new.told)
        out.old.text.items out.new.text.items) }
    ensures left { OnErr result (is_run step.now ≡ true → Tells (IsRunBeginning step.now stage.old
        out.old.told out.new.told) out.old.text.items out.new.text.items) }
    ensures stopped { IfErr result (MayStop step.now stage.old) }
{
    match step {
        Step::Request(event) => play_request(alloc, &mut stage.recorded, event, out),
        Step::Service(which, step) => play_service_at(alloc, stage, *which, step, out),
        Step::Consumer(which, step) => play_consumer_at(alloc, stage, *which, step, out),
        Step::Journal => show_journal(stage, out),
        Step::Law { service, consumer } => show_law(alloc, stage, *service, *consumer, out),
        Step::Check { service, consumer } => show_check(alloc, stage, *service, *consumer, out),
        Step::Expect {
            service,
            consumer,
            what,
        } => show_expected(alloc, stage, *service, *consumer, *what, line, out),
    }
}

/// Plays a step of the service at this place of the stage.
fn play_service_at<'s>(
    alloc: Global,
    stage: &mut Stage<'s>,
    which: usize,
    step: &'s ServiceStep,
    out: &mut Output,
) -> Result<(), PlayFault>
    ensures consumers { stage.new.consumers ≡ stage.old.consumers }
    ensures unmet { stage.new.unmet ≡ stage.old.unmet }
    ensures others { OthersStay which stage.old.services.items stage.new.services.items }
    ensures done { OnOk result (Tells (IsServed which step.now stage.old.services.items
        stage.new.services.items stage.old.recorded stage.new.recorded out.old.told
        out.new.told) out.old.text.items out.new.text.items) }
    ensures left { OnErr result (step.now ≡ service_steps.Run → Tells (IsServiceBeginning
        (slice_get stage.old.services.items which) stage.old.recorded out.old.told out.new.told)
        out.old.text.items out.new.text.items) }
    ensures stopped { IfErr result (StopsServiceAt which step.now stage.old) }
{
    match stage.services.get_mut(which) {
        Some(played) => { play_service(alloc, &mut stage.recorded, &mut played.service, step, out) }
        None => Err(PlayFault::NoWorker),
    }
}

/// Plays a step of the consumer at this place of the stage.
fn play_consumer_at(
    alloc: Global,
    stage: &mut Stage<'_>,
    which: usize,
    step: &ConsumerStep,
    out: &mut Output,
) -> Result<(), PlayFault>
    ensures services { stage.new.services ≡ stage.old.services }
    ensures unmet { stage.new.unmet ≡ stage.old.unmet }
    ensures others { OthersStay which stage.old.consumers.items stage.new.consumers.items }
    ensures done { OnOk result (Tells (IsRead which step.now stage.old.consumers.items
        stage.new.consumers.items stage.old.recorded stage.new.recorded out.old.told
        out.new.told) out.old.text.items out.new.text.items) }
    ensures left { OnErr result (step.now ≡ consumer_steps.Run → Tells (IsConsumerBeginning
        (slice_get stage.old.consumers.items which) stage.old.recorded out.old.told out.new.told)
        out.old.text.items out.new.text.items) }
    ensures stopped { IfErr result (StopsConsumerAt which step.now stage.old) }
{
    match stage.consumers.get_mut(which) {
        Some(played) => {
            play_consumer(alloc, &mut stage.recorded, &mut played.consumer, step, out)
        }
        None => Err(PlayFault::NoWorker),
    }
}

/// Serves a request of a principal, as worker 0's, and prints the reply.
#[tactic(auto, using(crate::proofs::Stopping::request_stops))]
fn play_request(
    alloc: Global,
    recorded: &mut Recorded,
    event: &Event,
    out: &mut Output,
) -> Result<(), PlayFault>
    ensures recorded { OnOk result (recorded.new ≡ after_event recorded.old 0 event.now) }
    ensures printed { OnOk result (out.new.text.items ≡ out.old.text.items
        ++ reply_text (one_more out.old.told) (outcome_of recorded.old event.now).reply) }
    ensures told { OnOk result (out.new.told ≡ one_more out.old.told) }
    ensures stopped { IfErr result (StopsRequest recorded.old) }
{
    let receipt = recorded.serve_as(alloc, 0, event)?;
    let number = out.number();
    print_reply(&mut out.text, number, &receipt.reply)?;
    out.tell();
    Ok(())
}
