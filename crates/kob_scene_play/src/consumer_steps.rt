//! The steps of a consumer.

ghost use Rattle.std.specs.Prelude.{◌≡◌, IfErr, IfOk, OnErr, OnOk};
ghost use Rattle.kob_scene_play.specs.Steps.{BeginsConsumer, IsConsumerChange, IsConsumerStep};
ghost use Rattle.kob_scene_play.specs.Steps.{IsReadOnce, Tells};
ghost use Rattle.kob_scene_play.specs.Steps.{consumer_lacks, idle_with, left_after};
ghost use Rattle.kob_scene_play.specs.Forms.{last_needs};
ghost use Rattle.kob_scene_play.specs.Stops.{IsMemory, StopsConsumer, StopsTick};
ghost use Rattle.kob_scene_text.specs.declared.scene.ConsumerStep.TheVariants as consumer_steps;

use crate::consumer_worker::ConsumerWorker;
use crate::fault::PlayFault;
use crate::needs::last_needs;
use crate::output::Output;
use crate::service_steps::RUN_LIMIT;
use kob_inbox::Tick;
use kob_router::Loss;
use kob_scene_text::{ConsumerStep, print_consumer_tick, print_inbox, print_restarted};
use kob_shared::Recorded;
use std::alloc::{AllocError, Global};

/// What is left to do after a tick.
#[derive(Clone, Copy)]
enum Left {
    /// The next tick has something to do.
    Something,
    /// Its partition has nothing more.
    Idle,
    /// The consumer is stopped.
    Stopped,
}

/// Makes a step, and prints its result.
#[tactic(auto, using(crate::proofs::Played::consumer_changed))]
pub(crate) fn play_consumer(
    alloc: Global,
    recorded: &mut Recorded,
    consumer: &mut ConsumerWorker,
    step: &ConsumerStep,
    out: &mut Output,
) -> Result<(), PlayFault>
    ensures done { OnOk result (Tells (IsConsumerStep step.now consumer.old consumer.new recorded.old
        recorded.new out.old.told out.new.told) out.old.text.items out.new.text.items) }
    ensures left { OnErr result (step.now ≡ consumer_steps.Run → Tells (BeginsConsumer
        consumer.old recorded.old out.old.told out.new.told) out.old.text.items
        out.new.text.items) }
    ensures stopped { IfErr result (StopsConsumer step.now) }
{
    match step {
        ConsumerStep::Tick(loss) => {
            tick(alloc, recorded, consumer, *loss, out)?;
            Ok(())
        }
        ConsumerStep::Run => run(alloc, recorded, consumer, out),
        ConsumerStep::Restart => restart(consumer, out),
        ConsumerStep::Inbox => show_inbox(alloc, consumer, out),
    }
}

/// One tick. Returns what it leaves to do. On an error nothing is printed.
#[tactic(auto, using(crate::proofs::Stopping::tick_stops, crate::proofs::Stopping::memory_stops_tick))]
fn tick(
    alloc: Global,
    recorded: &mut Recorded,
    consumer: &mut ConsumerWorker,
    loss: Loss,
    out: &mut Output,
) -> Result<Left, PlayFault>
    ensures done { IfOk result (λ left. IsReadOnce loss left consumer.old consumer.new
        recorded.old recorded.new out.old.told out.new.told out.old.text.items
        out.new.text.items) }
    ensures kept { OnErr result (out.new.text.items ≡ out.old.text.items) }
    ensures count { OnErr result (out.new.told ≡ out.old.told) }
    ensures stopped { IfErr result StopsTick }
{
    let before = recorded.journal().len();
    let tick = consumer.tick(alloc, recorded, loss)?;
    let left = left_by(&tick);
    let lacks = lacks_of(alloc, &tick, before, recorded)?;
    let mut line = Vec::new(alloc);
    print_consumer_tick(&mut line, out.number(), tick, &lacks)?;
    out.push(&line)?;
    Ok(left)
}

/// What the last request of a tick lacked that stopped the consumer, behind a space.
fn lacks_of(
    alloc: Global,
    tick: &Tick,
    before: usize,
    recorded: &Recorded,
) -> Result<Vec<u8>, AllocError>
    ensures { IfOk result (λ text. text.items
        ≡ consumer_lacks tick.now (last_needs before recorded.now.journal)) }
{
    match tick {
        Tick::Stopped(_) => last_needs(alloc, before, recorded.journal()),
        Tick::Placed(_) | Tick::Took(_) | Tick::Committed | Tick::Idle | Tick::Repeat => {
            Ok(Vec::new(alloc))
        }
    }
}

fn left_by(tick: &Tick) -> Left
    ensures { result ≡ left_after tick.now }
{
    match tick {
        Tick::Idle => Left::Idle,
        Tick::Stopped(_) => Left::Stopped,
        Tick::Placed(_) | Tick::Took(_) | Tick::Committed | Tick::Repeat => Left::Something,
    }
}

/// How many ticks in a row were idle, with one more tick. With None that one ends the run of a
/// consumer with so many partitions.
fn idle_with(partitions: usize, left: Left, idle: usize) -> Option<usize>
    ensures { result ≡ idle_with partitions left idle }
{
    match left {
        Left::Something => Some(0),
        Left::Idle if idle < partitions.saturating_sub(1) => Some(idle + 1),
        Left::Idle | Left::Stopped => None,
    }
}

/// Makes ticks until each assigned partition was idle in turn, or the consumer is stopped.
#[tactic(auto, using(crate::proofs::ConsumerRunning::none_at_first))]
fn run(
    alloc: Global,
    recorded: &mut Recorded,
    consumer: &mut ConsumerWorker,
    out: &mut Output,
) -> Result<(), PlayFault>
    ensures done { OnOk result (Tells (IsConsumerStep consumer_steps.Run consumer.old consumer.new
        recorded.old recorded.new out.old.told out.new.told) out.old.text.items
        out.new.text.items) }
    ensures left { OnErr result (Tells (BeginsConsumer consumer.old recorded.old out.old.told
        out.new.told) out.old.text.items out.new.text.items) }
    ensures stopped { IfErr result StopsTick }
{
    let partitions = consumer.subscription().assignment.len();
    let mut idle = 0;
    for _ in 0..RUN_LIMIT {
        let left = tick(alloc, recorded, consumer, Loss::None, out)?;
        let Some(in_row) = idle_with(partitions, left, idle) else {
            return Ok(());
        };
        idle = in_row;
    }
    Ok(())
}

fn restart(consumer: &mut ConsumerWorker, out: &mut Output) -> Result<(), PlayFault>
    ensures done { OnOk result (Tells (IsConsumerChange consumer_steps.Restart consumer.old
        consumer.new out.old.told out.new.told) out.old.text.items out.new.text.items) }
    ensures stopped { IfErr result IsMemory }
{
    consumer.restart();
    let number = out.number();
    print_restarted(&mut out.text, number)?;
    out.tell();
    Ok(())
}

fn show_inbox(
    alloc: Global,
    consumer: &mut ConsumerWorker,
    out: &mut Output,
) -> Result<(), PlayFault>
    ensures done { OnOk result (Tells (IsConsumerChange consumer_steps.Inbox consumer.old
        consumer.new out.old.told out.new.told) out.old.text.items out.new.text.items) }
    ensures stopped { IfErr result IsMemory }
{
    let rows = consumer.rows(alloc)?;
    let number = out.number();
    print_inbox(&mut out.text, number, &rows)?;
    out.tell();
    Ok(())
}
