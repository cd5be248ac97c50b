//! Whether the events of a service are where they are expected to be.

ghost use Rattle.std.specs.Prelude.{◌≡◌, ◌++◌, ◌==◌, ◌||◌, IfErr, IfOk, OnOk, length, map};
ghost use Rattle.std.specs.Prelude.{slice_get};
ghost use Rattle.std.specs.Fmt.{decimal};
ghost use Rattle.std.specs.List.{list_all};
ghost use Rattle.std.specs.Option.{option_copied};
ghost use Rattle.kob_delivery_check.specs.Fates.{is_delivered};
ghost use Rattle.kob_scene_play.specs.Checks.{unrecorded_by};
ghost use Rattle.kob_delivery_check.specs.Logs.{number_of};
ghost use Rattle.kob_router.specs.Line.{one_more};
ghost use Rattle.kob_scene_play.specs.Checks.{AreEarly, AreFates};
ghost use Rattle.kob_scene_play.specs.Expectations.{IsExpected, IsMet};
ghost use Rattle.kob_scene_play.specs.Expectations.{expected_text, is_lost_at};
ghost use Rattle.kob_scene_play.specs.Expectations.{is_lost_event};
ghost use Rattle.kob_scene_play.specs.Steps.{Tells};
ghost use Rattle.kob_scene_play.specs.Stops.{StopsQuestion};

use crate::check::{early_at, fates_at, unrecorded_by};
use crate::consumer_worker::ConsumerWorker;
use crate::fault::PlayFault;
use crate::output::Output;
use crate::service_worker::ServiceWorker;
use crate::stage::Stage;
use kob_delivery_check::{Fate, place_of};
use kob_outbox::OutboxEvent;
use kob_scene_text::Expected;
use kob_shared::Journal;
use kob_words::push_number;
use std::alloc::{AllocError, Global};
use uuid::Uuid;

/// Prints whether the events of the service are where they are expected to be on this line, and
/// counts it if they are not.
pub(crate) fn show_expected(
    alloc: Global,
    stage: &mut Stage<'_>,
    service: usize,
    consumer: usize,
    what: Expected,
    line: u64,
    out: &mut Output,
) -> Result<(), PlayFault>
    ensures recorded { stage.new.recorded ≡ stage.old.recorded }
    ensures services { stage.new.services.items ≡ stage.old.services.items }
    ensures consumers { stage.new.consumers.items ≡ stage.old.consumers.items }
    ensures done { OnOk result (Tells
        (IsExpected service consumer what line stage.old stage.new.unmet out.old.told)
        out.old.text.items out.new.text.items) }
    ensures told { OnOk result (out.new.told ≡ one_more out.old.told) }
    ensures stopped { IfErr result (StopsQuestion service consumer stage.old) }
{
    let Some(sender) = stage.services.get_mut(service) else {
        return Err(PlayFault::NoWorker);
    };
    let Some(taker) = stage.consumers.get_mut(consumer) else {
        return Err(PlayFault::NoWorker);
    };
    let journal = stage.recorded.journal();
    let is_met = is_met(
        alloc,
        what,
        journal,
        &mut sender.service,
        &mut taker.consumer,
    )?;
    print(out, is_met)?;
    stage.unmet = stage.unmet.after(is_met, line);
    Ok(())
}

/// Whether the events of a service are where they are expected to be.
fn is_met(
    alloc: Global,
    what: Expected,
    journal: &Journal,
    sender: &mut ServiceWorker<'_>,
    taker: &mut ConsumerWorker,
) -> Result<bool, AllocError>
    ensures sender { sender.new ≡ sender.old }
    ensures taker { taker.new ≡ taker.old }
    ensures met { IfOk result (IsMet what sender.old taker.old journal.now) }
{
    match what {
        Expected::Delivered => {
            let fates = fates_at(alloc, journal, sender, taker)?;
            let unrecorded = unrecorded_by(alloc, sender)?;
            Ok(all_delivered(&fates) && unrecorded.is_empty())
        }
        Expected::Lost(id) => {
            let fates = fates_at(alloc, journal, sender, taker)?;
            let unrecorded = unrecorded_by(alloc, sender)?;
            let is_lost = is_lost_event(id, sender.recorded(), &fates);
            Ok(is_lost || place_of(id.as_u128(), &unrecorded).is_some())
        }
        Expected::Order => {
            let early = early_at(alloc, sender, taker)?;
            Ok(early.len() == 0)
        }
    }
}

fn all_delivered(fates: &[Fate]) -> bool
    ensures { result ≡ list_all is_delivered fates.now }
{
    fates.iter().all(|fate| fate.is_delivered())
}

/// Whether the event with this id is lost.
fn is_lost_event(id: Uuid, events: &[&OutboxEvent], fates: &[Fate]) -> bool
    ensures { result ≡ is_lost_event id (map (λ event. event.now) events.now) fates.now }
{
    let Some(place) = place_of(id.as_u128(), events) else {
        return false;
    };
    match fates.get(place) {
        Some(fate) => fate.is_lost(),
        None => false,
    }
}

#[tactic(auto, using(kob_words::proofs::Appending::appending))]
fn print(out: &mut Output, is_met: bool) -> Result<(), AllocError>
    ensures printed { OnOk result (out.new.text.items ≡ out.old.text.items
        ++ (decimal (one_more out.old.told) ++ expected_text is_met)) }
    ensures told { OnOk result (out.new.told ≡ one_more out.old.told) }
{
    let number = out.number();
    out.tell();
    push_number(&mut out.text, number)?;
    if is_met {
        out.text.extend_from_slice(b" as expected\n")
    } else {
        out.text.extend_from_slice(b" not as expected\n")
    }
}
