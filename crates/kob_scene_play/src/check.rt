//! Where each event of a service is, on its way to a consumer.

ghost use Rattle.std.specs.Prelude.{◌≡◌, ◌++◌, IfErr, IfOk, OnOk, map};
ghost use Rattle.kob_delivery_check.specs.Printed.{check_text};
ghost use Rattle.kob_router.specs.Line.{one_more};
ghost use Rattle.kob_scene_play.specs.Checks.{AreDoubled, AreEarly, AreFates, AreLosses};
ghost use Rattle.kob_scene_play.specs.Checks.{IsChecked, IsFound};
ghost use Rattle.kob_scene_play.specs.Checks.{early_in_topics, reaches_of, repeats_in};
ghost use Rattle.kob_scene_play.specs.Checks.{unrecorded_by};
ghost use Rattle.kob_scene_play.specs.Steps.{Tells};
ghost use Rattle.kob_scene_play.specs.Stops.{StopsQuestion};

use crate::consumer_worker::ConsumerWorker;
use crate::fault::PlayFault;
use crate::output::Output;
use crate::service_worker::ServiceWorker;
use crate::stage::Stage;
use kob_delivery_check::{
    DoubledRow, Early, EarlyRecord, Fate, Found, LostEvent, Reach, Stored, doubled_rows,
    early_records, early_rows, fates_of, losses_of, print_check, reaches_by, records_ahead,
    records_of, repeats_of, unrecorded_of,
};
use kob_outbox::OutboxEvent;
use kob_shared::Journal;
use std::alloc::{AllocError, Global};

/// Prints how many events of the service are in the consumer's inbox, how many wait and how many
/// are lost; the first one that waits with where it does; each one that is lost; each record of one
/// of them in the consumer's partitions that has an earlier record; each row of the inbox that has
/// an earlier row of the same event; and each row and each such record that is out of order.
pub(crate) fn show_check(
    alloc: Global,
    stage: &mut Stage<'_>,
    service: usize,
    consumer: usize,
    out: &mut Output,
) -> Result<(), PlayFault>
    ensures recorded { stage.new.recorded ≡ stage.old.recorded }
    ensures services { stage.new.services.items ≡ stage.old.services.items }
    ensures consumers { stage.new.consumers.items ≡ stage.old.consumers.items }
    ensures unmet { stage.new.unmet ≡ stage.old.unmet }
    ensures done { OnOk result (Tells (IsChecked service consumer stage.old out.old.told)
        out.old.text.items out.new.text.items) }
    ensures told { OnOk result (out.new.told ≡ one_more out.old.told) }
    ensures stopped { IfErr result (StopsQuestion service consumer stage.old) }
{
    let Some(sender) = stage.services.get_mut(service) else {
        return Err(PlayFault::NoWorker);
    };
    let Some(taker) = stage.consumers.get_mut(consumer) else {
        return Err(PlayFault::NoWorker);
    };
    let journal = stage.recorded.journal();
    let found = found_at(alloc, journal, &mut sender.service, &mut taker.consumer)?;
    let unrecorded = unrecorded_by(alloc, &sender.service)?;
    print(
        journal,
        &sender.service,
        &taker.consumer,
        &unrecorded,
        &found,
        out,
    )?;
    Ok(())
}

/// Where each event of the service is, which records and rows repeat an event, and what is out of
/// order.
fn found_at(
    alloc: Global,
    journal: &Journal,
    sender: &mut ServiceWorker<'_>,
    taker: &mut ConsumerWorker,
) -> Result<Found, AllocError>
    ensures sender { sender.new ≡ sender.old }
    ensures taker { taker.new ≡ taker.old }
    ensures found { IfOk result (λ found. IsFound sender.old taker.old journal.now found) }
{
    let repeats = repeats_in(alloc, journal, taker)?;
    let early_records = early_in_topics(alloc, journal, sender, taker)?;
    let doubled_rows = doubled_at(alloc, taker)?;
    let early_rows = early_at(alloc, sender, taker)?;
    let fates = fates_at(alloc, journal, sender, taker)?;
    let losses = losses_at(alloc, journal, sender, taker, &fates)?;
    Ok(Found {
        fates,
        losses,
        repeats,
        doubled_rows,
        early_rows,
        early_records,
    })
}

/// The events of the service that are lost, each with its cause.
fn losses_at(
    alloc: Global,
    journal: &Journal,
    sender: &ServiceWorker<'_>,
    taker: &mut ConsumerWorker,
    fates: &[Fate],
) -> Result<Vec<LostEvent>, AllocError>
    ensures losses { IfOk result
        (λ losses. AreLosses sender.now taker.old journal.now fates.now losses.items) }
    ensures same { taker.new ≡ taker.old }
{
    let taken = taker.rows(alloc)?;
    losses_of(
        alloc,
        taker.subscription(),
        &taken,
        journal,
        sender.recorded(),
        fates,
    )
}

/// The rows of the consumer's inbox whose event has an earlier row.
fn doubled_at(alloc: Global, taker: &mut ConsumerWorker) -> Result<Vec<DoubledRow>, AllocError>
    ensures doubled { IfOk result (λ doubled. AreDoubled taker.old doubled.items) }
    ensures same { taker.new ≡ taker.old }
{
    let taken = taker.rows(alloc)?;
    doubled_rows(alloc, &taken)
}

/// The events whose business row the service wrote, and that it never recorded.
pub(crate) fn unrecorded_by<'s>(
    alloc: Global,
    sender: &ServiceWorker<'s>,
) -> Result<Vec<&'s OutboxEvent>, AllocError>
    ensures { IfOk result (λ found. map (λ event. event.now) found.items
        ≡ unrecorded_by sender.now) }
{
    unrecorded_of(alloc, sender.recorded(), sender.unwritten())
}

/// The rows of the consumer's inbox that are out of order.
pub(crate) fn early_at(
    alloc: Global,
    sender: &ServiceWorker<'_>,
    taker: &mut ConsumerWorker,
) -> Result<Vec<Early>, AllocError>
    ensures early { IfOk result (λ early. AreEarly sender.now taker.old early.items) }
    ensures same { taker.new ≡ taker.old }
{
    let taken = taker.rows(alloc)?;
    early_rows(alloc, sender.recorded(), &taken)
}

/// The records in the consumer's partitions that are out of order.
fn early_in_topics(
    alloc: Global,
    journal: &Journal,
    sender: &ServiceWorker<'_>,
    taker: &ConsumerWorker,
) -> Result<Vec<EarlyRecord>, AllocError>
    ensures { IfOk result (λ early. early.items
        ≡ early_in_topics sender.now taker.now journal.now) }
{
    let reaches = reaches_of(alloc, journal, taker)?;
    let assignment = taker.subscription().assignment.as_slice();
    early_records(alloc, assignment, sender.recorded(), &reaches)
}

/// Where each event of the service is, in the order in which they were recorded.
pub(crate) fn fates_at(
    alloc: Global,
    journal: &Journal,
    sender: &mut ServiceWorker<'_>,
    taker: &mut ConsumerWorker,
) -> Result<Vec<Fate>, AllocError>
    ensures sender { sender.new ≡ sender.old }
    ensures taker { taker.new ≡ taker.old }
    ensures fates { IfOk result (λ fates. AreFates sender.old taker.old journal.now fates.items) }
{
    let mark = sender.mark()?;
    let waiting = sender.rows_after(mark, u32::MAX)?;
    let taken = taker.rows(alloc)?;
    let reaches = reaches_of(alloc, journal, taker)?;
    let ahead = records_ahead(alloc, &reaches)?;
    fates_of(alloc, sender.recorded(), &taken, &ahead, &waiting)
}

/// What a consumer has before it on each of its partitions.
fn reaches_of(
    alloc: Global,
    journal: &Journal,
    taker: &ConsumerWorker,
) -> Result<Vec<Reach>, AllocError>
    ensures { IfOk result (λ reaches. reaches.items ≡ reaches_of journal.now taker.now) }
{
    reaches_by(alloc, taker.start().is_latest(), journal, taker.consumer())
}

/// The records of events in a consumer's partitions that have an earlier record of the same event.
fn repeats_in(
    alloc: Global,
    journal: &Journal,
    taker: &ConsumerWorker,
) -> Result<Vec<Stored>, AllocError>
    ensures { IfOk result (λ repeats. repeats.items ≡ repeats_in journal.now taker.now) }
{
    let reaches = reaches_of(alloc, journal, taker)?;
    let assignment = taker.subscription().assignment.as_slice();
    let records = records_of(alloc, assignment, &reaches)?;
    repeats_of(alloc, &records)
}

fn print(
    journal: &Journal,
    sender: &ServiceWorker<'_>,
    taker: &ConsumerWorker,
    unrecorded: &[&OutboxEvent],
    found: &Found,
    out: &mut Output,
) -> Result<(), AllocError>
    ensures printed { OnOk result (out.new.text.items ≡ out.old.text.items
        ++ check_text (one_more out.old.told) journal.now sender.now.recorded
        (map (λ event. event.now) unrecorded.now) found.now
        taker.now.fetcher.subscription.assignment) }
    ensures told { OnOk result (out.new.told ≡ one_more out.old.told) }
{
    let number = out.number();
    let assignment = taker.subscription().assignment.as_slice();
    print_check(
        &mut out.text,
        number,
        journal,
        sender.recorded(),
        unrecorded,
        found,
        assignment,
    )?;
    out.tell();
    Ok(())
}
