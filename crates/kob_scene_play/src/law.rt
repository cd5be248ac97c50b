//! Whether the laws of delivery apply to a service and a consumer, and what its inbox has.

ghost use Rattle.std.specs.Prelude.{◌≡◌, ◌++◌, IfErr, IfOk, OnOk, flat_map, slice_get};
ghost use Rattle.std.specs.Fmt.{decimal};
ghost use Rattle.kob_router.specs.Line.{one_more};
ghost use Rattle.std.specs.Option.{option_copied};
ghost use Rattle.kob_scene_play.specs.Laws.{IsAnswered, IsCoverage, IsLaw};
ghost use Rattle.kob_scene_play.specs.Laws.{altered_text, breach_text};
ghost use Rattle.kob_scene_play.specs.Laws.{broken_text};
ghost use Rattle.kob_scene_play.specs.Laws.{coverage_text, law_text, misplaced_text};
ghost use Rattle.kob_scene_play.specs.Laws.{name_text, order_text, premise_text, taken_text};
ghost use Rattle.kob_scene_play.specs.Laws.{topic_text, unread_text};
ghost use Rattle.kob_scene_play.specs.Steps.{Tells};
ghost use Rattle.kob_scene_play.specs.Stops.{IsMemory, StopsQuestion};

use crate::consumer_worker::ConsumerWorker;
use crate::fault::PlayFault;
use crate::output::{Output, push_counted};
use crate::service_worker::ServiceWorker;
use crate::stage::Stage;
use kob_delivery::{Breach, Premise, first_breach};
use kob_delivery_check::{altered_row, count_taken, early_rows, unread_of};
use kob_names::Text;
use kob_router::Place;
use kob_shared::Journal;
use kob_words::{push_bytes, push_number};
use std::alloc::{AllocError, Global};

/// What a consumer has of the rows of a service.
#[derive(Drop)]
pub(crate) struct Coverage {
    /// How many rows the service recorded, and how many of them the inbox has.
    recorded: usize,
    taken: usize,
    /// The place of the first row of the inbox that is out of order.
    misplaced: Option<u64>,
    /// The place of the first row of the inbox with another key or value than was recorded.
    altered: Option<u64>,
    /// The partitions that the service has sent to and the consumer does not read.
    unread: Vec<Place>,
}

/// Prints `N law holds` if only this service sends to the topics that the consumer reads, only this
/// consumer commits for its group on them, and nobody deleted one. Otherwise prints `N law says
/// nothing` with the premise that is broken, and the first entry that breaks it. After that it
/// prints how many of the service's rows the inbox has, whether it has of each aggregate the first
/// ones, in their order, the first row that has another key or value than was recorded, and each
/// partition that the service has sent to and the consumer does not read.
pub(crate) fn show_law(
    alloc: Global,
    stage: &mut Stage<'_>,
    service: usize,
    consumer: usize,
    out: &mut Output,
) -> Result<(), PlayFault>
    ensures recorded { stage.new.recorded ≡ stage.old.recorded }
    ensures services { stage.new.services ≡ stage.old.services }
    ensures consumers { stage.new.consumers.items ≡ stage.old.consumers.items }
    ensures unmet { stage.new.unmet ≡ stage.old.unmet }
    ensures done { OnOk result (Tells (IsAnswered service consumer stage.old out.old.told)
        out.old.text.items out.new.text.items) }
    ensures told { OnOk result (out.new.told ≡ one_more out.old.told) }
    ensures stopped { IfErr result (StopsQuestion service consumer stage.old) }
{
    let Some(sender) = stage.services.get(service) else {
        return Err(PlayFault::NoWorker);
    };
    let Some(taker) = stage.consumers.get_mut(consumer) else {
        return Err(PlayFault::NoWorker);
    };
    let journal = stage.recorded.journal();
    let coverage = coverage_of(alloc, journal, &sender.service, &mut taker.consumer)?;
    answer(
        journal,
        sender.service.number(),
        &taker.consumer,
        &coverage,
        out,
    )
}

/// Prints whether the laws apply to a service, by its number, and a consumer.
fn answer(
    journal: &Journal,
    sender: usize,
    taker: &ConsumerWorker,
    coverage: &Coverage,
    out: &mut Output,
) -> Result<(), PlayFault>
    ensures done { OnOk result (Tells (IsLaw sender taker.now.worker taker.now.fetcher.subscription
        journal.now coverage.now out.old.told) out.old.text.items out.new.text.items) }
    ensures told { OnOk result (out.new.told ≡ one_more out.old.told) }
    ensures stopped { IfErr result IsMemory }
{
    let subscription = taker.subscription();
    let assignment = subscription.assignment.as_slice();
    let breach = first_breach(
        journal,
        sender,
        taker.number(),
        &subscription.group,
        assignment,
    );
    let number = out.number();
    push_law(&mut out.text, number, assignment, breach, coverage)?;
    out.tell();
    Ok(())
}

#[tactic(auto, using(kob_words::proofs::Appending::appending))]
fn push_law(
    out: &mut Vec<u8>,
    number: u64,
    assignment: &[Place],
    breach: Option<Breach>,
    coverage: &Coverage,
) -> Result<(), AllocError>
    ensures { OnOk result (out.new.items
        ≡ out.old.items ++ law_text number assignment.now breach coverage.now) }
{
    push_number(out, number)?;
    push_breach(out, assignment, breach)?;
    push_coverage(out, coverage)
}

/// What a consumer has of the rows of a service.
fn coverage_of(
    alloc: Global,
    journal: &Journal,
    sender: &ServiceWorker<'_>,
    taker: &mut ConsumerWorker,
) -> Result<Coverage, AllocError>
    ensures covered { IfOk result (λ coverage.
        IsCoverage sender.now taker.old journal.now coverage) }
    ensures same { taker.new ≡ taker.old }
{
    let rows = taker.rows(alloc)?;
    let early = early_rows(alloc, sender.recorded(), &rows)?;
    let misplaced = early.first().map(|first| first.at);
    let taken = count_taken(alloc, sender.recorded(), &rows)?;
    let altered = altered_row(alloc, sender.recorded(), &rows)?;
    let assignment = taker.subscription().assignment.as_slice();
    let unread = unread_of(alloc, journal, sender.number(), assignment)?;
    Ok(Coverage {
        recorded: sender.recorded().len(),
        taken,
        misplaced,
        altered,
        unread,
    })
}

fn push_breach(
    out: &mut Vec<u8>,
    assignment: &[Place],
    breach: Option<Breach>,
) -> Result<(), AllocError>
    ensures { OnOk result (out.new.items ≡ out.old.items ++ breach_text assignment.now breach) }
{
    match breach {
        None => out.extend_from_slice(b" law holds"),
        Some(breach) => push_broken(out, place_at(assignment, breach.assigned), breach),
    }
}

fn place_at(assignment: &[Place], assigned: usize) -> Option<&Place>
    ensures { option_copied result ≡ slice_get assignment.now assigned }
{
    assignment.get(assigned)
}

#[tactic(auto, using(kob_words::proofs::Appending::appending))]
fn push_broken(out: &mut Vec<u8>, place: Option<&Place>, breach: Breach) -> Result<(), AllocError>
    ensures { OnOk result (out.new.items
        ≡ out.old.items ++ broken_text (option_copied place.entry) breach) }
{
    out.extend_from_slice(broken(breach.premise).as_bytes())?;
    push_topic(out, place)?;
    out.extend_from_slice(b" entry ")?;
    push_number(out, breach.entry as u64)
}

fn push_topic(out: &mut Vec<u8>, place: Option<&Place>) -> Result<(), AllocError>
    ensures { OnOk result (out.new.items ≡ out.old.items ++ topic_text (option_copied place.entry)) }
{
    match place {
        None => out.extend_from_slice(b""),
        Some(place) => push_name(out, &place.topic),
    }
}

#[tactic(auto, using(kob_words::proofs::Appending::appending))]
fn push_name(out: &mut Vec<u8>, topic: &Text) -> Result<(), AllocError>
    ensures { OnOk result (out.new.items ≡ out.old.items ++ name_text topic.now) }
{
    out.extend_from_slice(b" ")?;
    push_bytes(out, topic.as_str().as_bytes())
}

fn broken(premise: Premise) -> &'static str
    ensures { result.now ≡ premise_text premise }
{
    match premise {
        Premise::SoleProducer => " law says nothing: SoleProducer",
        Premise::SoleCommitter => " law says nothing: SoleCommitter",
        Premise::NeverDeleted => " law says nothing: NeverDeleted",
    }
}

#[tactic(auto, using(kob_words::proofs::Appending::appending))]
fn push_coverage(out: &mut Vec<u8>, coverage: &Coverage) -> Result<(), AllocError>
    ensures { OnOk result (out.new.items ≡ out.old.items ++ coverage_text coverage.now) }
{
    push_taken(out, coverage.taken, coverage.recorded)?;
    push_order(out, coverage.misplaced)?;
    push_altered(out, coverage.altered)?;
    push_each_unread(out, &coverage.unread)?;
    out.extend_from_slice(b"\n")
}

#[tactic(auto, using(kob_words::proofs::Appending::appending))]
fn push_taken(out: &mut Vec<u8>, taken: usize, recorded: usize) -> Result<(), AllocError>
    ensures { OnOk result (out.new.items ≡ out.old.items ++ taken_text taken recorded) }
{
    push_counted(out, b", ", taken as u64, b" of ")?;
    push_number(out, recorded as u64)?;
    out.extend_from_slice(b" rows")
}

fn push_order(out: &mut Vec<u8>, misplaced: Option<u64>) -> Result<(), AllocError>
    ensures { OnOk result (out.new.items ≡ out.old.items ++ order_text misplaced) }
{
    match misplaced {
        None => out.extend_from_slice(b", in order"),
        Some(place) => push_misplaced(out, place),
    }
}

fn push_misplaced(out: &mut Vec<u8>, place: u64) -> Result<(), AllocError>
    ensures { OnOk result (out.new.items ≡ out.old.items ++ misplaced_text place) }
{
    push_labelled(out, b", out of order at row ", place)
}

fn push_altered(out: &mut Vec<u8>, altered: Option<u64>) -> Result<(), AllocError>
    ensures { OnOk result (out.new.items ≡ out.old.items ++ altered_text altered) }
{
    match altered {
        None => out.extend_from_slice(b""),
        Some(place) => push_labelled(out, b", not as recorded at row ", place),
    }
}

/// A number behind a text.
#[tactic(auto, using(kob_words::proofs::Appending::appending))]
fn push_labelled(out: &mut Vec<u8>, label: &[u8], number: u64) -> Result<(), AllocError>
    ensures { OnOk result (out.new.items ≡ out.old.items ++ (label.now ++ decimal number)) }
{
    out.extend_from_slice(label)?;
    push_number(out, number)
}

fn push_each_unread(out: &mut Vec<u8>, unread: &[Place]) -> Result<(), AllocError>
    ensures { OnOk result (out.new.items ≡ out.old.items ++ flat_map unread_text unread.now) }
{
    for place in unread {
        push_unread(out, place)?;
    }
    Ok(())
}

#[tactic(auto, using(kob_words::proofs::Appending::appending))]
fn push_unread(out: &mut Vec<u8>, place: &Place) -> Result<(), AllocError>
    ensures { OnOk result (out.new.items ≡ out.old.items ++ unread_text place.now) }
{
    out.extend_from_slice(b", not read")?;
    push_name(out, &place.topic)?;
    out.extend_from_slice(b" ")?;
    push_number(out, place.partition)
}
