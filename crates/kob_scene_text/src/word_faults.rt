//! The fault of each word of a line, in the order of the words.

ghost use Rattle.std.specs.Prelude.{◌≡◌, ◌++◌, IfOk, OnOk, Result, map};
ghost use Rattle.std.specs.Result.{result_err};
ghost use Rattle.kob_script.specs.Words.{Gives as ScriptGives};
ghost use Rattle.kob_script.specs.declared.fault.FaultKind as script_kinds;
ghost use Rattle.kob_scene_text.specs.Places.{fault_unless, faults_in, known_fault, law_fault};
ghost use Rattle.kob_scene_text.specs.Places.{name_fault};
ghost use Rattle.kob_scene_text.specs.Places.{script_fault};
ghost use Rattle.kob_scene_text.specs.Places.{slot_fault};
ghost use Rattle.kob_scene_text.specs.Reading.{Gives};
ghost use Rattle.kob_scene_text.specs.declared.fault.SceneFaultKind as kinds;

use crate::consumer_lines::{max_of, place_of, start_named};
use crate::fault::{BAD_LINE, SceneFaultKind, StepError};
use crate::forms::{Part, Slot, is_keyword};
use crate::name::is_name;
use crate::service_lines::{by_named, partitions_of, route_of};
use crate::step_lines::id_of;
use crate::workers_before::{is_declared, is_variant, worker_in};
use kob_names::Text;
use kob_router::{Route, RouteBy, RouteSettings};
use kob_script::{LineError, Word, named_host, named_principal, text_of};
use std::alloc::{AllocError, Global};

/// Appends the faults of words, by a form, behind these lines of a scene.
// Recursive: a form has at most twelve parts.
pub(crate) fn push_faults(
    alloc: Global,
    faults: &mut Vec<Option<SceneFaultKind>>,
    before: &[&[u8]],
    parts: &[Part],
    words: &[Word<'_>],
) -> Result<(), AllocError>
    ensures { OnOk result (faults.new.items ≡ faults.old.items
        ++ faults_in (map (λ line. line.now) before.now) parts.now words.now) }
{
    match (parts, words) {
        ([], []) | ([Part::OrEnd, ..], []) => Ok(()),
        ([], [_, ..]) | ([Part::One(_), ..], []) => push_bad_line(faults),
        ([Part::One(slot), parts @ ..], [word, words @ ..]) => {
            faults.push(slot_fault(alloc, before, *slot, word)?)?;
            push_faults(alloc, faults, before, parts, words)
        }
        ([Part::After(keyword, _), ..], [first]) if is_keyword(*keyword, first) => {
            faults.push(None)?;
            push_bad_line(faults)
        }
        ([Part::After(keyword, slot), parts @ ..], [first, word, words @ ..])
            if is_keyword(*keyword, first) => {
            faults.push(None)?;
            faults.push(slot_fault(alloc, before, *slot, word)?)?;
            push_faults(alloc, faults, before, parts, words)
        }
        ([Part::After(_, _), parts @ ..], []) => push_faults(alloc, faults, before, parts, words),
        ([Part::After(_, _), parts @ ..], [_]) => push_faults(alloc, faults, before, parts, words),
        ([Part::After(_, _), parts @ ..], [_, _, ..]) => {
            push_faults(alloc, faults, before, parts, words)
        }
        ([Part::OrEnd, parts @ ..], [_, ..]) => push_faults(alloc, faults, before, parts, words),
        ([Part::Each(slot), ..], _) => push_each(alloc, faults, before, *slot, words),
    }
}

ghost use Rattle.std.specs.Prelude.{[], ◌∷◌, Some};
ghost use Rattle.kob_scene_text.specs.Reading.{bad_line};

/// A word too few, or too many.
pub(crate) fn push_bad_line(faults: &mut Vec<Option<SceneFaultKind>>) -> Result<(), AllocError>
    ensures { OnOk result (faults.new.items ≡ faults.old.items ++ Some bad_line ∷ []) }
{
    faults.push(Some(BAD_LINE))?;
    Ok(())
}

fn push_each(
    alloc: Global,
    faults: &mut Vec<Option<SceneFaultKind>>,
    before: &[&[u8]],
    slot: Slot,
    words: &[Word<'_>],
) -> Result<(), AllocError>
    ensures { OnOk result (faults.new.items ≡ faults.old.items
        ++ map (slot_fault (map (λ line. line.now) before.now) slot) words.now) }
{
    for word in words {
        faults.push(slot_fault(alloc, before, slot, word)?)?;
    }
    Ok(())
}

/// The fault that a word has in a slot.
fn slot_fault(
    alloc: Global,
    before: &[&[u8]],
    slot: Slot,
    word: &Word<'_>,
) -> Result<Option<SceneFaultKind>, AllocError>
    ensures { IfOk result (λ fault.
        fault ≡ slot_fault (map (λ line. line.now) before.now) slot word.now) }
{
    match slot {
        Slot::NewName => name_fault(alloc, before, word.decoded()),
        Slot::ServiceName => known_fault(alloc, b"service", before, word.decoded()),
        Slot::ConsumerName => known_fault(alloc, b"consumer", before, word.decoded()),
        Slot::LawService => law_fault(alloc, b"service", before, word.decoded()),
        Slot::LawConsumer => law_fault(alloc, b"consumer", before, word.decoded()),
        Slot::Text => line_fault(text_of(alloc, word)),
        Slot::Principal => line_fault(named_principal(alloc, word)),
        Slot::Host => line_fault(named_host(alloc, word)),
        Slot::Max => step_fault(max_of(word)),
        Slot::Start => line_fault(start_named(word)),
        Slot::Column => line_fault(by_named(word)),
        Slot::Partition => line_fault(place_of(alloc, word)),
        Slot::Partitions => step_fault(partitions_of(word)),
        Slot::Id => step_fault(id_of(word)),
        Slot::Replacement => step_fault(replaced_by(alloc, word)),
        Slot::Placement => step_fault(placed_by(alloc, word)),
        Slot::Switch => Ok(fault_unless(
            word.decoded() == b"on".as_slice() || word.decoded() == b"off".as_slice(),
            BAD_LINE,
        )),
        Slot::Loss => Ok(fault_unless(
            word.decoded() == b"lose-request".as_slice()
                || word.decoded() == b"lose-reply".as_slice(),
            BAD_LINE,
        )),
        Slot::Keyword(keyword) => Ok(fault_unless(is_keyword(keyword, word), BAD_LINE)),
    }
}

fn fault_unless(fits: bool, kind: SceneFaultKind) -> Option<SceneFaultKind>
    ensures { result ≡ fault_unless fits kind }
{
    if fits { None } else { Some(kind) }
}

/// The fault of what was read as scripts read it, if it has one. What was read is dropped.
fn line_fault<T: Drop>(read: Result<T, LineError>) -> Result<Option<SceneFaultKind>, AllocError>
    ensures { (told : Result T script_kinds.FaultKind) → ScriptGives read told
        → IfOk result (λ fault. fault ≡ script_fault (result_err told)) }
{
    match read {
        Ok(_) => Ok(None),
        Err(LineError::Fault(kind)) => Ok(Some(SceneFaultKind::Script(kind))),
        Err(LineError::Memory(refused)) => Err(refused),
    }
}

/// The fault of what was read, if it has one. What was read is dropped.
fn step_fault<T: Drop>(read: Result<T, StepError>) -> Result<Option<SceneFaultKind>, AllocError>
    ensures { (told : Result T kinds.SceneFaultKind) → Gives read told
        → IfOk result (λ fault. fault ≡ result_err told) }
{
    match read {
        Ok(_) => Ok(None),
        Err(StepError::Fault(kind)) => Ok(Some(kind)),
        Err(StepError::Memory(refused)) => Err(refused),
    }
}

/// The fault of the name of a worker that a line before declares by a keyword.
fn known_fault(
    alloc: Global,
    keyword: &[u8],
    before: &[&[u8]],
    name: &[u8],
) -> Result<Option<SceneFaultKind>, AllocError>
    ensures { IfOk result (λ fault.
        fault ≡ known_fault keyword.now (map (λ line. line.now) before.now) name.now) }
{
    let is_known = is_declared(alloc, keyword, before, name)?;
    Ok(fault_unless(is_known, SceneFaultKind::UnknownWorker))
}

/// The fault of the name of such a worker of which the laws speak.
fn law_fault(
    alloc: Global,
    keyword: &[u8],
    before: &[&[u8]],
    name: &[u8],
) -> Result<Option<SceneFaultKind>, AllocError>
    ensures { IfOk result (λ fault.
        fault ≡ law_fault keyword.now (map (λ line. line.now) before.now) name.now) }
{
    if !is_declared(alloc, keyword, before, name)? {
        return Ok(Some(SceneFaultKind::UnknownWorker));
    }
    let is_variant = is_variant(alloc, before, name)?;
    Ok(fault_unless(!is_variant, SceneFaultKind::NoLaw))
}

fn name_fault(
    alloc: Global,
    before: &[&[u8]],
    name: &[u8],
) -> Result<Option<SceneFaultKind>, AllocError>
    ensures { IfOk result (λ fault.
        fault ≡ name_fault (map (λ line. line.now) before.now) name.now) }
{
    if !is_name(name) {
        return Ok(Some(SceneFaultKind::BadWorkerName));
    }
    let worker = worker_in(alloc, before, name)?;
    Ok(fault_unless(worker.is_none(), SceneFaultKind::NameTaken))
}

ghost use Rattle.kob_script.specs.Words.{text_of};
ghost use Rattle.kob_router.specs.declared.settings.RouteBy.TheVariants.{AggregateType};
ghost use Rattle.kob_scene_text.specs.Reading.{◌>>>◌, as_scripts};
ghost use Rattle.kob_scene_text.specs.Workers.{route_of};

/// A route with this replacement.
fn replaced_by(alloc: Global, word: &Word<'_>) -> Result<Route, StepError>
    ensures { Gives result (as_scripts (text_of word.now) >>> λ text.
        route_of (record { by = AggregateType; replacement = text; placement = [] })) }
{
    let replacement = text_of(alloc, word)?;
    let placement = Text::copied(alloc, "")?;
    route_of(
        alloc,
        &RouteSettings {
            by: RouteBy::AggregateType,
            replacement,
            placement,
        },
    )
}

ghost use Rattle.std.specs.Prelude.{codes};

/// A route with this placement.
fn placed_by(alloc: Global, word: &Word<'_>) -> Result<Route, StepError>
    ensures { Gives result (as_scripts (text_of word.now) >>> λ text. route_of (record {
      by = AggregateType;
      replacement = codes "outbox.event.${routedByValue}";
      placement = text;
    })) }
{
    let placement = text_of(alloc, word)?;
    let replacement = Text::copied(alloc, "outbox.event.${routedByValue}")?;
    route_of(
        alloc,
        &RouteSettings {
            by: RouteBy::AggregateType,
            replacement,
            placement,
        },
    )
}
