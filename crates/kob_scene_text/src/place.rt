//! Which word of a line has the fault that its scene has.

ghost use Rattle.std.specs.Prelude.{◌≡◌, ◌∷◌, IfOk, None, map};
ghost use Rattle.kob_scene_text.specs.Places.{fault_place, faults_in, is_of, place_by, same_kind};
ghost use Rattle.kob_scene_text.specs.Places.{word_faults, worker_faults};
ghost use Rattle.std.specs.List.{position};

use crate::consumer_forms::consumer_form;
use crate::fault::SceneFaultKind;
use crate::forms::{Part, Slot, expect_form};
use crate::line::{Head, head_of};
use crate::name::Worker;
use crate::scene::Sending;
use crate::service_forms::service_form;
use crate::step_forms::step_form;
use crate::word_faults::{push_bad_line, push_faults};
use crate::workers_before::{sending_in, worker_in};
use kob_script::{Word, is_super};
use std::alloc::{AllocError, Global};

/// The place of the first word of a line with a fault of this kind, from 0, for the remark on a
/// fault. `before` are the lines before it. The place is the number of words if one is missing. None
/// if no word has such a fault: an escape and a late setting are faults of the whole line, and what
/// is wrong with options of `acl` is one of all of them.
pub fn fault_place(
    alloc: Global,
    before: &[&[u8]],
    words: &[Word<'_>],
    kind: SceneFaultKind,
) -> Result<Option<usize>, AllocError>
    ensures { IfOk result (λ place.
        place ≡ fault_place (map (λ line. line.now) before.now) kind words.now) }
{
    let [first, rest @ ..] = words else {
        return Ok(None);
    };
    let worker = worker_in(alloc, before, first.decoded())?;
    let head = head_of(worker, first, rest);
    place_by(alloc, before, head, kind, first, rest, words)
}

fn place_by(
    alloc: Global,
    before: &[&[u8]],
    head: Head,
    kind: SceneFaultKind,
    first: &Word<'_>,
    rest: &[Word<'_>],
    words: &[Word<'_>],
) -> Result<Option<usize>, AllocError>
    requires { words.now ≡ first.now ∷ rest.now }
    ensures { IfOk result (λ place. place
        ≡ place_by (map (λ line. line.now) before.now) head kind first.now rest.now) }
{
    if let Head::Request = head {
        let SceneFaultKind::Script(kind) = kind else {
            return Ok(None);
        };
        return kob_script::fault_place(alloc, words, kind);
    }
    let faults = word_faults(alloc, before, head, first, rest)?;
    Ok(first_place(&faults, kind))
}

fn first_place(faults: &[Option<SceneFaultKind>], kind: SceneFaultKind) -> Option<usize>
    ensures { result ≡ position (is_of kind) faults.now }
{
    faults
        .iter()
        .position(|fault| fault.is_some_and(|fault| same_kind(fault, kind)))
}

pub(crate) fn same_kind(one: SceneFaultKind, other: SceneFaultKind) -> bool
    ensures { result ≡ same_kind one other }
{
    one == other
}

/// The faults of the words of a line that begins so, in their order.
fn word_faults(
    alloc: Global,
    before: &[&[u8]],
    head: Head,
    first: &Word<'_>,
    rest: &[Word<'_>],
) -> Result<Vec<Option<SceneFaultKind>>, AllocError>
    ensures { IfOk result (λ faults. faults.items
        ≡ word_faults (map (λ line. line.now) before.now) head first.now rest.now) }
{
    match head {
        Head::Setting if is_super(first) => {
            faults_by(alloc, before, &[Part::One(Slot::Principal)], rest)
        }
        Head::Setting => faults_by(alloc, before, &[Part::One(Slot::Switch)], rest),
        Head::Service => faults_by(alloc, before, service_form(rest), rest),
        Head::Consumer => faults_by(alloc, before, consumer_form(rest), rest),
        Head::Journal => faults_by(alloc, before, &[], rest),
        Head::Law => faults_by(
            alloc,
            before,
            &[Part::One(Slot::LawService), Part::One(Slot::LawConsumer)],
            rest,
        ),
        Head::Check => faults_by(
            alloc,
            before,
            &[Part::One(Slot::ServiceName), Part::One(Slot::ConsumerName)],
            rest,
        ),
        Head::Expect => faults_by(alloc, before, expect_form(rest), rest),
        Head::Of(worker) => {
            let sending = sending_in(alloc, before, first.decoded())?;
            worker_faults(alloc, sending, worker, rest)
        }
        Head::Unknown => Ok(Vec::from_array(alloc, [Some(SceneFaultKind::UnknownWorker)])?),
        Head::Request => Ok(Vec::new(alloc)),
    }
}

/// The faults of words by a form, behind a first word without one.
fn faults_by(
    alloc: Global,
    before: &[&[u8]],
    parts: &[Part],
    words: &[Word<'_>],
) -> Result<Vec<Option<SceneFaultKind>>, AllocError>
    ensures { IfOk result (λ faults. faults.items
        ≡ None ∷ faults_in (map (λ line. line.now) before.now) parts.now words.now) }
{
    let mut faults = Vec::from_array(alloc, [None])?;
    push_faults(alloc, &mut faults, before, parts, words)?;
    Ok(faults)
}

/// The faults of a worker's name, which has none, and of the words of its step. The name of a step
/// that the worker does not have is itself the fault.
fn worker_faults(
    alloc: Global,
    sending: Sending,
    worker: Worker,
    words: &[Word<'_>],
) -> Result<Vec<Option<SceneFaultKind>>, AllocError>
    ensures { IfOk result (λ faults. faults.items ≡ None ∷ worker_faults sending worker words.now) }
{
    let mut faults = Vec::from_array(alloc, [None])?;
    let [name, words @ ..] = words else {
        push_bad_line(&mut faults)?;
        return Ok(faults);
    };
    let Some(parts) = step_form(sending, worker, name.decoded()) else {
        push_bad_line(&mut faults)?;
        return Ok(faults);
    };
    faults.push(None)?;
    push_faults(alloc, &mut faults, &[], parts, words)?;
    Ok(faults)
}
