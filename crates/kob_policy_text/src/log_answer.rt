//! What rules have to do with the accesses that a broker recorded.

ghost use Rattle.std.specs.Prelude.{◌≡◌, ◌++◌, ℕ, IfOk, OnOk, filter, flat_map, length, nat_eq};
ghost use Rattle.std.specs.HashSet.{contains};
ghost use Rattle.std.specs.List.{list_any};
ghost use Rattle.kob_authorizer.specs.Decide as authorizer;
ghost use Rattle.kob_policy_text.specs.LogAnswers.{asked_in, differs};
ghost use Rattle.kob_policy_text.specs.LogAnswers.{idle_in, idle_line, is_decider};
ghost use Rattle.kob_policy_text.specs.LogAnswers.{is_otherwise, log_text, otherwise_line};
ghost use Rattle.kob_policy_text.specs.LogAnswers.{otherwise_text, place_text, skipped_lines, verdict_on, was_text};
ghost use Rattle.kob_policy_text.specs.LogAnswers.{judged_text, unjudged_text};
ghost use Rattle.kob_policy_text.specs.Numbered.{numbered};
ghost use Rattle.kob_policy_text.specs.Policy.{serials_of};

use crate::access::is_other_answer;
use crate::asked::Asked;
use crate::judge::{Judge, deciding};
use crate::log_line::Recorded;
use crate::log_reading::{Entry, Log, read_log};
use crate::parts::{Part, push_parts};
use crate::printed::{push_line_at, push_right};
use crate::rights::{check_of, on};
use crate::summary::push_count;
use kob_names::Verdict;
use std::alloc::{AllocError, Global};
use std::collections::HashSet;

fn asked_in(recorded: &Recorded) -> Asked<'_>
    ensures { result ≡ asked_in recorded.entry.now }
{
    on(&recorded.asker, &check_of(&recorded.right))
}

/// The decision of the rules on a recorded access.
pub fn verdict_on(judge: &Judge, entry: &Entry) -> Verdict
    ensures { result ≡ verdict_on judge.now entry.now }
{
    judge.verdict(&asked_in(&entry.recorded))
}

/// Whether the rules decide a recorded access otherwise than the broker did.
pub fn is_otherwise(judge: &Judge, entry: &Entry) -> bool
    ensures { result ≡ is_otherwise judge.now entry.now }
{
    is_other_answer(
        entry.recorded.allowed,
        verdict_on(judge, entry).is_granted(),
    )
}

fn was_text(allowed: bool) -> &'static str
    ensures { result.now ≡ was_text allowed }
{
    if allowed {
        " was allowed, now "
    } else {
        " was denied, now "
    }
}

#[tactic(auto, using(kob_words::proofs::Appending::appending), unfolding(crate::specs::LogAnswers::place_text))]
fn push_place(out: &mut Vec<u8>, entry: &Entry) -> Result<(), AllocError>
    ensures { OnOk result (out.new.items ≡ out.old.items ++ place_text entry.now) }
{
    push_parts(
        out,
        &[
            Part::Words("  line "),
            Part::Number(entry.line),
            Part::Words(" "),
            Part::Name(entry.recorded.asker.principal.as_str()),
            Part::Words(" "),
            Part::Name(entry.recorded.asker.host.as_str()),
            Part::Words(" "),
        ],
    )
}

#[tactic(auto, using(kob_words::proofs::Appending::appending), unfolding(crate::specs::LogAnswers::otherwise_line))]
fn push_line(out: &mut Vec<u8>, judge: &Judge, entry: &Entry) -> Result<(), AllocError>
    ensures { OnOk result (out.new.items ≡ out.old.items ++ otherwise_line judge.now entry.now) }
{
    push_place(out, entry)?;
    push_right(out, &asked_in(&entry.recorded))?;
    push_parts(
        out,
        &[
            Part::Words(was_text(entry.recorded.allowed)),
            Part::Answer(verdict_on(judge, entry)),
            Part::Words("\n"),
        ],
    )
}

fn push_otherwise(out: &mut Vec<u8>, judge: &Judge, accesses: &[Entry]) -> Result<(), AllocError>
    ensures { OnOk result (out.new.items
        ≡ out.old.items ++ flat_map (otherwise_text judge.now) accesses.now) }
{
    for entry in accesses {
        if is_otherwise(judge, entry) {
            push_line(out, judge, entry)?;
        }
    }
    Ok(())
}

/// The serials of the bindings that decide accesses. The error is out of memory.
pub fn deciders(
    alloc: Global,
    judge: &Judge,
    accesses: &[Entry],
) -> Result<HashSet<u64>, AllocError>
    ensures { IfOk result (λ set. (serial : ℕ) → contains nat_eq set serial
        ≡ is_decider judge.now accesses.now serial) }
{
    let mut set = HashSet::new(alloc);
    for entry in accesses {
        if let Some(serial) = deciding(verdict_on(judge, entry)) {
            set.insert(serial)?;
        }
    }
    Ok(set)
}

fn push_idle(
    out: &mut Vec<u8>,
    judge: &Judge,
    set: &HashSet<u64>,
    place: usize,
    serial: u64,
) -> Result<(), AllocError>
    ensures { OnOk result (out.new.items
        ≡ out.old.items ++ idle_line judge.now (contains nat_eq set.now) place serial) }
{
    if set.contains(&serial) {
        Ok(())
    } else {
        push_line_at(out, judge, place)
    }
}

fn push_idle_lines(out: &mut Vec<u8>, judge: &Judge, set: &HashSet<u64>) -> Result<(), AllocError>
    ensures { OnOk result (out.new.items ≡ out.old.items
        ++ numbered (idle_line judge.now (contains nat_eq set.now)) 0 (serials_of judge.now)) }
{
    let serials = judge.serials();
    for (place, serial) in serials.iter().enumerate() {
        push_idle(out, judge, set, place, *serial)?;
    }
    Ok(())
}

fn push_idle_in(
    alloc: Global,
    out: &mut Vec<u8>,
    judge: &Judge,
    accesses: &[Entry],
) -> Result<(), AllocError>
    ensures { OnOk result (out.new.items ≡ out.old.items ++ idle_in judge.now accesses.now) }
{
    let set = deciders(alloc, judge, accesses)?;
    push_idle_lines(out, judge, &set)
}

/// How many accesses the rules decide otherwise than the broker did.
pub fn otherwise_count(judge: &Judge, accesses: &[Entry]) -> usize
    ensures { result ≡ length (filter (is_otherwise judge.now) accesses.now) }
{
    accesses
        .iter()
        .filter(|entry| is_otherwise(judge, entry))
        .count()
}

/// How many lines record no access.
#[tactic(auto, unfolding(crate::specs::LogAnswers::skipped_lines))]
pub fn skipped_lines(log: &Log) -> usize
    ensures { result ≡ skipped_lines log.now }
{
    (log.lines as usize)
        .saturating_sub(log.accesses.len())
        .saturating_sub(log.others.len())
}

#[tactic(auto, using(kob_words::proofs::Appending::appending), unfolding(crate::specs::LogAnswers::judged_text))]
fn push_judged(out: &mut Vec<u8>, judge: &Judge, accesses: &[Entry]) -> Result<(), AllocError>
    ensures { OnOk result (out.new.items ≡ out.old.items ++ judged_text judge.now accesses.now) }
{
    push_count(out, "accesses", accesses.len())?;
    push_count(out, "decided-otherwise", otherwise_count(judge, accesses))
}

#[tactic(auto, using(kob_words::proofs::Appending::appending), unfolding(crate::specs::LogAnswers::unjudged_text))]
fn push_unjudged(out: &mut Vec<u8>, others: usize, skipped: usize) -> Result<(), AllocError>
    ensures { OnOk result (out.new.items ≡ out.old.items ++ unjudged_text others skipped) }
{
    push_count(out, "left-out", others)?;
    push_count(out, "skipped-lines", skipped)
}

/// Whether the rules decide some access otherwise than the broker did.
pub fn any_otherwise(judge: &Judge, accesses: &[Entry]) -> bool
    ensures { result ≡ list_any (is_otherwise judge.now) accesses.now }
{
    accesses.iter().any(|entry| is_otherwise(judge, entry))
}

/// Prints how many accesses a broker's log has, those that the rules decide otherwise than is
/// recorded, and the bindings that decide none. Lines that record no access are counted. Answers
/// whether some access is decided otherwise. The error is out of memory; `out` has then grown by a
/// part of the text.
pub fn print_log(
    alloc: Global,
    out: &mut Vec<u8>,
    judge: &Judge,
    text: &[u8],
) -> Result<bool, AllocError>
    ensures printed { OnOk result (out.new.items ≡ out.old.items ++ log_text judge.now text.now) }
    ensures differs { IfOk result (λ found. found ≡ differs judge.now text.now) }
{
    let log = read_log(alloc, text)?;
    push_judged(out, judge, &log.accesses)?;
    push_unjudged(out, log.others.len(), skipped_lines(&log))?;
    push_otherwise(out, judge, &log.accesses)?;
    push_idle_in(alloc, out, judge, &log.accesses)?;
    Ok(any_otherwise(judge, &log.accesses))
}
