//! How many there are of what a policy has.

ghost use Rattle.std.specs.Prelude.{◌≡◌, ◌++◌, IfOk, OnOk, codes, length};
ghost use Rattle.kob_policy_text.specs.AtHand.{each_once};
ghost use Rattle.kob_policy_text.specs.Summary.{count_line};
ghost use Rattle.kob_policy_text.specs.Summary.{summary_text, unused_count};
ghost use Rattle.kob_policy_text.specs.Summary.{parties_text, patterns_text};

use crate::at_hand::{each_once, hosts_named, names_named, principals_named};
use crate::judge::Judge;
use crate::parts::{Part, push_parts};
use crate::texts::Texts;
use kob_names::ResourceKind;
use kob_policy_review::{shadowed, unused};
use std::alloc::{AllocError, Global};

/// A count behind what is counted, on a line of its own.
#[tactic(auto, using(kob_words::proofs::Appending::appending), unfolding(crate::specs::Summary::count_line))]
pub fn push_count(out: &mut Vec<u8>, what: &str, count: usize) -> Result<(), AllocError>
    ensures { OnOk result (out.new.items ≡ out.old.items ++ count_line what.now count) }
{
    push_parts(
        out,
        &[
            Part::Words("  "),
            Part::Words(what),
            Part::Words(" "),
            Part::Number(count as u64),
            Part::Words("\n"),
        ],
    )
}

fn push_texts(out: &mut Vec<u8>, what: &str, texts: Texts) -> Result<(), AllocError>
    ensures { OnOk result
        (out.new.items ≡ out.old.items ++ count_line what.now (length texts)) }
{
    push_count(out, what, texts.len())
}

/// How many bindings are unused, without those that stand for what is left out.
pub fn unused_count(alloc: Global, judge: &Judge) -> Result<usize, AllocError>
    ensures { IfOk result (λ count. count ≡ unused_count judge.now) }
{
    let idle = unused(alloc, judge.authorizer())?;
    Ok(
        idle.iter()
            .filter(|one| judge.place_of(one.serial).is_some())
            .count(),
    )
}

fn push_supers(alloc: Global, out: &mut Vec<u8>, judge: &Judge) -> Result<(), AllocError>
    ensures { OnOk result (out.new.items ≡ out.old.items
        ++ count_line (codes "super-users") (length (each_once judge.now.supers))) }
{
    let supers = each_once(alloc, judge.policy().supers())?;
    push_count(out, "super-users", supers.len())
}

#[tactic(auto, using(kob_words::proofs::Appending::appending), unfolding(crate::specs::Summary::parties_text))]
fn push_parties(alloc: Global, out: &mut Vec<u8>, judge: &Judge) -> Result<(), AllocError>
    ensures { OnOk result (out.new.items ≡ out.old.items ++ parties_text judge.now) }
{
    let bindings = judge.policy().bindings();
    push_supers(alloc, out, judge)?;
    push_texts(out, "principals", principals_named(alloc, bindings)?)?;
    push_texts(out, "hosts", hosts_named(alloc, bindings)?)
}

#[tactic(auto, using(kob_words::proofs::Appending::appending), unfolding(crate::specs::Summary::patterns_text))]
fn push_patterns(alloc: Global, out: &mut Vec<u8>, judge: &Judge) -> Result<(), AllocError>
    ensures { OnOk result (out.new.items ≡ out.old.items ++ patterns_text judge.now) }
{
    let bindings = judge.policy().bindings();
    let topics = names_named(alloc, ResourceKind::Topic, bindings)?;
    push_texts(out, "topics", topics)?;
    let groups = names_named(alloc, ResourceKind::Group, bindings)?;
    push_texts(out, "groups", groups)?;
    let ids = names_named(alloc, ResourceKind::TransactionalId, bindings)?;
    push_texts(out, "transactional-ids", ids)
}

/// Prints how many bindings there are, whom and what they name, and how many do nothing.
#[tactic(auto, using(kob_words::proofs::Appending::appending), unfolding(crate::specs::Summary::summary_text))]
pub fn push_summary(alloc: Global, out: &mut Vec<u8>, judge: &Judge) -> Result<(), AllocError>
    ensures { OnOk result (out.new.items ≡ out.old.items ++ summary_text judge.now) }
{
    let policy = judge.policy();
    push_count(out, "bindings", policy.bindings().len())?;
    push_parties(alloc, out, judge)?;
    push_patterns(alloc, out, judge)?;
    push_count(out, "left-out", policy.omissions().len())?;
    push_count(out, "skipped-lines", policy.skipped().len())?;
    let idle = unused_count(alloc, judge)?;
    let beaten = shadowed(alloc, judge.authorizer())?;
    push_count(out, "unused", idle)?;
    push_count(out, "shadowed", beaten.len())
}
