//! The row of `summary`: how many there are of what a policy has.

ghost use Rattle.std.specs.Prelude.{◌≡◌, ◌++◌, ◌∷◌, [], OnOk};
ghost use Rattle.kob_policy_rows.specs.Answers.{count_of, named_cells};
ghost use Rattle.kob_policy_rows.specs.Answers.{summary_row};
ghost use Rattle.kob_policy_text.specs.AtHand.{names_named};

use crate::cell::{Cell, push_number, push_row};
use kob_names::{Items, ResourceKind};
use kob_policy_review::shadowed;
use kob_policy_text::{Judge, each_once, hosts_named, names_named, principals_named, unused_count};
use std::alloc::{AllocError, Global};

fn push_names(
    alloc: Global,
    row: &mut Vec<Cell>,
    resource: ResourceKind,
    judge: &Judge,
) -> Result<(), AllocError>
    ensures { OnOk result (row.new.items
        ≡ row.old.items ++ count_of (names_named resource judge.now.bindings) ∷ []) }
{
    let names = names_named(alloc, resource, judge.policy().bindings())?;
    push_number(row, names.len() as u64)
}

#[tactic(auto, using(kob_words::proofs::Appending::appending), unfolding(crate::specs::Answers::named_cells))]
fn push_named(alloc: Global, row: &mut Vec<Cell>, judge: &Judge) -> Result<(), AllocError>
    ensures { OnOk result (row.new.items ≡ row.old.items ++ named_cells judge.now) }
{
    let policy = judge.policy();
    let supers = each_once(alloc, policy.supers())?.len() as u64;
    let principals = principals_named(alloc, policy.bindings())?.len() as u64;
    let hosts = hosts_named(alloc, policy.bindings())?.len() as u64;
    push_number(row, policy.bindings().len() as u64)?;
    push_number(row, supers)?;
    push_number(row, principals)?;
    push_number(row, hosts)?;
    push_names(alloc, row, ResourceKind::Topic, judge)?;
    push_names(alloc, row, ResourceKind::Group, judge)?;
    push_names(alloc, row, ResourceKind::TransactionalId, judge)
}

/// How many bindings there are, whom and what they name, and how many do nothing.
#[tactic(auto, using(kob_words::proofs::Appending::appending), unfolding(crate::specs::Answers::other_cells, crate::specs::Answers::summary_row))]
pub fn push_summary(
    alloc: Global,
    rows: &mut Vec<Items<Cell>>,
    judge: &Judge,
) -> Result<(), AllocError>
    ensures { OnOk result (rows.new.items ≡ rows.old.items ++ summary_row judge.now ∷ []) }
{
    let mut row = Vec::new(alloc);
    push_named(alloc, &mut row, judge)?;
    let idle = unused_count(alloc, judge)?;
    let beaten = shadowed(alloc, judge.authorizer())?.len();
    push_number(&mut row, judge.policy().omissions().len() as u64)?;
    push_number(&mut row, judge.policy().skipped().len() as u64)?;
    push_number(&mut row, idle as u64)?;
    push_number(&mut row, beaten as u64)?;
    push_row(rows, row)
}
