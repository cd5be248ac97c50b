//! The rows of `who` on the names that begin with a prefix.

ghost use Rattle.std.specs.Prelude.{◌≡◌, ◌++◌, ◌∷◌, [], OnOk, flat_map, map};
ghost use Rattle.kob_policy_rows.specs.Answers.{below_rows, reach_row, reach_rows};
ghost use Rattle.kob_policy_rows.specs.Answers.{super_reach};

use crate::cell::{Cell, push_row, push_words};
use crate::granted::push_right;
use crate::verdict::party_name;
use kob_names::{Items, Principal};
use kob_policy_review::{Reach, Share, who_below};
use kob_policy_text::{Judge, Right, asks_as_others, each_once};
use std::alloc::{AllocError, Global};

#[tactic(auto, using(kob_words::proofs::Appending::appending))]
fn push_one(
    alloc: Global,
    rows: &mut Vec<Items<Cell>>,
    right: &Right,
    principal: &str,
    host: &str,
    on: &str,
) -> Result<(), AllocError>
    ensures { OnOk result (rows.new.items
        ≡ rows.old.items ++ reach_row right.now principal.now host.now on.now ∷ []) }
{
    let mut row = Vec::new(alloc);
    push_right(alloc, &mut row, right)?;
    push_words(alloc, &mut row, principal)?;
    push_words(alloc, &mut row, host)?;
    push_words(alloc, &mut row, on)?;
    push_row(rows, row)
}

#[tactic(auto, using(kob_words::proofs::Appending::appending))]
fn push_supers(
    alloc: Global,
    rows: &mut Vec<Items<Cell>>,
    right: &Right,
    supers: &[Principal],
) -> Result<(), AllocError>
    ensures { OnOk result
        (rows.new.items ≡ rows.old.items ++ map (super_reach right.now) supers.now) }
{
    for user in supers {
        push_one(alloc, rows, right, user.as_str(), "*", "all")?;
    }
    Ok(())
}

#[tactic(auto, using(kob_words::proofs::Appending::appending))]
fn push_each(
    alloc: Global,
    rows: &mut Vec<Items<Cell>>,
    right: &Right,
    found: &[Reach],
) -> Result<(), AllocError>
    ensures { OnOk result
        (rows.new.items ≡ rows.old.items ++ flat_map (reach_rows right.now) found.now) }
{
    for one in found {
        if asks_as_others(one) {
            continue;
        }
        let principal = party_name("User:*", &one.principal);
        let host = party_name("*", &one.host);
        match one.share {
            Share::Nothing => {}
            Share::Part => push_one(alloc, rows, right, principal, host, "some")?,
            Share::Everything => push_one(alloc, rows, right, principal, host, "all")?,
        }
    }
    Ok(())
}

/// Super users, and then each principal and host that may do this on all names, or on some, that
/// begin with the name of the right.
#[tactic(auto, using(kob_words::proofs::Appending::appending))]
pub fn push_below(
    alloc: Global,
    rows: &mut Vec<Items<Cell>>,
    judge: &Judge,
    right: &Right,
) -> Result<(), AllocError>
    ensures { OnOk result (rows.new.items ≡ rows.old.items ++ below_rows judge.now right.now) }
{
    let found = who_below(
        alloc,
        judge.authorizer(),
        right.operation,
        right.resource,
        &right.name,
    )?;
    let supers = each_once(alloc, judge.policy().supers())?;
    push_supers(alloc, rows, right, supers.as_slice())?;
    push_each(alloc, rows, right, found.as_slice())
}
