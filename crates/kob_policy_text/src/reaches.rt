//! Who may do something on the names that begin with a prefix.

ghost use Rattle.std.specs.Prelude.{◌≡◌, ◌++◌, OnOk, flat_map};
ghost use Rattle.kob_policy_text.specs.Reaches.{asks_as_others, reach_line, reach_text};
ghost use Rattle.kob_policy_text.specs.Reaches.{reaches_text};

use crate::at_hand::each_once;
use crate::judge::Judge;
use crate::parts::{Part, push_parts};
use crate::question::Right;
use crate::remarks::push_none;
use crate::who::push_supers;
use kob_policy_review::{Reach, Share, names_all, who_below};
use std::alloc::{AllocError, Global};

#[tactic(auto, unfolding(crate::specs::Reaches::reach_line))]
fn push_line<'a>(out: &mut Vec<u8>, on: &'a str, one: &'a Reach) -> Result<(), AllocError>
    ensures { OnOk result (out.new.items ≡ out.old.items ++ reach_line on.now one.now) }
{
    push_parts(
        out,
        &[
            Part::Words("  "),
            Part::Party("User:* (others)", &one.principal),
            Part::Words(" "),
            Part::Party("* (others)", &one.host),
            Part::Words(on),
            Part::Words("\n"),
        ],
    )
}

/// Whether the principal or the host is the word for all, which asks as all others do.
pub fn asks_as_others(one: &Reach) -> bool
    ensures { result ≡ asks_as_others one.now }
{
    names_all("User:*", &one.principal) || names_all("*", &one.host)
}

#[tactic(auto, unfolding(crate::specs::Reaches::reach_text))]
fn push_each(out: &mut Vec<u8>, found: &[Reach]) -> Result<(), AllocError>
    ensures { OnOk result (out.new.items ≡ out.old.items ++ flat_map reach_text found.now) }
{
    for one in found {
        if asks_as_others(one) {
            continue;
        }
        match one.share {
            Share::Nothing => {}
            Share::Part => push_line(out, " some", one)?,
            Share::Everything => push_line(out, " all", one)?,
        }
    }
    Ok(())
}

/// Prints super users, and then each principal and host that may do this on all names, or on some,
/// that begin with the name of the right, or that there are none.
#[tactic(auto, using(kob_words::proofs::Appending::appending, crate::proofs::Remarking::empty_since))]
pub fn push_reaches(
    alloc: Global,
    out: &mut Vec<u8>,
    judge: &Judge,
    right: &Right,
) -> Result<(), AllocError>
    ensures { OnOk result (out.new.items ≡ out.old.items ++ reaches_text judge.now right.now) }
{
    let found = who_below(
        alloc,
        judge.authorizer(),
        right.operation,
        right.resource,
        &right.name,
    )?;
    let supers = each_once(alloc, judge.policy().supers())?;
    let start = out.len();
    push_supers(out, supers.as_slice())?;
    push_each(out, found.as_slice())?;
    let is_empty = out.len() == start;
    push_none(out, is_empty)
}
