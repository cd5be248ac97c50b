//! Lists of bindings by their serials: allows that a deny always beats, and bindings that may be
//! deleted together, over all principals, hosts, operations and names.

ghost use Rattle.std.specs.Prelude.{◌≡◌, ◌++◌, OnOk, flat_map};
ghost use Rattle.kob_policy_text.specs.Review.{listed_line, listed_text, removable_text, shadowed_text};

use crate::judge::Judge;
use crate::printed::push_line_by;
use crate::remarks::push_none;
use kob_policy_review::{removable, shadowed};
use std::alloc::{AllocError, Global};

#[tactic(auto, unfolding(crate::specs::Review::listed_line))]
fn push_one(out: &mut Vec<u8>, judge: &Judge, serial: u64) -> Result<(), AllocError>
    ensures { OnOk result (out.new.items ≡ out.old.items ++ listed_line judge.now serial) }
{
    push_line_by(out, judge, serial)
}

fn push_each(out: &mut Vec<u8>, judge: &Judge, serials: &[u64]) -> Result<(), AllocError>
    ensures { OnOk result (out.new.items
        ≡ out.old.items ++ flat_map (listed_line judge.now) serials.now) }
{
    for serial in serials {
        push_one(out, judge, *serial)?;
    }
    Ok(())
}

#[tactic(auto, using(kob_words::proofs::Appending::appending, crate::proofs::Remarking::empty_since))]
fn push_listed(out: &mut Vec<u8>, judge: &Judge, serials: &[u64]) -> Result<(), AllocError>
    ensures { OnOk result (out.new.items ≡ out.old.items ++ listed_text judge.now serials.now) }
{
    let start = out.len();
    push_each(out, judge, serials)?;
    let is_empty = out.len() == start;
    push_none(out, is_empty)
}

/// Prints the allows that a deny beats wherever they bear on a question.
pub fn push_shadowed(alloc: Global, out: &mut Vec<u8>, judge: &Judge) -> Result<(), AllocError>
    ensures { OnOk result (out.new.items ≡ out.old.items ++ shadowed_text judge.now) }
{
    let found = shadowed(alloc, judge.authorizer())?;
    push_listed(out, judge, &found)
}

/// Prints the bindings without all of which together no answer at all changes.
pub fn push_removable(alloc: Global, out: &mut Vec<u8>, judge: &Judge) -> Result<(), AllocError>
    ensures { OnOk result (out.new.items ≡ out.old.items ++ removable_text judge.now) }
{
    let found = removable(alloc, judge.authorizer())?;
    push_listed(out, judge, &found)
}
