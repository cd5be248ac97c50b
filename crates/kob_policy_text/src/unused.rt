//! Bindings that no answer needs, over all principals, hosts, operations and names.

ghost use Rattle.std.specs.Prelude.{◌≡◌, ◌++◌, OnOk, flat_map};
ghost use Rattle.kob_policy_text.specs.Review.{unneeded_text, unused_text, why_text};

use crate::judge::Judge;
use crate::parts::{Part, push_parts};
use crate::printed::push_line_at;
use crate::remarks::push_none;
use kob_policy_review::{Reason, Unneeded, unused};
use std::alloc::{AllocError, Global};

fn push_why(out: &mut Vec<u8>, reason: Reason) -> Result<(), AllocError>
    ensures { OnOk result (out.new.items ≡ out.old.items ++ why_text reason) }
{
    match reason {
        Reason::Super => out.extend_from_slice(b"    its principal is a super user\n"),
        Reason::CoveredBy(serial) => push_parts(
            out,
            &[
                Part::Words("    covered by "),
                Part::Number(serial),
                Part::Words("\n"),
            ],
        ),
        Reason::DeniedBy(serial) => push_parts(
            out,
            &[
                Part::Words("    denied by "),
                Part::Number(serial),
                Part::Words("\n"),
            ],
        ),
        Reason::Together => out.extend_from_slice(b"    covered by several, or nothing to deny\n"),
    }
}

#[tactic(auto, using(kob_words::proofs::Appending::appending), unfolding(crate::specs::Review::unneeded_text))]
fn push_unneeded(out: &mut Vec<u8>, judge: &Judge, one: &Unneeded) -> Result<(), AllocError>
    ensures { OnOk result (out.new.items ≡ out.old.items ++ unneeded_text judge.now one.now) }
{
    match judge.place_of(one.serial) {
        None => Ok(()),
        Some(place) => {
            push_line_at(out, judge, place)?;
            push_why(out, one.reason)
        }
    }
}

fn push_each(out: &mut Vec<u8>, judge: &Judge, found: &[Unneeded]) -> Result<(), AllocError>
    ensures { OnOk result (out.new.items
        ≡ out.old.items ++ flat_map (unneeded_text judge.now) found.now) }
{
    for one in found {
        push_unneeded(out, judge, one)?;
    }
    Ok(())
}

/// Prints the bindings without which, each taken alone, no answer at all changes, with the reason.
#[tactic(auto, using(kob_words::proofs::Appending::appending, crate::proofs::Remarking::empty_since))]
pub fn push_unused(alloc: Global, out: &mut Vec<u8>, judge: &Judge) -> Result<(), AllocError>
    ensures { OnOk result (out.new.items ≡ out.old.items ++ unused_text judge.now) }
{
    let found = unused(alloc, judge.authorizer())?;
    let start = out.len();
    push_each(out, judge, &found)?;
    let is_empty = out.len() == start;
    push_none(out, is_empty)
}
