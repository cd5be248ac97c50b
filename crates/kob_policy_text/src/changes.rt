//! What changes from one policy to another, over all principals, hosts, operations and names.

ghost use Rattle.std.specs.Prelude.{◌≡◌, ◌++◌, OnOk, flat_map};
ghost use Rattle.kob_policy_text.specs.Review.{change_line, changes_text, everyone_text};
ghost use Rattle.kob_policy_text.specs.Review.{outcome_text, super_line, target_text};

use crate::judge::Judge;
use crate::parts::{Part, push_parts, push_party};
use kob_names::Principal;
use kob_policy_review::{Change, Class, Outcome, changes, is_super};
use kob_words::{operation_name, resource_name};
use std::alloc::{AllocError, Global};

#[tactic(auto, using(kob_words::proofs::Appending::appending), unfolding(crate::specs::Review::target_text))]
fn push_target(out: &mut Vec<u8>, class: &Class) -> Result<(), AllocError>
    ensures { OnOk result (out.new.items ≡ out.old.items ++ target_text class.now) }
{
    push_parts(
        out,
        &[
            Part::Words(operation_name(class.operation)),
            Part::Words(" "),
            Part::Words(resource_name(class.target.resource)),
            Part::Words(" "),
            Part::Names(&class.target.names),
        ],
    )
}

fn outcome_text(outcome: Outcome) -> &'static str
    ensures { result.now ≡ outcome_text outcome }
{
    match outcome {
        Outcome::Gained => " no -> yes\n",
        Outcome::Lost => " yes -> no\n",
        Outcome::Same => " unchanged\n",
    }
}

#[tactic(auto, using(kob_words::proofs::Appending::appending), unfolding(crate::specs::Review::change_line))]
fn push_change(out: &mut Vec<u8>, change: &Change) -> Result<(), AllocError>
    ensures { OnOk result (out.new.items ≡ out.old.items ++ change_line change.now) }
{
    push_party(out, "User:* (others)", &change.class.principal)?;
    out.extend_from_slice(b" ")?;
    push_party(out, "* (others)", &change.class.host)?;
    out.extend_from_slice(b" ")?;
    push_target(out, &change.class)?;
    out.extend_from_slice(outcome_text(change.outcome).as_bytes())
}

fn push_each(out: &mut Vec<u8>, found: &[Change]) -> Result<(), AllocError>
    ensures { OnOk result (out.new.items ≡ out.old.items ++ flat_map change_line found.now) }
{
    for change in found {
        push_change(out, change)?;
    }
    Ok(())
}

/// The super users that are not among the others.
#[tactic(auto, using(kob_words::proofs::Appending::appending), unfolding(crate::specs::Review::super_line))]
fn push_supers<'a>(
    out: &mut Vec<u8>,
    what: &'a str,
    others: &[Principal],
    supers: &'a [Principal],
) -> Result<(), AllocError>
    ensures { OnOk result (out.new.items
        ≡ out.old.items ++ flat_map (super_line what.now others.now) supers.now) }
{
    for user in supers {
        if !is_super(others, user.as_str()) {
            push_parts(
                out,
                &[
                    Part::Words("super "),
                    Part::Name(user.as_str()),
                    Part::Words(what),
                ],
            )?;
        }
    }
    Ok(())
}

fn everyone_text(before: bool, after: bool) -> &'static str
    ensures { result.now ≡ everyone_text before after }
{
    match (before, after) {
        (false, true) => "everyone off -> on\n",
        (true, false) => "everyone on -> off\n",
        (false, false) | (true, true) => "",
    }
}

/// Prints what changes: super users, `everyone`, and for each class of questions what becomes of
/// the answer. Nothing is printed exactly if no answer at all changes, super users apart. The error
/// is out of memory; `out` has then grown by a part of them.
pub fn print_changes(
    alloc: Global,
    out: &mut Vec<u8>,
    before: &Judge,
    after: &Judge,
) -> Result<(), AllocError>
    ensures { OnOk result (out.new.items ≡ out.old.items ++ changes_text before.now after.now) }
{
    let found = changes(alloc, before.authorizer(), after.authorizer())?;
    let (old, new) = (before.policy(), after.policy());
    push_supers(out, " removed\n", new.supers(), old.supers())?;
    push_supers(out, " added\n", old.supers(), new.supers())?;
    out.extend_from_slice(everyone_text(old.everyone(), new.everyone()).as_bytes())?;
    push_each(out, &found)
}
