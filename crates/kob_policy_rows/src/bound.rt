//! Rows of bindings: those that no answer needs, those that a deny beats, those that may go.

ghost use Rattle.std.specs.Prelude.{◌≡◌, ◌++◌, ◌∷◌, [], OnOk, Some, flat_map};
ghost use Rattle.std.specs.Option.{option_copied};
ghost use Rattle.kob_policy_review.specs.Removal.{removable_in};
ghost use Rattle.kob_policy_review.specs.Shadows.{shadowed_in};
ghost use Rattle.kob_policy_rows.specs.Answers.{listed_rows, unneeded_rows, unused_rows};
ghost use Rattle.kob_policy_rows.specs.Cells.{binding_cells, bound_at, bound_row, bound_rows};
ghost use Rattle.kob_policy_rows.specs.Cells.{why_cells};
ghost use Rattle.kob_policy_text.specs.Policy.{contents_of};

use crate::cell::{Cell, push_nothing, push_number, push_row, push_words};
use crate::verdict::push_origin;
use kob_names::{Binding, Items};
use kob_policy_review::{Reason, Unneeded, removable, shadowed, unused};
use kob_policy_text::{Judge, Origin};
use kob_words::{operation_name, pattern_name, permission_name, resource_name};
use std::alloc::{AllocError, Global};

#[tactic(auto, using(kob_words::proofs::Appending::appending))]
fn push_why(alloc: Global, row: &mut Vec<Cell>, why: Option<Reason>) -> Result<(), AllocError>
    ensures { OnOk result (row.new.items ≡ row.old.items ++ why_cells why) }
{
    match why {
        None => Ok(()),
        Some(Reason::Super) => {
            push_words(alloc, row, "super")?;
            push_nothing(row)
        }
        Some(Reason::CoveredBy(serial)) => {
            push_words(alloc, row, "covered")?;
            push_number(row, serial)
        }
        Some(Reason::DeniedBy(serial)) => {
            push_words(alloc, row, "denied")?;
            push_number(row, serial)
        }
        Some(Reason::Together) => {
            push_words(alloc, row, "together")?;
            push_nothing(row)
        }
    }
}

#[tactic(auto, using(kob_words::proofs::Appending::appending), unfolding(crate::specs::Cells::binding_cells))]
fn push_whole(
    alloc: Global,
    rows: &mut Vec<Items<Cell>>,
    serial: u64,
    binding: &Binding,
    origin: Option<&Origin>,
    why: Option<Reason>,
) -> Result<(), AllocError>
    ensures { OnOk result (rows.new.items ≡ rows.old.items
        ++ (binding_cells serial binding.now (option_copied origin.entry) ++ why_cells why) ∷ []) }
{
    let mut row = Vec::new(alloc);
    let parts = binding.parts();
    push_number(&mut row, serial)?;
    push_words(alloc, &mut row, permission_name(parts.permission))?;
    push_words(alloc, &mut row, parts.principal.as_str())?;
    push_words(alloc, &mut row, parts.host.as_str())?;
    push_words(alloc, &mut row, operation_name(parts.operation))?;
    push_words(alloc, &mut row, resource_name(parts.resource))?;
    push_words(alloc, &mut row, pattern_name(parts.pattern.kind))?;
    push_words(alloc, &mut row, parts.pattern.name.as_str())?;
    push_origin(alloc, &mut row, origin)?;
    push_why(alloc, &mut row, why)?;
    push_row(rows, row)
}

fn push_found(
    alloc: Global,
    rows: &mut Vec<Items<Cell>>,
    judge: &Judge,
    why: Option<Reason>,
    place: usize,
    binding: Option<&Binding>,
) -> Result<(), AllocError>
    ensures { OnOk result (rows.new.items ≡ rows.old.items
        ++ bound_row judge.now why place (option_copied binding.entry)) }
{
    let serial = judge.serials().get(place).copied().unwrap_or(0);
    let origin = judge.policy().origins().get(place);
    match binding {
        None => Ok(()),
        Some(binding) => push_whole(alloc, rows, serial, binding, origin, why),
    }
}

pub(crate) fn push_at(
    alloc: Global,
    rows: &mut Vec<Items<Cell>>,
    judge: &Judge,
    why: Option<Reason>,
    place: usize,
) -> Result<(), AllocError>
    ensures { OnOk result
        (rows.new.items ≡ rows.old.items ++ bound_at judge.now why (Some place)) }
{
    let binding = judge.policy().bindings().get(place);
    push_found(alloc, rows, judge, why, place, binding)
}

/// The binding with a serial, if it is in a list.
#[tactic(auto, unfolding(crate::specs::Cells::bound_rows))]
fn push_bound(
    alloc: Global,
    rows: &mut Vec<Items<Cell>>,
    judge: &Judge,
    why: Option<Reason>,
    serial: u64,
) -> Result<(), AllocError>
    ensures { OnOk result (rows.new.items ≡ rows.old.items ++ bound_rows judge.now why serial) }
{
    match judge.place_of(serial) {
        None => Ok(()),
        Some(place) => push_at(alloc, rows, judge, why, place),
    }
}

#[tactic(auto, using(kob_words::proofs::Appending::appending))]
fn push_all_unneeded(
    alloc: Global,
    rows: &mut Vec<Items<Cell>>,
    judge: &Judge,
    found: &[Unneeded],
) -> Result<(), AllocError>
    ensures { OnOk result
        (rows.new.items ≡ rows.old.items ++ flat_map (unneeded_rows judge.now) found.now) }
{
    for one in found {
        push_bound(alloc, rows, judge, Some(one.reason), one.serial)?;
    }
    Ok(())
}

#[tactic(auto, using(kob_words::proofs::Appending::appending))]
fn push_listed(
    alloc: Global,
    rows: &mut Vec<Items<Cell>>,
    judge: &Judge,
    serials: &[u64],
) -> Result<(), AllocError>
    ensures { OnOk result
        (rows.new.items ≡ rows.old.items ++ listed_rows judge.now serials.now) }
{
    for serial in serials {
        push_bound(alloc, rows, judge, None, *serial)?;
    }
    Ok(())
}

/// The bindings without which, each taken alone, no answer at all changes, with the reason.
pub fn push_unused(
    alloc: Global,
    rows: &mut Vec<Items<Cell>>,
    judge: &Judge,
) -> Result<(), AllocError>
    ensures { OnOk result (rows.new.items ≡ rows.old.items ++ unused_rows judge.now) }
{
    let found = unused(alloc, judge.authorizer())?;
    push_all_unneeded(alloc, rows, judge, &found)
}

/// The allows that a deny beats wherever they bear on a question.
pub fn push_shadowed(
    alloc: Global,
    rows: &mut Vec<Items<Cell>>,
    judge: &Judge,
) -> Result<(), AllocError>
    ensures { OnOk result (rows.new.items
        ≡ rows.old.items ++ listed_rows judge.now (shadowed_in (contents_of judge.now))) }
{
    let found = shadowed(alloc, judge.authorizer())?;
    push_listed(alloc, rows, judge, &found)
}

/// The bindings without all of which together no answer at all changes.
pub fn push_removable(
    alloc: Global,
    rows: &mut Vec<Items<Cell>>,
    judge: &Judge,
) -> Result<(), AllocError>
    ensures { OnOk result (rows.new.items
        ≡ rows.old.items ++ listed_rows judge.now (removable_in (contents_of judge.now))) }
{
    let found = removable(alloc, judge.authorizer())?;
    push_listed(alloc, rows, judge, &found)
}
