//! The rows of what changes, of what is left out and of faults.

ghost use Rattle.std.specs.Prelude.{◌≡◌, ◌++◌, ◌∷◌, [], IfOk, OnOk, codes, flat_map, map};
ghost use Rattle.kob_policy_rows.specs.Changes.{change_row, change_rows};
ghost use Rattle.kob_policy_rows.specs.Changes.{everyone_row, everyone_rows, fault_row};
ghost use Rattle.kob_policy_rows.specs.Changes.{omission_row, outcome_word, super_rows};

use crate::cell::{Cell, push_flag, push_nothing, push_number, push_row, push_words};
use crate::verdict::{party_name, push_target};
use kob_names::{Items, Principal};
use kob_policy_review::{Change, Outcome, changes, is_super};
use kob_policy_text::{Judge, Omission, left_out_word};
use kob_words::operation_name;
use std::alloc::{AllocError, Global};

/// The super users that are not among the others.
#[tactic(auto, using(kob_words::proofs::Appending::appending), unfolding(crate::specs::Changes::super_row))]
fn push_supers(
    alloc: Global,
    rows: &mut Vec<Items<Cell>>,
    what: &str,
    others: &[Principal],
    supers: &[Principal],
) -> Result<(), AllocError>
    ensures { OnOk result (rows.new.items
        ≡ rows.old.items ++ flat_map (super_rows what.now others.now) supers.now) }
{
    for user in supers {
        if is_super(others, user.as_str()) {
            continue;
        }
        let mut row = Vec::new(alloc);
        push_words(alloc, &mut row, "super")?;
        push_words(alloc, &mut row, user.as_str())?;
        push_nothing(&mut row)?;
        push_nothing(&mut row)?;
        push_nothing(&mut row)?;
        push_nothing(&mut row)?;
        push_nothing(&mut row)?;
        push_words(alloc, &mut row, what)?;
        push_row(rows, row)?;
    }
    Ok(())
}

#[tactic(auto, using(kob_words::proofs::Appending::appending), unfolding(crate::specs::Changes::everyone_row))]
fn push_everyone_row(
    alloc: Global,
    rows: &mut Vec<Items<Cell>>,
    what: &str,
) -> Result<(), AllocError>
    ensures { OnOk result (rows.new.items ≡ rows.old.items ++ everyone_row what.now ∷ []) }
{
    let mut row = Vec::new(alloc);
    push_words(alloc, &mut row, "everyone")?;
    push_nothing(&mut row)?;
    push_nothing(&mut row)?;
    push_nothing(&mut row)?;
    push_nothing(&mut row)?;
    push_nothing(&mut row)?;
    push_nothing(&mut row)?;
    push_words(alloc, &mut row, what)?;
    push_row(rows, row)
}

fn push_everyone(
    alloc: Global,
    rows: &mut Vec<Items<Cell>>,
    before: bool,
    after: bool,
) -> Result<(), AllocError>
    ensures { OnOk result (rows.new.items ≡ rows.old.items ++ everyone_rows before after) }
{
    match (before, after) {
        (false, true) => push_everyone_row(alloc, rows, "on"),
        (true, false) => push_everyone_row(alloc, rows, "off"),
        (false, false) | (true, true) => Ok(()),
    }
}

fn outcome_word(outcome: Outcome) -> &'static str
    ensures { result.now ≡ outcome_word outcome }
{
    match outcome {
        Outcome::Gained => "gained",
        Outcome::Lost => "lost",
        Outcome::Same => "unchanged",
    }
}

#[tactic(auto, using(kob_words::proofs::Appending::appending), unfolding(crate::specs::Changes::change_row))]
fn push_each(alloc: Global, rows: &mut Vec<Items<Cell>>, found: &[Change]) -> Result<(), AllocError>
    ensures { OnOk result (rows.new.items ≡ rows.old.items ++ map change_row found.now) }
{
    for change in found {
        let mut row = Vec::new(alloc);
        let class = &change.class;
        push_words(alloc, &mut row, "answer")?;
        push_words(alloc, &mut row, party_name("User:*", &class.principal))?;
        push_words(alloc, &mut row, party_name("*", &class.host))?;
        push_words(alloc, &mut row, operation_name(class.operation))?;
        push_target(alloc, &mut row, &class.target)?;
        push_words(alloc, &mut row, outcome_word(change.outcome))?;
        push_row(rows, row)?;
    }
    Ok(())
}

/// What changes: super users, `everyone`, and each class of questions. There is no row exactly if
/// no answer at all changes, super users apart. The error is out of memory.
#[tactic(auto, using(kob_words::proofs::Appending::appending))]
pub fn change_rows(
    alloc: Global,
    before: &Judge,
    after: &Judge,
) -> Result<Vec<Items<Cell>>, AllocError>
    ensures { IfOk result (λ rows. rows.items ≡ change_rows before.now after.now) }
{
    let mut rows = Vec::new(alloc);
    let (old, new) = (before.policy(), after.policy());
    push_supers(alloc, &mut rows, "removed", new.supers(), old.supers())?;
    push_supers(alloc, &mut rows, "added", old.supers(), new.supers())?;
    push_everyone(alloc, &mut rows, old.everyone(), new.everyone())?;
    let found = changes(alloc, before.authorizer(), after.authorizer())?;
    push_each(alloc, &mut rows, &found)?;
    Ok(rows)
}

/// What is left out.
#[tactic(auto, using(kob_words::proofs::Appending::appending), unfolding(crate::specs::Changes::omission_row))]
pub fn omission_rows(alloc: Global, omissions: &[Omission]) -> Result<Vec<Items<Cell>>, AllocError>
    ensures { IfOk result (λ rows. rows.items ≡ map omission_row omissions.now) }
{
    let mut rows = Vec::new(alloc);
    for omission in omissions {
        let mut row = Vec::new(alloc);
        push_words(alloc, &mut row, "left-out")?;
        push_words(alloc, &mut row, omission.origin.file.as_str())?;
        push_number(&mut row, omission.origin.line)?;
        push_words(alloc, &mut row, left_out_word(omission.what))?;
        push_flag(&mut row, omission.denies)?;
        push_row(&mut rows, row)?;
    }
    Ok(rows)
}

/// What is wrong with a text, by the word for it.
#[tactic(auto, using(kob_words::proofs::Appending::appending), unfolding(crate::specs::Changes::fault_row))]
pub fn fault_row(
    alloc: Global,
    file: &str,
    line: u64,
    fault: &str,
) -> Result<Items<Cell>, AllocError>
    ensures { IfOk result (λ row. row ≡ fault_row file.now line fault.now) }
{
    let mut row = Vec::new(alloc);
    push_words(alloc, &mut row, "fault")?;
    push_words(alloc, &mut row, file)?;
    push_number(&mut row, line)?;
    push_words(alloc, &mut row, fault)?;
    Ok(Items::from_vec(row))
}
