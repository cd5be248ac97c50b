//! The rows of `rights`: what a principal may do.

ghost use Rattle.std.specs.Prelude.{◌≡◌, ◌++◌, ◌∷◌, [], OnOk, flat_map, map};
ghost use Rattle.kob_policy_rows.specs.Answers.{all_row, held_row, held_rows};
ghost use Rattle.kob_policy_rows.specs.Answers.{rights_rows};

use crate::cell::{Cell, push_nothing, push_row, push_words};
use crate::verdict::{party_name, push_target};
use kob_names::{Host, Items, Operation, Principal};
use kob_policy_review::{Holding, is_super, rights};
use kob_policy_text::{Judge, is_repeated};
use kob_words::operation_name;
use std::alloc::{AllocError, Global};

#[tactic(auto, using(kob_words::proofs::Appending::appending), unfolding(crate::specs::Answers::held_row))]
fn push_operations(
    alloc: Global,
    rows: &mut Vec<Items<Cell>>,
    principal: &Principal,
    one: &Holding,
    operations: &[Operation],
) -> Result<(), AllocError>
    ensures { OnOk result (rows.new.items
        ≡ rows.old.items ++ map (held_row principal.now one.now) operations.now) }
{
    for operation in operations {
        let mut row = Vec::new(alloc);
        push_words(alloc, &mut row, principal.as_str())?;
        push_words(alloc, &mut row, party_name("*", &one.host))?;
        push_words(alloc, &mut row, operation_name(*operation))?;
        push_target(alloc, &mut row, &one.target)?;
        push_words(alloc, &mut row, "binding")?;
        push_row(rows, row)?;
    }
    Ok(())
}

#[tactic(auto, using(kob_words::proofs::Appending::appending))]
fn push_each(
    alloc: Global,
    rows: &mut Vec<Items<Cell>>,
    principal: &Principal,
    host: &Option<Host>,
    found: &[Holding],
) -> Result<(), AllocError>
    ensures { OnOk result (rows.new.items
        ≡ rows.old.items ++ flat_map (held_rows principal.now host.now) found.now) }
{
    for one in found {
        if is_repeated(host, one) {
            continue;
        }
        // (`All` for the ten operations of a request)
        let operations = one.operations.as_slice();
        if operations.len() == 10 {
            push_operations(alloc, rows, principal, one, &[Operation::All])?;
            continue;
        }
        push_operations(alloc, rows, principal, one, operations)?;
    }
    Ok(())
}

#[tactic(auto, using(kob_words::proofs::Appending::appending), unfolding(crate::specs::Answers::all_row))]
fn push_all(
    alloc: Global,
    rows: &mut Vec<Items<Cell>>,
    principal: &Principal,
    by: &str,
) -> Result<(), AllocError>
    ensures { OnOk result
        (rows.new.items ≡ rows.old.items ++ all_row principal.now by.now ∷ []) }
{
    let mut row = Vec::new(alloc);
    push_words(alloc, &mut row, principal.as_str())?;
    push_words(alloc, &mut row, "*")?;
    push_words(alloc, &mut row, operation_name(Operation::All))?;
    push_nothing(&mut row)?;
    push_nothing(&mut row)?;
    push_nothing(&mut row)?;
    push_words(alloc, &mut row, by)?;
    push_row(rows, row)
}

/// What is granted to a principal, from one host or from each that counts.
#[tactic(auto, using(kob_words::proofs::Appending::appending))]
pub fn push_rights(
    alloc: Global,
    rows: &mut Vec<Items<Cell>>,
    judge: &Judge,
    principal: &Principal,
    host: &Option<Host>,
) -> Result<(), AllocError>
    ensures { OnOk result
        (rows.new.items ≡ rows.old.items ++ rights_rows judge.now principal.now host.now) }
{
    if is_super(judge.policy().supers(), principal.as_str()) {
        return push_all(alloc, rows, principal, "super");
    }
    let found = rights(alloc, judge.authorizer(), principal, host)?;
    push_each(alloc, rows, principal, host, found.as_slice())?;
    if judge.policy().everyone() {
        push_all(alloc, rows, principal, "everyone")
    } else {
        Ok(())
    }
}
