//! The rows of `may`: each right that is needed.

ghost use Rattle.std.specs.Prelude.{◌≡◌, ◌++◌, ◌∷◌, [], OnOk};
ghost use Rattle.kob_policy_rows.specs.Answers.{access_rows, check_row, clause_rows};
ghost use Rattle.kob_policy_rows.specs.Answers.{clauses_rows};
ghost use Rattle.kob_rights.specs.Table.{clause_view, rights_view};

use crate::cell::{Cell, push_flag, push_number, push_row};
use crate::verdict::{push_on, push_verdict};
use kob_names::Items;
use kob_policy_text::{Access, Asked, Asker, Judge, asked_on, rights_of};
use kob_rights::{Clause, Rights};
use std::alloc::{AllocError, Global};

#[tactic(auto, using(kob_words::proofs::Appending::appending), unfolding(crate::specs::Answers::check_row))]
fn push_check(
    alloc: Global,
    rows: &mut Vec<Items<Cell>>,
    judge: &Judge,
    number: u64,
    asked: &Asked<'_>,
) -> Result<(), AllocError>
    ensures { OnOk result
        (rows.new.items ≡ rows.old.items ++ check_row judge.now number asked.now ∷ []) }
{
    let mut row = Vec::new(alloc);
    push_number(&mut row, number)?;
    push_on(alloc, &mut row, asked.operation, asked.resource, asked.name)?;
    push_verdict(alloc, &mut row, judge, judge.verdict(asked))?;
    push_flag(&mut row, judge.is_taken(asked))?;
    push_row(rows, row)
}

#[tactic(auto, using(kob_words::proofs::Appending::appending))]
fn push_clause(
    alloc: Global,
    rows: &mut Vec<Items<Cell>>,
    judge: &Judge,
    number: u64,
    asker: &Asker,
    clause: &Clause<'_>,
) -> Result<(), AllocError>
    ensures { OnOk result (rows.new.items ≡ rows.old.items
        ++ clause_rows judge.now number asker.now (clause_view clause.now)) }
{
    match clause {
        Clause::Only(check) => push_check(alloc, rows, judge, number, &asked_on(asker, check)),
        Clause::Either(one, other) => {
            push_check(alloc, rows, judge, number, &asked_on(asker, one))?;
            push_check(alloc, rows, judge, number, &asked_on(asker, other))
        }
    }
}

/// Each right that is needed, with its answer.
#[tactic(auto, using(kob_words::proofs::Appending::appending), unfolding(crate::specs::Answers::clauses_rows))]
pub fn push_access(
    alloc: Global,
    rows: &mut Vec<Items<Cell>>,
    judge: &Judge,
    access: &Access,
) -> Result<(), AllocError>
    ensures { OnOk result (rows.new.items ≡ rows.old.items ++ access_rows judge.now access.now) }
{
    let asker = &access.asker;
    match rights_of(judge.policy().release(), &access.act) {
        Rights::Free => Ok(()),
        Rights::One(clause) => push_clause(alloc, rows, judge, 1, asker, &clause),
        Rights::Both(one, other) => {
            push_clause(alloc, rows, judge, 1, asker, &one)?;
            push_clause(alloc, rows, judge, 2, asker, &other)
        }
    }
}
