//! The rows of `who`: super users, and then each principal and host to which a right is granted, or
//! from which a deny takes it away.

ghost use Rattle.std.specs.Prelude.{◌≡◌, ◌++◌, ◌∷◌, [], OnOk, map};
ghost use Rattle.kob_policy_rows.specs.Answers.{from_row, granted_rows};
ghost use Rattle.kob_policy_rows.specs.Answers.{right_cells, super_row, told_rows, who_row, who_rows};

use crate::cell::{Cell, push_row, push_words};
use crate::verdict::{party_name, push_on, push_verdict};
use kob_names::{Host, Items, Principal, Verdict};
use kob_policy_review::{Answer, who};
use kob_policy_text::{Asked, Judge, Right, each_once, is_told, principals_at_hand, target_at};
use std::alloc::{AllocError, Global};

/// Operation, resource and name.
pub fn push_right(alloc: Global, row: &mut Vec<Cell>, right: &Right) -> Result<(), AllocError>
    ensures { OnOk result (row.new.items ≡ row.old.items ++ right_cells right.now) }
{
    let name = right.name.as_str();
    push_on(alloc, row, right.operation, right.resource, name)
}

/// Who asks from where for what.
#[derive(Clone, Copy)]
struct Party<'a> {
    principal: &'a str,
    host: &'a str,
}

#[tactic(auto, using(kob_words::proofs::Appending::appending), unfolding(crate::specs::Answers::who_row))]
fn push_decided(
    alloc: Global,
    rows: &mut Vec<Items<Cell>>,
    judge: &Judge,
    right: &Right,
    party: Party<'_>,
    verdict: Verdict,
) -> Result<(), AllocError>
    ensures { OnOk result (rows.new.items ≡ rows.old.items
        ++ who_row judge.now right.now party.entry.principal.now party.entry.host.now verdict
        ∷ []) }
{
    let mut row = Vec::new(alloc);
    push_right(alloc, &mut row, right)?;
    push_words(alloc, &mut row, party.principal)?;
    push_words(alloc, &mut row, party.host)?;
    push_verdict(alloc, &mut row, judge, verdict)?;
    push_row(rows, row)
}

#[tactic(auto, using(kob_words::proofs::Appending::appending))]
fn push_supers(
    alloc: Global,
    rows: &mut Vec<Items<Cell>>,
    judge: &Judge,
    right: &Right,
    supers: &[Principal],
) -> Result<(), AllocError>
    ensures { OnOk result (rows.new.items
        ≡ rows.old.items ++ map (super_row judge.now right.now) supers.now) }
{
    for user in supers {
        let party = Party {
            principal: user.as_str(),
            host: "*",
        };
        push_decided(alloc, rows, judge, right, party, Verdict::Super)?;
    }
    Ok(())
}

#[tactic(auto, using(kob_words::proofs::Appending::appending))]
fn push_answers(
    alloc: Global,
    rows: &mut Vec<Items<Cell>>,
    judge: &Judge,
    right: &Right,
    answers: &[Answer],
) -> Result<(), AllocError>
    ensures { OnOk result (rows.new.items
        ≡ rows.old.items ++ told_rows judge.now right.now answers.now) }
{
    for answer in answers {
        if is_told(answers, answer) {
            let party = Party {
                principal: party_name("User:*", &answer.principal),
                host: party_name("*", &answer.host),
            };
            push_decided(alloc, rows, judge, right, party, answer.verdict)?;
        }
    }
    Ok(())
}

/// Super users, and then each principal and host to which the right is granted, or from which a
/// deny takes it away.
#[tactic(auto, using(kob_words::proofs::Appending::appending))]
pub fn push_granted(
    alloc: Global,
    rows: &mut Vec<Items<Cell>>,
    judge: &Judge,
    right: &Right,
) -> Result<(), AllocError>
    ensures { OnOk result (rows.new.items ≡ rows.old.items ++ granted_rows judge.now right.now) }
{
    let target = target_at(alloc, right)?;
    let found = who(alloc, judge.authorizer(), right.operation, &target)?;
    let supers = each_once(alloc, judge.policy().supers())?;
    push_supers(alloc, rows, judge, right, supers.as_slice())?;
    push_answers(alloc, rows, judge, right, found.as_slice())
}

#[tactic(auto, using(kob_words::proofs::Appending::appending))]
fn push_each(
    alloc: Global,
    rows: &mut Vec<Items<Cell>>,
    judge: &Judge,
    right: &Right,
    host: &Host,
    principals: &[Principal],
) -> Result<(), AllocError>
    ensures { OnOk result (rows.new.items
        ≡ rows.old.items ++ map (from_row judge.now right.now host.now) principals.now) }
{
    for principal in principals {
        let asked = Asked {
            principal,
            host,
            operation: right.operation,
            resource: right.resource,
            name: right.name.as_str(),
        };
        let party = Party {
            principal: principal.as_str(),
            host: host.as_str(),
        };
        push_decided(alloc, rows, judge, right, party, judge.verdict(&asked))?;
    }
    Ok(())
}

/// Who may do this: from every host, or the answer from one host to each principal.
pub fn push_who(
    alloc: Global,
    rows: &mut Vec<Items<Cell>>,
    judge: &Judge,
    right: &Right,
    host: &Option<Host>,
) -> Result<(), AllocError>
    ensures { OnOk result
        (rows.new.items ≡ rows.old.items ++ who_rows judge.now right.now host.now) }
{
    let Some(host) = host else {
        return push_granted(alloc, rows, judge, right);
    };
    let principals = principals_at_hand(alloc, judge.policy().bindings())?;
    push_each(alloc, rows, judge, right, host, principals.as_slice())
}
