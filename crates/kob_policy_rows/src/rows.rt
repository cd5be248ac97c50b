//! The rows of an answer.

ghost use Rattle.std.specs.Prelude.{◌≡◌, ◌++◌, IfOk, OnOk};
ghost use Rattle.kob_policy_rows.specs.Answers.{rows_of};

use crate::access::push_access;
use crate::bound::{push_removable, push_shadowed, push_unused};
use crate::cell::Cell;
use crate::granted::{push_granted, push_who};
use crate::held::push_rights;
use crate::reached::push_below;
use crate::seen::push_sees;
use crate::summed::push_summary;
use kob_names::{Items, Text};
use kob_policy_text::{Judge, Question};
use std::alloc::{AllocError, Global};

#[tactic(auto, using(kob_words::proofs::Appending::appending))]
fn push_rows(
    alloc: Global,
    rows: &mut Vec<Items<Cell>>,
    judge: &Judge,
    topics: &[Text],
    question: &Question,
) -> Result<(), AllocError>
    ensures { OnOk result (rows.new.items ≡ rows.old.items
        ++ rows_of judge.now topics.now question.now) }
{
    match question {
        Question::May(access) | Question::Expect(_, access) => {
            push_access(alloc, rows, judge, access)
        }
        Question::Who(right, host) => push_who(alloc, rows, judge, right, host),
        Question::WhoConsumes(topic, group) => {
            push_granted(alloc, rows, judge, topic)?;
            push_granted(alloc, rows, judge, group)
        }
        Question::WhoBelow(right) => push_below(alloc, rows, judge, right),
        Question::Rights(principal, host) => push_rights(alloc, rows, judge, principal, host),
        Question::Sees(asker) => push_sees(alloc, rows, judge, topics, asker),
        Question::Summary => push_summary(alloc, rows, judge),
        Question::Unused => push_unused(alloc, rows, judge),
        Question::Shadowed => push_shadowed(alloc, rows, judge),
        Question::Removable => push_removable(alloc, rows, judge),
    }
}

/// The rows of the answer to a question. The error is out of memory.
pub fn rows_of(
    alloc: Global,
    judge: &Judge,
    topics: &[Text],
    question: &Question,
) -> Result<Vec<Items<Cell>>, AllocError>
    ensures { IfOk result (λ rows. rows.items ≡ rows_of judge.now topics.now question.now) }
{
    let mut rows = Vec::new(alloc);
    push_rows(alloc, &mut rows, judge, topics, question)?;
    Ok(rows)
}
