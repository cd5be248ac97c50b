//! The answers to questions.

ghost use Rattle.std.specs.Prelude.{◌≡◌, ◌++◌, OnOk};
ghost use Rattle.kob_policy_text.specs.Answers.{omissions_text};
ghost use Rattle.kob_policy_text.specs.Review.{answer_line, answers_text};
ghost use Rattle.kob_policy_text.specs.Review.{review_text};

use crate::access::{push_access, push_expected};
use crate::changes::print_changes;
use crate::holdings::push_holdings;
use crate::idle::{push_removable, push_shadowed};
use crate::judge::Judge;
use crate::policy::Policy;
use crate::printed::push_omission;
use crate::question::{Query, Question, Questions};
use crate::reaches::push_reaches;
use crate::summary::push_summary;
use crate::unused::push_unused;
use crate::who::{push_consumers, push_sees, push_who};
use kob_names::Text;
use kob_words::push_number;
use std::alloc::{AllocError, Global};

fn push_answer_line<'a>(
    alloc: Global,
    out: &mut Vec<u8>,
    judge: &'a Judge,
    topics: &[Text],
    number: u64,
    query: &'a Query,
) -> Result<(), AllocError>
    ensures { OnOk result (out.new.items ≡ out.old.items
        ++ answer_line judge.now topics.now number query.now) }
{
    push_number(out, number)?;
    out.extend_from_slice(b" ")?;
    out.extend_from_slice(query.text.as_slice())?;
    out.extend_from_slice(b"\n")?;
    match &query.question {
        Question::May(access) => push_access(out, judge, access),
        Question::Expect(expected, access) => push_expected(out, judge, *expected, access),
        Question::Who(right, host) => push_who(alloc, out, judge, right, host),
        Question::WhoConsumes(topic, group) => push_consumers(alloc, out, judge, topic, group),
        Question::WhoBelow(right) => push_reaches(alloc, out, judge, right),
        Question::Rights(principal, host) => push_holdings(alloc, out, judge, principal, host),
        Question::Sees(asker) => push_sees(alloc, out, judge, topics, asker),
        Question::Summary => push_summary(alloc, out, judge),
        Question::Unused => push_unused(alloc, out, judge),
        Question::Shadowed => push_shadowed(alloc, out, judge),
        Question::Removable => push_removable(alloc, out, judge),
    }
}

/// Prints each question and its answer, numbered from 1. The error is out of memory; `out` has then
/// grown by a part of them.
pub fn print_answers(
    alloc: Global,
    out: &mut Vec<u8>,
    judge: &Judge,
    topics: &[Text],
    queries: &[Query],
) -> Result<(), AllocError>
    ensures { OnOk result (out.new.items ≡ out.old.items
        ++ answers_text judge.now topics.now 1 queries.now) }
{
    let mut number: u64 = 1;
    for query in queries {
        push_answer_line(alloc, out, judge, topics, number, query)?;
        number += 1;
    }
    Ok(())
}

/// Prints what was left out, each on a line.
pub fn print_omissions(out: &mut Vec<u8>, policy: &Policy) -> Result<(), AllocError>
    ensures { OnOk result (out.new.items ≡ out.old.items ++ omissions_text policy.now) }
{
    for omission in policy.omissions() {
        push_omission(out, omission)?;
    }
    Ok(())
}

/// Prints what changes from one policy to another, and then the answers of the second.
pub fn print_review(
    alloc: Global,
    out: &mut Vec<u8>,
    before: &Judge,
    after: &Judge,
    questions: &Questions,
) -> Result<(), AllocError>
    ensures { OnOk result (out.new.items ≡ out.old.items
        ++ review_text before.now after.now questions.now) }
{
    print_changes(alloc, out, before, after)?;
    print_answers(alloc, out, after, questions.topics(), questions.asked())
}
