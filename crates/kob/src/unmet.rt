//! The answers about a list that are not as they were expected to be.

ghost use Rattle.std.specs.Prelude.{◌≡◌, IfOk, filter, find, length, map};
ghost use Rattle.std.specs.Option.{option_copied};
ghost use Rattle.kob.specs.Unmet.{is_unmet, line_among, question_line};

use crate::report::{FileReport, tell_file};
use bstr::ByteSlice;
use kob_mistakes::lines_of;
use kob_names::Text;
use kob_policy_text::{Judge, Query, Question, is_allowed};
use std::alloc::{AllocError, Global};

/// A text of questions, and how many questions were asked up to its end.
#[derive(Drop)]
pub(crate) struct QuestionText {
    pub(crate) name: Text,
    pub(crate) text: Vec<u8>,
    pub(crate) until: usize,
}

impl QuestionText {
    pub(crate) fn new(
        alloc: Global,
        name: &str,
        text: Vec<u8>,
        until: usize,
    ) -> Result<QuestionText, AllocError>
        ensures name { IfOk result (λ asked. asked.name ≡ name.now) }
        ensures text { IfOk result (λ asked. asked.text ≡ text) }
        ensures until { IfOk result (λ asked. asked.until ≡ until) }
    {
        let name = Text::copied(alloc, name)?;
        Ok(QuestionText { name, text, until })
    }
}

/// Says of each text how many of its questions are not answered as expected, and the line of the
/// first.
pub(crate) fn say_unmet<R: AllocGlobal + Eprint>(
    rt: &R,
    judge: &Judge,
    queries: &[Query],
    asked: &[QuestionText],
) -> Result<(), AllocError> {
    let mut from = 0;
    for text in asked {
        let own = queries.get(from..text.until).unwrap_or(&[]);
        if let Some(first) = first_unmet(judge, own) {
            tell_file(
                rt,
                FileReport::Unmet {
                    name: text.name.as_str(),
                    count: unmet_count(judge, own) as u64,
                    line: question_line(rt.alloc(), &text.text, first.text.as_slice())?,
                },
            );
        }
        from = text.until;
    }
    Ok(())
}

fn first_unmet<'q>(judge: &Judge, queries: &'q [Query]) -> Option<&'q Query>
    ensures { option_copied result ≡ find (is_unmet judge.now) queries.entry.now }
{
    queries.iter().find(|query| is_unmet(judge, query))
}

fn unmet_count(judge: &Judge, queries: &[Query]) -> usize
    ensures { result ≡ length (filter (is_unmet judge.now) queries.now) }
{
    queries
        .iter()
        .filter(|query| is_unmet(judge, query))
        .count()
}

/// Whether a question is not answered as expected.
fn is_unmet(judge: &Judge, query: &Query) -> bool
    ensures { result ≡ is_unmet judge.now query.now }
{
    match &query.question {
        Question::Expect(expected, access) => *expected != is_allowed(judge, access),
        _ => false,
    }
}

/// The line of the text that has this question, the first of several; 0 if there is none.
fn question_line(alloc: Global, text: &[u8], question: &[u8]) -> Result<u64, AllocError>
    ensures { IfOk result (λ line. line ≡ question_line text.now question.now) }
{
    let lines = lines_of(alloc, text)?;
    Ok(line_among(&lines, question))
}

#[tactic(auto, using(kob_mistakes::proofs::Walking::goes_on, kob_mistakes::proofs::Walking::stops, kob_mistakes::proofs::Walking::ends), unfolding(kob_policy_text::specs::Listing::trimmed))]
fn line_among(lines: &[&[u8]], question: &[u8]) -> u64
    ensures { result ≡ line_among (map (λ line. line.now) lines.now) question.now }
{
    let mut number: u64 = 1;
    for line in lines {
        if line.trim() == question {
            return number;
        }
        number += 1;
    }
    0
}
