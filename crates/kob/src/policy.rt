//! Questions about lists of bindings: one list with its questions, or two lists and what changes
//! from one to the other.

ghost use Rattle.std.specs.List.{list_any};
ghost use Rattle.std.specs.Prelude.{◌≡◌, ◌≢◌, IfErr, IfOk, Ok, OnOk, false, length, nat_lt, true};
ghost use Rattle.kob.specs.Answers.{ending_in};
ghost use Rattle.kob.specs.Ending.{IsFailedStop, ending_of_part};
ghost use Rattle.kob.specs.CommandLine.{parts_by};
ghost use Rattle.kob.specs.Options.{can_differ_by, table_asked, tables_asked};
ghost use Rattle.kob_policy_text.specs.Access.{any_fails};
ghost use Rattle.kob_policy_text.specs.Questions.{with_questions, with_topics};

use crate::ending::Ending;
use crate::logs::answer_logs;
use crate::policy_answers::{lead, push_answers, push_changes, push_heading};
use crate::policy_lists::{ListInForce, Side, Stop, judge_of, list_of, stop_by};
use crate::policy_options::{AnswerForm, Options, parts_of};
use crate::report::{self, Report, tell};
use crate::running::say;
use crate::source::questions_in;
use crate::stages::{Stage, Stages};
use crate::unmet::{QuestionText, say_unmet};
use kob_policy_rows::is_table;
use kob_policy_text::{Judge, Query, Question, Questions, read_questions, read_topics};
use std::alloc::AllocError;
use std::io::{self, Write};
use std::rt::{Clock, Files};

/// Answers the words after `policy`. `--next` ends a list with its questions and begins another. A
/// fault ends its own part. Long work is reported if `is_watched`. Returns the worst end.
pub fn answer<R: AllocGlobal + Clock + Files + Input + Print + Eprint>(
    rt: &R,
    words: &[String],
    is_watched: bool,
) -> Ending
    ensures { list_any can_differ_by (parts_by words.now) ≡ false
        → result ≢ Ending.Differs }
{
    match parts_of(rt.alloc(), words) {
        Ok(parts) => answer_parts(rt, &parts, is_watched),
        Err(refused) => say(rt, &refused),
    }
}

#[tactic(auto, using(crate::proofs::Ends::not_worse, crate::proofs::Ends::part_not_differs))]
fn answer_parts<R: AllocGlobal + Clock + Files + Input + Print + Eprint>(
    rt: &R,
    parts: &[Options],
    is_watched: bool,
) -> Ending
    ensures { list_any can_differ_by parts.now ≡ false → result ≢ Ending.Differs }
{
    let stages = Stages::begin(rt, is_watched);
    let mut out = Vec::new(rt.alloc());
    let mut ending = Ending::Whole;
    for part in parts {
        let ended = print_part(rt, stages, &mut out, part, parts.len() > 1);
        ending = ending.worse(ending_of_part(rt, ended));
    }
    match io::writer(rt).write_all(&out) {
        Ok(()) => ending,
        Err(error) => report::refused(rt, "standard output", &error),
    }
}

fn ending_of_part(rt: &impl Eprint, ended: Result<Ending, Stop>) -> Ending
    ensures { result ≡ ending_of_part ended }
{
    match ended {
        Ok(ending) | Err(Stop::Ended(ending)) => ending,
        Err(Stop::Memory(refused)) => tell(rt, Report::OutOfMemory("policy", refused)),
    }
}

fn print_part<R: AllocGlobal + Clock + Files + Input + Eprint>(
    rt: &R,
    stages: Stages,
    out: &mut Vec<u8>,
    options: &Options,
    headed: bool,
) -> Result<Ending, Stop>
    ensures failure { IfErr result IsFailedStop }
    ensures commands { IfOk result (λ ending. can_differ_by options.now ≡ false
        → ending ≢ Ending.Differs) }
{
    if headed {
        if options.form == AnswerForm::Csv {
            return Ok(tell(rt, Report::SeveralTables));
        }
        push_heading(rt.alloc(), out, options)?;
    }
    let mut answers = Vec::new(rt.alloc());
    let ended = answer_part(rt, stages, &mut answers, options);
    out.extend_from_slice(&answers)?;
    ended
}

/// Reads the questions of a part and answers them.
fn answer_part<R: AllocGlobal + Clock + Files + Input + Eprint>(
    rt: &R,
    stages: Stages,
    out: &mut Vec<u8>,
    options: &Options,
) -> Result<Ending, Stop>
    ensures failure { IfErr result IsFailedStop }
    ensures commands { IfOk result (λ ending. can_differ_by options.now ≡ false
        → ending ≢ Ending.Differs) }
{
    if options.form == AnswerForm::Csv && options.logs.len() > 0 {
        return Err(Stop::Ended(tell(rt, Report::NoTable("log"))));
    }
    let mut questions = Questions::new(rt.alloc());
    let mut asked = Vec::new(rt.alloc());
    push_questions(rt, out, &mut questions, &mut asked, options)?;
    if options.form == AnswerForm::Csv {
        unless_one_table(rt, options, &questions)?;
    }
    if options.before.len() == 0 {
        answer_by_one(rt, stages, out, options, &questions, &asked)
    } else {
        review(rt, stages, out, options, &questions, &asked)
    }
}

/// Reports what is asked beside `--csv`, unless it is one table.
fn unless_one_table<R: AllocGlobal + Eprint>(
    rt: &R,
    options: &Options,
    questions: &Questions,
) -> Result<(), Stop>
    ensures one { OnOk result (tables_asked questions.now.asked
        (nat_lt 0 (length options.now.before)) ≡ Tables.One) }
    ensures refused { IfErr result (λ stop. (stop ≡ Stop.Ended Ending.Failed)
        × (tables_asked questions.now.asked (nat_lt 0 (length options.now.before)) ≢ Tables.One)) }
{
    let asked = questions.asked();
    match tables_asked(asked, options.before.len() > 0) {
        Tables::One => Ok(()),
        Tables::Not => {
            let text = asked
                .first()
                .map_or(b"".as_slice(), |query| query.text.as_slice());
            let text = str::from_utf8(text).unwrap_or("the question");
            Err(Stop::Ended(tell(rt, Report::NoTable(text))))
        }
        Tables::Several => Err(Stop::Ended(tell(rt, Report::SeveralTables))),
    }
}

/// What is asked beside `--csv`.
#[derive(Clone, Copy)]
enum Tables {
    One,
    /// An answer that is no table.
    Not,
    Several,
}

/// One question has a table, or none; what changes is a table, beside which nothing is asked.
fn tables_asked(asked: &[Query], is_compared: bool) -> Tables
    ensures { result ≡ tables_asked asked.now is_compared }
{
    match asked {
        [] if is_compared => Tables::One,
        [query] if !is_compared => table_asked(&query.question),
        _ => Tables::Several,
    }
}

fn table_asked(question: &Question) -> Tables
    ensures { result ≡ table_asked question.now }
{
    if is_table(question) {
        Tables::One
    } else {
        Tables::Not
    }
}

/// The questions of the files, and then those of the words. A list of which nothing is asked is
/// summed up.
fn push_questions<R: AllocGlobal + Files + Input + Eprint>(
    rt: &R,
    out: &mut Vec<u8>,
    questions: &mut Questions,
    asked: &mut Vec<QuestionText>,
    options: &Options,
) -> Result<(), Stop>
    ensures { IfErr result IsFailedStop }
{
    for file in options.topics.as_slice() {
        let text = list_of(rt, file.as_str())?;
        push_topics(rt, options.form, out, questions, file.as_str(), &text)?;
    }
    for file in options.questions.as_slice() {
        let text = list_of(rt, file.as_str())?;
        push_asked(rt, options.form, out, questions, asked, file.as_str(), text)?;
    }
    for word in options.words.as_slice() {
        let mut text = Vec::new(rt.alloc());
        text.extend_from_slice(word.as_str().as_bytes())?;
        push_asked(rt, options.form, out, questions, asked, word.as_str(), text)?;
    }
    if options.before.len() == 0 && options.logs.len() == 0 && questions.asked().is_empty() {
        if let Err(error) = read_questions(rt.alloc(), questions, b"summary") {
            let source = questions_in("summary", b"summary");
            return Err(stop_by(rt, options.form, out, &source, error));
        }
    }
    Ok(())
}

/// The topics of a text.
fn push_topics<R: AllocGlobal + Eprint>(
    rt: &R,
    form: AnswerForm,
    out: &mut Vec<u8>,
    questions: &mut Questions,
    name: &str,
    text: &[u8],
) -> Result<(), Stop>
    ensures read { OnOk result (Ok questions.new ≡ with_topics questions.old text.now) }
    ensures failure { IfErr result IsFailedStop }
{
    match read_topics(rt.alloc(), questions, text) {
        Ok(()) => Ok(()),
        Err(error) => Err(stop_by(rt, form, out, &questions_in(name, text), error)),
    }
}

/// The questions of a text.
fn push_asked<R: AllocGlobal + Eprint>(
    rt: &R,
    form: AnswerForm,
    out: &mut Vec<u8>,
    questions: &mut Questions,
    asked: &mut Vec<QuestionText>,
    name: &str,
    text: Vec<u8>,
) -> Result<(), Stop>
    ensures read { OnOk result (Ok questions.new ≡ with_questions questions.old text.items) }
    ensures failure { IfErr result IsFailedStop }
{
    if let Err(error) = read_questions(rt.alloc(), questions, &text) {
        let stop = stop_by(rt, form, out, &questions_in(name, &text), error);
        drop(text);
        return Err(stop);
    }
    let made = QuestionText::new(rt.alloc(), name, text, questions.asked().len())?;
    asked.push(made).map_err(AllocError::from)?;
    Ok(())
}

fn answer_by_one<R: AllocGlobal + Clock + Files + Input + Eprint>(
    rt: &R,
    stages: Stages,
    out: &mut Vec<u8>,
    options: &Options,
    questions: &Questions,
    asked: &[QuestionText],
) -> Result<Ending, Stop>
    ensures { IfErr result IsFailedStop }
{
    let listed = judge_of(rt, stages, out, options, Side::Only)?;
    let bindings = listed.judge.policy().bindings().len();
    let count = questions.asked().len();
    stages.tell(
        rt,
        Stage::Answer {
            questions: count,
            bindings,
        },
    );
    let answered = answer_about(rt, out, options, questions, asked, &listed.judge);
    drop(listed);
    Ok(answered?)
}

#[tactic(auto, using(crate::proofs::Ends::none_fails))]
fn answer_about<R: AllocGlobal + Files + Input + Eprint>(
    rt: &R,
    out: &mut Vec<u8>,
    options: &Options,
    questions: &Questions,
    asked: &[QuestionText],
    judge: &Judge,
) -> Result<Ending, AllocError>
    ensures { IfOk result (λ ending. ending ≡ Ending.Whole
        → any_fails judge.now questions.now.asked ≡ false) }
{
    let ending = push_answers(rt.alloc(), options.form, out, judge, questions)?;
    say_unmet(rt, judge, questions.asked(), asked)?;
    Ok(ending.worse(answer_logs(rt, out, options, questions, judge)?))
}

/// What changes, and then the answers of the second list. The lists differ if anything changes.
/// Both lists are dropped by `drop`, since a list that is dropped at `?` makes a proof long.
fn review<R: AllocGlobal + Clock + Files + Input + Eprint>(
    rt: &R,
    stages: Stages,
    out: &mut Vec<u8>,
    options: &Options,
    questions: &Questions,
    asked: &[QuestionText],
) -> Result<Ending, Stop>
    ensures failure { IfErr result IsFailedStop }
    ensures commands { IfOk result (λ ending. options.now.commands ≡ true
        → ending ≢ Ending.Differs) }
{
    let before = judge_of(rt, stages, out, options, Side::Before)?;
    let reviewed = review_from(rt, stages, out, options, questions, asked, &before);
    drop(before);
    reviewed
}

fn review_from<R: AllocGlobal + Clock + Files + Input + Eprint>(
    rt: &R,
    stages: Stages,
    out: &mut Vec<u8>,
    options: &Options,
    questions: &Questions,
    asked: &[QuestionText],
    before: &ListInForce,
) -> Result<Ending, Stop>
    requires { before.now.side ≡ Side.Before }
    ensures failure { IfErr result IsFailedStop }
    ensures commands { IfOk result (λ ending. options.now.commands ≡ true
        → ending ≢ Ending.Differs) }
{
    let after = judge_of(rt, stages, out, options, Side::After)?;
    stages.tell(
        rt,
        Stage::Compare {
            before: before.judge.policy().bindings().len(),
            after: after.judge.policy().bindings().len(),
        },
    );
    let reviewed = compare(rt, out, options, questions, asked, before, &after);
    drop(after);
    Ok(reviewed?)
}

fn compare<R: AllocGlobal + Files + Input + Eprint>(
    rt: &R,
    out: &mut Vec<u8>,
    options: &Options,
    questions: &Questions,
    asked: &[QuestionText],
    before: &ListInForce,
    after: &ListInForce,
) -> Result<Ending, AllocError>
    requires before { before.now.side ≡ Side.Before }
    requires after { after.now.side ≡ Side.After }
    ensures same { IfOk result (λ ending. options.now.commands ≡ false → ending ≡ Ending.Whole
        → ending_in options.now.form before.now.judge after.now.judge ≡ Ending.Whole) }
    ensures commands { IfOk result (λ ending. options.now.commands ≡ true
        → ending ≢ Ending.Differs) }
{
    let (before, after) = (&before.judge, &after.judge);
    if !options.commands {
        let ending = push_changes(rt.alloc(), options.form, out, before, after)?;
        Ok(ending.worse(answer_about(rt, out, options, questions, asked, after)?))
    } else if options.logs.len() == 0 {
        Ok(lead(rt, out, questions, before, after)?)
    } else {
        Ok(tell(rt, Report::BesideCommands))
    }
}
