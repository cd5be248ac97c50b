//! The logs of brokers that are asked about.

ghost use Rattle.std.specs.Prelude.{◌≡◌, ◌++◌, IfOk, OnOk, length};
ghost use Rattle.kob.specs.Ending.{ending_of_answers};
ghost use Rattle.kob.specs.Answers.{AreLogAnswers, IsLogAnswer, log_in, log_words};
ghost use Rattle.kob_policy_text.specs.LogAnswers.{differs};

use crate::ending::{Ending, ending_of_answers};
use crate::input::{Kind, text_of};
use crate::policy_options::{AnswerForm, Options};
use crate::report;
use kob_policy_rows::print_json_log;
use kob_policy_text::{Judge, Questions, print_log};
use kob_words::push_number;
use std::alloc::{AllocError, Global};
use std::rt::Files;

/// The answers about the logs, numbered on from the other questions. One that can't be read is
/// reported.
pub(crate) fn answer_logs<R: AllocGlobal + Files + Input + Eprint>(
    rt: &R,
    out: &mut Vec<u8>,
    options: &Options,
    questions: &Questions,
    judge: &Judge,
) -> Result<Ending, AllocError>
    ensures { IfOk result (AreLogAnswers options.now.form judge.now (length questions.now.asked)
        options.now.logs out.old.items out.new.items Ending.Whole) }
{
    let mut number = questions.asked().len() as u64;
    let mut ending = Ending::Whole;
    for file in options.logs.as_slice() {
        number += 1;
        ending = ending.worse(answer_log(rt, options.form, out, judge, number, file.as_str())?);
    }
    Ok(ending)
}

fn answer_log<R: AllocGlobal + Files + Input + Eprint>(
    rt: &R,
    form: AnswerForm,
    out: &mut Vec<u8>,
    judge: &Judge,
    number: u64,
    file: &str,
) -> Result<Ending, AllocError>
    ensures { IfOk result
        (IsLogAnswer form judge.now number file.now out.old.items out.new.items) }
{
    match text_of(rt, Kind::List, file) {
        Ok(text) => push_log(rt.alloc(), form, out, judge, number, file, &text),
        Err(fault) => Ok(report::unread(rt, file, &fault)),
    }
}

/// The answer in words, below its number and the name of the file.
#[tactic(auto, using(kob_words::proofs::Appending::appending))]
fn push_words(
    alloc: Global,
    out: &mut Vec<u8>,
    judge: &Judge,
    number: u64,
    file: &str,
    text: &[u8],
) -> Result<bool, AllocError>
    ensures printed { OnOk result (out.new.items
        ≡ out.old.items ++ log_words judge.now number file.now text.now) }
    ensures differs { IfOk result (λ found. found ≡ differs judge.now text.now) }
{
    push_number(out, number)?;
    out.extend_from_slice(b" log ")?;
    out.extend_from_slice(file.as_bytes())?;
    out.extend_from_slice(b"\n")?;
    print_log(alloc, out, judge, text)
}

/// The answer about the text of a broker's log, which ends with `Differs` if an access is decided
/// otherwise than is recorded.
fn push_log(
    alloc: Global,
    form: AnswerForm,
    out: &mut Vec<u8>,
    judge: &Judge,
    number: u64,
    file: &str,
    text: &[u8],
) -> Result<Ending, AllocError>
    ensures printed { OnOk result (out.new.items
        ≡ out.old.items ++ log_in form judge.now number file.now text.now) }
    ensures ending { IfOk result (λ ending. ending
        ≡ ending_of_answers (differs judge.now text.now)) }
{
    let differs = match form {
        AnswerForm::Json => print_json_log(alloc, out, judge, number, file, text)?,
        AnswerForm::Words | AnswerForm::Csv => push_words(alloc, out, judge, number, file, text)?,
    };
    Ok(ending_of_answers(differs))
}
