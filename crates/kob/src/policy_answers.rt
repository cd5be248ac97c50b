//! What is printed about lists that are in force, in the form that is asked for.

ghost use Rattle.std.specs.Prelude.{◌≡◌, ◌≢◌, ◌++◌, ◌∷◌, [], IfOk, OnOk, codes};
ghost use Rattle.std.specs.List.{flat_map};
ghost use Rattle.kob.specs.Answers.{answers_in, changes_in, ending_in, ending_of_lead, fault_in};
ghost use Rattle.kob.specs.Answers.{heading_in, lead_text, name_text, names_in, names_text};
ghost use Rattle.kob.specs.Answers.{omissions_in};
ghost use Rattle.kob.specs.Ending.{ending_of_answers, ending_of_changes};
ghost use Rattle.kob_policy_rows.specs.Changes.{fault_row};
ghost use Rattle.kob_policy_rows.specs.Columns.{fault_columns};
ghost use Rattle.kob_policy_rows.specs.Json.{lines_text};
ghost use Rattle.kob_policy_text.specs.Access.{any_fails};
ghost use Rattle.kob_policy_text.specs.Moved.{moved_text};
ghost use Rattle.kob_policy_text.specs.Review.{changes_text};
ghost use Rattle.kob_script.specs.Printed.{fault_text, kind_text};

use crate::commands::push_commands;
use crate::ending::{Ending, ending_of_answers};
use crate::policy_options::{AnswerForm, Options};
use crate::report::{Report, tell, tell_lines};
use kob_names::{Items, Text};
use kob_policy_rows::{
    Cell, change_columns, change_rows, fault_columns, fault_row, omission_columns, omission_rows,
    print_csv, print_csv_answers, print_json, print_json_answers, print_json_files,
};
use kob_policy_text::{
    Judge, Policy, Questions, any_fails, print_answers, print_changes, print_moved, print_omissions,
};
use kob_script::{Fault, kind_text, print_fault};
use std::alloc::{AllocError, Global};

/// The names of the files of bindings: `==` and each of them, or an object of JSON.
pub(crate) fn push_heading(
    alloc: Global,
    out: &mut Vec<u8>,
    options: &Options,
) -> Result<(), AllocError>
    ensures { OnOk result (out.new.items
        ≡ out.old.items ++ heading_in options.now.form (names_in options.now)) }
{
    let names = names_in(alloc, options)?;
    match options.form {
        AnswerForm::Json => print_json_files(alloc, out, &names),
        AnswerForm::Words | AnswerForm::Csv => push_names(out, &names),
    }
}

/// The files of bindings; without one, standard input.
fn names_in(alloc: Global, options: &Options) -> Result<Vec<Text>, AllocError>
    ensures { IfOk result (λ names. names.items ≡ names_in options.now) }
{
    let mut names = Vec::new(alloc);
    push_copies(alloc, &mut names, options.policy.as_slice())?;
    push_copies(alloc, &mut names, options.before.as_slice())?;
    push_copies(alloc, &mut names, options.after.as_slice())?;
    if names.is_empty() {
        names.push(Text::copied(alloc, "-")?)?;
    }
    Ok(names)
}

fn push_copies(alloc: Global, names: &mut Vec<Text>, files: &[Text]) -> Result<(), AllocError>
    ensures { OnOk result (names.new.items ≡ names.old.items ++ files.now) }
{
    for file in files {
        names.push(Text::copied(alloc, file.as_str())?)?;
    }
    Ok(())
}

#[tactic(auto, using(kob_words::proofs::Appending::appending))]
fn push_names(out: &mut Vec<u8>, names: &[Text]) -> Result<(), AllocError>
    ensures { OnOk result (out.new.items ≡ out.old.items ++ names_text names.now) }
{
    out.extend_from_slice(b"==")?;
    push_each_name(out, names)?;
    out.extend_from_slice(b"\n")
}

#[tactic(auto, using(kob_words::proofs::Appending::appending))]
fn push_each_name(out: &mut Vec<u8>, names: &[Text]) -> Result<(), AllocError>
    ensures { OnOk result (out.new.items ≡ out.old.items ++ flat_map name_text names.now) }
{
    for name in names {
        out.extend_from_slice(b" ")?;
        out.extend_from_slice(name.as_str().as_bytes())?;
    }
    Ok(())
}

/// A fault: `FILE fault line LINE KIND`, or an object of JSON. A table has none.
#[tactic(auto, using(kob_words::proofs::Appending::appending))]
pub(crate) fn push_fault(
    alloc: Global,
    form: AnswerForm,
    out: &mut Vec<u8>,
    name: &str,
    fault: Fault,
) -> Result<(), AllocError>
    ensures { OnOk result (out.new.items ≡ out.old.items ++ fault_in form name.now fault) }
{
    match form {
        AnswerForm::Words => {
            out.extend_from_slice(name.as_bytes())?;
            out.extend_from_slice(b" ")?;
            print_fault(out, fault)
        }
        AnswerForm::Json => {
            let mut rows = Vec::new(alloc);
            rows.push(fault_row(alloc, name, fault.line, kind_text(fault.kind))?)?;
            print_json(alloc, out, fault_columns(), &rows)
        }
        AnswerForm::Csv => Ok(()),
    }
}

/// What is left out, each on a line. Beside a table it is said on standard error.
pub(crate) fn push_omissions<R: AllocGlobal + Eprint>(
    rt: &R,
    form: AnswerForm,
    out: &mut Vec<u8>,
    policy: &Policy,
) -> Result<(), AllocError>
    ensures { OnOk result (out.new.items ≡ out.old.items ++ omissions_in form policy.now) }
{
    match form {
        AnswerForm::Words => print_omissions(out, policy),
        AnswerForm::Json => {
            let rows = omission_rows(rt.alloc(), policy.omissions())?;
            print_json(rt.alloc(), out, omission_columns(), &rows)
        }
        AnswerForm::Csv => {
            let mut told = Vec::new(rt.alloc());
            print_omissions(&mut told, policy)?;
            tell_lines(rt, Ok(()), &told);
            Ok(())
        }
    }
}

/// The answers, which end with `Differs` if one of them is not as expected.
pub(crate) fn push_answers(
    alloc: Global,
    form: AnswerForm,
    out: &mut Vec<u8>,
    judge: &Judge,
    questions: &Questions,
) -> Result<Ending, AllocError>
    ensures printed { OnOk result (out.new.items ≡ out.old.items
        ++ answers_in form judge.now questions.now.topics questions.now.asked) }
    ensures ending { IfOk result (λ ending. ending
        ≡ ending_of_answers (any_fails judge.now questions.now.asked)) }
{
    let (topics, asked) = (questions.topics(), questions.asked());
    match form {
        AnswerForm::Words => print_answers(alloc, out, judge, topics, asked)?,
        AnswerForm::Json => print_json_answers(alloc, out, judge, topics, asked)?,
        AnswerForm::Csv => print_csv_answers(alloc, out, judge, topics, asked)?,
    }
    Ok(ending_of_answers(any_fails(judge, asked)))
}

/// The commands that lead from one list to the other; nothing is asked beside them. No command does
/// what is left out, so that a list of which something is left out has none. Settings that differ are
/// reported.
pub(crate) fn lead<R: AllocGlobal + Eprint>(
    rt: &R,
    out: &mut Vec<u8>,
    questions: &Questions,
    before: &Judge,
    after: &Judge,
) -> Result<Ending, AllocError>
    ensures printed { OnOk result (out.new.items
        ≡ out.old.items ++ lead_text questions.now.asked before.now after.now) }
    ensures ending { IfOk result (λ ending. ending
        ≡ ending_of_lead questions.now.asked before.now after.now) }
    ensures same { IfOk result (λ ending. ending ≢ Ending.Differs) }
{
    let (old, new) = (before.policy(), after.policy());
    if !questions.asked().is_empty() {
        return Ok(tell(rt, Report::BesideCommands));
    }
    if !old.omissions().is_empty() || !new.omissions().is_empty() {
        return Ok(tell(rt, Report::NoCommands));
    }
    if old.supers() != new.supers() || old.everyone() != new.everyone() {
        tell(rt, Report::OtherSettings);
    }
    push_commands(rt.alloc(), out, before, after)?;
    Ok(Ending::Whole)
}

/// What changes from one list to the other.
pub(crate) fn push_changes(
    alloc: Global,
    form: AnswerForm,
    out: &mut Vec<u8>,
    before: &Judge,
    after: &Judge,
) -> Result<Ending, AllocError>
    ensures printed { OnOk result
        (out.new.items ≡ out.old.items ++ changes_in form before.now after.now) }
    ensures ending { IfOk result (λ ending. ending ≡ ending_in form before.now after.now) }
{
    match form {
        AnswerForm::Words => push_words(alloc, out, before, after),
        AnswerForm::Json => {
            let rows = change_rows(alloc, before, after)?;
            print_json(alloc, out, change_columns(), &rows)?;
            Ok(ending_of(&rows))
        }
        AnswerForm::Csv => {
            let rows = change_rows(alloc, before, after)?;
            print_csv(out, change_columns(), &rows)?;
            Ok(ending_of(&rows))
        }
    }
}

/// What is moved, and the answers that change.
fn push_words(
    alloc: Global,
    out: &mut Vec<u8>,
    before: &Judge,
    after: &Judge,
) -> Result<Ending, AllocError>
    ensures printed { OnOk result (out.new.items ≡ out.old.items
        ++ (moved_text before.now after.now ++ changes_text before.now after.now)) }
    ensures ending { IfOk result (λ ending. ending
        ≡ ending_of_changes (changes_text before.now after.now)) }
{
    print_moved(alloc, out, before, after)?;
    let kept = out.len();
    print_changes(alloc, out, before, after)?;
    if out.len() == kept {
        Ok(Ending::Whole)
    } else {
        Ok(Ending::Differs)
    }
}

fn ending_of(rows: &[Items<Cell>]) -> Ending
    ensures { result ≡ ending_of_changes rows.now }
{
    if rows.is_empty() {
        Ending::Whole
    } else {
        Ending::Differs
    }
}
