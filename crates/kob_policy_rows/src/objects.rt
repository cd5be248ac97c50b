//! Answers as JSON (RFC 8259), an object on a line.

ghost use Rattle.std.specs.Prelude.{◌≡◌, ◌++◌, ◌∷◌, [], OnOk, codes, flat_map, zip};
ghost use Rattle.json.specs.Print.{print};
ghost use Rattle.json.specs.Token.{string};
ghost use Rattle.kob_policy_rows.specs.Json.{access_tokens, answer_line, answers_json};
ghost use Rattle.kob_policy_rows.specs.Json.{cell_token, file_tokens, files_line, lines_text};
ghost use Rattle.kob_policy_rows.specs.Json.{member_tokens, number_tokens};
ghost use Rattle.kob_policy_rows.specs.Json.{question_tokens, row_tokens, rows_tokens, shown_text};
ghost use Rattle.kob_policy_rows.specs.Json.{verdict_tokens};
ghost use Rattle.kob_words.specs.Words.{bytes_text};

use crate::cell::Cell;
use crate::columns::{Column, column_name, columns_of, kind_of};
use crate::rows::rows_of;
use json::Writer;
use kob_names::{Items, Text};
use kob_policy_text::{Access, Judge, Query, Question, is_allowed};
use kob_words::push_bytes;
use std::alloc::{AllocError, Global};

fn push_cell(writer: &mut Writer, cell: &Cell) -> Result<(), AllocError>
    ensures tokens { OnOk result
        (writer.new.tokens ≡ writer.old.tokens ++ cell_token cell.now ∷ []) }
    ensures before { writer.new.before ≡ writer.old.before }
{
    match cell {
        Cell::Words(text) => writer.string(text.as_str()),
        Cell::Number(number) => writer.u64(*number),
        Cell::Flag(yes) => writer.boolean(*yes),
        Cell::Nothing => writer.null(),
    }
}

#[tactic(auto, using(kob_words::proofs::Appending::appending))]
fn push_member(writer: &mut Writer, column: Column, cell: &Cell) -> Result<(), AllocError>
    ensures tokens { OnOk result
        (writer.new.tokens ≡ writer.old.tokens ++ member_tokens (column, cell.now)) }
    ensures before { writer.new.before ≡ writer.old.before }
{
    writer.key(column_name(column))?;
    push_cell(writer, cell)
}

#[tactic(auto, using(kob_words::proofs::Appending::appending))]
fn push_members(writer: &mut Writer, columns: &[Column], row: &[Cell]) -> Result<(), AllocError>
    ensures tokens { OnOk result (writer.new.tokens
        ≡ writer.old.tokens ++ flat_map member_tokens (zip columns.now row.now)) }
    ensures before { writer.new.before ≡ writer.old.before }
{
    let mut cells = row;
    for column in columns {
        let Some((cell, others)) = cells.split_first() else {
            return Ok(());
        };
        push_member(writer, *column, cell)?;
        cells = others;
    }
    Ok(())
}

#[tactic(auto, using(kob_words::proofs::Appending::appending), unfolding(crate::specs::Json::row_tokens))]
fn push_row(writer: &mut Writer, columns: &[Column], row: &[Cell]) -> Result<(), AllocError>
    ensures tokens { OnOk result
        (writer.new.tokens ≡ writer.old.tokens ++ row_tokens columns.now row.now) }
    ensures before { writer.new.before ≡ writer.old.before }
{
    writer.begin_object()?;
    push_members(writer, columns, row)?;
    writer.end_object()
}

/// What was written, and a line feed.
#[tactic(auto, using(kob_words::proofs::Appending::appending))]
pub(crate) fn push_line(out: &mut Vec<u8>, writer: Writer) -> Result<(), AllocError>
    ensures { OnOk result (out.new.items ≡ out.old.items
        ++ (writer.before ++ print writer.tokens ++ codes "\n")) }
{
    let text = writer.into_inner();
    out.extend_from_slice(&text)?;
    out.extend_from_slice(b"\n")
}

/// Prints rows, an object on a line. The error is out of memory; `out` has then grown by a part of
/// them.
#[tactic(auto, using(kob_words::proofs::Appending::appending))]
pub fn print_json(
    alloc: Global,
    out: &mut Vec<u8>,
    columns: &[Column],
    rows: &[Items<Cell>],
) -> Result<(), AllocError>
    ensures { OnOk result (out.new.items ≡ out.old.items ++ lines_text columns.now rows.now) }
{
    for row in rows {
        let mut writer = Writer::new(Vec::new(alloc));
        push_row(&mut writer, columns, row.as_slice())?;
        push_line(out, writer)?;
    }
    Ok(())
}

fn push_escaped(alloc: Global, writer: &mut Writer, text: &[u8]) -> Result<(), AllocError>
    ensures tokens { OnOk result
        (writer.new.tokens ≡ writer.old.tokens ++ string (bytes_text text.now) ∷ []) }
    ensures before { writer.new.before ≡ writer.old.before }
{
    let mut escaped = Vec::new(alloc);
    push_bytes(&mut escaped, text)?;
    writer.string(String::from_utf8(escaped).unwrap().as_str())
}

#[tactic(auto, using(kob_words::proofs::Appending::appending), unfolding(crate::specs::Json::number_tokens))]
pub(crate) fn push_number(writer: &mut Writer, number: u64) -> Result<(), AllocError>
    ensures tokens { OnOk result
        (writer.new.tokens ≡ writer.old.tokens ++ number_tokens number) }
    ensures before { writer.new.before ≡ writer.old.before }
{
    writer.key("number")?;
    writer.u64(number)
}

/// A question as it was asked; bytes that are no text are escaped as those of names are.
#[tactic(auto, using(kob_words::proofs::Appending::appending), unfolding(crate::specs::Json::question_tokens))]
pub(crate) fn push_question(
    alloc: Global,
    writer: &mut Writer,
    text: &[u8],
) -> Result<(), AllocError>
    ensures tokens { OnOk result
        (writer.new.tokens ≡ writer.old.tokens ++ question_tokens text.now) }
    ensures before { writer.new.before ≡ writer.old.before }
{
    writer.key("question")?;
    match str::from_utf8(text) {
        Ok(text) => writer.string(text),
        Err(_) => push_escaped(alloc, writer, text),
    }
}

#[tactic(auto, using(kob_words::proofs::Appending::appending))]
fn push_access(writer: &mut Writer, judge: &Judge, access: &Access) -> Result<(), AllocError>
    ensures tokens { OnOk result
        (writer.new.tokens ≡ writer.old.tokens ++ access_tokens judge.now access.now) }
    ensures before { writer.new.before ≡ writer.old.before }
{
    writer.key(column_name(Column::Answer))?;
    writer.boolean(is_allowed(judge, access))?;
    writer.key(column_name(Column::Named))?;
    writer.boolean(judge.is_named(&access.asker.principal))
}

/// A yes or no, where the question has one.
#[tactic(auto, using(kob_words::proofs::Appending::appending))]
fn push_verdict(writer: &mut Writer, judge: &Judge, question: &Question) -> Result<(), AllocError>
    ensures tokens { OnOk result
        (writer.new.tokens ≡ writer.old.tokens ++ verdict_tokens judge.now question.now) }
    ensures before { writer.new.before ≡ writer.old.before }
{
    match question {
        Question::May(access) => push_access(writer, judge, access),
        Question::Expect(expected, access) => {
            writer.key(column_name(Column::Expected))?;
            writer.boolean(*expected)?;
            push_access(writer, judge, access)
        }
        Question::Who(_, _)
        | Question::WhoConsumes(_, _)
        | Question::WhoBelow(_)
        | Question::Rights(_, _)
        | Question::Sees(_)
        | Question::Summary
        | Question::Unused
        | Question::Shadowed
        | Question::Removable => Ok(()),
    }
}

#[tactic(auto, using(kob_words::proofs::Appending::appending))]
pub(crate) fn push_each(
    writer: &mut Writer,
    columns: &[Column],
    rows: &[Items<Cell>],
) -> Result<(), AllocError>
    ensures tokens { OnOk result (writer.new.tokens
        ≡ writer.old.tokens ++ flat_map (row_tokens columns.now) rows.now) }
    ensures before { writer.new.before ≡ writer.old.before }
{
    for row in rows {
        push_row(writer, columns, row.as_slice())?;
    }
    Ok(())
}

/// The rows of the answer.
#[tactic(auto, using(kob_words::proofs::Appending::appending), unfolding(crate::specs::Json::rows_tokens))]
fn push_rows(
    alloc: Global,
    writer: &mut Writer,
    judge: &Judge,
    topics: &[Text],
    question: &Question,
) -> Result<(), AllocError>
    ensures tokens { OnOk result (writer.new.tokens
        ≡ writer.old.tokens ++ rows_tokens judge.now topics.now question.now) }
    ensures before { writer.new.before ≡ writer.old.before }
{
    let rows = rows_of(alloc, judge, topics, question)?;
    writer.key("rows")?;
    writer.begin_array()?;
    push_each(writer, columns_of(question), &rows)?;
    writer.end_array()
}

#[tactic(auto, using(kob_words::proofs::Appending::appending), unfolding(crate::specs::Json::query_tokens, crate::specs::Json::kind_tokens, crate::specs::Json::answer_line))]
fn push_answer_line(
    alloc: Global,
    out: &mut Vec<u8>,
    judge: &Judge,
    topics: &[Text],
    number: u64,
    query: &Query,
) -> Result<(), AllocError>
    ensures { OnOk result (out.new.items ≡ out.old.items
        ++ answer_line judge.now topics.now number query.now) }
{
    let mut writer = Writer::new(Vec::new(alloc));
    writer.begin_object()?;
    push_number(&mut writer, number)?;
    push_question(alloc, &mut writer, query.text.as_slice())?;
    writer.key("kind")?;
    writer.string(kind_of(&query.question))?;
    push_verdict(&mut writer, judge, &query.question)?;
    push_rows(alloc, &mut writer, judge, topics, &query.question)?;
    writer.end_object()?;
    push_line(out, writer)
}

/// Prints each question with its answer, numbered from 1, an object on a line. The error is out of
/// memory; `out` has then grown by a part of them.
pub fn print_json_answers(
    alloc: Global,
    out: &mut Vec<u8>,
    judge: &Judge,
    topics: &[Text],
    queries: &[Query],
) -> Result<(), AllocError>
    ensures { OnOk result (out.new.items ≡ out.old.items
        ++ answers_json judge.now topics.now 1 queries.now) }
{
    let mut number: u64 = 1;
    for query in queries {
        push_answer_line(alloc, out, judge, topics, number, query)?;
        number += 1;
    }
    Ok(())
}

#[tactic(auto, using(kob_words::proofs::Appending::appending))]
fn push_names(writer: &mut Writer, files: &[Text]) -> Result<(), AllocError>
    ensures tokens { OnOk result
        (writer.new.tokens ≡ writer.old.tokens ++ flat_map file_tokens files.now) }
    ensures before { writer.new.before ≡ writer.old.before }
{
    for file in files {
        writer.string(file.as_str())?;
    }
    Ok(())
}

/// Prints the names of the files of a list as an object on a line.
#[tactic(auto, using(kob_words::proofs::Appending::appending), unfolding(crate::specs::Json::files_tokens))]
pub fn print_json_files(alloc: Global, out: &mut Vec<u8>, files: &[Text]) -> Result<(), AllocError>
    ensures { OnOk result (out.new.items ≡ out.old.items ++ files_line files.now) }
{
    let mut writer = Writer::new(Vec::new(alloc));
    writer.begin_object()?;
    writer.key("files")?;
    writer.begin_array()?;
    push_names(&mut writer, files)?;
    writer.end_array()?;
    writer.end_object()?;
    push_line(out, writer)
}
