//! The answer about a broker's log as JSON.

ghost use Rattle.std.specs.Prelude.{◌≡◌, ◌++◌, IfOk, OnOk};
ghost use Rattle.kob_policy_rows.specs.Logs.{array_tokens, count_tokens};
ghost use Rattle.kob_policy_rows.specs.Logs.{listed_tokens, log_line};
ghost use Rattle.kob_policy_text.specs.LogAnswers.{differs};

use crate::cell::Cell;
use crate::columns::{Column, access_columns, binding_columns, column_name};
use crate::log_rows::{push_idle_in, push_otherwise};
use crate::objects::{push_each, push_line, push_number, push_question};
use json::Writer;
use kob_names::Items;
use kob_policy_text::{Entry, Judge, any_otherwise, otherwise_count, read_log, skipped_lines};
use std::alloc::{AllocError, Global};

#[tactic(auto, using(kob_words::proofs::Appending::appending), unfolding(crate::specs::Logs::array_tokens))]
fn push_array(
    writer: &mut Writer,
    name: &str,
    columns: &[Column],
    rows: &[Items<Cell>],
) -> Result<(), AllocError>
    ensures tokens { OnOk result
        (writer.new.tokens ≡ writer.old.tokens ++ array_tokens name.now columns.now rows.now) }
    ensures before { writer.new.before ≡ writer.old.before }
{
    writer.key(name)?;
    writer.begin_array()?;
    push_each(writer, columns, rows)?;
    writer.end_array()
}

#[tactic(auto, using(kob_words::proofs::Appending::appending), unfolding(crate::specs::Logs::count_tokens))]
fn push_count(writer: &mut Writer, column: Column, count: usize) -> Result<(), AllocError>
    ensures tokens { OnOk result
        (writer.new.tokens ≡ writer.old.tokens ++ count_tokens column count) }
    ensures before { writer.new.before ≡ writer.old.before }
{
    writer.key(column_name(column))?;
    writer.u64(count as u64)
}

#[tactic(auto, using(kob_words::proofs::Appending::appending), unfolding(crate::specs::Logs::listed_tokens))]
fn push_listed(
    alloc: Global,
    writer: &mut Writer,
    judge: &Judge,
    accesses: &[Entry],
) -> Result<(), AllocError>
    ensures tokens { OnOk result
        (writer.new.tokens ≡ writer.old.tokens ++ listed_tokens judge.now accesses.now) }
    ensures before { writer.new.before ≡ writer.old.before }
{
    let mut rows = Vec::new(alloc);
    push_otherwise(alloc, &mut rows, judge, accesses)?;
    push_array(writer, "rows", access_columns(), &rows)?;
    let mut idle = Vec::new(alloc);
    push_idle_in(alloc, &mut idle, judge, accesses)?;
    push_array(writer, "idle", binding_columns(), &idle)
}

/// Prints the answer about the text of a broker's log as an object on a line. Returns whether some
/// access is decided otherwise than is recorded. The error is out of memory; `out` has then grown
/// by a part of the line.
#[tactic(auto, using(kob_words::proofs::Appending::appending), unfolding(crate::specs::Logs::asked_tokens, crate::specs::Logs::counts_tokens))]
pub fn print_json_log(
    alloc: Global,
    out: &mut Vec<u8>,
    judge: &Judge,
    number: u64,
    file: &str,
    text: &[u8],
) -> Result<bool, AllocError>
    ensures printed { OnOk result (out.new.items
        ≡ out.old.items ++ log_line judge.now number file.now text.now) }
    ensures differs { IfOk result (λ found. found ≡ differs judge.now text.now) }
{
    let log = read_log(alloc, text)?;
    let mut writer = Writer::new(Vec::new(alloc));
    writer.begin_object()?;
    let mut question = Vec::new(alloc);
    question.extend_from_slice(b"log ")?;
    question.extend_from_slice(file.as_bytes())?;
    push_number(&mut writer, number)?;
    push_question(alloc, &mut writer, &question)?;
    writer.key("kind")?;
    writer.string("log")?;
    push_count(&mut writer, Column::Accesses, log.accesses.len())?;
    push_count(
        &mut writer,
        Column::Otherwise,
        otherwise_count(judge, &log.accesses),
    )?;
    push_count(&mut writer, Column::LeftOut, log.others.len())?;
    push_count(&mut writer, Column::SkippedLines, skipped_lines(&log))?;
    push_listed(alloc, &mut writer, judge, &log.accesses)?;
    writer.end_object()?;
    push_line(out, writer)?;
    Ok(any_otherwise(judge, &log.accesses))
}
