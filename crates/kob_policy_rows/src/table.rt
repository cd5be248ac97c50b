//! Rows as comma-separated values (RFC 4180).

ghost use Rattle.std.specs.Prelude.{◌≡◌, ◌++◌, OnOk, flat_map};
ghost use Rattle.std.specs.List.{list_any};
ghost use Rattle.kob_policy_rows.specs.Csv.{answers_csv};
ghost use Rattle.kob_policy_rows.specs.Csv.{behind_comma, cell_text, cells_text};
ghost use Rattle.kob_policy_rows.specs.Csv.{is_special, name_behind_comma, names_text};
ghost use Rattle.kob_policy_rows.specs.Csv.{quoted_byte, row_line, table_text, words_text};

use crate::cell::Cell;
use crate::columns::{Column, column_name, columns_of};
use crate::rows::rows_of;
use kob_names::{Items, Text};
use kob_policy_text::{Judge, Query};
use kob_words::push_number;
use std::alloc::{AllocError, Global};

fn has_special(text: &[u8]) -> bool
    ensures { result ≡ list_any is_special text.now }
{
    text.iter()
        .any(|byte| matches!(*byte, b',' | b'"' | b'\r' | b'\n'))
}

#[tactic(auto, using(kob_words::proofs::Appending::appending))]
fn push_bytes(out: &mut Vec<u8>, text: &[u8]) -> Result<(), AllocError>
    ensures { OnOk result (out.new.items ≡ out.old.items ++ flat_map quoted_byte text.now) }
{
    for byte in text {
        if *byte == b'"' {
            out.extend_from_slice(b"\"\"")?;
        } else {
            out.extend_from_slice(&[*byte])?;
        }
    }
    Ok(())
}

/// A text, between quotes where it has a comma, a quote or the end of a line.
#[tactic(auto, using(kob_words::proofs::Appending::appending))]
fn push_words(out: &mut Vec<u8>, text: &[u8]) -> Result<(), AllocError>
    ensures { OnOk result (out.new.items ≡ out.old.items ++ words_text text.now) }
{
    if !has_special(text) {
        return out.extend_from_slice(text);
    }
    out.extend_from_slice(b"\"")?;
    push_bytes(out, text)?;
    out.extend_from_slice(b"\"")
}

fn push_cell(out: &mut Vec<u8>, cell: &Cell) -> Result<(), AllocError>
    ensures { OnOk result (out.new.items ≡ out.old.items ++ cell_text cell.now) }
{
    match cell {
        Cell::Words(text) => push_words(out, text.as_str().as_bytes()),
        Cell::Number(number) => push_number(out, *number),
        Cell::Flag(true) => out.extend_from_slice(b"true"),
        Cell::Flag(false) => out.extend_from_slice(b"false"),
        Cell::Nothing => Ok(()),
    }
}

#[tactic(auto, using(kob_words::proofs::Appending::appending))]
fn push_others(out: &mut Vec<u8>, cells: &[Cell]) -> Result<(), AllocError>
    ensures { OnOk result (out.new.items ≡ out.old.items ++ flat_map behind_comma cells.now) }
{
    for cell in cells {
        out.extend_from_slice(b",")?;
        push_cell(out, cell)?;
    }
    Ok(())
}

#[tactic(auto, using(kob_words::proofs::Appending::appending))]
fn push_cells(out: &mut Vec<u8>, row: &[Cell]) -> Result<(), AllocError>
    ensures { OnOk result (out.new.items ≡ out.old.items ++ cells_text row.now) }
{
    match row {
        [] => Ok(()),
        [first, others @ ..] => {
            push_cell(out, first)?;
            push_others(out, others)
        }
    }
}

#[tactic(auto, using(kob_words::proofs::Appending::appending))]
fn push_other_names(out: &mut Vec<u8>, columns: &[Column]) -> Result<(), AllocError>
    ensures { OnOk result
        (out.new.items ≡ out.old.items ++ flat_map name_behind_comma columns.now) }
{
    for column in columns {
        out.extend_from_slice(b",")?;
        out.extend_from_slice(column_name(*column).as_bytes())?;
    }
    Ok(())
}

#[tactic(auto, using(kob_words::proofs::Appending::appending))]
fn push_names(out: &mut Vec<u8>, columns: &[Column]) -> Result<(), AllocError>
    ensures { OnOk result (out.new.items ≡ out.old.items ++ names_text columns.now) }
{
    match columns {
        [] => Ok(()),
        [first, others @ ..] => {
            out.extend_from_slice(column_name(*first).as_bytes())?;
            push_other_names(out, others)
        }
    }
}

#[tactic(auto, using(kob_words::proofs::Appending::appending), unfolding(crate::specs::Csv::row_line))]
fn push_rows(out: &mut Vec<u8>, rows: &[Items<Cell>]) -> Result<(), AllocError>
    ensures { OnOk result (out.new.items ≡ out.old.items ++ flat_map row_line rows.now) }
{
    for row in rows {
        push_cells(out, row.as_slice())?;
        out.extend_from_slice(b"\r\n")?;
    }
    Ok(())
}

/// Prints a line with the names of the columns, and a line for each row. The error is out of
/// memory; `out` has then grown by a part of them.
#[tactic(auto, using(kob_words::proofs::Appending::appending), unfolding(crate::specs::Csv::head_line))]
pub fn print_csv(
    out: &mut Vec<u8>,
    columns: &[Column],
    rows: &[Items<Cell>],
) -> Result<(), AllocError>
    ensures { OnOk result (out.new.items ≡ out.old.items ++ table_text columns.now rows.now) }
{
    push_names(out, columns)?;
    out.extend_from_slice(b"\r\n")?;
    push_rows(out, rows)
}

/// Prints the table of each answer, with the names of its columns. The error is out of memory;
/// `out` has then grown by a part of them.
#[tactic(auto, using(kob_words::proofs::Appending::appending), unfolding(crate::specs::Csv::answer_text))]
pub fn print_csv_answers(
    alloc: Global,
    out: &mut Vec<u8>,
    judge: &Judge,
    topics: &[Text],
    queries: &[Query],
) -> Result<(), AllocError>
    ensures { OnOk result
        (out.new.items ≡ out.old.items ++ answers_csv judge.now topics.now queries.now) }
{
    for query in queries {
        let rows = rows_of(alloc, judge, topics, &query.question)?;
        print_csv(out, columns_of(&query.question), &rows)?;
    }
    Ok(())
}
