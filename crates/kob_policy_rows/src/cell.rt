//! The cells of a row.

ghost use Rattle.std.specs.Prelude.{◌≡◌, ◌++◌, [], ◌∷◌, OnOk};
ghost use Rattle.kob_policy_rows.specs.Cells.{number_cell};

use kob_names::{Items, Text};
use std::alloc::{AllocError, Global};

/// What is in a row below the name of a column.
#[derive(Drop)]
pub enum Cell {
    Words(Text),
    Number(u64),
    Flag(bool),
    /// There is nothing to say.
    Nothing,
}

/// Puts a text at the end of a row.
pub(crate) fn push_words(alloc: Global, row: &mut Vec<Cell>, text: &str) -> Result<(), AllocError>
    ensures { OnOk result (row.new.items ≡ row.old.items ++ Cell.Words text.now ∷ []) }
{
    row.push(Cell::Words(Text::copied(alloc, text)?))?;
    Ok(())
}

pub(crate) fn push_number(row: &mut Vec<Cell>, number: u64) -> Result<(), AllocError>
    ensures { OnOk result (row.new.items ≡ row.old.items ++ Cell.Number number ∷ []) }
{
    row.push(Cell::Number(number))?;
    Ok(())
}

pub(crate) fn push_flag(row: &mut Vec<Cell>, yes: bool) -> Result<(), AllocError>
    ensures { OnOk result (row.new.items ≡ row.old.items ++ Cell.Flag yes ∷ []) }
{
    row.push(Cell::Flag(yes))?;
    Ok(())
}

pub(crate) fn push_nothing(row: &mut Vec<Cell>) -> Result<(), AllocError>
    ensures { OnOk result (row.new.items ≡ row.old.items ++ Cell.Nothing ∷ []) }
{
    row.push(Cell::Nothing)?;
    Ok(())
}

/// A number, if there is one.
pub(crate) fn push_number_cell(row: &mut Vec<Cell>, number: Option<u64>) -> Result<(), AllocError>
    ensures { OnOk result (row.new.items ≡ row.old.items ++ number_cell number ∷ []) }
{
    match number {
        Some(number) => push_number(row, number),
        None => push_nothing(row),
    }
}

/// Puts a whole row at the end of a table.
pub(crate) fn push_row(rows: &mut Vec<Items<Cell>>, row: Vec<Cell>) -> Result<(), AllocError>
    ensures { OnOk result (rows.new.items ≡ rows.old.items ++ row.items ∷ []) }
{
    rows.push(Items::from_vec(row))?;
    Ok(())
}
