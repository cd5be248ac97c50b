//! The reading of the lists.

ghost use Rattle.std.specs.Prelude.{◌≡◌, ◌++◌, ◌∷◌, [], Err, Ok, OnOk};
ghost use Rattle.kob_topic_check.specs.Reads.{Reads};
ghost use Rattle.kob_topic_check.specs.Lists.{records_in, rows_in};

use crate::record::{Record, record_of};
use crate::row::{Row, row_of};
use bstr::ByteSlice;
use std::alloc::{AllocError, Global};

/// Why a list is not read.
#[derive(Clone, Copy, Debug)]
pub enum ReadError {
    Memory(AllocError),
    /// The first line that is none of the list's; the first line of a list is 1.
    Line(u64),
}

impl From<AllocError> for ReadError {
    ghost use Rattle.kob_topic_check.specs.declared.reading.ReadError.TheVariants.{Memory};

    ghost from_gives = { λ refused error. error ≡ Memory refused };

    fn from(refused: AllocError) -> ReadError {
        ReadError::Memory(refused)
    }
}

/// The rows of an outbox, in the order in which they were recorded: a line each, with the id, a
/// comma or a tab, and the key. The error is the first line that is none, or out of memory.
pub fn read_rows(alloc: Global, text: &[u8]) -> Result<Vec<Row>, ReadError>
    ensures { Reads (λ items. items.items) result (rows_in text.now) }
{
    let mut rows = Vec::new(alloc);
    let mut number: u64 = 0;
    for line in text.lines() {
        number += 1;
        match row_of(alloc, line)? {
            Some(row) => add(&mut rows, row)?,
            None => return Err(ReadError::Line(number)),
        }
    }
    Ok(rows)
}

/// The records of a topic, in the order of the list: a line each, as `kafka-console-consumer`
/// prints it with partition, offset and headers. The error is the first line that is none, or out
/// of memory.
pub fn read_records(alloc: Global, text: &[u8]) -> Result<Vec<Record>, ReadError>
    ensures { Reads (λ items. items.items) result (records_in text.now) }
{
    let mut records = Vec::new(alloc);
    let mut number: u64 = 0;
    for line in text.lines() {
        number += 1;
        match record_of(line) {
            Some(record) => add(&mut records, record)?,
            None => return Err(ReadError::Line(number)),
        }
    }
    Ok(records)
}

fn add<T: Drop>(items: &mut Vec<T>, item: T) -> Result<(), AllocError>
    ensures { OnOk result (items.new.items ≡ items.old.items ++ item ∷ []) }
{
    Ok(items.push(item)?)
}
