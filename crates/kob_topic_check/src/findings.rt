//! What is wrong with a topic.

ghost use Rattle.std.specs.Prelude.{◌≡◌, ◌++◌, [], OnOk};
ghost use Rattle.kob_topic_check.specs.Findings.{counts_text, findings_text, records_text};
ghost use Rattle.kob_topic_check.specs.Findings.{rows_text};

use crate::firsts::{first_of, firsts_of, ids_of, record_at};
use crate::printed::{push_event, push_row};
use crate::record::Record;
use crate::row::Row;
use kob_words::push_number;
use std::alloc::{AllocError, Global};
use std::collections::HashMap;

/// Prints a line for each row whose event is in no record, for each row whose first record stands
/// before that of the last row of its key that has one, or in another partition, for each record
/// whose event has a record before it, and for each whose event is in no row. The records of a
/// partition are compared by their offsets. The error is out of memory; `out` has then grown by a
/// part of the lines.
#[tactic(auto, using(kob_words::proofs::Appending::appending))]
pub fn print_findings(
    alloc: Global,
    out: &mut Vec<u8>,
    rows: &[Row],
    records: &[Record],
) -> Result<(), AllocError>
    ensures { OnOk result (out.new.items ≡ out.old.items ++ findings_text rows.now records.now) }
{
    push_rows(alloc, out, rows, records)?;
    push_records(alloc, out, rows, records)
}

/// Prints how many rows and records there are.
#[tactic(auto, using(kob_words::proofs::Appending::appending))]
pub fn print_counts(out: &mut Vec<u8>, rows: &[Row], records: &[Record]) -> Result<(), AllocError>
    ensures { OnOk result (out.new.items ≡ out.old.items ++ counts_text rows.now records.now) }
{
    out.extend_from_slice(b"rows ")?;
    push_number(out, rows.len() as u64)?;
    out.extend_from_slice(b" records ")?;
    push_number(out, records.len() as u64)?;
    out.extend_from_slice(b"\n")
}

fn push_rows(
    alloc: Global,
    out: &mut Vec<u8>,
    rows: &[Row],
    records: &[Record],
) -> Result<(), AllocError>
    ensures { OnOk result (out.new.items ≡ out.old.items ++ rows_text records.now [] rows.now) }
{
    let firsts = firsts_of(alloc, records)?;
    let mut last = HashMap::new(alloc);
    for row in rows {
        let id = row.id.as_u128();
        match first_of(&firsts, id) {
            Some(first) => {
                let earlier = last.insert(row.key.as_str(), id)?;
                push_row(out, row, Some(first), record_at(&firsts, earlier))?;
            }
            None => push_row(out, row, None, None)?,
        }
    }
    Ok(())
}

fn push_records(
    alloc: Global,
    out: &mut Vec<u8>,
    rows: &[Row],
    records: &[Record],
) -> Result<(), AllocError>
    ensures { OnOk result (out.new.items ≡ out.old.items ++ records_text rows.now [] records.now) }
{
    let ids = ids_of(alloc, rows)?;
    let mut last = HashMap::new(alloc);
    for record in records {
        let id = record.id.as_u128();
        let known = ids.contains(&id);
        let earlier = last.insert(id, *record)?;
        push_event(out, *record, known, earlier)?;
    }
    Ok(())
}
