//! A topic of a cluster, compared with the rows of an outbox.

ghost use Rattle.std.specs.Prelude.{◌≡◌, ◌≢◌, ◌++◌, IfErr, IfOk, IsErr, Ok, OnOk, length};
ghost use Rattle.kob.specs.Ending.{IsFailure, ending_of_changes, ending_of_list};
ghost use Rattle.kob_policy_text.specs.Encoding.{plain_text};
ghost use Rattle.kob_topic_check.specs.Findings.{counts_text, findings_text};

use crate::ending::Ending;
use crate::input::{Kind, text_of};
use crate::report::{self, FileReport, Report, tell, tell_file};
use kob_names::Text;
use kob_policy_text::plain_text;
use kob_script::ScriptError;
use kob_topic_check::{
    ReadError, Record, Row, print_counts, print_findings, read_records, read_rows,
};
use std::alloc::{AllocError, Global};
use std::io::{self, Write};
use std::rt::Files;

/// Compares the rows of an outbox with the records of a topic, a file each: prints how many there
/// are, and a line for each event that is missing, doubled, unknown, out of order or apart.
pub fn compare<R: AllocGlobal + Files + Input + Print + Eprint>(rt: &R, files: &[Text]) -> Ending
    ensures { length files.now ≢ 2 → result ≡ Ending.Failed }
{
    let [rows, records] = files else {
        return tell(rt, Report::NoLists);
    };
    match compared(rt, rows.as_str(), records.as_str()) {
        Ok(ending) | Err(ending) => ending,
    }
}

fn compared<R: AllocGlobal + Files + Input + Print + Eprint>(
    rt: &R,
    rows: &str,
    records: &str,
) -> Result<Ending, Ending>
    ensures { IfErr result IsFailure }
{
    let rows = rows_of(rt, rows)?;
    let name = records;
    let records = records_of(rt, name)?;
    let mut out = Vec::new(rt.alloc());
    let ending = match push_report(rt.alloc(), &mut out, &rows, &records) {
        Ok(ending) => ending,
        Err(refused) => return Err(tell(rt, Report::OutOfMemory(name, refused))),
    };
    match io::writer(rt).write_all(&out) {
        Ok(()) => Ok(ending),
        Err(error) => Err(report::refused(rt, "standard output", &error)),
    }
}

fn rows_of<R: AllocGlobal + Files + Input + Eprint>(rt: &R, name: &str) -> Result<Vec<Row>, Ending>
    ensures { IfErr result IsFailure }
{
    let text = list_of(rt, name)?;
    match read_rows(rt.alloc(), &text) {
        Ok(rows) => Ok(rows),
        Err(error) => Err(fault_of(rt, name, error, "ID,KEY")),
    }
}

fn records_of<R: AllocGlobal + Files + Input + Eprint>(
    rt: &R,
    name: &str,
) -> Result<Vec<Record>, Ending>
    ensures { IfErr result IsFailure }
{
    let text = list_of(rt, name)?;
    match read_records(rt.alloc(), &text) {
        Ok(records) => Ok(records),
        Err(error) => {
            let form = "Partition:PARTITION, Offset:OFFSET and headers with id:ID, tabs between";
            Err(fault_of(rt, name, error, form))
        }
    }
}

/// The text of a list in UTF-8, without a byte order mark.
fn list_of<R: AllocGlobal + Files + Input + Eprint>(rt: &R, name: &str) -> Result<Vec<u8>, Ending>
    ensures { IfErr result IsFailure }
{
    match text_of(rt, Kind::List, name) {
        Ok(text) => plain_list(rt, name, &text),
        Err(fault) => Err(report::unread(rt, name, &fault)),
    }
}

/// The bytes of a list as UTF-8: UTF-16 is read behind its byte order mark.
fn plain_list<R: AllocGlobal + Eprint>(rt: &R, name: &str, text: &[u8]) -> Result<Vec<u8>, Ending>
    ensures plain { IfOk result (λ plain. plain_text text.now ≡ Ok plain.items) }
    ensures refused { IfErr result (λ ending. ending ≢ Ending.OutOfMemory
        → (ending ≡ Ending.Failed) × IsErr (plain_text text.now)) }
    ensures failure { IfErr result IsFailure }
{
    match plain_text(rt.alloc(), text) {
        Ok(plain) => Ok(plain),
        Err(ScriptError::Memory(refused)) => Err(tell(rt, Report::OutOfMemory(name, refused))),
        Err(ScriptError::Fault(fault)) => {
            let line = fault.line;
            let form = "UTF-8, or UTF-16 of whole characters";
            Err(tell_file(rt, FileReport::Unlike { name, line, form }))
        }
    }
}

fn fault_of(rt: &impl Eprint, name: &str, error: ReadError, form: &str) -> Ending
    ensures ending { result ≡ ending_of_list error }
    ensures failure { IsFailure result }
{
    match error {
        ReadError::Memory(refused) => tell(rt, Report::OutOfMemory(name, refused)),
        ReadError::Line(line) => tell_file(rt, FileReport::Unlike { name, line, form }),
    }
}

/// The numbers of rows and of records, and what is wrong with the topic.
fn push_report(
    alloc: Global,
    out: &mut Vec<u8>,
    rows: &[Row],
    records: &[Record],
) -> Result<Ending, AllocError>
    ensures printed { OnOk result (out.new.items ≡ (out.old.items
        ++ counts_text rows.now records.now) ++ findings_text rows.now records.now) }
    ensures ending { IfOk result (λ ending. ending
        ≡ ending_of_changes (findings_text rows.now records.now)) }
{
    print_counts(out, rows, records)?;
    let kept = out.len();
    print_findings(alloc, out, rows, records)?;
    if out.len() == kept {
        Ok(Ending::Whole)
    } else {
        Ok(Ending::Differs)
    }
}
