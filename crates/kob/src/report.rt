//! What is reported on standard error: `kob: WHAT`, a line each, and how a report ends.

ghost use Rattle.std.specs.Prelude.{◌≡◌, ◌≢◌, IsErr, false};
ghost use Rattle.kob.specs.Ending.{EndsRefused, EndsUnread, IsFailure, ending_of_fault};
ghost use Rattle.kob.specs.Reports.{ending_of_file, ending_of_report};

use crate::ending::{Ending, ending_of_fault};
use crate::input::InputFault;
use kob_scene_play::PlayFault;
use std::alloc::AllocError;
use std::fmt;
use std::io::{self, ErrorKind, Write};

/// A line on standard error.
#[derive(Clone, Copy)]
pub enum Report<'a> {
    /// Lines above the first heading of a list, and other settings of a broker, that were skipped.
    Skipped(usize),
    /// Bindings that were left out, for which no question is answered.
    LeftOut(usize),
    /// No commands, since what is left out would be in none.
    NoCommands,
    /// A question beside `--commands`.
    BesideCommands,
    /// Settings that no command changes.
    OtherSettings,
    /// A question beside `--csv` whose answer is a yes or a no.
    NoTable(&'a str),
    /// Not one table beside `--csv`.
    SeveralTables,
    /// Other than two lists for a topic.
    NoLists,
    /// More bindings than can be in force.
    TooMany,
    /// Out of memory while something was done for a text.
    OutOfMemory(&'a str, AllocError),
    /// A subject that has no page of help.
    NoHelp(&'a str),
    /// On one file.
    File(FileReport<'a>),
}

/// A line on standard error about one file.
#[derive(Clone, Copy)]
pub enum FileReport<'a> {
    /// A scene without a service, of which a connector is asked.
    NoService(&'a str),
    /// A scene with several services, of which the connector of one is asked.
    SeveralServices(&'a str),
    /// A scene that has no service of this name.
    UnknownService {
        name: &'a str,
        service: &'a str,
    },
    /// The variant of a service, which an export doesn't have.
    Variant {
        name: &'a str,
        service: &'a str,
        words: &'a str,
    },
    /// How many things are not as they were expected to be, and the line of the first.
    Unmet {
        name: &'a str,
        count: u64,
        line: u64,
    },
    /// A line of a list that is not of the list's form.
    Unlike {
        name: &'a str,
        line: u64,
        form: &'a str,
    },
}

impl fmt::Display for Report<'_> {
    ghost use Rattle.kob.specs.Reports.{report_text};

    ghost output = { λ report. report_text report };

    fn fmt<W: fmt::Write>(&self, f: &mut fmt::Formatter<W>) -> fmt::Result {
        match self {
            Report::Skipped(count) => {
                write!(f, "kob: skipped lines that hold no access rule: {count}")
            }
            Report::LeftOut(count) => {
                write!(
                    f,
                    "kob: bindings left out: {count}; --skip answers without them"
                )
            }
            Report::NoCommands => f.write_str(
                "kob: --commands: bindings are left out, and no command does what they do",
            ),
            Report::BesideCommands => f.write_str("kob: --commands: a question is asked beside it"),
            Report::OtherSettings => f.write_str(
                "kob: --commands: super users or everyone differ; commands change bindings alone",
            ),
            Report::NoTable(question) => {
                write!(f, "kob: --csv: the answer is no table: {question}")
            }
            Report::SeveralTables => f.write_str(
                "kob: --csv: prints one table: the answer to one question, or what changes",
            ),
            Report::NoLists => {
                f.write_str("kob: topic: two files are expected: kob topic ROWS RECORDS")
            }
            Report::TooMany => f.write_str("kob: more than 100,000 different bindings"),
            Report::OutOfMemory(name, _) => write!(f, "kob: {name}: out of memory"),
            Report::NoHelp(subject) => {
                write!(f, "kob: no help on {subject}; kob help lists the subjects")
            }
            Report::File(report) => report.fmt(f),
        }
    }
}

impl fmt::Display for FileReport<'_> {
    ghost use Rattle.kob.specs.Reports.{file_text};

    ghost output = { λ report. file_text report };

    fn fmt<W: fmt::Write>(&self, f: &mut fmt::Formatter<W>) -> fmt::Result {
        match self {
            FileReport::NoService(name) => write!(f, "kob: {name}: no service, so no connector"),
            FileReport::SeveralServices(name) => {
                write!(
                    f,
                    "kob: {name}: several services; --service NAME exports the one of that name"
                )
            }
            FileReport::UnknownService { name, service } => {
                write!(f, "kob: {name}: no service {service}")
            }
            FileReport::Variant {
                name,
                service,
                words,
            } => {
                write!(
                    f,
                    "kob: {name}: the variant of {service} is not exported: {words}"
                )
            }
            FileReport::Unmet { name, count, line } => {
                write!(
                    f,
                    "kob: {name}: expectations not met: {count}, the first in line {line}"
                )
            }
            FileReport::Unlike { name, line, form } => {
                write!(f, "kob: {name}: line {line}: expected {form}")
            }
        }
    }
}

/// Writes a report, and returns how it ends.
pub fn tell(rt: &impl Eprint, report: Report<'_>) -> Ending
    ensures { result ≡ ending_of_report report.entry }
{
    let _ = eprintln!(rt; "{report}");
    match report {
        Report::Skipped(_) | Report::OtherSettings => Ending::Whole,
        Report::File(FileReport::Variant { .. }) => Ending::Whole,
        Report::File(FileReport::Unmet { .. }) => Ending::Differs,
        Report::OutOfMemory(..) => Ending::OutOfMemory,
        _ => Ending::Failed,
    }
}

/// The same of a file.
pub fn tell_file(rt: &impl Eprint, report: FileReport<'_>) -> Ending
    ensures { result ≡ ending_of_file report.entry }
{
    tell(rt, Report::File(report))
}

/// A text that was not read.
pub fn unread(rt: &impl Eprint, name: &str, fault: &InputFault) -> Ending
    ensures ending { EndsUnread fault.now result }
    ensures failure { IsFailure result }
{
    let _ = eprintln!(rt; "kob: {name}: {fault}");
    match fault {
        InputFault::Failed(error) => ending_of(error),
        InputFault::SceneTooLong | InputFault::ListTooLong => Ending::Failed,
    }
}

/// Something that the system refused.
pub fn refused(rt: &impl Eprint, name: &str, error: &io::Error) -> Ending
    ensures ending { EndsRefused error.now result }
    ensures failure { IsFailure result }
{
    let _ = eprintln!(rt; "kob: {name}: {error}");
    ending_of(error)
}

fn ending_of(error: &io::Error) -> Ending
    ensures ending { EndsRefused error.now result }
    ensures failure { IsFailure result }
{
    if error.kind() == ErrorKind::OutOfMemory {
        Ending::OutOfMemory
    } else {
        Ending::Failed
    }
}

/// A scene that stopped.
pub fn stopped(rt: &impl Eprint, name: &str, fault: PlayFault) -> Ending
    ensures { result ≡ ending_of_fault fault }
{
    let _ = eprintln!(rt; "kob: {name}: {fault}");
    ending_of_fault(fault)
}

/// A fault, by its own text.
pub fn fault<F: fmt::Display + Drop>(rt: &impl Eprint, name: &str, fault: F) -> Ending
    ensures { result ≡ Ending.Failed }
{
    let _ = eprintln!(rt; "kob: {name}: {fault}");
    Ending::Failed
}

/// Writes a whole output.
pub fn write<R: Print + Eprint>(rt: &R, name: &str, out: &[u8]) -> Ending
    ensures { result ≢ Ending.Differs }
{
    match io::writer(rt).write_all(out) {
        Ok(()) => Ending::Whole,
        Err(_) => stopped(rt, name, PlayFault::WriteFailed),
    }
}

/// Writes whole lines that were made, unless memory ran out for them. Returns whether it did.
pub fn tell_lines(rt: &impl Eprint, made: Result<(), AllocError>, text: &[u8]) -> bool
    ensures { IsErr made → result ≡ false }
{
    match (made, str::from_utf8(text)) {
        (Ok(()), Ok(text)) => eprint!(rt; "{text}").is_ok(),
        _ => false,
    }
}
