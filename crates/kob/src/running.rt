//! What the command line asks for, done.

ghost use Rattle.std.specs.Prelude.{◌≡◌, ◌≢◌, ◌↔◌, [], None, map, option_map, string_bytes, unwrap_or};
ghost use Rattle.clap.specs.Words.{kind_of};
ghost use Rattle.kob.specs.CommandLine.{CanDiffer};
ghost use Rattle.kob.specs.Input.{default_form};
ghost use Rattle.kob.specs.Pages.{page_on};

use crate::ending::Ending;
use crate::help::help_on;
use crate::options::{Task, task_of};
use crate::play::{Work, do_files};
use crate::policy::answer;
use crate::report::{self, Report, tell};
use crate::topic::compare;
use crate::version::VERSION;
use clap::Error;
use clap::error::ErrorKind;
use kob_names::Text;
use kob_scene_play::Form;
use std::alloc::AllocError;
use std::io::{self, Write};
use std::rt::{Clock, Env, Files};

/// Whether standard output and standard error are terminals.
#[derive(Clone, Copy)]
pub struct Terminals {
    pub output: bool,
    pub error: bool,
}

/// Does what the command line asks for. On a terminal, answers are traced.
pub fn run<R: AllocGlobal + Clock + Env + Files + Input + Print + Eprint>(
    rt: &R,
    terminals: Terminals,
) -> Ending {
    match words_of(rt) {
        Ok(words) => run_words(rt, &words, terminals),
        Err(error) => report::refused(rt, "the command line", &error),
    }
}

fn words_of<R: AllocGlobal + Env>(rt: &R) -> io::Result<Vec<String>> {
    let mut words = Vec::new(rt.alloc());
    for word in std::env::args(rt)? {
        words.push(word)?;
    }
    Ok(words)
}

fn run_words<R: AllocGlobal + Clock + Files + Input + Print + Eprint>(
    rt: &R,
    words: &[String],
    terminals: Terminals,
) -> Ending
    ensures { result ≡ Ending.Differs → CanDiffer (map string_bytes words.now) }
{
    match task_of(rt.alloc(), words) {
        Ok(Task::Play(form, files)) => {
            let work = Work::Play {
                form: form.unwrap_or(default_form(terminals.output)),
                is_watched: terminals.error,
            };
            do_files(rt, work, files.as_slice())
        }
        Ok(Task::Export(form, service, files)) => {
            let service = service.as_ref().map(|service| service.as_str());
            do_files(rt, Work::Export(form, service), files.as_slice())
        }
        Ok(Task::Policy) => answer(rt, words.get(2..).unwrap_or(&[]), terminals.error),
        Ok(Task::Topic(files)) => compare(rt, files.as_slice()),
        Ok(Task::Help(subject)) => help(rt, subject.as_ref()),
        Ok(Task::Version) => show(rt, VERSION),
        Err(refused) => say(rt, &refused),
    }
}

/// The form of answers for which no option asks.
fn default_form(is_terminal: bool) -> Form
    ensures { result ≡ default_form is_terminal }
{
    if is_terminal {
        Form::Trace
    } else {
        Form::Plain
    }
}

/// Prints a page of help.
fn help<R: Print + Eprint>(rt: &R, subject: Option<&Text>) -> Ending
    ensures unknown { page_on (unwrap_or (option_map (λ name. name.now) subject.entry) []) ≡ None
        → result ≡ Ending.Failed }
    ensures differs { result ≢ Ending.Differs }
{
    let subject = subject.map_or("", |subject| subject.as_str());
    match help_on(subject) {
        Some(text) => show(rt, text),
        None => tell(rt, Report::NoHelp(subject)),
    }
}

fn show<R: Print + Eprint>(rt: &R, text: &str) -> Ending
    ensures { result ≢ Ending.Differs }
{
    match io::writer(rt).write_all(text.as_bytes()) {
        Ok(()) => Ending::Whole,
        Err(error) => report::refused(rt, "standard output", &error),
    }
}

/// Prints the help, or what is wrong with the words. They end well only with the page of help that
/// they ask for.
pub fn say<R: Print + Eprint>(rt: &R, refused: &Error) -> Ending
    ensures help { result ≡ Ending.Whole → kind_of refused.now ≡ ErrorKind.DisplayHelp }
    ensures memory { (result ≡ Ending.OutOfMemory) ↔ (kind_of refused.now ≡ ErrorKind.OutOfMemory) }
    ensures others { result ≢ Ending.Differs }
{
    let printed = refused.print(rt);
    match refused.kind() {
        ErrorKind::DisplayHelp if printed.is_ok() => Ending::Whole,
        ErrorKind::OutOfMemory => Ending::OutOfMemory,
        _ => Ending::Failed,
    }
}
