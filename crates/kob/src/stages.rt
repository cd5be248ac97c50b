//! What `kob policy` does next, on standard error, where work is long.

ghost use Rattle.std.specs.Prelude.{◌≡◌, ◌≤◌, false, true};
ghost use Rattle.kob.specs.Stages.{bindings_of};

use std::fmt;
use std::rt::Clock;
use std::time::{Duration, Instant};

/// The seconds after which each further stage is reported.
const PATIENCE: u64 = 2;

/// Lists of at least so many bindings are reported at once.
const MANY: usize = 10_000;

/// What is done next.
#[derive(Clone, Copy)]
pub enum Stage<'a> {
    /// A file of so many bytes is read, after so many bindings.
    Read {
        file: &'a str,
        bytes: usize,
        bindings: usize,
    },
    /// A list of so many bindings is put into force.
    Open(usize),
    /// Two lists are compared.
    Compare {
        before: usize,
        after: usize,
    },
    /// Questions are answered about so many bindings.
    Answer {
        questions: usize,
        bindings: usize,
    },
}

impl fmt::Display for Stage<'_> {
    fn fmt<W: fmt::Write>(&self, f: &mut fmt::Formatter<W>) -> fmt::Result {
        match self {
            Stage::Read {
                file,
                bytes,
                bindings,
            } => write!(
                f,
                "kob: {file}: reading {bytes} bytes, {bindings} bindings so far"
            ),
            Stage::Open(bindings) => write!(f, "kob: putting {bindings} bindings into force"),
            Stage::Compare { before, after } => {
                write!(f, "kob: comparing {before} bindings with {after}")
            }
            Stage::Answer {
                questions,
                bindings,
            } => write!(
                f,
                "kob: answering {questions} questions about {bindings} bindings"
            ),
        }
    }
}

/// When the stages began; none if they are not to be reported.
#[derive(Clone, Copy)]
pub struct Stages {
    pub begun: Option<Instant>,
}

impl Stages {
    /// The stages that begin now, which are reported if `is_watched`.
    pub fn begin<R: Clock>(rt: &R, is_watched: bool) -> Stages
        ensures { is_watched ≡ false → result.begun ≡ None }
    {
        let begun = if is_watched {
            Instant::now(rt).ok()
        } else {
            None
        };
        Stages { begun }
    }

    /// Reports what is done next, if it is long. Returns whether it did.
    pub fn tell<R: Clock + Eprint>(self, rt: &R, stage: Stage<'_>) -> bool
        ensures { self.begun ≡ None → result ≡ false }
    {
        match self.begun {
            Some(begun) if is_long(rt, begun, bindings_of(stage)) => {
                eprintln!(rt; "{stage}").is_ok()
            }
            _ => false,
        }
    }
}

/// The bindings that the work is about, of two lists the longer one's.
fn bindings_of(stage: Stage<'_>) -> usize
    ensures { result ≡ bindings_of stage.entry }
{
    match stage {
        Stage::Read { bindings, .. } => bindings,
        Stage::Open(bindings) => bindings,
        Stage::Compare { before, after } => before.max(after),
        Stage::Answer { bindings, .. } => bindings,
    }
}

fn is_long<R: Clock>(rt: &R, begun: Instant, bindings: usize) -> bool
    ensures { 10000 ≤ bindings → result ≡ true }
{
    bindings >= MANY
        || Instant::now(rt).is_ok_and(|now| now.duration_since(begun)
            >= Duration::from_secs(PATIENCE))
}
