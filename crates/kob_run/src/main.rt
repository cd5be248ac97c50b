//! A broker that serves the script on its standard input.
#![tactic(auto)]

ghost use Rattle.std.specs.Prelude.{◌≡◌};
ghost use Rattle.kob_run.specs.Status.{status_of};

use kob_script_run::{Ended, RunFault, run_text};
use std::env::FillError;
use std::io;
use std::process::ExitCode;
use std::rt::Env;

fn main(rt: HostRuntime) -> ExitCode {
    if is_given_words(&rt) {
        let _ = eprintln!(rt; "kob_run takes no words: it serves the script on standard input");
        return ExitCode::from(1);
    }
    let ended = run_text(rt.alloc(), &mut rt.reader(), &mut io::writer(&rt));
    ExitCode::from(status_of(ended))
}

/// Whether the command line has a word after the program's name.
fn is_given_words(rt: &impl Env) -> bool {
    !matches!(rt.arg(1, &mut []), Err(FillError::NotPresent))
}

/// 0 for a script that was served to its end, 2 for out of memory, and 1 for every other end.
fn status_of(ended: Result<Ended, RunFault>) -> u8
    ensures { result ≡ status_of ended }
{
    match ended {
        Ok(Ended::Clean) => 0,
        Ok(Ended::Fault) => 1,
        Ok(Ended::Stopped) | Err(RunFault::Memory(_)) => 2,
        Err(RunFault::ReadFailed | RunFault::WriteFailed | RunFault::TooLong) => 1,
    }
}
