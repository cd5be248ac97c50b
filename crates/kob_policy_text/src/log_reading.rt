//! The reading of a broker's log.

ghost use Rattle.std.specs.Prelude.{◌≡◌, IfOk, OnOk};
ghost use Rattle.kob_policy_text.specs.LogLines.{log_of, no_log, with_log_line};

use crate::log_line::{Recorded, access_of};
use bstr::ByteSlice;
use kob_script::LineError;
use std::alloc::{AllocError, Global};
use std::marker::Model;

/// An access, and the number of the line that records it.
#[derive(Drop)]
pub struct Entry {
    pub line: u64,
    pub recorded: Recorded,
}

/// What a log records: the accesses on which rules can bear, the lines of the others, and how many
/// lines there are.
#[derive(Drop)]
pub struct Log {
    pub accesses: Vec<Entry>,
    pub others: Vec<u64>,
    pub lines: u64,
}

impl Model for Log {
    ghost use Rattle.kob_policy_text.specs.LogLines as seen;

    ghost Value = { seen.Log };

    ghost view = { λ log. record {
      accesses = log.accesses.items;
      others = log.others.items;
      lines = log.lines;
    } };
}

impl Log {
    fn new(alloc: Global) -> Log
        ensures { result ≡ no_log }
    {
        Log {
            accesses: Vec::new(alloc),
            others: Vec::new(alloc),
            lines: 0,
        }
    }

    fn add_line(&mut self, alloc: Global, number: u64, line: &[u8]) -> Result<(), AllocError>
        ensures { OnOk result (self.new ≡ with_log_line number self.old line.now) }
    {
        self.lines = number;
        match access_of(alloc, line) {
            Ok(Some(recorded)) => {
                self.accesses.push(Entry {
                    line: number,
                    recorded,
                })?;
                Ok(())
            }
            Ok(None) => {
                self.others.push(number)?;
                Ok(())
            }
            Err(LineError::Fault(_)) => Ok(()),
            Err(LineError::Memory(refused)) => Err(refused),
        }
    }
}

/// The accesses that the lines of a log record. A line that records none is skipped.
pub fn read_log(alloc: Global, text: &[u8]) -> Result<Log, AllocError>
    ensures { IfOk result (λ log. log ≡ log_of text.now) }
{
    let mut log = Log::new(alloc);
    let mut number: u64 = 0;
    for line in text.lines() {
        number += 1;
        log.add_line(alloc, number, line)?;
    }
    Ok(log)
}
