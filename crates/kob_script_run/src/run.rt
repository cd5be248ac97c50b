//! A run of a script, from its bytes to its output.

ghost use Rattle.kob_script_run.specs.Output.{IsEnd};

use crate::fault::RunFault;
use crate::output::{Ended, write_output};
use crate::source::Source;
use crate::transfer::read_all;
use std::alloc::Global;
use std::io::{Read, Write};

/// Reads a script to its end, runs it, and writes its output and nothing else. A script has at most
/// 16,777,216 bytes (otherwise `TooLong`). A reader that has not reached its end after 20,000,000
/// calls is `ReadFailed`.
#[tactic(auto, using(crate::proofs::Ends::not_read, crate::proofs::Ends::written, crate::proofs::Ends::not_written))]
pub fn run_text<R: Read, W: Write>(
    alloc: Global,
    reader: &mut R,
    writer: &mut W,
) -> Result<Ended, RunFault>
    ensures { IsEnd (R.remaining reader.old) (W.contents writer.old) (W.contents writer.new) result }
{
    let blocks = match read_all(alloc, &mut Source::new(reader)) {
        Ok(blocks) => blocks,
        Err(fault) => return Err(RunFault::from(fault)),
    };
    match write_output(alloc, writer, blocks) {
        Ok(ended) => Ok(ended),
        Err(fault) => Err(RunFault::from(fault)),
    }
}
