//! What a run writes for a script.

ghost use Rattle.std.specs.List.{concat};
ghost use Rattle.std.specs.Prelude.{◌≤◌, Err, length};
ghost use Rattle.kob_script_run.specs.Output.{script_limit, IsWritten, IsWrittenOf};
ghost use Rattle.kob_script.specs.Script.{AreWholeLines};

use crate::fault::OutputFault;
use crate::replies::write_run;
use crate::transfer::write_all;
use kob_names::Bytes;
use kob_script::{Fault, ScriptError, check_script, print_fault};
use std::alloc::Global;
use std::io::Write;

/// How a run ended whose output was written.
#[derive(Clone, Copy, Debug, PartialEq, Eq)]
pub enum Ended {
    /// All requests were served.
    Clean,
    /// The script has a fault, and nothing was served.
    Fault,
    /// Out of memory stopped the run after some of the requests.
    Stopped,
}

/// Runs a script in blocks of whole lines and writes its output. `Memory` is returned only before
/// the first request.
pub fn write_output<W: Write>(
    alloc: Global,
    writer: &mut W,
    blocks: Vec<Bytes>,
) -> Result<Ended, OutputFault>
    requires whole { AreWholeLines blocks.items }
    requires short { length (concat blocks.items) ≤ script_limit }
    ensures { IsWrittenOf (concat blocks.items) (W.contents writer.old) (W.contents writer.new)
        result }
{
    match check_script(alloc, blocks) {
        Ok(script) => write_run(alloc, writer, script),
        Err(ScriptError::Memory(error)) => Err(OutputFault::Memory(error)),
        Err(ScriptError::Fault(fault)) => write_fault(alloc, writer, fault),
    }
}

fn write_fault<W: Write>(alloc: Global, writer: &mut W, fault: Fault) -> Result<Ended, OutputFault>
    ensures { IsWritten (Err fault) (W.contents writer.old) (W.contents writer.new) result }
{
    let mut text = Vec::new(alloc);
    if let Err(error) = print_fault(&mut text, fault) {
        return Err(OutputFault::Memory(error));
    }
    match write_all(writer, &text) {
        Ok(()) => Ok(Ended::Fault),
        Err(failed) => Err(OutputFault::WriteFailed(failed)),
    }
}
