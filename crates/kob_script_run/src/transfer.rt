//! Reading a whole script and writing a whole text.

ghost use Rattle.std.specs.List.{concat};
ghost use Rattle.std.specs.Prelude.{◌≡◌, ◌<◌, ◌≤◌, length, IfOk, IfSome, IsErrOf, OnErr, OnOk};
ghost use Rattle.std.specs.Io.KnownBytes.{Appends};
ghost use Rattle.kob_script.specs.Script.{AreWholeLines};
ghost use Rattle.kob_script_run.specs.Output.{script_limit, AppendsPart};

use crate::fault::InputFault;
use crate::input::Input;
use crate::limits::SCRIPT_LIMIT;
use crate::source::Source;
use crate::writing::{WriteFailed, write_some};
use kob_names::Bytes;
use std::alloc::Global;
use std::io::{Read, Write};

/// All that the reader has left, at most 16,777,216 bytes of it, in blocks of whole lines.
pub fn read_all<R: Read>(
    alloc: Global,
    source: &mut Source<'_, R>,
) -> Result<Vec<Bytes>, InputFault>
    ensures whole { IfOk result (λ blocks. IfSome (R.remaining source.old.reader.now)
        (λ bytes. concat blocks.items ≡ bytes)) }
    ensures lines { IfOk result (λ blocks. AreWholeLines blocks.items) }
    ensures limited { IfOk result (λ blocks. length (concat blocks.items) ≤ script_limit) }
    ensures too_long { IsErrOf result InputFault.TooLong
        → IfSome (R.remaining source.old.reader.now) (λ bytes. script_limit < length bytes) }
{
    let mut input = Input::new(alloc)?;
    let mut left = SCRIPT_LIMIT;
    let mut piece = [0; 4096];
    loop {
        let count = source.read(&mut piece)?;
        if count == 0 {
            return Ok(input.into_blocks()?);
        }
        if left < count {
            return Err(InputFault::TooLong);
        }
        left -= count;
        input.push(alloc, &piece[..count])?;
    }
}

/// Writes all of the text. After a failure the writer has accepted a prefix of it, and not all.
pub fn write_all<W: Write>(writer: &mut W, text: &[u8]) -> Result<(), WriteFailed>
    ensures whole { OnOk result (Appends (W.contents writer.old) (W.contents writer.new) text.now) }
    ensures part { OnErr result
        (AppendsPart (W.contents writer.old) (W.contents writer.new) text.now) }
{
    let mut rest = text;
    while !rest.is_empty() {
        let count = write_some(writer, rest)?;
        rest = &rest[count..];
    }
    Ok(())
}
