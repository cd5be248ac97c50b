//! Writing in pieces: texts are held until there are 65,536 bytes of them.

ghost use Rattle.std.specs.Prelude.{◌≡◌, ◌≤◌, ◌++◌, vec_len, vec_capacity};
ghost use Rattle.std.specs.Prelude.{OnOk, OnErr};
ghost use Rattle.std.specs.Io.KnownBytes.{Appends};
ghost use Rattle.kob_script.specs.Printed.{stopped_text};
ghost use Rattle.kob_script_run.specs.Output.{piece_limit, AppendsPart, AppendsAllBut};

use crate::limits::PIECE_LIMIT;
use crate::transfer::write_all;
use crate::writing::WriteFailed;
use itoa::Buffer;
use std::io::Write;

/// Appends a text to what is held. If there would be more than 65,536 bytes, what is held is
/// written first, and the text too if it alone is longer. Does not allocate.
pub fn put<W: Write>(writer: &mut W, held: &mut Vec<u8>, text: &[u8]) -> Result<(), WriteFailed>
    requires piece { vec_len held.old ≤ piece_limit }
    requires room { piece_limit ≤ vec_capacity held.old }
    ensures piece { vec_len held.new ≤ piece_limit }
    ensures room { piece_limit ≤ vec_capacity held.new }
    ensures put { OnOk result (AppendsAllBut (W.contents writer.old)
        (W.contents writer.new) (held.old.items ++ text.now) held.new.items) }
    ensures part { OnErr result (AppendsPart (W.contents writer.old)
        (W.contents writer.new) (held.old.items ++ text.now)) }
{
    if text.len() <= PIECE_LIMIT - held.len() {
        held.extend_from_slice(text).unwrap();
        return Ok(());
    }
    write_all(writer, held)?;
    held.clear();
    if text.len() > PIECE_LIMIT {
        return write_all(writer, text);
    }
    held.extend_from_slice(text).unwrap();
    Ok(())
}

/// Writes what is held, and then the line `stopped after DONE` with its line feed.
pub fn write_stopped<W: Write>(
    writer: &mut W,
    held: &mut Vec<u8>,
    done: u64,
) -> Result<(), WriteFailed>
    requires piece { vec_len held.old ≤ piece_limit }
    requires room { piece_limit ≤ vec_capacity held.old }
    ensures whole { OnOk result (Appends (W.contents writer.old)
        (W.contents writer.new) (held.old.items ++ stopped_text done)) }
    ensures part { OnErr result (AppendsPart (W.contents writer.old)
        (W.contents writer.new) (held.old.items ++ stopped_text done)) }
{
    let mut digits = Buffer::new();
    put(writer, held, b"stopped after ")?;
    put(writer, held, digits.format(done).as_bytes())?;
    put(writer, held, b"\n")?;
    write_all(writer, held)
}
