//! Calls of a writer.

ghost use Rattle.std.specs.Prelude.{◌<◌, ◌≤◌, length, take, OnErr, OnOk, IfOk};
ghost use Rattle.std.specs.Io.KnownBytes.{Appends, Keeps};

use crate::limits::WRITE_LIMIT;
use std::io::{ErrorKind, Write};

/// A call of the writer failed, wrote nothing, or was interrupted 1,000,000 times. Only this module
/// makes one.
#[derive(Clone, Copy, Debug, PartialEq, Eq)]
pub struct WriteFailed(());

/// Writes some of the text, and returns the number of bytes. An interrupted call is made again, up to
/// 1,000,000 calls; after another failure there is no call.
/// For an empty text the writer is not called.
pub fn write_some<W: Write>(writer: &mut W, text: &[u8]) -> Result<usize, WriteFailed>
    ensures bound { IfOk result (λ count. count ≤ length text.now) }
    ensures some { IfOk result (λ count. 0 < length text.now → 0 < count) }
    ensures nothing { OnErr result (0 < length text.now) }
    ensures taken { IfOk result (λ count. Appends (W.contents writer.old)
        (W.contents writer.new) (take count text.now)) }
    ensures kept { OnErr result (Keeps (W.contents writer.old) (W.contents writer.new)) }
{
    if text.is_empty() {
        return Ok(0);
    }
    for _ in 0..WRITE_LIMIT {
        match writer.write(text) {
            Ok(count) if count > 0 => return Ok(count),
            Err(error) if error.kind() == ErrorKind::Interrupted => {}
            _ => break,
        }
    }
    Err(WriteFailed(()))
}
