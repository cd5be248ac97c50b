//! A reader with a limit on its calls.

ghost use Rattle.std.specs.Prelude.{◌≡◌, ◌-◌, ◌<◌, ◌≤◌, length, take, OnOk, IfErr, IfOk};
ghost use Rattle.std.specs.declared.io.ErrorKind.TheVariants as kind;
ghost use Rattle.kob_script_run.specs.declared.source.Cause.TheVariants as cause;
ghost use Rattle.std.specs.Io.KnownBytes.{Consumes, IsAtEnd};
ghost use Rattle.kob_script_run.specs.Output.{read_limit};

use crate::limits::READ_LIMIT;
use std::io::{ErrorKind, Read};

/// A reader, and how many calls of it are left.
#[derive(Drop)]
pub struct Source<'a, R> {
    reader: &'a mut R,
    calls_left: u32,
}

/// Why nothing was read. Only this module makes one.
#[derive(Clone, Copy, Debug, PartialEq, Eq)]
pub struct ReadFailed(Cause);

#[derive(Clone, Copy, Debug, PartialEq, Eq)]
enum Cause {
    /// No call of the reader was left.
    Spent,
    /// A call of the reader failed, for another cause than an interruption.
    Failed(ErrorKind),
}

impl<'a, R: Read> Source<'a, R> {
    /// A reader of which all calls are left.
    pub fn new(reader: &'a mut R) -> Source<'a, R>
        ensures reader { R.remaining result.reader.now ≡ R.remaining reader.old }
        ensures calls { result.calls_left ≡ read_limit }
    {
        Source {
            reader,
            calls_left: READ_LIMIT,
        }
    }

    /// The next bytes, put at the front of the piece; their number is 0 at the end of the reader.
    /// An interrupted call is made again, while calls are left; after another failure there is no
    /// call.
    pub fn read(&mut self, piece: &mut [u8]) -> Result<usize, ReadFailed>
        ensures calls { self.new.calls_left ≤ self.old.calls_left - 1 }
        ensures left { OnOk result (0 < self.old.calls_left) }
        ensures spent { IfErr result (λ failed. failed.0 ≡ cause.Spent
            → self.new.calls_left ≡ 0) }
        ensures failed { IfErr result (λ failed. failed.0 ≡ cause.Failed kind.Interrupted → ⊥) }
        ensures bound { IfOk result (λ count. count ≤ length piece.new) }
        ensures length { length piece.new ≡ length piece.old }
        ensures bytes { IfOk result (λ count. Consumes (R.remaining self.old.reader.now)
            (R.remaining self.new.reader.now) (take count piece.new)) }
        ensures end { IfOk result (λ count. count ≡ 0 → 0 < length piece.new
            → IsAtEnd (R.remaining self.new.reader.now)) }
    {
        while self.calls_left > 0 {
            self.calls_left -= 1;
            match self.reader.read(piece) {
                Ok(count) => return Ok(count),
                Err(error) => match error.kind() {
                    ErrorKind::Interrupted => {}
                    kind => return Err(ReadFailed(Cause::Failed(kind))),
                },
            }
        }
        Err(ReadFailed(Cause::Spent))
    }
}
