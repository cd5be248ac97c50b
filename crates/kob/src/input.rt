//! A text, read whole from a file or from standard input, which is called `-`.

ghost use Rattle.std.specs.Prelude.{◌≡◌, ◌≤◌, ◌↔◌, length, true, IfOk, IfSome};
ghost use Rattle.kob.specs.Input.{IsMissing, limit_of, too_long};

use std::alloc::Global;
use std::fs;
use std::io::{self, ErrorKind, Read};
use std::rt::Files;
use thiserror::Error;

/// What a text is for, which says how long it may be.
#[derive(Clone, Copy)]
pub enum Kind {
    /// A scene or a script: 16,777,216 bytes.
    Scene,
    /// A list of bindings or of questions: 67,108,864 bytes.
    List,
}

impl Kind {
    /// The maximum length of such a text, in bytes.
    pub fn limit(self) -> usize
        ensures { result ≡ limit_of self }
    {
        match self {
            Kind::Scene => 16_777_216,
            Kind::List => 67_108_864,
        }
    }

    fn too_long(self) -> InputFault
        ensures { result ≡ too_long self }
    {
        match self {
            Kind::Scene => InputFault::SceneTooLong,
            Kind::List => InputFault::ListTooLong,
        }
    }
}

/// Why a text was not read.
#[derive(Debug, Drop, Error)]
pub enum InputFault {
    #[error("{0}")]
    Failed(io::Error),
    #[error("has more than 16,777,216 bytes")]
    SceneTooLong,
    #[error("has more than 67,108,864 bytes")]
    ListTooLong,
}

impl InputFault {
    /// Whether there is no such file.
    pub fn is_missing(&self) -> bool
        ensures { (result ≡ true) ↔ IsMissing self.now }
    {
        match self {
            InputFault::Failed(error) => error.kind() == ErrorKind::NotFound,
            InputFault::SceneTooLong | InputFault::ListTooLong => false,
        }
    }
}

/// The text of a file, or of standard input for `-`.
pub fn text_of<R: AllocGlobal + Files + Input>(
    rt: &R,
    kind: Kind,
    file: &str,
) -> Result<Vec<u8>, InputFault>
    ensures limited { IfOk result (λ text. length text.items ≤ limit_of kind) }
{
    if file == "-" {
        return read_text(rt.alloc(), kind, rt.reader());
    }
    match fs::open(rt, file) {
        Ok(reader) => read_text(rt.alloc(), kind, reader),
        Err(error) => Err(InputFault::Failed(error)),
    }
}

/// Reads to the end. At most one byte more than the limit is read.
fn read_text<R: Read + Drop>(alloc: Global, kind: Kind, reader: R) -> Result<Vec<u8>, InputFault>
    ensures bytes { IfOk result (λ text. IfSome (R.remaining reader) (λ bytes. text.items ≡ bytes)) }
    ensures limited { IfOk result (λ text. length text.items ≤ limit_of kind) }
{
    let limit = kind.limit();
    let mut text = Vec::new(alloc);
    let mut limited = reader.take(limit as u64 + 1);
    match limited.read_to_end(&mut text) {
        Ok(_) if text.len() <= limit => Ok(text),
        Ok(_) => Err(kind.too_long()),
        Err(error) => Err(InputFault::Failed(error)),
    }
}
