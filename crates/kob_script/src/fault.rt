//! Why a script is refused.

ghost use Rattle.std.specs.Prelude.{◌≡◌, alloc_error};
ghost use Rattle.kob_script.specs.declared.fault.LineError.TheVariants as line_error;
ghost use Rattle.kob_script.specs.declared.fault.ScriptError.TheVariants as script_error;

use std::alloc::{AllocError, AllocFailed};
use thiserror::Error;

/// What is wrong with a line. The variants are in the order in which a whole line is searched for
/// them.
#[derive(Clone, Copy, Debug, PartialEq, Eq, Error)]
pub enum FaultKind {
    #[error("a percent sign without two hexadecimal digits")]
    BadEscape,
    #[error("a setting after a request")]
    LateSetting,
    #[error("an unknown command, or words that do not fit it")]
    BadLine,
    #[error("a name, a principal, a host or a word of acl that is not UTF-8")]
    BadText,
    #[error("invalid principal")]
    BadPrincipal,
    #[error("invalid host")]
    BadHost,
    #[error("invalid number: not decimal digits, or more than 64 bits")]
    BadNumber,
    #[error("an unknown permission, operation, resource or pattern")]
    BadWord,
    #[error("unknown or malformed options of kafka-acls")]
    Usage,
    #[error("not exactly one of --add, --remove and --list")]
    NoAction,
    #[error("invalid principal, host, operation or pattern type in an option")]
    BadName,
    #[error("options that may not be used together")]
    BadMix,
    #[error("missing topic, group, cluster or transactional id")]
    NoResource,
    #[error("missing principal")]
    NoPrincipal,
}

/// The first line of a script with a fault, counted from 1, and the fault's kind.
#[derive(Clone, Copy, Debug, PartialEq, Eq, Error)]
#[error("line {line}: {kind}")]
pub struct Fault {
    pub line: u64,
    pub kind: FaultKind,
}

/// Why a script was not read: its first fault, or out of memory.
#[derive(Clone, Copy, Debug, PartialEq, Eq, Error)]
pub enum ScriptError {
    #[error("out of memory")]
    Memory(AllocError),
    #[error("{0}")]
    Fault(Fault),
}

/// Why a line, or a part of it, was not read.
#[derive(Clone, Copy, Debug, PartialEq, Eq, Error)]
pub enum LineError {
    #[error("out of memory")]
    Memory(AllocError),
    #[error("{0}")]
    Fault(FaultKind),
}

impl From<FaultKind> for LineError {
    ghost from_gives = { λ kind error. error ≡ line_error.Fault kind };

    fn from(kind: FaultKind) -> LineError {
        LineError::Fault(kind)
    }
}

impl From<AllocError> for LineError {
    ghost from_gives = { λ _ error. error ≡ line_error.Memory alloc_error };

    fn from(error: AllocError) -> LineError {
        LineError::Memory(error)
    }
}

impl<T: Drop> From<AllocFailed<T>> for LineError {
    ghost from_gives = { λ _ error. error ≡ line_error.Memory alloc_error };

    fn from(failed: AllocFailed<T>) -> LineError {
        LineError::Memory(AllocError::from(failed))
    }
}

impl From<AllocError> for ScriptError {
    ghost from_gives = { λ _ error. error ≡ script_error.Memory alloc_error };

    fn from(error: AllocError) -> ScriptError {
        ScriptError::Memory(error)
    }
}
