//! Why a run has no whole output.

use crate::source::ReadFailed;
use crate::writing::WriteFailed;
use std::alloc::AllocError;
use thiserror::Error;

/// Why a run did not write its whole output.
#[derive(Clone, Copy, Debug, PartialEq, Eq, Error)]
pub enum RunFault {
    #[error("the script could not be read")]
    ReadFailed,
    #[error("the output could not be written")]
    WriteFailed,
    #[error("the script is too long")]
    TooLong,
    #[error("out of memory")]
    Memory(AllocError),
}

/// Why a script was not read.
#[derive(Clone, Copy, Debug, PartialEq, Eq)]
pub enum InputFault {
    ReadFailed(ReadFailed),
    TooLong,
    Memory(AllocError),
}

/// Why the output of a script that was read was not written.
#[derive(Clone, Copy, Debug, PartialEq, Eq)]
pub enum OutputFault {
    WriteFailed(WriteFailed),
    Memory(AllocError),
}

impl From<InputFault> for RunFault {
    ghost use Rattle.std.specs.Prelude.{◌≡◌};
    ghost use Rattle.kob_script_run.specs.Output.{unread};

    ghost from_gives = { λ input fault. fault ≡ unread input };

    fn from(fault: InputFault) -> RunFault {
        match fault {
            InputFault::ReadFailed(_) => RunFault::ReadFailed,
            InputFault::TooLong => RunFault::TooLong,
            InputFault::Memory(error) => RunFault::Memory(error),
        }
    }
}

impl From<OutputFault> for RunFault {
    ghost use Rattle.std.specs.Prelude.{◌≡◌};
    ghost use Rattle.kob_script_run.specs.Output.{unwritten};

    ghost from_gives = { λ output fault. fault ≡ unwritten output };

    fn from(fault: OutputFault) -> RunFault {
        match fault {
            OutputFault::WriteFailed(_) => RunFault::WriteFailed,
            OutputFault::Memory(error) => RunFault::Memory(error),
        }
    }
}

impl From<AllocError> for InputFault {
    ghost use Rattle.std.specs.Prelude.{◌≡◌, alloc_error};
    ghost use Rattle.kob_script_run.specs.declared.fault.InputFault.TheVariants.{Memory};

    ghost from_gives = { λ _ fault. fault ≡ Memory alloc_error };

    fn from(error: AllocError) -> InputFault {
        InputFault::Memory(error)
    }
}

impl From<ReadFailed> for InputFault {
    ghost use Rattle.std.specs.Prelude.{◌≡◌};
    ghost use Rattle.kob_script_run.specs.declared.fault.InputFault.TheVariants as variant;

    ghost from_gives = { λ failed fault. fault ≡ variant.ReadFailed failed };

    fn from(failed: ReadFailed) -> InputFault {
        InputFault::ReadFailed(failed)
    }
}
