//! Why a scene is refused.

use kob_script::{FaultKind, LineError};
use std::alloc::{AllocError, AllocFailed};
use thiserror::Error;

/// What is wrong with a line. BadEscape is checked first, over the whole line. A line of a script
/// has the kinds of scripts, in their order. The words of a worker's line are checked from left to
/// right: the name, then each part after it.
#[derive(Clone, Copy, Debug, PartialEq, Eq, Error)]
pub enum SceneFaultKind {
    /// One of the faults of scripts.
    #[error("{0}")]
    Script(FaultKind),
    #[error("unknown worker")]
    UnknownWorker,
    #[error("invalid worker name: 1 to 64 letters, digits, `-` and `_`, neither `-` nor a keyword")]
    BadWorkerName,
    #[error("duplicate worker name")]
    NameTaken,
    #[error("invalid number of partitions: not from 1 to 1,000")]
    BadPartitions,
    #[error("a consumer that fetches no record: `max` is from 1 on")]
    BadMax,
    #[error("invalid replacement or placement of a route")]
    BadRoute,
    #[error("invalid UUID")]
    BadId,
    #[error("the laws of delivery do not speak of a variant")]
    NoLaw,
}

pub(crate) const BAD_LINE: SceneFaultKind = SceneFaultKind::Script(FaultKind::BadLine);

/// The first line of a scene with a fault, counted from 1, and the fault's kind.
#[derive(Clone, Copy, Debug, Error)]
#[error("line {line}: {kind}")]
pub struct SceneFault {
    pub line: u64,
    pub kind: SceneFaultKind,
}

/// Why a scene was not read: its first fault, or out of memory.
#[derive(Clone, Copy, Debug, Error)]
pub enum SceneError {
    #[error("out of memory")]
    Memory(AllocError),
    #[error("{0}")]
    Fault(SceneFault),
}

/// Why a line of a scene was not read.
#[derive(Clone, Copy)]
pub(crate) enum StepError {
    Memory(AllocError),
    Fault(SceneFaultKind),
}

impl From<LineError> for StepError {
    ghost use Rattle.std.specs.Prelude.{◌≡◌};
    ghost use Rattle.kob_scene_text.specs.Reading.{step_error};

    ghost from_gives = { λ error made. made ≡ step_error error };

    fn from(error: LineError) -> StepError {
        match error {
            LineError::Memory(error) => StepError::Memory(error),
            LineError::Fault(kind) => StepError::Fault(SceneFaultKind::Script(kind)),
        }
    }
}

impl From<FaultKind> for StepError {
    ghost use Rattle.std.specs.Prelude.{◌≡◌};
    ghost use Rattle.kob_scene_text.specs.declared.fault.SceneFaultKind.TheVariants.{Script};
    ghost use Rattle.kob_scene_text.specs.declared.fault.StepError.TheVariants.{Fault};

    ghost from_gives = { λ kind error. error ≡ Fault (Script kind) };

    fn from(kind: FaultKind) -> StepError {
        StepError::Fault(SceneFaultKind::Script(kind))
    }
}

impl From<AllocError> for StepError {
    ghost use Rattle.std.specs.Prelude.{◌≡◌, alloc_error};
    ghost use Rattle.kob_scene_text.specs.declared.fault.StepError.TheVariants.{Memory};

    ghost from_gives = { λ _ error. error ≡ Memory alloc_error };

    fn from(error: AllocError) -> StepError {
        StepError::Memory(error)
    }
}

impl<T: Drop> From<AllocFailed<T>> for StepError {
    ghost use Rattle.std.specs.Prelude.{◌≡◌, alloc_error};
    ghost use Rattle.kob_scene_text.specs.declared.fault.StepError.TheVariants.{Memory};

    ghost from_gives = { λ _ error. error ≡ Memory alloc_error };

    fn from(failed: AllocFailed<T>) -> StepError {
        StepError::Memory(AllocError::from(failed))
    }
}
