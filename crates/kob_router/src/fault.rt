//! Why a route, or a row's record, could not be made.

use kob_names::TopicNameFault;
use std::alloc::{AllocError, AllocFailed};
use thiserror::Error;

/// Why settings are not a valid route.
#[derive(Clone, Copy, Debug, PartialEq, Eq, Error)]
pub enum RouteFault {
    #[error("the replacement is empty, or has a `$` that does not begin `${{routedByValue}}`")]
    BadTemplate,
    #[error("invalid placement: at most 16 entries `column:header:alias` are allowed")]
    BadPlacement,
    #[error("out of memory")]
    Memory(AllocError),
}

/// Why no record can be made of a row.
#[derive(Clone, Copy, Debug, PartialEq, Eq, Error)]
pub enum RecordFault {
    #[error("the route makes an invalid topic name")]
    BadTopic,
    #[error("out of memory")]
    Memory(AllocError),
}

impl From<AllocError> for RouteFault {
    ghost use Rattle.std.specs.Prelude.{◌≡◌};
    ghost use Rattle.kob_router.specs.declared.fault.RouteFault.TheVariants.{Memory};

    ghost from_gives = { λ refused fault. fault ≡ Memory refused };

    fn from(refused: AllocError) -> RouteFault {
        RouteFault::Memory(refused)
    }
}

impl<T: Drop> From<AllocFailed<T>> for RouteFault {
    ghost use Rattle.std.specs.Prelude.{◌≡◌, alloc_error};
    ghost use Rattle.kob_router.specs.declared.fault.RouteFault.TheVariants.{Memory};

    ghost from_gives = { λ _ fault. fault ≡ Memory alloc_error };

    fn from(refused: AllocFailed<T>) -> RouteFault {
        RouteFault::Memory(AllocError::from(refused))
    }
}

impl From<AllocError> for RecordFault {
    ghost use Rattle.std.specs.Prelude.{◌≡◌};
    ghost use Rattle.kob_router.specs.declared.fault.RecordFault.TheVariants.{Memory};

    ghost from_gives = { λ refused fault. fault ≡ Memory refused };

    fn from(refused: AllocError) -> RecordFault {
        RecordFault::Memory(refused)
    }
}
