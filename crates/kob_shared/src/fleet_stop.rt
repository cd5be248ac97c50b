//! Why fleets stop before the journal is compared.

use std::alloc::{AllocError, AllocFailed};

/// Why a fleet stopped before its journal was compared.
#[derive(Clone, Copy, Debug, PartialEq, Eq)]
pub enum FleetStop {
    /// A thread could not be started.
    NotBegun,
    Memory(AllocError),
    Stale { worker: usize, length: usize },
    /// A session found the journal full.
    Full { worker: usize },
}

impl From<AllocError> for FleetStop {
    ghost use Rattle.std.specs.Prelude.{◌≡◌};
    ghost use Rattle.kob_shared.specs.declared.fleet_stop.FleetStop.TheVariants.{Memory};

    ghost from_gives = { λ refused fault. fault ≡ Memory refused };

    fn from(refused: AllocError) -> FleetStop {
        FleetStop::Memory(refused)
    }
}

impl<T: Drop> From<AllocFailed<T>> for FleetStop {
    ghost use Rattle.std.specs.Prelude.{◌≡◌, alloc_error};
    ghost use Rattle.kob_shared.specs.declared.fleet_stop.FleetStop.TheVariants.{Memory};

    ghost from_gives = { λ _ fault. fault ≡ Memory alloc_error };

    fn from(refused: AllocFailed<T>) -> FleetStop {
        FleetStop::Memory(AllocError::from(refused))
    }
}
