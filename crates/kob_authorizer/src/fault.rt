//! Why bindings were not created.

use std::alloc::AllocError;
use thiserror::Error;

/// Why bindings were not created. The contents of the authorizer are then as before.
#[derive(Clone, Copy, Debug, PartialEq, Eq, Error)]
pub enum CreateFault {
    /// More bindings would be in force than [`BINDING_LIMIT`](crate::BINDING_LIMIT).
    #[error("too many bindings")]
    TooMany,
    /// A new binding's serial would not be below [`SERIAL_LIMIT`](crate::SERIAL_LIMIT), and there
    /// would not be too many bindings.
    #[error("no serials are left")]
    SerialsSpent,
    /// Out of memory. The limits may be exceeded as well: the new bindings are copied before they
    /// are counted.
    #[error("out of memory")]
    Memory(AllocError),
}

impl From<AllocError> for CreateFault {
    ghost use Rattle.std.specs.Prelude.{◌≡◌};
    ghost use Rattle.kob_authorizer.specs.declared.fault.CreateFault.TheVariants.{Memory};

    ghost from_gives = { λ refused fault. fault ≡ Memory refused };

    fn from(refused: AllocError) -> Self {
        CreateFault::Memory(refused)
    }
}
