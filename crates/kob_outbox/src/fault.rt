//! Faults of calls on an outbox.

use crate::fields::Column;
use sqlite::{Error, ErrorCode};
use std::alloc::AllocError;
use thiserror::Error as Fault;

/// Why a call failed that can fail only in the database.
#[derive(Clone, Copy, Debug, PartialEq, Eq, Fault)]
pub enum OutboxFault {
    #[error("out of memory")]
    Memory(AllocError),
    /// The database failed for another cause than out of memory.
    #[error("the database failed")]
    Store,
}

/// Why an event was not recorded.
#[derive(Clone, Copy, Debug, PartialEq, Eq, Fault)]
pub enum RecordFault {
    /// The text for this column is too long or has a zero byte; the first such column is named.
    #[error("a text is too long or has a zero byte")]
    BadField(Column),
    /// An event with this id was recorded before. It may have been swept since.
    #[error("the event's id was recorded before")]
    DuplicateId,
    #[error("out of memory")]
    Memory(AllocError),
    /// The database failed for another cause than out of memory, or all numbers are used.
    #[error("the database failed")]
    Store,
}

/// Why the mark was not moved.
#[derive(Clone, Copy, Debug, PartialEq, Eq, Fault)]
pub enum MarkFault {
    /// The number is less than the mark.
    #[error("the mark cannot move backwards")]
    Backwards,
    /// The number is greater than the last one that was used.
    #[error("no event has this number yet")]
    Ahead,
    #[error("out of memory")]
    Memory(AllocError),
    /// The database failed for another cause than out of memory.
    #[error("the database failed")]
    Store,
}

impl From<Error> for OutboxFault {
    ghost use Rattle.std.specs.Prelude.{◌≡◌};
    ghost use Rattle.kob_outbox.specs.Faults.{fault_of};

    ghost from_gives = { λ error fault. fault ≡ fault_of error };

    fn from(error: Error) -> OutboxFault {
        match error {
            Error::SqliteFailure(ErrorCode::OutOfMemory) => OutboxFault::Memory(AllocError),
            _ => OutboxFault::Store,
        }
    }
}

impl From<OutboxFault> for MarkFault {
    ghost use Rattle.std.specs.Prelude.{◌≡◌};
    ghost use Rattle.kob_outbox.specs.Faults.{mark_fault};

    ghost from_gives = { λ fault e. e ≡ mark_fault fault };

    fn from(fault: OutboxFault) -> MarkFault {
        match fault {
            OutboxFault::Memory(refused) => MarkFault::Memory(refused),
            OutboxFault::Store => MarkFault::Store,
        }
    }
}

impl From<OutboxFault> for RecordFault {
    ghost use Rattle.std.specs.Prelude.{◌≡◌};
    ghost use Rattle.kob_outbox.specs.Faults.{record_fault};

    ghost from_gives = { λ fault e. e ≡ record_fault fault };

    fn from(fault: OutboxFault) -> RecordFault {
        match fault {
            OutboxFault::Memory(refused) => RecordFault::Memory(refused),
            OutboxFault::Store => RecordFault::Store,
        }
    }
}
