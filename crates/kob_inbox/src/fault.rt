//! Faults of calls on an inbox.

use kob_outbox::OutboxFault;
use sqlite::Error;
use std::alloc::AllocError;
use thiserror::Error as Fault;

/// Why a call failed that can fail only in the database.
#[derive(Clone, Copy, Debug, PartialEq, Eq, Fault)]
pub enum InboxFault {
    #[error("out of memory")]
    Memory(AllocError),
    /// The database failed for another cause than out of memory, or all places are used.
    #[error("the database failed")]
    Store,
}

impl From<Error> for InboxFault {
    ghost use Rattle.std.specs.Prelude.{◌≡◌};
    ghost use Rattle.kob_inbox.specs.Contents.{fault_of};

    ghost from_gives = { λ error fault. fault ≡ fault_of error };

    fn from(error: Error) -> InboxFault {
        match OutboxFault::from(error) {
            OutboxFault::Memory(refused) => InboxFault::Memory(refused),
            OutboxFault::Store => InboxFault::Store,
        }
    }
}
