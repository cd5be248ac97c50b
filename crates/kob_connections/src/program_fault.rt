//! One fault for a program that runs services and consumers.

ghost use Rattle.std.specs.Prelude.{◌≡◌, alloc_error};
ghost use Rattle.kob_connections.specs.declared.program_fault.ProgramFault.TheVariants.{Memory};
ghost use Rattle.kob_connections.specs.ProgramFaults.{fault_of_call, fault_of_host, fault_of_inbox};
ghost use Rattle.kob_connections.specs.ProgramFaults.{fault_of_opening, fault_of_outbox};
ghost use Rattle.kob_connections.specs.ProgramFaults.{fault_of_principal};
ghost use Rattle.kob_connections.specs.ProgramFaults.{fault_of_record, fault_of_route};

use kob_broker::OpenFault;
use kob_inbox::InboxFault;
use kob_names::{HostFault, PrincipalFault};
use kob_outbox::{OutboxFault, RecordFault};
use kob_router::RouteFault;
use kob_shared::CallFault;
use std::alloc::{AllocError, AllocFailed};
use std::io;
use thiserror::Error;

/// Why a program that runs services and consumers did not do its work. Each fault that their calls
/// return converts to it, so that `?` takes them all.
#[derive(Clone, Copy, Debug, PartialEq, Eq, Error)]
pub enum ProgramFault {
    #[error("out of memory")]
    Memory(AllocError),
    /// A text is not a valid principal, host, route or other value.
    #[error("invalid text")]
    BadText,
    /// There are too many opening bindings, or the program found a fault before it began.
    #[error("the work could not be started")]
    NotBegun,
    /// A text of the event is too long or has a zero byte, or its id was recorded before.
    #[error("an event cannot be recorded")]
    NotRecorded,
    #[error("a database failed")]
    Store,
    /// The journal is full.
    #[error("a request was not served")]
    NotServed,
    /// The program found a fault after it began: no fault converts to it.
    #[error("the work was not finished")]
    Stopped,
    #[error("the output could not be written")]
    WriteFailed,
}

impl From<AllocError> for ProgramFault {
    ghost from_gives = { λ refused fault. fault ≡ Memory refused };

    fn from(refused: AllocError) -> ProgramFault {
        ProgramFault::Memory(refused)
    }
}

impl<T: Drop> From<AllocFailed<T>> for ProgramFault {
    ghost from_gives = { λ _ fault. fault ≡ Memory alloc_error };

    fn from(refused: AllocFailed<T>) -> ProgramFault {
        ProgramFault::Memory(AllocError::from(refused))
    }
}

impl From<PrincipalFault> for ProgramFault {
    ghost from_gives = { λ given fault. fault ≡ fault_of_principal given };

    fn from(fault: PrincipalFault) -> ProgramFault {
        match fault {
            PrincipalFault::Memory(refused) => ProgramFault::Memory(refused),
            _ => ProgramFault::BadText,
        }
    }
}

impl From<HostFault> for ProgramFault {
    ghost from_gives = { λ given fault. fault ≡ fault_of_host given };

    fn from(fault: HostFault) -> ProgramFault {
        match fault {
            HostFault::Memory(refused) => ProgramFault::Memory(refused),
            _ => ProgramFault::BadText,
        }
    }
}

impl From<RouteFault> for ProgramFault {
    ghost from_gives = { λ given fault. fault ≡ fault_of_route given };

    fn from(fault: RouteFault) -> ProgramFault {
        match fault {
            RouteFault::Memory(refused) => ProgramFault::Memory(refused),
            _ => ProgramFault::BadText,
        }
    }
}

impl From<OpenFault> for ProgramFault {
    ghost from_gives = { λ given fault. fault ≡ fault_of_opening given };

    fn from(fault: OpenFault) -> ProgramFault {
        match fault {
            OpenFault::Memory(refused) => ProgramFault::Memory(refused),
            OpenFault::TooMany => ProgramFault::NotBegun,
        }
    }
}

impl From<RecordFault> for ProgramFault {
    ghost from_gives = { λ given fault. fault ≡ fault_of_record given };

    fn from(fault: RecordFault) -> ProgramFault {
        match fault {
            RecordFault::Memory(refused) => ProgramFault::Memory(refused),
            RecordFault::Store => ProgramFault::Store,
            RecordFault::BadField(_) | RecordFault::DuplicateId => ProgramFault::NotRecorded,
        }
    }
}

impl From<OutboxFault> for ProgramFault {
    ghost from_gives = { λ given fault. fault ≡ fault_of_outbox given };

    fn from(fault: OutboxFault) -> ProgramFault {
        match fault {
            OutboxFault::Memory(refused) => ProgramFault::Memory(refused),
            OutboxFault::Store => ProgramFault::Store,
        }
    }
}

impl From<InboxFault> for ProgramFault {
    ghost from_gives = { λ given fault. fault ≡ fault_of_inbox given };

    fn from(fault: InboxFault) -> ProgramFault {
        match fault {
            InboxFault::Memory(refused) => ProgramFault::Memory(refused),
            InboxFault::Store => ProgramFault::Store,
        }
    }
}

impl From<CallFault> for ProgramFault {
    ghost from_gives = { λ given fault. fault ≡ fault_of_call given };

    fn from(fault: CallFault) -> ProgramFault {
        match fault {
            CallFault::Memory(refused) => ProgramFault::Memory(refused),
            CallFault::JournalFull | CallFault::Stale { .. } => ProgramFault::NotServed,
        }
    }
}

impl From<io::Error> for ProgramFault {
    fn from(_error: io::Error) -> ProgramFault {
        ProgramFault::WriteFailed
    }
}
