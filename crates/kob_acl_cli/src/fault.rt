//! Why a command line is refused.

ghost use Rattle.std.specs.Prelude.{◌≡◌, alloc_error};
ghost use Rattle.kob_acl_cli.specs.declared.fault.CommandFault.TheVariants as command;
ghost use Rattle.kob_acl_cli.specs.declared.fault.LineFault.TheVariants as line;

use kob_names::Text;
use std::alloc::{AllocError, AllocFailed};
use thiserror::Error;

/// Why words are not valid options.
#[derive(Clone, Copy, Debug, PartialEq, Eq, Error)]
pub enum LineFault {
    #[error("unknown or malformed options")]
    Usage,
    #[error("out of memory")]
    Memory(AllocError),
}

/// Why options are not a valid command. The first fault that applies is returned, in the order of
/// the variants.
#[derive(Debug, PartialEq, Eq, Error, Drop)]
pub enum CommandFault {
    #[error("exactly one of --add, --remove and --list is required")]
    NoAction,
    #[error("invalid principal, host, operation or pattern type")]
    BadName(Text),
    #[error("these options may not be used together")]
    BadMix,
    #[error("a topic, group, cluster or transactional id is required")]
    NoResource,
    #[error("a principal is required")]
    NoPrincipal,
    #[error("out of memory")]
    Memory(AllocError),
}

impl From<AllocError> for LineFault {
    ghost from_gives = { λ _ fault. fault ≡ line.Memory alloc_error };

    fn from(error: AllocError) -> LineFault {
        LineFault::Memory(error)
    }
}

impl From<AllocError> for CommandFault {
    ghost from_gives = { λ _ fault. fault ≡ command.Memory alloc_error };

    fn from(error: AllocError) -> CommandFault {
        CommandFault::Memory(error)
    }
}

impl<T: Drop> From<AllocFailed<T>> for CommandFault {
    ghost from_gives = { λ _ fault. fault ≡ command.Memory alloc_error };

    fn from(failed: AllocFailed<T>) -> CommandFault {
        CommandFault::Memory(AllocError::from(failed))
    }
}
