//! Sessions of a shared broker, by texts.

ghost use Rattle.std.specs.Prelude.{◌≡◌, IfOk};
ghost use Rattle.kob_shared.specs.Journals.{entry_limit, new_seat, place_limit};

use kob_connections::ProgramFault;
use kob_names::{Host, Principal};
use kob_shared::{RotatingBroker, Session, SharedBroker};
use std::alloc::Global;

/// A session of a worker, for the principal at the host that these texts name. The error is out of
/// memory, or `BadText` if a text is not a valid principal or host.
pub fn session_of<'a>(
    alloc: Global,
    shared: &'a SharedBroker,
    worker: usize,
    principal: &str,
    host: &str,
) -> Result<Session<'a>, ProgramFault>
    ensures { IfOk result (λ session. session
        ≡ new_seat worker principal.now host.now entry_limit) }
{
    let principal = Principal::parse(alloc, principal)?;
    let host = Host::parse(alloc, host)?;
    Ok(shared.session(worker, principal, host))
}

/// The same over a broker whose journal is handed out from time to time.
pub fn rotating_session_of<'a>(
    alloc: Global,
    shared: &'a RotatingBroker,
    worker: usize,
    principal: &str,
    host: &str,
) -> Result<Session<'a>, ProgramFault>
    ensures { IfOk result (λ session. session
        ≡ new_seat worker principal.now host.now place_limit) }
{
    let principal = Principal::parse(alloc, principal)?;
    let host = Host::parse(alloc, host)?;
    Ok(shared.session(worker, principal, host))
}
