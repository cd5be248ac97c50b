//! The event that a worker makes of a request.

ghost use Rattle.std.specs.Prelude.{◌≡◌, IfOk};
ghost use Rattle.kob_shared.specs.Journals.{event_by};

use kob_names::{Host, PlainValue, Principal};
use kob_rights::{Event, Request};
use std::alloc::{AllocError, Global};

/// The event that the principal at the host makes with the request. The error is out of memory.
pub fn event_of(
    alloc: Global,
    principal: &Principal,
    host: &Host,
    request: Request,
) -> Result<Event, AllocError>
    ensures { IfOk result (λ event. event ≡ event_by principal.now host.now request) }
{
    Ok(Event {
        principal: principal.copy(alloc)?,
        host: host.copy(alloc)?,
        request,
    })
}
