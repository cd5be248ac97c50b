//! Desks, which are sessions with notes, for the workers of a plan.

ghost use Rattle.std.specs.Prelude.{◌≡◌, IfOk};
ghost use Rattle.kob_shared.specs.Journals.{entry_limit, new_seat, nothing};

use kob_names::{Host, PlainValue, Principal};
use kob_shared::{Desk, SharedBroker};
use std::alloc::{AllocError, Global};

/// A desk for a worker, for one principal at one host. The error is out of memory.
pub(crate) fn desk_at<'a>(
    alloc: Global,
    shared: &'a SharedBroker,
    worker: usize,
    principal: &Principal,
    host: &Host,
) -> Result<Desk<'a>, AllocError>
    ensures { IfOk result (λ desk. desk ≡ record {
      seat = new_seat worker principal.now host.now entry_limit;
      noted = nothing;
    }) }
{
    let principal = principal.copy(alloc)?;
    let host = host.copy(alloc)?;
    Ok(Desk::open(alloc, shared.session(worker, principal, host)))
}
