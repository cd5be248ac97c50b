//! The limits on bindings and serials, and which of them a creation would exceed.

ghost use Rattle.std.specs.Prelude.{◌≡◌, ◌+◌, ◌≤◌, IfNone};
ghost use Rattle.kob_authorizer.specs.Creation.{binding_limit, serial_limit, limit_fault};

use crate::fault::CreateFault;

/// The maximum number of bindings in force at once.
pub const BINDING_LIMIT: usize = 100_000;

/// Every serial is below this number.
pub const SERIAL_LIMIT: u64 = u64::MAX;

const _: () = prove!(BINDING_LIMIT == 100_000);

const _: () = prove!(SERIAL_LIMIT == 18_446_744_073_709_551_615);

/// The limit that `count` new bindings would exceed, if any. The one on bindings is tried first.
pub fn limit_fault(in_force: usize, next: u64, count: usize) -> Option<CreateFault>
    requires { in_force ≤ binding_limit }
    ensures fault { result ≡ limit_fault (in_force + count) (next + count) }
    ensures count { IfNone result (in_force + count ≤ binding_limit) }
    ensures serials { IfNone result (next + count ≤ serial_limit) }
{
    if count > BINDING_LIMIT - in_force {
        Some(CreateFault::TooMany)
    } else if count as u64 > SERIAL_LIMIT - next {
        Some(CreateFault::SerialsSpent)
    } else {
        None
    }
}
