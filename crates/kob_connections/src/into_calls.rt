//! Lines that return the calls that they made.

ghost use Rattle.std.specs.Prelude.{◌≡◌};

use crate::connection::{Connection, Serve};
use kob_router::{Call, Line};

/// A line that returns the calls that it made when it ends.
pub trait IntoCalls: Line {
    /// The calls that were made, the oldest first. The line ends. Does not allocate.
    fn into_calls(self) -> Vec<Call>
        ensures { result.items ≡ Self.calls self };
}

impl<S: Serve + Drop> IntoCalls for Connection<S> {
    fn into_calls(self) -> Vec<Call> {
        self.close().1
    }
}
