//! The calls of lines that were handed out, for contracts alone.

ghost use Rattle.std.specs.Prelude.{◌≡◌, ◌++◌, [], List};
ghost use Rattle.std.specs.Borrow.{ftrue};
ghost use Rattle.kob_router.specs.declared.line.Call.{Call};

use kob_router::Call;
use std::marker::Model;

/// The calls of all lines that were handed out, in turn. It takes no memory: contracts alone read
/// its calls.
#[derive(Drop)]
pub(crate) struct PastCalls {
    pub ghost calls: { List Call },
}

impl Model for PastCalls {
    ghost also_owns = { λ _. ftrue };
}

impl PastCalls {
    /// No line was handed out.
    pub(crate) fn none() -> PastCalls
        ensures { result.calls ≡ [] }
    {
        PastCalls {}
    }

    /// These calls, and after them those of one more line.
    pub(crate) fn and(&self, _made: &[Call]) -> PastCalls
        ensures { result.calls ≡ self.now.calls ++ _made.now }
    {
        PastCalls {}
    }
}
