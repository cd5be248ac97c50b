//! Lines that know whose calls they make.

ghost use Rattle.std.specs.Prelude.{◌≡◌, ℕ};

use crate::connection::Connection;
use crate::lossy::LossyServer;
use crate::recorded_line::RecordedServer;
use crate::session_line::SessionServer;
use std::sync::Wait;

/// A server or a line whose calls are entries of one worker of a journal.
pub trait AsWorker {
    /// The worker's number in the journal.
    ghost worker: { Self → ℕ };

    /// The worker's number in the journal.
    fn worker(&self) -> usize
        ensures { result ≡ worker self.now };
}

impl<'a> AsWorker for RecordedServer<'a> {
    ghost worker = { λ server. server.worker };

    fn worker(&self) -> usize {
        self.worker
    }
}

impl<'a, R: Wait> AsWorker for SessionServer<'a, R> {
    ghost worker = { λ server. server.session.worker };

    fn worker(&self) -> usize {
        self.session.worker()
    }
}

/// That of the line below.
impl<L: AsWorker> AsWorker for LossyServer<L> {
    ghost worker = { λ server. L.worker server.line };

    fn worker(&self) -> usize {
        self.line.worker()
    }
}

/// That of its server.
impl<S: AsWorker> AsWorker for Connection<S> {
    ghost worker = { λ line. S.worker line.server };

    fn worker(&self) -> usize {
        self.server.worker()
    }
}
