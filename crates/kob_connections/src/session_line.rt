//! A line over a session of a shared broker.

ghost use Rattle.std.specs.Prelude.{◌≡◌, [], None};

use crate::connection::{Connection, Serve};
use kob_rights::{Reply, Request};
use kob_shared::{CallFault, Session};
use std::alloc::Global;
use std::sync::Wait;

/// A session, which waits for the lock of the shared broker at each request.
#[derive(Drop)]
pub struct SessionServer<'a, R> {
    pub rt: &'a R,
    pub session: Session<'a>,
}

/// A line over a session, which has the principal and the host. It keeps its session's worker,
/// principal and host.
pub type SessionLine<'a, R> = Connection<SessionServer<'a, R>>;

impl<'a, R: Wait> Connection<SessionServer<'a, R>> {
    /// A line that has made no call. Does not allocate.
    pub fn open(rt: &'a R, alloc: Global, session: Session<'a>) -> SessionLine<'a, R>
        ensures session { result.server.session ≡ session.entry }
        ensures made { result.calls.made.items ≡ [] }
        ensures unmade { result.calls.unmade ≡ 0 }
        ensures fault { result.calls.fault ≡ None }
    {
        Connection::new(alloc, SessionServer { rt, session })
    }
}

impl<'a, R: Wait> Serve for SessionServer<'a, R> {
    ghost use Rattle.kob_connections.specs.Calls.{IsServedInSession};
    ghost use Rattle.kob_shared.specs.Journals.{IsStaleOnlyBelow};

    /// As [`Session::call`] does.
    ghost serves = { λ old new request there.
        IsServedInSession old.session new.session request there };

    ghost refuses = { λ old request fault. IsStaleOnlyBelow old.session.seen fault };

    fn serve(&mut self, alloc: Global, request: Request) -> Result<Option<Reply>, CallFault> {
        match self.session.call(self.rt, alloc, request) {
            Ok(receipt) => Ok(Some(receipt.reply)),
            Err(fault) => Err(fault),
        }
    }
}
