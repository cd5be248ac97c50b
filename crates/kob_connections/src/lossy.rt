//! A line that loses calls on purpose.

ghost use Rattle.std.specs.Prelude.{◌≡◌, [], None};

use crate::connection::{Connection, Serve};
use kob_rights::{Reply, Request};
use kob_router::{Delivery, Line, Loss};
use kob_shared::CallFault;
use std::alloc::Global;

/// A line whose calls are lost where `loss` says so. It has the calls that reached it, with the
/// replies that it received.
#[derive(Drop)]
pub struct LossyServer<L> {
    pub line: L,
    /// What happens to the next call. All replies after it are received.
    pub loss: Loss,
}

/// A line over another one, which loses the calls that `lose` was called for. Its calls are those
/// that were made on it. All of them with a received reply are calls of the line below, whose calls
/// are calls of this one.
pub type Lossy<L> = Connection<LossyServer<L>>;

impl<L: Line> Connection<LossyServer<L>> {
    /// A line that has made no call, and loses none. Does not allocate.
    pub fn over(alloc: Global, line: L) -> Lossy<L>
        ensures line { result.server.line ≡ line }
        ensures loss { result.server.loss ≡ Loss.None }
        ensures made { result.calls.made.items ≡ [] }
        ensures unmade { result.calls.unmade ≡ 0 }
        ensures fault { result.calls.fault ≡ None }
    {
        Connection::new(
            alloc,
            LossyServer {
                line,
                loss: Loss::None,
            },
        )
    }

    /// Sets what happens to the next call that is made. All replies after it are received.
    pub fn lose(&mut self, loss: Loss)
        ensures { self.new ≡ record self.old {
          server = record self.old.server { loss = loss };
        } }
    {
        self.server.loss = loss;
    }
}

impl<L: Line> Serve for LossyServer<L> {
    ghost use Rattle.kob_connections.specs.Servers.{ServesLossy};

    ghost serves = { λ old new request there. ServesLossy L.becomes L.calls L.unmade
        old.loss new.loss old.line new.line request there };

    ghost refuses = { λ _ _ _. ⊥ };

    /// Makes a call of the line, unless it is lost before. Returns the reply, unless it is lost.
    fn serve(&mut self, alloc: Global, request: Request) -> Result<Option<Reply>, CallFault> {
        let loss = self.loss;
        self.loss = Loss::None;
        match loss {
            Loss::BeforeServe => Ok(None),
            Loss::AfterServe => {
                self.line.send(alloc, request);
                Ok(None)
            }
            Loss::None => match self.line.send(alloc, request) {
                Delivery::Delivered(reply) => Ok(Some(reply)),
                Delivery::Lost => Ok(None),
            },
        }
    }
}
