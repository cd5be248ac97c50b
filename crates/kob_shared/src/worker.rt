//! Workers that send the requests of a script.

use crate::desk::Desk;
use crate::faults::CallFault;
use crate::script::Script;
use crate::session::SharedBroker;
use crate::work::{Done, Gate, Work};
use kob_names::PlainValue;
use std::alloc::Global;
use std::sync::Wait;

impl Work for Script {
    ghost use Rattle.std.specs.Prelude.{◌≡◌};
    ghost use Rattle.kob_shared.specs.Fleets.{events_of_script};

    type Shared = SharedBroker;

    type End = ();

    ghost keeps = { λ script _ noted _. noted.events ≡ events_of_script script };

    /// Sends the requests, one after another.
    fn work<R: Wait, G: Gate>(
        &self,
        rt: &R,
        alloc: Global,
        worker: usize,
        shared: &SharedBroker,
        gate: &G,
    ) -> Result<Done<()>, CallFault> {
        let principal = self.principal.copy(alloc)?;
        let host = self.host.copy(alloc)?;
        let mut desk = Desk::open(alloc, shared.session(worker, principal, host));
        for request in &self.requests {
            gate.before(worker, desk.len() + 1);
            let called = match request.copy(alloc) {
                Ok(request) => desk.call(rt, alloc, request),
                Err(fault) => Err(fault.into()),
            };
            called?;
        }
        gate.before(worker, desk.len() + 1);
        Ok(Done {
            notes: desk.close(),
            end: (),
        })
    }
}
