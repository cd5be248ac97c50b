//! A line over a borrowed broker.

ghost use Rattle.std.specs.Prelude.{◌≡◌, [], None, IfOk, OnErr, OnOk};
ghost use Rattle.kob_broker.specs.Step.{state_of, step};
ghost use Rattle.kob_partition.specs.Retained.{retained_meaning};
ghost use Rattle.kob_rights.specs.Requests.{Fits};
ghost use Rattle.kob_shared.specs.Journals.{event_by};

use crate::connection::{Connection, Serve};
use kob_broker::Broker;
use kob_names::{Host, Principal};
use kob_rights::{Reply, Request};
use kob_shared::{CallFault, event_of};
use std::alloc::{AllocError, Global};

/// A borrowed broker, which serves the requests of one principal at a host.
#[derive(Drop)]
pub struct BrokerServer<'a> {
    pub broker: &'a mut Broker,
    pub principal: Principal,
    pub host: Host,
}

/// A line over a broker that nobody else uses while the line is open. It keeps its broker, its
/// principal and its host.
pub type BrokerLine<'a> = Connection<BrokerServer<'a>>;

impl<'a> Connection<BrokerServer<'a>> {
    /// A line that has made no call. Does not allocate. Once it is closed or dropped, the broker is
    /// no longer borrowed.
    pub fn open(
        alloc: Global,
        broker: &'a mut Broker,
        principal: Principal,
        host: Host,
    ) -> BrokerLine<'a>
        ensures same_broker { result.server.broker.ghost_name ≡ broker.entry.ghost_name }
        ensures broker { result.server.broker.now ≡ broker.old }
        ensures asker { (result.server.principal ≡ principal) × (result.server.host ≡ host) }
        ensures made { result.calls.made.items ≡ [] }
        ensures unmade { result.calls.unmade ≡ 0 }
        ensures fault { result.calls.fault ≡ None }
    {
        Connection::new(
            alloc,
            BrokerServer {
                broker,
                principal,
                host,
            },
        )
    }
}

impl<'a> BrokerServer<'a> {
    /// Serves one request of the principal, which is not noted as a call. The error is out of
    /// memory, and the broker is then as before.
    pub fn call(&mut self, alloc: Global, request: Request) -> Result<Reply, AllocError>
        ensures same_broker { self.new.broker.ghost_name ≡ self.old.broker.ghost_name }
        ensures principal { self.new.principal ≡ self.old.principal }
        ensures host { self.new.host ≡ self.old.host }
        ensures reply { let event = event_by self.old.principal self.old.host request in
            IfOk result (λ reply. reply
            ≡ (step retained_meaning (state_of self.old.broker.now) event).reply) }
        ensures state { let event = event_by self.old.principal self.old.host request in
            OnOk result (state_of self.new.broker.now
            ≡ (step retained_meaning (state_of self.old.broker.now) event).state) }
        ensures kept { OnErr result
            (state_of self.new.broker.now ≡ state_of self.old.broker.now) }
        ensures fits { IfOk result (λ reply. Fits request reply) }
    {
        let mut event = event_of(alloc, &self.principal, &self.host, request)?;
        let reply = self.broker.serve_taking(alloc, &mut event)?;
        Ok(reply)
    }
}

impl<'a> Serve for BrokerServer<'a> {
    ghost use Rattle.kob_connections.specs.Servers.{RefusesBroker, ServesBroker};

    ghost serves = { ServesBroker };

    ghost refuses = { RefusesBroker };

    fn serve(&mut self, alloc: Global, request: Request) -> Result<Option<Reply>, CallFault> {
        match self.call(alloc, request) {
            Ok(reply) => Ok(Some(reply)),
            Err(refused) => Err(CallFault::Memory(refused)),
        }
    }
}
