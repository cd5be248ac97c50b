//! A line over a borrowed broker with its journal.

ghost use Rattle.std.specs.Prelude.{◌≡◌, [], None, IfErr, IfOk, IsErrOf, OnErr, OnOk, length};
ghost use Rattle.kob_rights.specs.Requests.{Fits, OffsetsWithin};
ghost use Rattle.kob_shared.specs.Journals.{after_event, outcome_of, IsStaleOnlyBelow, event_by};

use crate::connection::{Connection, Serve};
use kob_names::{Host, Principal};
use kob_rights::{Reply, Request};
use kob_shared::{CallFault, Recorded, event_of};
use std::alloc::Global;

/// A borrowed broker with its journal, which serves the requests of one worker.
#[derive(Drop)]
pub struct RecordedServer<'a> {
    pub recorded: &'a mut Recorded,
    /// The worker's number in the journal.
    pub worker: usize,
    pub principal: Principal,
    pub host: Host,
}

/// A line of one worker over a broker with its journal, which nobody else uses while the line is
/// open. It keeps its broker, its worker, its principal and its host.
pub type RecordedLine<'a> = Connection<RecordedServer<'a>>;

impl<'a> Connection<RecordedServer<'a>> {
    /// A line that has made no call. Does not allocate. Once it is closed or dropped, the broker is
    /// no longer borrowed.
    pub fn open(
        alloc: Global,
        recorded: &'a mut Recorded,
        worker: usize,
        principal: Principal,
        host: Host,
    ) -> RecordedLine<'a>
        ensures same_broker { result.server.recorded.ghost_name ≡ recorded.entry.ghost_name }
        ensures recorded { result.server.recorded.now ≡ recorded.old }
        ensures worker { result.server.worker ≡ worker }
        ensures asker { (result.server.principal ≡ principal) × (result.server.host ≡ host) }
        ensures made { result.calls.made.items ≡ [] }
        ensures unmade { result.calls.unmade ≡ 0 }
        ensures fault { result.calls.fault ≡ None }
    {
        Connection::new(
            alloc,
            RecordedServer {
                recorded,
                worker,
                principal,
                host,
            },
        )
    }
}

impl<'a> RecordedServer<'a> {
    /// Serves one request of the principal, which is not noted as a call. The journal gets one
    /// entry, of this worker with this event and its reply. After a fault it is as before.
    pub fn call(&mut self, alloc: Global, request: Request) -> Result<Reply, CallFault>
        ensures same_broker { self.new.recorded.ghost_name ≡ self.old.recorded.ghost_name }
        ensures worker { self.new.worker ≡ self.old.worker }
        ensures principal { self.new.principal ≡ self.old.principal }
        ensures host { self.new.host ≡ self.old.host }
        ensures reply { let event = event_by self.old.principal self.old.host request in
            IfOk result (λ reply. reply ≡ (outcome_of self.old.recorded.now event).reply) }
        ensures recorded { let event = event_by self.old.principal self.old.host request in
            OnOk result (self.new.recorded.now
            ≡ after_event self.old.recorded.now self.old.worker event) }
        ensures kept { OnErr result (self.new.recorded.now ≡ self.old.recorded.now) }
        ensures stale { IfErr result (IsStaleOnlyBelow 0) }
        ensures full { IsErrOf result CallFault.JournalFull
            → length self.old.recorded.now.journal ≡ self.old.recorded.now.limit }
        ensures same { IsErrOf result CallFault.JournalFull → self.new ≡ self.old }
        ensures fits { IfOk result (λ reply. Fits request reply) }
        ensures offsets { IfOk result (λ reply. OffsetsWithin reply) }
    {
        let event = event_of(alloc, &self.principal, &self.host, request)?;
        let receipt = self.recorded.serve_as(alloc, self.worker, &event)?;
        Ok(receipt.reply)
    }
}

impl<'a> Serve for RecordedServer<'a> {
    ghost use Rattle.kob_connections.specs.Servers.{RefusesRecorded, ServesRecorded};

    ghost serves = { ServesRecorded };

    ghost refuses = { RefusesRecorded };

    fn serve(&mut self, alloc: Global, request: Request) -> Result<Option<Reply>, CallFault> {
        match self.call(alloc, request) {
            Ok(reply) => Ok(Some(reply)),
            Err(fault) => Err(fault),
        }
    }
}
