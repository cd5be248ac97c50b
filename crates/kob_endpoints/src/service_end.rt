//! The final state of a service.

ghost use Rattle.std.specs.Prelude.{◌≡◌, IfErr, IfOk, alloc_error, map, option_map};
ghost use Rattle.std.specs.Prelude.{string_bytes};
ghost use Rattle.kob_endpoints.specs.Running.{HasRun};
ghost use Rattle.kob_outbox.specs.Contents.{first_after, state_at, stored_row};

use crate::part::Part;
use kob_connections::Relay;
use kob_outbox::{OutboxFault, Row};
use std::marker::Model;

/// The final state of a service: the calls of its line as a worker, and its outbox with its router.
/// Its invariant: a run of the router leads to this state.
pub struct ServiceEnd {
    part: Part,
    relay: Relay,
}

impl Drop for ServiceEnd {
    fn drop(self) {
        let ServiceEnd { part: _, relay: _ } = self;
    }
}

impl Model for ServiceEnd {
    ghost use Rattle.std.specs.Coded.{codes};
    ghost use Rattle.kob_endpoints.specs.Running.{HasRun, ServiceLeft};
    ghost use Rattle.kob_outbox.specs.Contents.{contents_code};

    ghost Value = { ServiceLeft };

    ghost coded = { Prim.hlevel (codes, contents_code) };

    ghost view = { λ e. record {
      worker = e.part.worker;
      calls = e.part.calls.items;
      relayed = e.relay;
    } };

    ghost invariant = { λ e. HasRun e.relay e.part.calls.items };
}

impl ServiceEnd {
    pub(crate) fn new(part: Part, relay: Relay) -> ServiceEnd
        requires { HasRun relay part.calls.items }
        ensures worker { result.worker ≡ part.worker }
        ensures calls { result.calls ≡ part.calls.items }
        ensures relayed { result.relayed ≡ relay }
    {
        ServiceEnd { part, relay }
    }

    /// The worker with its calls, the oldest first. Does not allocate.
    pub fn part(&self) -> &Part
        ensures worker { result.now.worker ≡ self.now.worker }
        ensures calls { result.now.calls.items ≡ self.now.calls }
        ensures run { HasRun self.now.relayed self.now.calls }
    {
        &self.part
    }

    /// The outbox with its router. Does not allocate.
    pub fn relay(&self) -> &Relay
        ensures { result.now ≡ self.now.relayed }
    {
        &self.relay
    }

    /// The first events after this number, by ascending number, and no more than `limit` of them, as
    /// [`Outbox::after`] reads them. After the mark are those that wait.
    pub fn after(&mut self, seq: u64, limit: u32) -> Result<Vec<Row>, OutboxFault>
        ensures rows { IfOk result (λ rows. map stored_row rows.items
            ≡ first_after seq limit self.old.relayed.outbox.events) }
        ensures memory { IfErr result (λ f. f ≡ OutboxFault.Memory alloc_error) }
        ensures same { self.new ≡ self.old }
    {
        self.relay.after(seq, limit)
    }

    /// The state of the business row with this kind and id, if there is one.
    pub fn business(&mut self, kind: &str, id: &str) -> Result<Option<String>, OutboxFault>
        ensures value { IfOk result (λ found. option_map string_bytes found
            ≡ state_at kind.now id.now self.old.relayed.outbox.business) }
        ensures memory { IfErr result (λ f. f ≡ OutboxFault.Memory alloc_error) }
        ensures same { self.new ≡ self.old }
    {
        self.relay.business(kind, id)
    }

    /// The number up to which the events were sent, or 0.
    pub fn mark(&mut self) -> Result<u64, OutboxFault>
        ensures value { IfOk result (λ mark. mark ≡ self.old.relayed.outbox.mark) }
        ensures memory { IfErr result (λ f. f ≡ OutboxFault.Memory alloc_error) }
        ensures same { self.new ≡ self.old }
    {
        self.relay.mark()
    }
}
