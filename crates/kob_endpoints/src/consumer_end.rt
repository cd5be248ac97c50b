//! The final state of a consumer.

ghost use Rattle.std.specs.Prelude.{◌≡◌, IfErr, IfOk, map};
ghost use Rattle.std.specs.Prelude.{alloc_error};
ghost use Rattle.std.specs.List.{enumerate_from};
ghost use Rattle.kob_endpoints.specs.Running.{IsReaderRun};
ghost use Rattle.kob_inbox.specs.Contents.{placed_intake};

use crate::part::Part;
use kob_connections::Receiver;
use kob_inbox::{Consumer, InboxFault, InboxRow};
use std::marker::Model;

/// The final state of a consumer: the calls of its line as a worker, and its inbox. Its invariant:
/// a run of the consumer leads to this state.
pub struct ConsumerEnd {
    part: Part,
    receiver: Receiver,
}

impl Drop for ConsumerEnd {
    fn drop(self) {
        let ConsumerEnd {
            part: _,
            receiver: _,
        } = self;
    }
}

impl Model for ConsumerEnd {
    ghost use Rattle.std.specs.Coded.{codes};
    ghost use Rattle.kob_endpoints.specs.Running.{IsReaderRun, ReaderLeft};

    ghost Value = { ReaderLeft };

    ghost coded = { Prim.hlevel (codes) };

    ghost view = { λ e. record {
      worker = e.part.worker;
      calls = e.part.calls.items;
      fetcher = e.receiver.fetcher;
      inbox = e.receiver.inbox;
    } };

    ghost invariant = { λ e.
        IsReaderRun e.receiver.fetcher e.receiver.inbox e.part.calls.items };
}

impl ConsumerEnd {
    pub(crate) fn new(part: Part, receiver: Receiver) -> ConsumerEnd
        requires { IsReaderRun receiver.fetcher receiver.inbox part.calls.items }
        ensures worker { result.worker ≡ part.worker }
        ensures calls { result.calls ≡ part.calls.items }
        ensures fetcher { result.fetcher ≡ receiver.fetcher }
        ensures inbox { result.inbox ≡ receiver.inbox }
    {
        ConsumerEnd { part, receiver }
    }

    /// The worker with its calls, the oldest first. Does not allocate.
    pub fn part(&self) -> &Part
        ensures worker { result.now.worker ≡ self.now.worker }
        ensures calls { result.now.calls.items ≡ self.now.calls }
        ensures run { IsReaderRun self.now.fetcher self.now.inbox self.now.calls }
    {
        &self.part
    }

    /// The consumer, with its positions. Does not allocate.
    pub fn consumer(&self) -> &Consumer
        ensures { result.now ≡ self.now.fetcher }
    {
        self.receiver.consumer()
    }

    /// All events that were taken in, in the order of their intake, as [`Inbox::taken`] reads them.
    pub fn taken(&mut self) -> Result<Vec<InboxRow>, InboxFault>
        ensures rows { IfOk result (λ rows.
            map placed_intake rows.items ≡ enumerate_from 1 self.old.inbox) }
        ensures memory { IfErr result (λ fault. fault ≡ InboxFault.Memory alloc_error) }
        ensures same { self.new ≡ self.old }
    {
        self.receiver.taken()
    }
}
