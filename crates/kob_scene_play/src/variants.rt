//! What variants of services do beside a service with the proved router.

ghost use Rattle.std.specs.Prelude.{◌≡◌, IfOk, IsErrOf, None, OnErr, OnOk, Some, length, map};
ghost use Rattle.kob_outbox.specs.Contents.{first_bad_of_change};
ghost use Rattle.kob_scene_play.specs.Services.{crashed, hides, passed_to, poll_of, shown};

use crate::fault::TickFault;
use crate::poll::{Poll, poll_by};
use crate::service_worker::ServiceWorker;
use crate::skip::move_mark;
use kob_delivery_check::has_new_id;
use kob_outbox::{Change, OutboxEvent, OutboxFault, RecordFault};
use kob_scene_text::Sending;
use std::alloc::AllocError;

impl<'s> ServiceWorker<'s> {
    /// Writes the business row of a change alone: the service crashes before the transaction that
    /// records the event, whose id stays free.
    pub fn crash(&mut self, change: &Change, event: &'s OutboxEvent) -> Result<(), RecordFault>
        ensures ok { OnOk result (self.new ≡ crashed change.now event.now self.old) }
        ensures good { OnOk result (first_bad_of_change change.now ≡ None) }
        ensures err { OnErr result (self.new ≡ self.old) }
        ensures bad { (column : _) → IsErrOf result (RecordFault.BadField column)
            → first_bad_of_change change.now ≡ Some column }
        ensures duplicate { IsErrOf result RecordFault.DuplicateId → ⊥ }
    {
        if let Err(refused) = self.unwritten.reserve(1) {
            return Err(RecordFault::Memory(refused));
        }
        let is_new = has_new_id(&self.unwritten, event);
        match self.relay.set_business(change) {
            Ok(()) if is_new => {
                self.unwritten.push_reserved(event);
                Ok(())
            }
            Ok(()) => Ok(()),
            Err(fault) => Err(fault),
        }
    }

    /// The events of which it wrote the business row alone, each once, in their order.
    pub fn unwritten(&self) -> &[&'s OutboxEvent]
        ensures { map (λ event. event.now) result.now ≡ self.now.unwritten }
    {
        &self.unwritten
    }

    /// Hides the row of a record that was made. The error is out of memory.
    pub fn hide(&mut self, recorded: &Result<u64, RecordFault>) -> Result<(), AllocError>
        ensures { OnOk result (self.new ≡ hides recorded.now self.old) }
    {
        match recorded {
            Ok(seq) => {
                self.hidden.push(*seq)?;
                Ok(())
            }
            Err(_) => Ok(()),
        }
    }

    /// Makes all hidden rows visible, and returns how many they were. Does not allocate.
    pub fn show(&mut self) -> usize
        ensures count { result ≡ length self.old.hidden }
        ensures shown { self.new ≡ shown self.old }
    {
        let count = self.hidden.len();
        self.hidden.clear();
        count
    }

    /// What comes before a step of the router.
    pub(crate) fn poll(&mut self) -> Result<Poll, OutboxFault>
        ensures poll { IfOk result (λ poll. poll ≡ poll_of self.old.sending self.old.sender.hand
            self.old.hidden self.old.outbox) }
        ensures same { self.new ≡ self.old }
    {
        match self.sending {
            Sending::VisibleLate => poll_by(&mut self.relay, &self.hidden),
            _ => Ok(Poll::Own),
        }
    }

    /// Moves the mark to this number, where no row is in flight.
    pub(crate) fn pass_to(&mut self, seq: u64) -> Result<(), TickFault>
        requires { self.old.sender.hand ≡ None }
        ensures { OnOk result (self.new ≡ passed_to seq self.old) }
    {
        move_mark(&mut self.relay, seq)
    }
}
