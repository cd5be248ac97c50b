//! Desks: sessions that note their events and receipts.

ghost use Rattle.std.specs.Prelude.{◌≡◌, ◌<◌, ◌^◌, length, IfErr, OnOk};
ghost use Rattle.std.specs.Prelude.{OnErr};
ghost use Rattle.kob_shared.specs.Journals.{IsHeard, nothing, IsStaleOnlyBelow};

use crate::faults::CallFault;
use crate::journal::Receipt;
use crate::notes::Notes;
use crate::session::Session;
use kob_names::PlainValue;
use kob_rights::{Event, Request};
use std::alloc::Global;
use std::marker::Model;
use std::sync::Wait;

/// Makes the calls of one worker through its session, and notes each event that was served and its
/// receipt.
#[derive(Drop)]
pub struct Desk<'a> {
    session: Session<'a>,
    events: Vec<Event>,
    receipts: Vec<Receipt>,
}

impl<'a> Model for Desk<'a> {
    ghost use Rattle.std.specs.Prelude.{◌≡◌, length};
    ghost use Rattle.kob_shared.specs.Fleets.{RisesWithin};
    ghost use Rattle.kob_shared.specs.Journals.{AtDesk};

    ghost Value = { AtDesk };

    ghost view = { λ d. record {
      seat = d.session;
      noted = record { events = d.events.items; told = d.receipts.items };
    } };

    ghost invariant = { λ d. (length d.receipts.items ≡ length d.events.items)
        × RisesWithin 0 d.receipts.items d.session.seen };
}

impl<'a> Desk<'a> {
    /// A desk for the session, without notes. Does not allocate.
    pub fn open(alloc: Global, session: Session<'a>) -> Desk<'a>
        ensures { result ≡ record { seat = session.entry; noted = nothing } }
    {
        Desk {
            session,
            events: Vec::new(alloc),
            receipts: Vec::new(alloc),
        }
    }

    /// How many events were noted.
    pub fn len(&self) -> usize
        ensures events { result ≡ length self.now.noted.events }
        ensures told { result ≡ length self.now.noted.told }
        ensures small { result < 2 ^ 63 }
    {
        self.receipts.len()
    }

    /// The receipts, in order.
    pub fn receipts(&self) -> &[Receipt]
        ensures { result.now ≡ self.now.noted.told }
    {
        self.receipts.as_slice()
    }

    /// Makes a call as the session does, and notes the event and the receipt. Capacity for the note
    /// is reserved before the call, so that what is served is noted.
    pub fn call<R: Wait>(
        &mut self,
        rt: &R,
        alloc: Global,
        request: Request,
    ) -> Result<(), CallFault>
        ensures ok { OnOk result (IsHeard self.old self.new request) }
        ensures err { OnErr result (self.new ≡ self.old) }
        ensures stale { IfErr result (IsStaleOnlyBelow self.old.seat.seen) }
    {
        self.events.reserve(1)?;
        self.receipts.reserve(1)?;
        let event = self.session.event(alloc, request)?;
        let noted = event.copy(alloc)?;
        let receipt = self.session.send(rt, alloc, event)?;
        self.events.push_reserved(noted);
        self.receipts.push_reserved(receipt);
        Ok(())
    }

    /// The notes. Does not allocate.
    pub fn close(self) -> Notes
        ensures { result ≡ self.entry.noted }
    {
        let Desk {
            session: _,
            events,
            receipts,
        } = self;
        Notes::new(events, receipts)
    }
}
