//! A router with its outbox.

ghost use Rattle.std.specs.Prelude.{◌≡◌, ◌<◌, ◌≤◌, ◌^◌, ◌↔◌, ◌⊎◌, [], false, length, Some, None};
ghost use Rattle.std.specs.Prelude.{IfErr, IfOk, IsErrOf, IsTrue, OnErr, OnOk, alloc_error, map};
ghost use Rattle.std.specs.Prelude.{option_map, string_bytes};
ghost use Rattle.kob_connections.specs.Relayed.{HoldsFirst, IsTick};
ghost use Rattle.kob_outbox.specs.Contents.{empty, first_bad, up_to, without_sent, id_text};
ghost use Rattle.kob_outbox.specs.Contents.{after_record, first_after, is_recorded, next_seq};
ghost use Rattle.kob_outbox.specs.Contents.{first_bad_of_change, key_of, state_at, stored_row};
ghost use Rattle.kob_outbox.specs.Contents.{with_state};
ghost use Rattle.kob_router.specs.Run.Move.{Restarted};
ghost use Rattle.kob_router.specs.Run.{after};
ghost use Rattle.kob_router.specs.Tick.{state_of};

use kob_outbox::{Change, MarkFault, Outbox, OutboxEvent, OutboxFault, RecordFault, Row};
use kob_router::{Line, Router, Target, Tick};
use std::alloc::Global;
use std::marker::Model;

/// An outbox, and the router that sends its rows. Its invariant: the row in flight is the first
/// after the mark, since nobody else moves the mark.
#[derive(Drop)]
pub struct Relay {
    outbox: Outbox,
    router: Router,
}

impl Model for Relay {
    ghost use Rattle.std.specs.Coded.{codes};
    ghost use Rattle.kob_connections.specs.Relayed.{HoldsFirst, Relayed};
    ghost use Rattle.kob_outbox.specs.Contents.{contents_code};

    ghost Value = { Relayed };

    ghost coded = { Prim.hlevel (codes, contents_code) };

    ghost view = { λ r. record { outbox = r.outbox; router = r.router } };

    ghost invariant = { λ r. HoldsFirst (record { outbox = r.outbox; router = r.router }) };
}

impl Relay {
    /// Joins an outbox and its router. A router without a row in flight fits every outbox. Does not
    /// allocate.
    pub fn new(outbox: Outbox, router: Router) -> Relay
        requires { HoldsFirst (record { outbox = outbox; router = router }) }
        ensures { result ≡ record { outbox = outbox; router = router } }
    {
        Relay { outbox, router }
    }

    /// An empty outbox in memory, and a router that has made no call. The topics that the route
    /// names have this number of partitions, 1 to 1,000.
    pub fn open(alloc: Global, target: Target) -> Result<Relay, OutboxFault>
        requires some { 1 ≤ target.partitions }
        requires most { target.partitions ≤ 1000 }
        ensures { IfOk result (λ r. r ≡ record {
          outbox = empty;
          router = record { target = target; producer = None; sequences = []; hand = None };
        }) }
    {
        let Target { route, partitions } = target;
        let outbox = Outbox::open_in_memory(alloc)?;
        let router = Router::new(alloc, route, partitions);
        Ok(Relay { outbox, router })
    }

    /// Writes the business row and adds the event to the outbox, both or neither, as
    /// [`Outbox::record`] does.
    pub fn record(&mut self, change: &Change, event: &OutboxEvent) -> Result<u64, RecordFault>
        ensures value { IfOk result (λ seq. seq ≡ next_seq self.old.outbox) }
        ensures room { OnOk result (next_seq self.old.outbox < 2 ^ 63) }
        ensures ok { OnOk result (self.new
            ≡ record self.old { outbox = after_record self.old.outbox change.now event.now }) }
        ensures err { OnErr result (self.new ≡ self.old) }
        ensures bad { (column : _) → (IsErrOf result (RecordFault.BadField column))
            ↔ (first_bad change.now event.now ≡ Some column) }
        ensures good { OnOk result (first_bad change.now event.now ≡ None) }
        ensures duplicate { IsErrOf result RecordFault.DuplicateId
            → (first_bad change.now event.now ≡ None)
            × IsTrue (is_recorded self.old.outbox.ids (id_text event.now.id)) }
        ensures fresh { OnOk result
            (is_recorded self.old.outbox.ids (id_text event.now.id) ≡ false) }
        ensures store { IsErrOf result RecordFault.Store → (first_bad change.now event.now ≡ None)
            × ((is_recorded self.old.outbox.ids (id_text event.now.id) ≡ false)
            ⊎ (next_seq self.old.outbox ≡ 2 ^ 63)) }
    {
        self.outbox.record(change, event)
    }

    /// Writes the business row, without an event, as [`Outbox::set_business`] does.
    pub fn set_business(&mut self, change: &Change) -> Result<(), RecordFault>
        ensures ok { OnOk result (self.new ≡ record self.old {
          outbox = with_state self.old.outbox (key_of change.now) (string_bytes change.now.state);
        }) }
        ensures err { OnErr result (self.new ≡ self.old) }
        ensures bad { (column : _) → (IsErrOf result (RecordFault.BadField column))
            ↔ (first_bad_of_change change.now ≡ Some column) }
        ensures good { OnOk result (first_bad_of_change change.now ≡ None) }
        ensures duplicate { IsErrOf result RecordFault.DuplicateId → ⊥ }
    {
        self.outbox.set_business(change)
    }

    /// One step of the router, as [`Router::tick`] makes it.
    pub fn tick<L: Line>(&mut self, alloc: Global, line: &mut L) -> Tick
        ensures done { IsTick self.old self.new (L.calls line.old) (L.calls line.new)
            (L.unmade line.old) (L.unmade line.new) result }
        ensures before { HoldsFirst self.old }
        ensures after { HoldsFirst self.new }
        ensures line { L.becomes line.old line.new }
    {
        self.router.tick(alloc, &mut self.outbox, line)
    }

    /// Forgets the row in flight, the producer id and all sequences, as [`Router::restart`] does.
    pub fn restart(&mut self)
        ensures outbox { self.new.outbox ≡ self.old.outbox }
        ensures target { self.new.router.target ≡ self.old.router.target }
        ensures done { state_of self.new.router self.new.outbox
            ≡ after (state_of self.old.router self.old.outbox) Restarted }
        ensures hand { self.new.router.hand ≡ None }
    {
        self.router.restart();
    }

    /// The number of the row in flight, as [`Router::in_flight`] returns it. Does not allocate.
    pub fn in_flight(&self) -> Option<u64>
        ensures { result ≡ option_map (λ held. held.row.seq) self.now.router.hand }
    {
        self.router.in_flight()
    }

    /// Moves the mark, as [`Outbox::set_mark`] does, where no row is in flight. The router does not
    /// send the events up to this number.
    pub fn set_mark(&mut self, seq: u64) -> Result<(), MarkFault>
        requires { self.old.router.hand ≡ None }
        ensures ok { OnOk result (self.new
            ≡ record self.old { outbox = record self.old.outbox { mark = seq } }) }
        ensures err { OnErr result (self.new ≡ self.old) }
        ensures within { OnOk result
            ((self.old.outbox.mark ≤ seq) × (seq ≤ length self.old.outbox.ids)) }
        ensures backwards { IsErrOf result MarkFault.Backwards → seq < self.old.outbox.mark }
        ensures ahead { IsErrOf result MarkFault.Ahead
            → (self.old.outbox.mark ≤ seq) × (length self.old.outbox.ids < seq) }
        ensures store { IsErrOf result MarkFault.Store
            → (self.old.outbox.mark ≤ seq) × (seq ≤ length self.old.outbox.ids) }
    {
        self.outbox.set_mark(seq)
    }

    /// Deletes the events up to the mark, and returns how many they were.
    pub fn sweep(&mut self) -> Result<u64, OutboxFault>
        ensures value { IfOk result (λ count.
            count ≡ length (up_to self.old.outbox.mark self.old.outbox.events)) }
        ensures ok { OnOk result (self.new ≡ record self.old {
          outbox = without_sent self.old.outbox.mark self.old.outbox;
        }) }
        ensures err { OnErr result (self.new ≡ self.old) }
    {
        self.outbox.sweep()
    }

    /// The first events after this number, by ascending number, and no more than `limit` of them, as
    /// [`Outbox::after`] reads them. After the mark are those that wait.
    pub fn after(&mut self, seq: u64, limit: u32) -> Result<Vec<Row>, OutboxFault>
        ensures rows { IfOk result (λ rows. map stored_row rows.items
            ≡ first_after seq limit self.old.outbox.events) }
        ensures memory { IfErr result (λ f. f ≡ OutboxFault.Memory alloc_error) }
        ensures same { self.new ≡ self.old }
    {
        self.outbox.after(seq, limit)
    }

    /// The state of the business row with this kind and id, if there is one.
    pub fn business(&mut self, kind: &str, id: &str) -> Result<Option<String>, OutboxFault>
        ensures value { IfOk result (λ found. option_map string_bytes found
            ≡ state_at kind.now id.now self.old.outbox.business) }
        ensures memory { IfErr result (λ f. f ≡ OutboxFault.Memory alloc_error) }
        ensures same { self.new ≡ self.old }
    {
        self.outbox.business(kind, id)
    }

    /// The number up to which the events were sent, or 0.
    pub fn mark(&mut self) -> Result<u64, OutboxFault>
        ensures value { IfOk result (λ mark. mark ≡ self.old.outbox.mark) }
        ensures memory { IfErr result (λ f. f ≡ OutboxFault.Memory alloc_error) }
        ensures same { self.new ≡ self.old }
    {
        self.outbox.mark()
    }

    /// The outbox. Does not allocate.
    pub fn outbox(&self) -> &Outbox
        ensures value { result.now ≡ self.now.outbox }
        ensures first { HoldsFirst self.now }
    {
        &self.outbox
    }

    /// The outbox and its router. Does not allocate.
    pub fn into_parts(self) -> (Outbox, Router)
        ensures outbox { result.0 ≡ self.outbox }
        ensures router { result.1 ≡ self.router }
        ensures first { HoldsFirst self }
    {
        let Relay { outbox, router } = self;
        (outbox, router)
    }
}
