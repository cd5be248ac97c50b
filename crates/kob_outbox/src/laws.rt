//! What follows from the definitions.

ghost use Rattle.std.specs.Prelude.{◌≡◌, ◌≢◌, ℕ, List, string_bytes, Some};
ghost use Rattle.kob_outbox.specs.Contents.{Contents, key_of, first_after, state_at, without_sent};
ghost use Rattle.kob_outbox.specs.Contents.{after_record};
ghost use Rattle.kob_outbox.specs.declared.change.Change.{Change};
ghost use Rattle.kob_outbox.specs.declared.event.OutboxEvent.{OutboxEvent};

/// A sweep does not change which rows are still to be sent.
#[tactic(auto, using(crate::proofs::Lawful::swept_waits))]
pub fn a_sweep_keeps_what_waits()
    ensures { (c : Contents) (limit : ℕ)
        → first_after c.mark limit (without_sent c.mark c).events
        ≡ first_after c.mark limit c.events }
{
    // By the definitions.
}

/// After a record the business row has the state that was written, and the rows with other keys are
/// unchanged.
#[tactic(auto, using(crate::proofs::Lawful::recorded_here, crate::proofs::Lawful::recorded_elsewhere))]
pub fn a_record_writes_one_business_row()
    ensures here { (c : Contents) (change : Change) (event : OutboxEvent)
        → state_at (string_bytes change.kind) (string_bytes change.id)
        (after_record c change event).business
        ≡ Some (string_bytes change.state) }
    ensures elsewhere { (c : Contents) (change : Change) (event : OutboxEvent) (kind id : List ℕ)
        → (kind, id) ≢ key_of change
        → state_at kind id (after_record c change event).business ≡ state_at kind id c.business }
{
    // By the definitions.
}
