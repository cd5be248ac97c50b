//! Moves the mark of an outbox past a row that was not acknowledged.

ghost use Rattle.std.specs.Prelude.{◌≡◌, None, OnOk};
ghost use Rattle.kob_scene_play.specs.Services.{past_first};

use crate::fault::TickFault;
use kob_connections::Relay;
use kob_outbox::MarkFault;

/// Moves the mark past the first row after it, if there is one. No row is in flight.
#[tactic(auto, using(crate::proofs::Services::past_none, crate::proofs::Services::past_some))]
pub(crate) fn skip_first(relay: &mut Relay) -> Result<(), TickFault>
    requires { relay.old.router.hand ≡ None }
    ensures { OnOk result (relay.new
        ≡ record relay.old { outbox = past_first relay.old.outbox }) }
{
    let mark = relay.mark()?;
    let mut rows = relay.after(mark, 1)?;
    match rows.pop() {
        Some(row) => move_mark(relay, row.seq),
        None => Ok(()),
    }
}

/// Moves the mark of an outbox to this number, where no row is in flight.
pub(crate) fn move_mark(relay: &mut Relay, seq: u64) -> Result<(), TickFault>
    requires { relay.old.router.hand ≡ None }
    ensures { OnOk result (relay.new
        ≡ record relay.old { outbox = record relay.old.outbox { mark = seq } }) }
{
    match relay.set_mark(seq) {
        Ok(()) => Ok(()),
        Err(MarkFault::Memory(refused)) => Err(TickFault::Memory(refused)),
        Err(_) => Err(TickFault::Store),
    }
}
