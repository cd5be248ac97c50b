//! What a router sees of an outbox that goes by the numbers of rows and sees the visible ones alone.

ghost use Rattle.std.specs.Prelude.{◌≡◌, IfOk, map, not, option_map};
ghost use Rattle.std.specs.List.{find};
ghost use Rattle.std.specs.Option.{option_copied};
ghost use Rattle.kob_outbox.specs.Contents.{stored_row};
ghost use Rattle.kob_scene_play.specs.Services.{is_hidden, poll_behind, poll_by, poll_rows};

use kob_connections::Relay;
use kob_outbox::{OutboxFault, Row};

/// What comes before a step of the router.
#[derive(Clone, Copy, Debug)]
pub(crate) enum Poll {
    /// Nothing: a row is in flight, the first row after the mark is visible, or no row is after it.
    Own,
    /// The mark moves to this number, past hidden rows, and the next row is visible.
    Past(u64),
    /// All rows after the mark are hidden, so that the router makes no step.
    Nothing,
}

/// What comes before a step of the router. A row in flight is sent again whatever is hidden.
pub(crate) fn poll_by(relay: &mut Relay, hidden: &[u64]) -> Result<Poll, OutboxFault>
    ensures poll { IfOk result (λ poll.
        poll ≡ poll_by (option_map (λ held. held.row.seq) relay.old.router.hand) hidden.now
        relay.old.outbox) }
    ensures same { relay.new ≡ relay.old }
{
    match relay.in_flight() {
        Some(_) => Ok(Poll::Own),
        None => poll_waiting(relay, hidden),
    }
}

ghost use Rattle.std.specs.Prelude.{None};

fn poll_waiting(relay: &mut Relay, hidden: &[u64]) -> Result<Poll, OutboxFault>
    ensures poll { IfOk result (λ poll. poll ≡ poll_by None hidden.now relay.old.outbox) }
    ensures same { relay.new ≡ relay.old }
{
    let mark = relay.mark()?;
    let rows = relay.after(mark, u32::MAX)?;
    Ok(poll_rows(&rows, hidden))
}

fn poll_rows(rows: &[Row], hidden: &[u64]) -> Poll
    ensures { result ≡ poll_rows hidden.now (map stored_row rows.now) }
{
    match rows {
        [first, rest @ ..] if is_hidden(hidden, first.seq) => {
            poll_behind(first_visible(rest, hidden))
        }
        _ => Poll::Own,
    }
}

fn poll_behind(row: Option<&Row>) -> Poll
    ensures { result ≡ poll_behind (option_map stored_row (option_copied row.entry)) }
{
    match row {
        Some(row) => Poll::Past(row.seq.saturating_sub(1)),
        None => Poll::Nothing,
    }
}

fn first_visible<'r>(rows: &'r [Row], hidden: &[u64]) -> Option<&'r Row>
    ensures { option_map stored_row (option_copied result)
        ≡ find (λ event. not (is_hidden hidden.now event.seq)) (map stored_row rows.now) }
{
    visible_among(rows, hidden)
}

fn visible_among<'r>(rows: &'r [Row], hidden: &[u64]) -> Option<&'r Row>
    ensures { option_copied result ≡ find (λ row. not (is_hidden hidden.now row.seq)) rows.now }
{
    rows.iter().find(|row| !is_hidden(hidden, row.seq))
}

fn is_hidden(hidden: &[u64], seq: u64) -> bool
    ensures { result ≡ is_hidden hidden.now seq }
{
    hidden.contains(&seq)
}
