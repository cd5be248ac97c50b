//! A broker with its journal that has served its first events.

ghost use Rattle.std.specs.Prelude.{◌≡◌, ◌≤◌, ◌++◌, IfOk, OnOk};
ghost use Rattle.kob_shared.specs.Journals.{events_of, entry_limit, opened_by};
ghost use Rattle.kob_broker.specs.State.{settings_of};
ghost use Rattle.std.specs.List.{All};

use kob_broker::{Broker, Settings};
use kob_connections::ProgramFault;
use kob_rights::Event;
use kob_shared::Recorded;
use std::alloc::Global;

/// Opens a broker with these settings and a journal of at most `limit` entries. Serves the events
/// in order as worker 0, also those that are denied. The error is out of memory, too many opening
/// bindings, or more events than the journal may have entries.
pub fn opened(
    alloc: Global,
    settings: Settings,
    events: &[Event],
    limit: usize,
) -> Result<Recorded, ProgramFault>
    requires { limit ≤ entry_limit }
    ensures events { IfOk result (λ recorded. events_of recorded.journal ≡ events.now) }
    ensures limit { IfOk result (λ recorded. recorded.limit ≡ limit) }
    ensures opening { IfOk result (λ recorded. recorded.opening
        ≡ settings_of (opened_by settings)) }
    ensures workers { IfOk result (λ recorded. All (λ x. x.worker ≡ 0) recorded.journal) }
{
    let broker = Broker::open(alloc, settings)?;
    let mut recorded = Recorded::open(alloc, broker, limit)?;
    serve_all(alloc, &mut recorded, events)?;
    Ok(recorded)
}

fn serve_all(alloc: Global, recorded: &mut Recorded, events: &[Event]) -> Result<(), ProgramFault>
    ensures served { OnOk result (events_of recorded.new.journal
        ≡ events_of recorded.old.journal ++ events.now) }
    ensures limit { recorded.new.limit ≡ recorded.old.limit }
    ensures opening { recorded.new.opening ≡ recorded.old.opening }
    ensures workers { All (λ x. x.worker ≡ 0) recorded.old.journal
        → OnOk result (All (λ x. x.worker ≡ 0) recorded.new.journal) }
{
    for event in events {
        recorded.serve_as(alloc, 0, event)?;
    }
    Ok(())
}
