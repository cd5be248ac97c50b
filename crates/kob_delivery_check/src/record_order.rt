//! Which records are in their partition before an event that was recorded before them.

ghost use Rattle.std.specs.Prelude.{◌≡◌, ◌++◌, IfOk, OnOk, map};
ghost use Rattle.kob_delivery_check.specs.Order.{early_records};
ghost use Rattle.kob_delivery_check.specs.Order.{record_arrival};

use crate::come::{Arrival, events_come};
use crate::order::{Early, early_in};
use crate::reach::{Reach, Stored};
use crate::repeats::push_once;
use kob_outbox::OutboxEvent;
use kob_router::Place;
use std::alloc::{AllocError, Global};

/// A record that stands before an event of its aggregate that was recorded before it, with the
/// number of its partition in the consumer's assignment.
#[derive(Clone, Copy, Debug)]
pub struct EarlyRecord {
    pub assigned: usize,
    pub early: Early,
}

/// The records of a consumer's partitions that stand before an event of their aggregate that was
/// recorded before them and has a record in the same partition. Deleted records count; a partition
/// that is assigned twice counts once. The error is out of memory.
pub fn early_records(
    alloc: Global,
    assignment: &[Place],
    events: &[&OutboxEvent],
    reaches: &[Reach],
) -> Result<Vec<EarlyRecord>, AllocError>
    ensures { IfOk result (λ early. early.items ≡ early_records assignment.now
        (map (λ event. event.now) events.now) reaches.now) }
{
    let mut early = Vec::new(alloc);
    for assigned in 0..reaches.len() {
        let mut records = Vec::new(alloc);
        push_once(&mut records, assignment, assigned, &reaches[assigned])?;
        let arrivals = record_arrivals(alloc, &records)?;
        let events = events_come(alloc, events, &arrivals)?;
        let found = early_in(alloc, &events, &arrivals)?;
        push_each(&mut early, assigned, &found)?;
    }
    Ok(early)
}

fn record_arrivals(alloc: Global, records: &[Stored]) -> Result<Vec<Arrival>, AllocError>
    ensures { IfOk result (λ arrivals. arrivals.items ≡ map record_arrival records.now) }
{
    let mut arrivals = Vec::new(alloc);
    for stored in records {
        arrivals.push(Arrival {
            at: stored.offset,
            event: stored.event,
        })?;
    }
    Ok(arrivals)
}

fn push_each(
    early: &mut Vec<EarlyRecord>,
    assigned: usize,
    found: &[Early],
) -> Result<(), AllocError>
    ensures { OnOk result (early.new.items ≡ early.old.items
        ++ map (λ one. record { assigned = assigned; early = one }) found.now) }
{
    for one in found {
        early.push(EarlyRecord {
            assigned,
            early: *one,
        })?;
    }
    Ok(())
}
