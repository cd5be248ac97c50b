//! Records that repeat an event.

ghost use Rattle.std.specs.Prelude.{◌≡◌, ◌++◌, ◌==◌, ℕ, IfOk, OnOk, nat_eq, take};
ghost use Rattle.std.specs.HashSet.{contains};
ghost use Rattle.std.specs.List.{list_any};
ghost use Rattle.kob_delivery_check.specs.Repeats.{is_repeated, records_of, records_once, repeats_of};
ghost use Rattle.kob_delivery_check.specs.Repeats.{repeat_by};
ghost use Rattle.kob_router.specs.Run.{same_place};

use crate::reach::{Reach, Stored, push_from, record_at};
use kob_router::{Place, is_same_place};
use std::alloc::{AllocError, Global};
use std::collections::HashSet;

/// The records of events in a consumer's partitions, deleted ones included. The partitions are those
/// of the assignment, in its order; one that is assigned twice counts once. The error is out of
/// memory.
pub fn records_of(
    alloc: Global,
    assignment: &[Place],
    reaches: &[Reach],
) -> Result<Vec<Stored>, AllocError>
    ensures { IfOk result (λ records. records.items ≡ records_of assignment.now reaches.now) }
{
    let mut records = Vec::new(alloc);
    for assigned in 0..reaches.len() {
        push_once(&mut records, assignment, assigned, &reaches[assigned])?;
    }
    Ok(records)
}

/// Adds the records of events in a partition, where it is not assigned before.
pub(crate) fn push_once(
    records: &mut Vec<Stored>,
    assignment: &[Place],
    assigned: usize,
    reach: &Reach,
) -> Result<(), AllocError>
    ensures { OnOk result (records.new.items
        ≡ records.old.items ++ records_once assignment.now (assigned, reach.now)) }
{
    if is_repeated(assignment, assigned) {
        return Ok(());
    }
    push_from(records, assigned, 0, reach.log.events())
}

/// Whether the partition is assigned before.
fn is_repeated(assignment: &[Place], assigned: usize) -> bool
    ensures { result ≡ is_repeated assignment.now assigned }
{
    match assignment.get(assigned) {
        Some(place) => has_before(assignment, assigned, place),
        None => false,
    }
}

fn has_before(assignment: &[Place], assigned: usize, place: &Place) -> bool
    ensures { result ≡ list_any (λ other. same_place other place.now) (take assigned assignment.now) }
{
    assignment
        .iter()
        .take(assigned)
        .any(|other| is_same_place(other, place))
}

/// The records whose event has an earlier record. The error is out of memory.
pub fn repeats_of(alloc: Global, records: &[Stored]) -> Result<Vec<Stored>, AllocError>
    ensures { IfOk result (λ repeats. repeats.items ≡ repeats_of records.now) }
{
    let mut repeats = Vec::new(alloc);
    let mut earlier = HashSet::new(alloc);
    for place in 0..records.len() {
        let stored = record_at(records, place);
        push_repeat(&mut repeats, earlier.contains(&stored.event), stored)?;
        earlier.insert(stored.event)?;
    }
    Ok(repeats)
}

fn push_repeat(repeats: &mut Vec<Stored>, is_repeat: bool, stored: Stored) -> Result<(), AllocError>
    ensures { OnOk result (repeats.new.items ≡ repeats.old.items ++ repeat_by is_repeat stored) }
{
    if is_repeat {
        repeats.push(stored)?;
    }
    Ok(())
}
