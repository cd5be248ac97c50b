//! The records that a consumer has before it.

ghost use Rattle.std.specs.Prelude.{◌≡◌, ◌<◌, ◌++◌, IfOk, OnOk, Some, length, slice_get};
ghost use Rattle.std.specs.List.{enumerate_from, flat_map};
ghost use Rattle.kob_delivery_check.specs.Reaches.{records_ahead, records_from, stored_at};

use crate::partition_log::PartitionLog;
use std::alloc::{AllocError, Global};

/// A partition of a consumer, and the offset from which on it takes records in.
#[derive(Debug, Drop)]
pub struct Reach {
    pub log: PartitionLog,
    pub from: u64,
}

/// A record of an event: the number of its partition in the consumer's assignment, and its offset.
#[derive(Clone, Copy, Debug)]
pub struct Stored {
    pub event: u128,
    pub assigned: usize,
    pub offset: u64,
}

/// The records that a consumer has before it, by its partitions in the order of the assignment. The
/// error is out of memory.
pub fn records_ahead(alloc: Global, reaches: &[Reach]) -> Result<Vec<Stored>, AllocError>
    ensures { IfOk result (λ ahead. ahead.items ≡ records_ahead reaches.now) }
{
    let mut ahead = Vec::new(alloc);
    for assigned in 0..reaches.len() {
        let reach = &reaches[assigned];
        push_from(&mut ahead, assigned, reach.from, reach.log.events())?;
    }
    Ok(ahead)
}

/// Adds the records of a partition from an offset on.
pub(crate) fn push_from(
    ahead: &mut Vec<Stored>,
    assigned: usize,
    from: u64,
    events: &[Option<u128>],
) -> Result<(), AllocError>
    ensures { OnOk result (ahead.new.items
        ≡ ahead.old.items ++ records_from assigned from events.now) }
{
    for offset in 0..events.len() {
        push_record(ahead, assigned, from, offset as u64, events[offset])?;
    }
    Ok(())
}

fn push_record(
    ahead: &mut Vec<Stored>,
    assigned: usize,
    from: u64,
    offset: u64,
    event: Option<u128>,
) -> Result<(), AllocError>
    ensures { OnOk result (ahead.new.items
        ≡ ahead.old.items ++ stored_at assigned from (offset, event)) }
{
    match event {
        Some(event) if from <= offset => {
            ahead.push(Stored {
                event,
                assigned,
                offset,
            })?;
            Ok(())
        }
        _ => Ok(()),
    }
}

/// The record at a place of the list.
pub(crate) fn record_at(records: &[Stored], place: usize) -> Stored
    requires { place < length records.now }
    ensures { slice_get records.now place ≡ Some result }
{
    records[place]
}
