//! The partitions that a service has sent to and a consumer does not read.

ghost use Rattle.std.specs.Prelude.{◌≡◌, IfOk, OnOk};
ghost use Rattle.kob_delivery_check.specs.Unread.{has_partition, unread_of, with_entry, with_produce};

use kob_names::{PlainValue, Text};
use kob_rights::{Produce, Reply, Request};
use kob_router::Place;
use kob_shared::{Entry, Journal};
use std::alloc::{AllocError, Global};

/// The partitions to which a worker has sent by a journal, in the order of the first sending, that
/// are not among those of an assignment. The error is out of memory.
pub fn unread_of(
    alloc: Global,
    journal: &Journal,
    worker: usize,
    assignment: &[Place],
) -> Result<Vec<Place>, AllocError>
    ensures { IfOk result (λ unread. unread.items
        ≡ unread_of worker assignment.now journal.now) }
{
    let mut found = Vec::new(alloc);
    for at in 0..journal.len() {
        note_entry(alloc, &mut found, worker, assignment, journal.entry_at(at))?;
    }
    Ok(found)
}

fn note_entry(
    alloc: Global,
    found: &mut Vec<Place>,
    worker: usize,
    assignment: &[Place],
    entry: &Entry,
) -> Result<(), AllocError>
    ensures { OnOk result (found.new.items
        ≡ with_entry worker assignment.now found.old.items entry.now) }
{
    if entry.worker != worker {
        return Ok(());
    }
    match (&entry.event.request, &entry.reply) {
        (Request::Produce(asked), Reply::Done(_)) => {
            if has_partition(assignment, &asked.topic, asked.partition)
                || has_partition(found, &asked.topic, asked.partition)
            {
                return Ok(());
            }
            let topic = asked.topic.copy(alloc)?;
            found.push(Place {
                topic,
                partition: asked.partition,
            })?;
            Ok(())
        }
        _ => Ok(()),
    }
}

fn has_partition(places: &[Place], topic: &Text, partition: u64) -> bool
    ensures { result ≡ has_partition places.now topic.now partition }
{
    places.iter().any(|place| place.partition == partition && place.topic == *topic)
}
