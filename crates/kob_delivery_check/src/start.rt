//! Where a consumer that begins at the end commits before it asks for its group's commit.

ghost use Rattle.std.specs.Prelude.{◌≡◌, IfOk};
ghost use Rattle.kob_delivery_check.specs.Starts.{start_due, start_on};

use crate::journaled::log_by;
use kob_inbox::Consumer;
use kob_names::PlainValue;
use kob_rights::OffsetCommit;
use kob_router::Place;
use kob_shared::Journal;
use std::alloc::{AllocError, Global};

/// The commit of the end of the first partition of a consumer's assignment on which the consumer
/// knows no position and its group has no commit. The error is out of memory.
pub fn start_due(
    alloc: Global,
    journal: &Journal,
    consumer: &Consumer,
) -> Result<Option<OffsetCommit>, AllocError>
    ensures { IfOk result (λ due. due
        ≡ start_due journal.now consumer.now consumer.now.subscription.assignment) }
{
    let subscription = consumer.subscription();
    for place in subscription.assignment.as_slice() {
        let log = log_by(alloc, &subscription.group, place, journal)?;
        let (None, None) = (consumer.position(place), log.committed()) else {
            continue;
        };
        let group = subscription.group.copy(alloc)?;
        let topic = place.topic.copy(alloc)?;
        return Ok(Some(OffsetCommit {
            group,
            topic,
            partition: place.partition,
            offset: log.events().len() as u64,
        }));
    }
    Ok(None)
}
