//! Which entries of a journal put a record out of a group's reach.

ghost use Rattle.std.specs.Prelude.{◌≡◌, ◌<◌, ◌++◌, ◌||◌, ◌&&◌, IfOk, OnOk, length, max, nat_le, nat_lt, unwrap_or};
ghost use Rattle.kob_delivery_check.specs.Causes.{deletes_topic, is_behind, obstacle_of, obstacles};
ghost use Rattle.kob_delivery_check.specs.Causes.{noted};
ghost use Rattle.std.specs.List.{find};

use crate::partition_log::PartitionLog;
use kob_names::Text;
use kob_rights::{Reply, Request};
use kob_router::Place;
use kob_shared::Journal;
use std::alloc::{AllocError, Global};

/// The entries that deleted the topic of a partition, or put the record at an offset out of the reach
/// of a consumer that begins by the group's commit. They are named by place. The error is out
/// of memory.
pub(crate) fn obstacles(
    alloc: Global,
    group: &Text,
    place: &Place,
    offset: u64,
    journal: &Journal,
) -> Result<Vec<usize>, AllocError>
    ensures { IfOk result (λ found.
        found.items ≡ obstacles group.now place.now offset journal.now) }
{
    let mut log = PartitionLog::new(alloc);
    let mut found = Vec::new(alloc);
    for at in 0..journal.len() {
        let entry = journal.entry_at(at);
        let was_behind = is_behind(offset, &log);
        log.note(group, place, &entry.event.request, &entry.reply)?;
        let deletes = deletes_topic(place, &entry.event.request, &entry.reply);
        let moves = is_behind(offset, &log) && !was_behind;
        note_if(&mut found, at, deletes || moves)?;
    }
    Ok(found)
}

fn note_if(found: &mut Vec<usize>, at: usize, is_obstacle: bool) -> Result<(), AllocError>
    ensures { OnOk result (found.new.items ≡ found.old.items ++ noted at is_obstacle) }
{
    if is_obstacle {
        found.push(at)?;
    }
    Ok(())
}

/// Whether a consumer that begins by the group's commit is not given the record at this offset.
fn is_behind(offset: u64, log: &PartitionLog) -> bool
    ensures { result ≡ is_behind offset log.now }
{
    offset < log.committed().unwrap_or(0).max(log.start())
}

fn deletes_topic(place: &Place, request: &Request, reply: &Reply) -> bool
    ensures { result ≡ deletes_topic place.now request.now reply.now }
{
    match (request, reply) {
        (Request::DeleteTopics(asked), Reply::Done(_)) => asked.name == place.topic,
        _ => false,
    }
}

/// The first of these from the sending on, else the last before it.
pub(crate) fn obstacle_of(sent: usize, found: &[usize]) -> Option<usize>
    ensures { result ≡ obstacle_of sent found.now }
{
    first_from(sent, found).or(found.last().copied())
}

fn first_from(sent: usize, found: &[usize]) -> Option<usize>
    ensures { result ≡ find (λ at. nat_le sent at) found.now }
{
    found.iter().copied().find(|at| sent <= *at)
}
