//! What is kept of the offsets that groups committed.

ghost use Rattle.std.specs.Option.{option_copied};
ghost use Rattle.std.specs.List.{find};
ghost use Rattle.std.specs.Prelude.{◌≡◌, ◌&&◌, if◌then◌else◌, List, ℕ, None, Some, OnOk};
ghost use Rattle.kob_delivery.specs.Types.{Place, place_at, same_place};
ghost use Rattle.kob_endpoints.specs.Seen.{committed_in, is_commit_on};
ghost use Rattle.kob_names.specs.Same.{same_text};

use kob_names::Text;
use kob_rights::OffsetCommit;
use std::alloc::AllocError;

/// The offset that a group committed on a partition.
#[derive(Clone, Copy)]
pub(crate) struct SeenCommit<'a> {
    pub(crate) group: &'a Text,
    pub(crate) topic: &'a Text,
    pub(crate) partition: u64,
    pub(crate) offset: u64,
}

/// The commit of the group on the partition.
pub(crate) fn commit_of<'c, 'a>(
    commits: &'c [SeenCommit<'a>],
    group: &Text,
    topic: &Text,
    partition: u64,
) -> Option<&'c SeenCommit<'a>>
    ensures { option_copied result
        ≡ find (is_commit_on group.now (place_at topic.now partition)) commits.now }
{
    commits
        .iter()
        .find(|commit| is_on(commit, group, topic, partition))
}

/// Whether a commit is the group's on the partition.
fn is_on(commit: &SeenCommit<'_>, group: &Text, topic: &Text, partition: u64) -> bool
    ensures { result ≡ is_commit_on group.now (place_at topic.now partition) commit.now }
{
    *commit.group == *group && (*commit.topic == *topic && commit.partition == partition)
}

/// The group has committed the offset.
pub(crate) fn commit<'a>(
    commits: &mut Vec<SeenCommit<'a>>,
    asked: &'a OffsetCommit,
) -> Result<(), AllocError>
    ensures { OnOk result ((group : List ℕ) (place : Place)
        → committed_in commits.new.items group place
        ≡ if same_text asked.now.group group
        && same_place (place_at asked.now.topic asked.now.partition) place
        then Some asked.now.offset else committed_in commits.old.items group place) }
{
    commits.retain(|commit| !is_on(commit, &asked.group, &asked.topic, asked.partition));
    commits.push(SeenCommit {
        group: &asked.group,
        topic: &asked.topic,
        partition: asked.partition,
        offset: asked.offset,
    })?;
    Ok(())
}

/// The commits of the group are gone.
pub(crate) fn forget_group(commits: &mut Vec<SeenCommit<'_>>, group: &Text)
    ensures { (other : List ℕ) (place : Place) → committed_in commits.new.items other place
        ≡ if same_text group.now other then None else committed_in commits.old.items other place }
{
    commits.retain(|commit| *commit.group != *group);
}
