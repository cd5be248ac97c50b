//! The two steps of a commit.

ghost use Rattle.std.specs.Prelude.{◌≡◌, IfOk, None};
ghost use Rattle.kob_groups.specs.Groups.{committed_at, place_of, with_commit};
ghost use Rattle.kob_groups.specs.Kept.{CanEnter, IsNewGroup, place_at};
ghost use Rattle.kob_groups.specs.Listed.{groups_in};

use crate::commits::{Commits, TopicEntry};
use crate::limits::GROUP_LIMIT;
use crate::lists::{GroupsByTopic, Listing};
use kob_names::{PlainValue, Text};
use kob_ordered::OrderedMap;
use std::alloc::{AllocError, Global};
use thiserror::Error;

/// Why an offset was not committed.
#[derive(Clone, Copy, Debug, PartialEq, Eq, Error)]
pub enum CommitFault {
    #[error("too many groups")]
    TooMany,
    #[error("out of memory")]
    Memory(AllocError),
}

/// A commit that needs no more allocations. It has copies only of the names that are new.
#[derive(Drop)]
pub struct PreparedCommit {
    pub(crate) entry: GroupEntry,
    pub(crate) partition: u64,
    pub(crate) offset: u64,
    pub(crate) listing: Option<Listing>,
}

/// Where a commit goes among the groups.
#[derive(Drop)]
pub(crate) enum GroupEntry {
    /// Among the commits of the group at a place.
    GroupAt(usize, TopicEntry),
    /// Among the empty commits that are inserted for a new group.
    NewGroup(Text, Box<Commits>, TopicEntry),
}

impl GroupEntry {
    ghost use Rattle.kob_groups.specs.Kept.{had_commits};

    /// Whether the group has commits on the topic already.
    pub(crate) fn had_commits(&self) -> bool
        ensures { result ≡ had_commits self.now }
    {
        match self {
            GroupEntry::GroupAt(_, TopicEntry::TopicAt(_)) => true,
            GroupEntry::GroupAt(_, TopicEntry::NewTopic(_)) => false,
            GroupEntry::NewGroup(_, _, _) => false,
        }
    }
}

ghost use Rattle.std.specs.Prelude.{◌↔◌, true, false, IsErrOf, OnErr, alloc_error};
ghost use Rattle.kob_groups.specs.Groups.{commits_of, is_full_for};
ghost use Rattle.kob_groups.specs.Kept.{had_commits};
ghost use Rattle.kob_groups.specs.Listed.{CanList, ListsAlike, has_commits, is_listed};

/// Reserves capacity for a commit among those of the groups, and copies the names that are new. The
/// groups are unchanged, also after an error. `TooMany` is returned before a name is copied.
#[tactic(auto, using(crate::proofs::Maps::reserving, crate::proofs::Maps::has_found, crate::proofs::Maps::count_found))]
pub(crate) fn reserve_commit(
    groups: &mut OrderedMap<Commits>,
    alloc: Global,
    group: &Text,
    topic: &Text,
    partition: u64,
) -> Result<GroupEntry, CommitFault>
    ensures groups { groups_in groups.new.entries ≡ groups_in groups.old.entries }
    ensures place { IfOk result (λ entry. place_at entry partition groups.new
        ≡ place_of group.now topic.now partition) }
    ensures ready { IfOk result (λ entry. CanEnter entry partition groups.new) }
    ensures known { IfOk result (λ entry. had_commits entry
        ≡ has_commits topic.now (commits_of group.now (groups_in groups.old.entries))) }
    ensures many { IsErrOf result CommitFault.TooMany
        ↔ (is_full_for group.now (groups_in groups.old.entries) ≡ true) }
    ensures memory { IsErrOf result (CommitFault.Memory alloc_error)
        → committed_at (place_of group.now topic.now partition) (groups_in groups.old.entries)
        ≡ None }
{
    match groups.place_of(group) {
        Some(place) => {
            let topic = groups
                .value_at_mut(place)
                .reserve(alloc, topic, partition)
                .map_err(CommitFault::Memory)?;
            Ok(GroupEntry::GroupAt(place, topic))
        }
        None => {
            if groups.len() >= GROUP_LIMIT {
                return Err(CommitFault::TooMany);
            }
            groups.reserve().map_err(CommitFault::Memory)?;
            new_group(alloc, group, topic, partition).map_err(CommitFault::Memory)
        }
    }
}

/// A group with no commits, with capacity for one. The error is out of memory.
fn new_group(
    alloc: Global,
    group: &Text,
    topic: &Text,
    partition: u64,
) -> Result<GroupEntry, AllocError>
    ensures { IfOk result (IsNewGroup group.now topic.now partition) }
{
    let mut commits = Commits::new(alloc);
    let topic = commits.reserve(alloc, topic, partition)?;
    let commits = Box::new(alloc, commits)?;
    let group = group.copy(alloc)?;
    Ok(GroupEntry::NewGroup(group, commits, topic))
}

/// Reserves capacity for the group of a commit among those of its topic, unless it is there.
pub(crate) fn reserve_listing(
    lists: &mut GroupsByTopic,
    alloc: Global,
    entry: &GroupEntry,
    topic: &Text,
    group: &Text,
) -> Result<Option<Listing>, AllocError>
    requires { is_listed topic.now group.now lists.old ≡ had_commits entry.now }
    ensures kept { ListsAlike lists.old lists.new }
    ensures ready { IfOk result (λ listing. CanList listing topic.now group.now lists.new) }
    ensures absent { OnErr result (had_commits entry.now ≡ false) }
{
    if entry.had_commits() {
        return Ok(None);
    }
    let listing = lists.reserve(alloc, topic, group)?;
    Ok(Some(listing))
}

/// Commits an offset in reserved capacity. Does not allocate.
pub(crate) fn put_commit(
    groups: &mut OrderedMap<Commits>,
    entry: GroupEntry,
    partition: u64,
    offset: u64,
)
    requires { CanEnter entry partition groups.old }
    ensures { groups_in groups.new.entries
        ≡ with_commit (place_at entry partition groups.old) offset
        (groups_in groups.old.entries) }
{
    match entry {
        GroupEntry::GroupAt(place, topic) => {
            groups.value_at_mut(place).put(topic, partition, offset);
        }
        GroupEntry::NewGroup(group, commits, topic) => {
            let mut commits = Box::into_inner(commits);
            commits.put(topic, partition, offset);
            groups.insert(group, commits);
        }
    }
}
