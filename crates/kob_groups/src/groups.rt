//! Groups in order of their first commit, with their committed offsets.

ghost use Rattle.std.specs.Prelude.{◌≡◌, ◌↔◌, true, false, IsErrOf, IfOk, None, OnErr, OnOk};
ghost use Rattle.std.specs.Prelude.{alloc_error};
ghost use Rattle.kob_groups.specs.Groups.{committed_at, group_names, has_group, is_full_for};
ghost use Rattle.kob_groups.specs.Groups.{no_groups, place_of, with_commit, without_group};
ghost use Rattle.kob_groups.specs.Groups.{without_offsets, without_topic};

use crate::commit::{CommitFault, PreparedCommit, put_commit, reserve_commit, reserve_listing};
use crate::commits::Commits;
use crate::lists::{GroupNames, GroupsByTopic};
use kob_names::{Items, PlainValue, Text};
use kob_ordered::OrderedMap;
use std::alloc::{AllocError, Global};
use thiserror::Error;

/// No group has the name.
#[derive(Clone, Copy, Debug, PartialEq, Eq, Error)]
#[error("unknown group")]
pub struct GroupNotFound;

/// The groups in order of their first commit, and the offsets that they committed. A group remains
/// when its last commit is deleted with a topic. There is also a list of the groups with commits on
/// each topic, so that a topic's deletion visits those alone. Contracts see the groups and offsets
/// (`groups_of`), and the capacity reserved for a commit.
#[derive(Drop)]
pub struct Groups {
    by_name: OrderedMap<Commits>,
    lists: GroupsByTopic,
    ghost listed: { AreListed (groups_in by_name.entries) lists },
}

impl Groups {
    ghost use Rattle.kob_groups.specs.Kept.{CanCommit, groups_of, place_in};
    ghost use Rattle.kob_groups.specs.Listed.{commits_in};

    /// No groups. Does not allocate.
    pub fn new(alloc: Global) -> Groups
        ensures { groups_of result ≡ no_groups }
    {
        Groups {
            by_name: OrderedMap::new(alloc),
            lists: GroupsByTopic::new(alloc),
        }
    }

    /// The offset that a group committed on a partition of a topic. Does not allocate.
    #[tactic(auto, using(crate::proofs::Maps::commits_found))]
    pub fn fetch(&self, group: &Text, topic: &Text, partition: u64) -> Option<u64>
        ensures { result
            ≡ committed_at (place_of group.now topic.now partition) (groups_of self.now) }
    {
        self.by_name.get(group)?.fetch(topic, partition)
    }

    /// The first step of a commit: all allocations. The groups are unchanged, also after an error.
    /// `TooMany` is returned if the group is a new one and there are 10,000, before a name is
    /// copied. Only names that are new are copied. Does not allocate if the group has an offset on
    /// the partition.
    #[tactic(auto, using(crate::proofs::Maps::uncommitted))]
    pub fn prepare_commit(
        &mut self,
        alloc: Global,
        group: &Text,
        topic: &Text,
        partition: u64,
        offset: u64,
    ) -> Result<PreparedCommit, CommitFault>
        ensures groups { groups_of self.new ≡ groups_of self.old }
        ensures place { IfOk result
            (λ made. place_in made self.new ≡ place_of group.now topic.now partition) }
        ensures offset { IfOk result (λ made. made.offset ≡ offset) }
        ensures ready { IfOk result (λ made. CanCommit made self.new) }
        ensures many { IsErrOf result CommitFault.TooMany
            ↔ (is_full_for group.now (groups_of self.old) ≡ true) }
        ensures memory { IsErrOf result (CommitFault.Memory alloc_error)
            → committed_at (place_of group.now topic.now partition) (groups_of self.old) ≡ None }
    {
        let entry = reserve_commit(&mut self.by_name, alloc, group, topic, partition)?;
        let listing = reserve_listing(&mut self.lists, alloc, &entry, topic, group).map_err(
            CommitFault::Memory,
        )?;
        Ok(PreparedCommit {
            entry,
            partition,
            offset,
            listing,
        })
    }

    /// The second step: commits the offset in reserved capacity. Does not allocate.
    pub fn commit_commit(&mut self, made: PreparedCommit)
        requires { CanCommit made self.old }
        ensures { groups_of self.new
            ≡ with_commit (place_in made self.old) made.offset (groups_of self.old) }
    {
        let PreparedCommit {
            entry,
            partition,
            offset,
            listing,
        } = made;
        self.lists.put(listing);
        put_commit(&mut self.by_name, entry, partition, offset);
    }

    /// Commits an offset. A new group is appended. After an error the groups are as before. Does
    /// not allocate if the group has an offset on the partition.
    pub fn commit(
        &mut self,
        alloc: Global,
        group: &Text,
        topic: &Text,
        partition: u64,
        offset: u64,
    ) -> Result<(), CommitFault>
        ensures committed { OnOk result (groups_of self.new
            ≡ with_commit (place_of group.now topic.now partition) offset (groups_of self.old)) }
        ensures kept { OnErr result (groups_of self.new ≡ groups_of self.old) }
        ensures many { IsErrOf result CommitFault.TooMany
            ↔ (is_full_for group.now (groups_of self.old) ≡ true) }
        ensures memory { IsErrOf result (CommitFault.Memory alloc_error)
            → committed_at (place_of group.now topic.now partition) (groups_of self.old) ≡ None }
    {
        let made = self.prepare_commit(alloc, group, topic, partition, offset)?;
        self.commit_commit(made);
        Ok(())
    }

    /// The names of the groups, in order of their first commit. The error is out of memory.
    pub fn names(&self, alloc: Global) -> Result<Items<Text>, AllocError>
        ensures { IfOk result (λ names. names ≡ group_names (groups_of self.now)) }
    {
        let mut names = Vec::new(alloc);
        for (name, _) in self.by_name.iter() {
            names.push(name.copy(alloc)?)?;
        }
        Ok(Items::from_vec(names))
    }

    /// Whether there is a group of that name. Does not allocate.
    #[tactic(auto, using(crate::proofs::Maps::has_found))]
    pub fn contains(&self, name: &Text) -> bool
        ensures { result ≡ has_group name.now (groups_of self.now) }
    {
        self.by_name.contains_key(name)
    }

    /// Removes a group, with its commits. Does not allocate.
    #[tactic(auto, using(crate::proofs::Maps::has_found, crate::proofs::Maps::groups_removed, kob_ordered::proofs::Entries::removed_absent))]
    pub fn remove(&mut self, name: &Text) -> Result<(), GroupNotFound>
        ensures found { OnOk result (has_group name.now (groups_of self.old) ≡ true) }
        ensures removed { OnOk result
            (groups_of self.new ≡ without_group name.now (groups_of self.old)) }
        ensures absent { OnErr result (has_group name.now (groups_of self.old) ≡ false) }
        ensures kept { OnErr result (groups_of self.new ≡ groups_of self.old) }
    {
        let Some(commits) = self.by_name.remove(name) else {
            return Err(GroupNotFound);
        };
        leave_lists(&mut self.lists, &commits, name);
        Ok(())
    }

    /// Deletes the commits on a topic; the groups remain. Does not allocate.
    pub fn forget_topic(&mut self, topic: &Text)
        ensures { groups_of self.new ≡ without_topic topic.now (groups_of self.old) }
    {
        self.by_name.names_differ();
        let Some(names) = self.lists.take(topic) else {
            return;
        };
        forget_at(&mut self.by_name, &names, topic);
    }
}

ghost use Rattle.std.specs.Prelude.{ℕ, List, Some, not, ◌&&◌};
ghost use Rattle.kob_groups.specs.Groups.{is_among};
ghost use Rattle.kob_groups.specs.Listed.{AreListed, has_commits, is_listed, commits_in};
ghost use Rattle.kob_groups.specs.Listed.{groups_in, without_topic_at};
ghost use Rattle.kob_names.specs.Same.{same_text};

/// Deletes the commits on a topic of the groups of these names.
fn forget_at(groups: &mut OrderedMap<Commits>, names: &GroupNames, topic: &Text)
    ensures { groups_in groups.new.entries
        ≡ without_topic_at (λ name. is_among name (Some names.now)) topic.now
        (groups_in groups.old.entries) }
{
    for (name, _) in names.iter() {
        if let Some(commits) = groups.get_mut(name) {
            commits.forget(topic);
        }
    }
}

/// Removes a deleted group from the lists of the topics on which it has commits.
fn leave_lists(lists: &mut GroupsByTopic, commits: &Commits, group: &Text)
    ensures { (t g : List ℕ) → is_listed t g lists.new ≡ (is_listed t g lists.old
        && not (same_text group.now g && has_commits t (commits_in commits.now))) }
{
    for (topic, _) in commits.by_topic.iter() {
        lists.remove(topic, group);
    }
}
