//! The commits of one group.

ghost use Rattle.std.specs.Prelude.{[], ◌≡◌, nat_eq, IfOk, None, OnErr};
ghost use Rattle.std.specs.Map.{lookup};
ghost use Rattle.kob_groups.specs.Groups.{offsets_on, with_offset, without_offsets};

use crate::offsets::Offsets;
use kob_names::{PlainValue, Text};
use kob_ordered::OrderedMap;
use std::alloc::{AllocError, Global};

/// A group's commits: the offsets on each topic.
#[derive(Drop)]
pub(crate) struct Commits {
    pub(crate) by_topic: OrderedMap<Offsets>,
}

/// Where an offset goes among a group's commits.
#[derive(Drop)]
pub(crate) enum TopicEntry {
    /// Among the offsets on the topic at a place.
    TopicAt(usize),
    /// The first on a new topic.
    NewTopic(Text),
}

impl Commits {
    ghost use Rattle.kob_groups.specs.Kept.{CanPut, has_topic, topic_in};
    ghost use Rattle.kob_groups.specs.Listed.{commits_in, has_commits};

    /// No commits. Does not allocate.
    pub(crate) fn new(alloc: Global) -> Commits
        ensures { result.by_topic.entries ≡ [] }
    {
        Commits {
            by_topic: OrderedMap::new(alloc),
        }
    }

    /// The offset that was committed on a partition.
    #[tactic(auto, using(crate::proofs::Maps::offsets_found))]
    pub(crate) fn fetch(&self, topic: &Text, partition: u64) -> Option<u64>
        ensures { result
            ≡ lookup (nat_eq partition) (offsets_on topic.now (commits_in self.now)) }
    {
        self.by_topic.get(topic)?.get(partition)
    }

    /// Reserves capacity for an offset, unless the partition has one, and copies the name of a
    /// topic that is new. The commits are unchanged, also after an error, which is out of memory.
    #[tactic(auto, using(crate::proofs::Maps::reserving))]
    pub(crate) fn reserve(
        &mut self,
        alloc: Global,
        topic: &Text,
        partition: u64,
    ) -> Result<TopicEntry, AllocError>
        ensures commits { commits_in self.new ≡ commits_in self.old }
        ensures topic { IfOk result (λ entry. topic_in entry self.new ≡ topic.now) }
        ensures ready { IfOk result (λ entry. CanPut entry partition self.new) }
        ensures known { IfOk result (λ entry.
            has_topic entry ≡ has_commits topic.now (commits_in self.old)) }
        ensures absent { OnErr result (lookup (nat_eq partition)
            (offsets_on topic.now (commits_in self.old)) ≡ None) }
    {
        match self.by_topic.place_of(topic) {
            Some(place) => {
                self.by_topic.value_at_mut(place).reserve(alloc, partition)?;
                Ok(TopicEntry::TopicAt(place))
            }
            None => {
                self.by_topic.reserve()?;
                Ok(TopicEntry::NewTopic(topic.copy(alloc)?))
            }
        }
    }

    /// Writes an offset in reserved capacity. Does not allocate.
    pub(crate) fn put(&mut self, entry: TopicEntry, partition: u64, offset: u64)
        requires { CanPut entry partition self.old }
        ensures { commits_in self.new
            ≡ with_offset (topic_in entry self.old) partition offset (commits_in self.old) }
    {
        match entry {
            TopicEntry::TopicAt(place) => {
                self.by_topic.value_at_mut(place).put(partition, offset);
            }
            TopicEntry::NewTopic(topic) => {
                self.by_topic.insert(topic, Offsets::One(partition, offset));
            }
        }
    }

    /// Deletes the offsets on a topic. Does not allocate.
    pub(crate) fn forget(&mut self, topic: &Text)
        ensures { commits_in self.new ≡ without_offsets topic.now (commits_in self.old) }
    {
        let _ = self.by_topic.remove(topic);
    }
}
