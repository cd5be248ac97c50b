//! The creation of a topic between its first and its second step.

ghost use Rattle.std.specs.Prelude.{◌≡◌};

use crate::topic::Topic;
use kob_names::Text;
use std::marker::Model;

/// A topic that needs no more allocations.
#[derive(Drop)]
pub struct PreparedTopic {
    name: Text,
    topic: Topic,
}

impl Model for PreparedTopic {
    ghost use Rattle.kob_catalog.specs.Kept.{topic_code};
    ghost use Rattle.kob_catalog.specs.Topics.{Topic};
    ghost use Rattle.kob_partition.specs.Retained.{LogKept};

    ghost Value = { Topic LogKept };

    ghost coded = { topic_code };

    ghost view = { λ made. (made.name, made.topic) };
}

impl PreparedTopic {
    pub(crate) fn new(name: Text, topic: Topic) -> PreparedTopic
        ensures name { result.0 ≡ name }
        ensures partitions { result.1 ≡ topic }
    {
        PreparedTopic { name, topic }
    }

    pub(crate) fn into_parts(self) -> (Text, Topic)
        ensures name { result.0 ≡ self.0 }
        ensures partitions { result.1 ≡ self.1 }
    {
        (self.name, self.topic)
    }
}
