//! Partitions of topics, by name and number.

ghost use Rattle.std.specs.Prelude.{◌≡◌};
ghost use Rattle.kob_router.specs.Run.{same_place};

use kob_names::{PlainValue, Text};
use std::alloc::{AllocError, Global};

/// A partition of a topic.
#[derive(Debug, Drop)]
pub struct Place {
    pub topic: Text,
    pub partition: u64,
}

/// Whether the two are one partition of one topic. Does not allocate.
pub fn is_same_place(one: &Place, two: &Place) -> bool
    ensures { result ≡ same_place one.now two.now }
{
    one.topic == two.topic && one.partition == two.partition
}

impl PlainValue for Place {
    fn copy(&self, alloc: Global) -> Result<Self, AllocError> {
        let topic = self.topic.copy(alloc)?;
        Ok(Place {
            topic,
            partition: self.partition,
        })
    }

    fn same(&self, other: &Self) -> bool {
        self.topic.same(&other.topic) && self.partition == other.partition
    }
}
