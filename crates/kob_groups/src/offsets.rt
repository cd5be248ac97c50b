//! The offsets of one group on one topic.

ghost use Rattle.std.specs.Prelude.{◌≡◌, nat_eq, None, OnErr, OnOk};
ghost use Rattle.std.specs.Map.{lookup};
ghost use Rattle.indexmap.specs.IndexMap.{insert_entry};

use indexmap::IndexMap;
use std::alloc::{AllocError, Global};

/// The offsets on a topic, by partition. Most groups have one.
#[derive(Drop)]
pub(crate) enum Offsets {
    /// The offset of one partition.
    One(u64, u64),
    /// The offsets of several partitions, or of one where capacity for a second was reserved.
    Several(IndexMap<u64, u64>),
}

impl Offsets {
    ghost use Rattle.kob_groups.specs.Kept.{HasRoom};
    ghost use Rattle.kob_groups.specs.Listed.{offsets_in};

    /// The offset of a partition.
    pub(crate) fn get(&self, partition: u64) -> Option<u64>
        ensures { result ≡ lookup (nat_eq partition) (offsets_in self.now) }
    {
        match self {
            Offsets::One(one, offset) => (*one == partition).then_some(*offset),
            Offsets::Several(offsets) => offsets.get(&partition).copied(),
        }
    }

    /// Reserves capacity for the offset of a partition, unless it has one. The offsets are
    /// unchanged, also after an error, which is out of memory.
    pub(crate) fn reserve(&mut self, alloc: Global, partition: u64) -> Result<(), AllocError>
        ensures entries { offsets_in self.new ≡ offsets_in self.old }
        ensures room { OnOk result (HasRoom partition self.new) }
        ensures absent { OnErr result
            (lookup (nat_eq partition) (offsets_in self.old) ≡ None) }
    {
        match self {
            Offsets::One(one, offset) => {
                if *one == partition {
                    return Ok(());
                }
                let mut offsets = IndexMap::with_capacity(alloc, 2)?;
                let _ = offsets.insert(*one, *offset).unwrap();
                *self = Offsets::Several(offsets);
                Ok(())
            }
            Offsets::Several(offsets) => {
                if offsets.contains_key(&partition) {
                    return Ok(());
                }
                offsets.reserve(1)
            }
        }
    }

    /// Writes the offset of a partition in reserved capacity. Does not allocate.
    pub(crate) fn put(&mut self, partition: u64, offset: u64)
        requires { HasRoom partition self.old }
        ensures { offsets_in self.new
            ≡ insert_entry nat_eq (offsets_in self.old) partition offset }
    {
        match self {
            Offsets::One(_, one) => *one = offset,
            Offsets::Several(offsets) => {
                let _ = offsets.insert(partition, offset).unwrap();
            }
        }
    }
}
