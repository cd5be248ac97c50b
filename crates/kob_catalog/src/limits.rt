//! Limits on topics.

/// The maximum number of topics.
pub const TOPIC_LIMIT: usize = 10_000;

/// The maximum number of partitions of a topic.
pub const PARTITION_LIMIT: u64 = 1_000;

const _: () = prove!(TOPIC_LIMIT == 10_000);

const _: () = prove!(PARTITION_LIMIT == 1_000);
