//! The topics in order of creation, each with the logs of its partitions.
#![tactic(auto)]

mod catalog;
mod decider;
mod fault;
mod granted;
mod limits;
mod prepared;
mod topic;

pub use catalog::Catalog;
pub use decider::Decider;
pub use fault::{CreateFault, PartitionFault, UnknownTopic};
pub use granted::GrantedTopics;
pub use limits::{PARTITION_LIMIT, TOPIC_LIMIT};
pub use prepared::PreparedTopic;
