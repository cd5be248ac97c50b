//! Requests and replies, and the rights that each request needs.
#![tactic(auto)]

mod check;
mod code;
mod event;
mod on_acls;
mod on_groups;
mod on_partitions;
mod on_topics;
mod reason;
mod reply;
mod request;
mod table;

pub use check::{Check, Clause, Rights};
pub use code::Code;
pub use event::Event;
pub use on_acls::{CreateAcls, DeleteAcls, DescribeAcls};
pub use on_groups::{DeleteGroups, OffsetCommit, OffsetFetch};
pub use on_partitions::{Before, DeleteRecords, Fetch, ListOffsets, Produce, Which};
pub use on_topics::{CreateTopics, DeleteTopics, Metadata};
pub use reason::Reason;
pub use reply::{Body, Reply};
pub use request::Request;
