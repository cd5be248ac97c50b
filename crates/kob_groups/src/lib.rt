//! Consumer groups and their committed offsets.
#![tactic(auto)]

mod commit;
mod commits;
mod groups;
mod limits;
mod lists;
mod offsets;

pub use commit::{CommitFault, PreparedCommit};
pub use groups::{GroupNotFound, Groups};
pub use limits::GROUP_LIMIT;
