//! The sequences of idempotent producers on one partition: which batch comes next, and which was
//! sent before.
#![tactic(auto)]

mod judge;
mod laws;
mod rings;
mod sent;
mod sequence;
mod table;

pub use judge::Judgement;
pub use laws::{an_accepted_batch_is_known_again, the_last_batches_are_enough};
pub use sent::Sent;
pub use sequence::{last_of, next_sequence};
pub use table::ProducerTable;
