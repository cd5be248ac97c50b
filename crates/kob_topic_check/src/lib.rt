//! What a topic has of the rows of an outbox: events that are missing, doubled, out of order or
//! unknown.
#![tactic(auto)]

mod findings;
mod firsts;
mod printed;
mod reading;
mod record;
mod row;

pub use findings::{print_counts, print_findings};
pub use reading::{ReadError, read_records, read_rows};
pub use record::Record;
pub use row::Row;
