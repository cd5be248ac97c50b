//! A service's tables in memory: its business rows, its outbox, the ids that were ever recorded,
//! and the mark up to which rows were sent.
#![tactic(auto)]

mod business_table;
mod change;
mod event;
mod fault;
mod fields;
mod laws;
mod mark_table;
mod numbers;
mod outbox;
mod outbox_table;
mod rows;
mod spent_table;
mod writes;

pub use change::Change;
pub use event::{OutboxEvent, Row};
pub use fault::{MarkFault, OutboxFault, RecordFault};
pub use fields::{Column, NAME_BYTES_LIMIT, TEXT_BYTES_LIMIT};
pub use laws::{a_record_writes_one_business_row, a_sweep_keeps_what_waits};
pub use numbers::number;
pub use outbox::Outbox;
