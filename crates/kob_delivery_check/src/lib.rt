//! Where each event of a service is: with a consumer, on its way, or lost.
#![tactic(auto)]

mod altered;
mod cause;
mod come;
mod fate;
mod fates;
mod journaled;
mod obstacle;
mod order;
mod partition_log;
mod printed;
mod printed_doubles;
mod printed_order;
mod printed_pieces;
mod printed_records;
mod reach;
mod record_order;
mod repeats;
mod row_doubles;
mod sent;
mod start;
mod unread;
mod unrecorded;

pub use altered::altered_row;
pub use cause::{Cause, LostEvent, losses_of};
pub use come::{Arrival, count_taken};
pub use fate::Fate;
pub use fates::fates_of;
pub use journaled::{log_by, reaches_by};
pub use order::{Early, early_rows};
pub use partition_log::PartitionLog;
pub use printed::{Found, print_check};
pub use reach::{Reach, Stored, records_ahead};
pub use record_order::{EarlyRecord, early_records};
pub use repeats::{records_of, repeats_of};
pub use row_doubles::{DoubledRow, doubled_rows};
pub use sent::place_of;
pub use start::start_due;
pub use unread::unread_of;
pub use unrecorded::{has_new_id, unrecorded_of};
