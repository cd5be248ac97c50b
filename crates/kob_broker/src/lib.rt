//! The core of the broker: each event is one step, decided by the bindings in force at its place.
#![tactic(auto)]

mod batch_outcome;
mod batch_size;
mod broker;
mod denial;
mod describing;
mod laws;
mod limits;
mod on_acls;
mod on_groups;
mod on_partitions;
mod on_topics;
mod open_fault;
mod prepared;
mod produce;
mod stopped;
mod verdicts;

pub use broker::Broker;
pub use describing::TopicDescriber;
pub use kob_names::Settings;
pub use laws::{
    denials_depend_on_bindings_alone, denials_have_the_codes_of_their_requests, each_reply_is_just,
    listings_hold_what_is_described, nothing_is_spent_unasked, offsets_stay_within_the_limit,
    only_done_requests_change_the_state, replies_tell_the_bindings_in_force,
    verdicts_are_by_bindings_where_nothing_is_open, what_is_kept_is_enough,
};
pub use limits::{BATCH_BYTE_LIMIT, EPOCH_LIMIT, PRODUCER_LIMIT, RECORD_LIMIT, SEQUENCE_LIMIT};
pub use open_fault::OpenFault;
pub use prepared::Prepared;
pub use stopped::Stopped;
