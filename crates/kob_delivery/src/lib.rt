//! The laws of delivery: what a journal, and the calls of services and consumers, say of topics and
//! inboxes. Premises that a caller can decide, and access rules from which they follow.
#![tactic(auto)]

mod access_laws;
mod access_rules;
mod actors;
mod asked;
mod bindings_on;
mod delivery_laws;
mod history_laws;
mod open_places;
mod openers;
mod premises;
mod repeat_laws;
mod several_laws;
mod shared_topics;

pub use access_laws::{bindings_leave_one_committer, bindings_leave_one_producer};
pub use access_rules::{
    RuleFault, only_committer_by_rules, only_committer_in_turn, only_producer_by_rules,
    only_producer_in_turn,
};
pub use actors::{
    first_other_actor, first_super_committer, first_super_producer, other_actor_in_turn,
    super_committer_in_turn, super_producer_in_turn,
};
pub use delivery_laws::{
    a_consumer_takes_each_offset_in_order, a_partition_holds_what_was_routed,
    a_row_waits_or_was_sent, an_inbox_holds_a_prefix_of_each_aggregate,
};
pub use history_laws::a_legal_journal_is_a_history;
pub use open_places::{
    a_reservation_lasts, first_unreserved, is_reserved, the_bindings_on_a_name_decide,
    unreserved_in_turn,
};
pub use openers::{first_opener, opener_in_turn};
pub use premises::{
    Breach, Premise, breach_in_turn, deletion, first_breach, other_committer, other_producer,
};
pub use repeat_laws::a_row_is_appended_once_a_start;
pub use several_laws::an_inbox_among_services_holds_a_prefix;
pub use shared_topics::first_unshared;
