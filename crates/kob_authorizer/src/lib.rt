//! The bindings in force, the super users, and the verdicts on questions of access.
#![tactic(auto)]

mod at_once;
mod authorizer;
mod by_principal;
mod candidate;
mod creation;
mod deletion;
mod entry_list;
mod equals;
mod fault;
mod fresh;
mod hits;
mod index;
mod key;
mod laws;
mod limits;
mod look_up;
mod patterns;
mod question;
mod removal;
mod super_users;

pub use authorizer::Authorizer;
pub use creation::PreparedCreate;
pub use deletion::PreparedDelete;
pub use fault::CreateFault;
pub use key::kind_in_tree;
pub use laws::{
    a_true_verdict_is_the_only_one, bindings_decide_where_nothing_is_open, bindings_stay_distinct,
    created_bindings_are_in_force, creations_only_add, everyone_is_granted_what_no_binding_matches,
    serials_keep_rising, verdicts_are_true,
};
pub use limits::{BINDING_LIMIT, SERIAL_LIMIT};
pub use look_up::entry_of;
