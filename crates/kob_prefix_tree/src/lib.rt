//! A map from byte strings to lists of serials: a radix tree whose nodes hold up to 23 bytes each.
#![tactic(auto)]

mod below;
mod branch;
mod cells;
mod in_place;
mod kind;
mod link;
mod node;
mod part;
mod path;
mod place;
mod serials;
mod siblings;
mod tail;
mod tree;
mod walk;
mod way;

pub use kind::PatternKind;
pub use part::Part;
pub use tree::{PrefixTree, Prepared};
pub use walk::Walk;
