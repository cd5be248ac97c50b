//! A map from names to values in order of insertion, whose removals move no other entry.
#![tactic(auto)]

mod by_name;
mod guesses;
mod iter;
mod ordered_map;
mod packing;
mod slot;

pub use iter::Iter;
pub use ordered_map::OrderedMap;
