//! Tests of scripts and of the command line, and of the crates from the names to topics and groups,
//! over the public surface of these crates: what no scene can show.
#![tactic(auto)]

#[cfg(test)]
mod acl;
#[cfg(test)]
mod chunks;
#[cfg(test)]
mod full;
#[cfg(test)]
mod limits;
#[cfg(test)]
mod names;
#[cfg(test)]
mod no_allocation;
#[cfg(test)]
mod no_allocation_parts;
#[cfg(test)]
mod producers;
#[cfg(test)]
mod resumed;
#[cfg(test)]
mod runs;
#[cfg(test)]
mod tree;
