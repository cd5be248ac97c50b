//! The administrators' command line: the words of `kafka-acls` become commands on bindings.
#![tactic(auto)]

mod access;
mod args;
mod commands;
mod fault;
mod line;
mod misread;
mod mixes;
mod parts;
mod printed_list;
mod rule;
mod target;

pub use args::CliArgs;
pub use commands::{AclCommand, commands_of};
pub use fault::{CommandFault, LineFault};
pub use line::read_line;
pub use printed_list::print_list;
