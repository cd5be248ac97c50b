//! The words for the parts of bindings, how bindings, bytes and numbers are printed, and how bytes
//! and numbers are read.
#![tactic(auto)]

mod escape;
mod laws;
mod number;
mod operation;
mod pattern;
mod permission;
mod printed_binding;
mod printed_text;
mod resource;

pub use escape::{bytes_of, escaped_decimal_in, has_whole_escapes, may_have_escapes, unescaped};
pub use laws::cuts_leave_whole_escapes;
pub use number::decimal_in;
pub use operation::{operation_name, operation_named};
pub use pattern::{filter_pattern_named, pattern_name, pattern_named};
pub use permission::{permission_name, permission_named};
pub use printed_binding::print_binding;
pub use printed_text::{
    hex_digit, push_bytes, push_counted, push_number, push_spaced, whole_or_nothing,
};
pub use resource::{resource_name, resource_named};
