//! Answers about access rules as rows, printed as JSON or as comma-separated values.
#![tactic(auto)]

mod access;
mod bound;
mod cell;
mod changes;
mod columns;
mod granted;
mod held;
mod log_object;
mod log_rows;
mod objects;
mod reached;
mod rows;
mod seen;
mod summed;
mod table;
mod verdict;

pub use cell::Cell;
pub use changes::{change_rows, fault_row, omission_rows};
pub use columns::{Column, change_columns, columns_of, fault_columns, is_table, omission_columns};
pub use log_object::print_json_log;
pub use objects::{print_json, print_json_answers, print_json_files};
pub use rows::rows_of;
pub use table::{print_csv, print_csv_answers};
