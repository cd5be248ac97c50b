//! The reader of scripts and the printer of replies.
#![tactic(auto)]

mod checked;
mod command;
mod command_lines;
mod command_requests;
mod fault;
mod faults;
mod laws;
mod place;
mod printed;
mod raw_words;
mod requests;
mod script;
mod values;
mod words;

pub use checked::CheckedScript;
pub use command_lines::{acl_commands, answer_to, events_of};
pub use fault::{Fault, FaultKind, LineError, ScriptError};
pub use laws::{faults_come_in_their_order, plain_scripts_have_one_reading};
pub use place::fault_place;
pub use printed::{kind_text, print_fault, print_reply, push_outcome, push_record, push_topic};
pub use requests::Requests;
pub use script::{Script, check_script, everyone_of, is_setting, is_super, read_script, super_of};
pub use values::{
    host_of, lent_text_of, named_host, named_principal, number_of, principal_of, text_of, texts_of,
};
pub use words::{Word, words_of};
