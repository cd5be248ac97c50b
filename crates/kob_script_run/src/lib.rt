//! Scripts run on text: bytes from any reader, the output to any writer.
#![tactic(auto)]

mod fault;
mod input;
mod lent;
mod limits;
mod output;
mod pieces;
mod replies;
mod run;
mod source;
mod transfer;
mod writing;

pub use fault::RunFault;
pub use limits::{READ_LIMIT, SCRIPT_LIMIT};
pub use output::Ended;
pub use run::run_text;
