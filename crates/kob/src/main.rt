//! Plays scenes and scripts, exports what they end with, answers questions about access rules, and
//! compares a topic with an outbox.
#![tactic(auto)]

mod commands;
mod connect;
mod ending;
mod export;
mod exporting;
mod help;
mod input;
mod logs;
mod marks;
mod options;
mod play;
mod policy;
mod policy_answers;
mod policy_lists;
mod policy_options;
mod report;
mod running;
mod source;
mod stages;
mod standing;
mod topic;
mod unmet;
mod version;
mod watched;

use crate::running::{Terminals, run};
use std::io::IsTerminal;
use std::process::ExitCode;

fn main(rt: HostRuntime) -> ExitCode {
    let terminals = Terminals {
        output: rt.stdout().is_terminal(),
        error: rt.stderr().is_terminal(),
    };
    ExitCode::from(run(&rt, terminals).status())
}
