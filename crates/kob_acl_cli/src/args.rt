//! The options of a command line.

use kob_names::{Items, Text};

/// The texts of each option that has values, in the order given, and which flags were given.
/// Options without an effect are left out.
#[derive(Debug, Drop)]
pub struct CliArgs {
    pub allow_principals: Items<Text>,
    pub deny_principals: Items<Text>,
    pub allow_hosts: Items<Text>,
    pub deny_hosts: Items<Text>,
    pub operations: Items<Text>,
    pub topics: Items<Text>,
    pub groups: Items<Text>,
    pub transactional_ids: Items<Text>,
    /// The principals whose bindings are listed.
    pub principals: Items<Text>,
    /// The word of `--resource-pattern-type`.
    pub pattern_type: Option<Text>,
    pub add: bool,
    pub remove: bool,
    pub list: bool,
    pub cluster: bool,
    pub producer: bool,
    pub consumer: bool,
    pub idempotent: bool,
}
