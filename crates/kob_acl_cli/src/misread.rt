//! Reading the words of options, up to the first that is not valid.

ghost use Rattle.std.specs.Prelude.{filter};
ghost use Rattle.std.specs.Option.{option_to_list};
ghost use Rattle.kob_acl_cli.specs.Commands.{Reads, is_no_principal, is_no_host};
ghost use Rattle.kob_acl_cli.specs.Commands.{is_no_operation, is_no_pattern_type};
ghost use Rattle.kob_acl_cli.specs.Commands.{operations_named, pattern_type};

use crate::fault::CommandFault;
use kob_names::{
    FilterPattern, Host, HostFault, Items, Operation, PlainValue, Principal, PrincipalFault, Text,
};
use kob_words::{filter_pattern_named, operation_named};
use std::alloc::Global;

/// The principals that the words name.
pub fn read_principals(alloc: Global, words: &Items<Text>) -> Result<Items<Principal>, CommandFault>
    ensures { Reads (filter is_no_principal words.now) words.now result }
{
    let mut principals = Vec::new(alloc);
    for word in words.as_slice() {
        match Principal::parse(alloc, word.as_str()) {
            Ok(principal) => principals.push(principal)?,
            Err(PrincipalFault::Memory(error)) => return Err(CommandFault::Memory(error)),
            Err(_) => return Err(CommandFault::BadName(word.copy(alloc)?)),
        }
    }
    Ok(Items::from_vec(principals))
}

/// The hosts that the words name.
pub fn read_hosts(alloc: Global, words: &Items<Text>) -> Result<Items<Host>, CommandFault>
    ensures { Reads (filter is_no_host words.now) words.now result }
{
    let mut hosts = Vec::new(alloc);
    for word in words.as_slice() {
        match Host::parse(alloc, word.as_str()) {
            Ok(host) => hosts.push(host)?,
            Err(HostFault::Memory(error)) => return Err(CommandFault::Memory(error)),
            Err(_) => return Err(CommandFault::BadName(word.copy(alloc)?)),
        }
    }
    Ok(Items::from_vec(hosts))
}

/// The operations that the words name.
pub fn read_operations(alloc: Global, words: &Items<Text>) -> Result<Items<Operation>, CommandFault>
    ensures { Reads (filter is_no_operation words.now) (operations_named words.now) result }
{
    let mut operations = Vec::new(alloc);
    for word in words.as_slice() {
        let Some(operation) = operation_named(word.as_str().as_bytes()) else {
            return Err(CommandFault::BadName(word.copy(alloc)?));
        };
        operations.push(operation)?;
    }
    Ok(Items::from_vec(operations))
}

/// The pattern type that the word names; without a word it is literal.
pub fn read_pattern_type(alloc: Global, word: &Option<Text>) -> Result<FilterPattern, CommandFault>
    ensures { Reads (filter is_no_pattern_type (option_to_list word.now))
        (pattern_type word.now) result }
{
    match word {
        None => Ok(FilterPattern::Literal),
        Some(word) => match filter_pattern_named(word.as_str().as_bytes()) {
            Some(pattern) => Ok(pattern),
            None => Err(CommandFault::BadName(word.copy(alloc)?)),
        },
    }
}
