//! What the words of a line mean.

ghost use Rattle.std.specs.Prelude.{codes, filter};
ghost use Rattle.kob_names.specs.declared.kinds.Operation.TheVariants.{All};
ghost use Rattle.kob_acl_cli.specs.Commands.{Reads, is_no_host, is_no_operation, misread_words};
ghost use Rattle.kob_acl_cli.specs.Commands.{operations_named, or_default, parts};

use crate::args::CliArgs;
use crate::fault::CommandFault;
use crate::misread::{read_hosts, read_operations, read_pattern_type, read_principals};
use kob_names::{FilterPattern, Host, HostFault, Items, Operation, Permission, Principal, Text};
use std::alloc::Global;

/// The principals, on these hosts, that are allowed or denied something.
#[derive(Drop)]
pub struct Holders {
    pub permission: Permission,
    pub principals: Items<Principal>,
    pub hosts: Items<Host>,
}

/// The words of a line, read, with defaults for those that are not given.
#[derive(Drop)]
pub struct Parts {
    pub allowed: Holders,
    pub denied: Holders,
    pub operations: Items<Operation>,
    pub principals: Items<Principal>,
    pub pattern: FilterPattern,
}

/// Reads the words of a line, up to the first that is not valid.
pub fn read_parts(alloc: Global, args: &CliArgs) -> Result<Parts, CommandFault>
    ensures { Reads (misread_words args.now) (parts args.now) result }
{
    let allowed = read_principals(alloc, &args.allow_principals)?;
    let denied = read_principals(alloc, &args.deny_principals)?;
    let allow_hosts = read_hosts_or_every(alloc, &args.allow_hosts)?;
    let deny_hosts = read_hosts_or_every(alloc, &args.deny_hosts)?;
    let operations = read_operations_or_all(alloc, &args.operations)?;
    let principals = read_principals(alloc, &args.principals)?;
    let pattern = read_pattern_type(alloc, &args.pattern_type)?;
    Ok(Parts {
        allowed: Holders {
            permission: Permission::Allow,
            principals: allowed,
            hosts: allow_hosts,
        },
        denied: Holders {
            permission: Permission::Deny,
            principals: denied,
            hosts: deny_hosts,
        },
        operations,
        principals,
        pattern,
    })
}

/// The hosts that the words name, or every host if there are none.
fn read_hosts_or_every(alloc: Global, words: &Items<Text>) -> Result<Items<Host>, CommandFault>
    ensures { Reads (filter is_no_host words.now) (or_default (codes "*") words.now) result }
{
    if words.len() > 0 {
        return read_hosts(alloc, words);
    }
    match Host::parse(alloc, "*") {
        Ok(host) => {
            let mut every = Vec::new(alloc);
            every.push(host)?;
            Ok(Items::from_vec(every))
        }
        Err(HostFault::Memory(error)) => Err(CommandFault::Memory(error)),
        Err(HostFault::Empty | HostFault::TooLong) => unreachable!(),
    }
}

/// The operations that the words name, or all if there are none.
fn read_operations_or_all(
    alloc: Global,
    words: &Items<Text>,
) -> Result<Items<Operation>, CommandFault>
    ensures { Reads (filter is_no_operation words.now)
        (or_default All (operations_named words.now)) result }
{
    let operations = read_operations(alloc, words)?;
    if operations.len() > 0 {
        return Ok(operations);
    }
    drop(operations);
    Ok(Items::copied(alloc, &[Operation::All])?)
}
