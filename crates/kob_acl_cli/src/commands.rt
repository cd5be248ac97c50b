//! The requests that a command line means.

ghost use Rattle.std.specs.Prelude.{◌≡◌, ◌++◌, [], map, false, IfOk, IfErr, IsErrOf, OnOk};
ghost use Rattle.kob_acl_cli.specs.Commands as commands;
ghost use Rattle.kob_acl_cli.specs.Commands.{IsFirstFault};
ghost use Rattle.kob_acl_cli.specs.Mixes as mixes;

use crate::access::accesses;
use crate::args::CliArgs;
use crate::fault::CommandFault;
use crate::mixes::{has_holder, has_one_action, refusal};
use crate::parts::{Parts, read_parts};
use crate::rule::{Rule, product};
use crate::target::{Target, targets};
use kob_names::{BindingFilter, Draft, FilterPattern, Items, PlainValue, Principal};
use std::alloc::{AllocError, Global};

/// A request on bindings.
#[derive(Debug, Drop)]
pub enum AclCommand {
    /// Bindings that are created together; their names are not checked yet.
    Create(Items<Draft>),
    Delete(BindingFilter),
    Describe(BindingFilter),
}

/// The commands that the options mean, as in `kafka-acls` (Kafka's documentation, "Authorization
/// and ACLs"): one `Create` with all bindings, a `Delete` for each binding or resource, or a
/// `Describe` for each resource and principal. The first fault that applies is returned, in the
/// order `NoAction`, `BadName`, `BadMix`, `NoResource`, `NoPrincipal`. `BadName` is for the first
/// principal, host, operation or pattern type that is not valid. `Memory` may come in place of any
/// result but `NoAction`.
pub fn commands_of(alloc: Global, args: &CliArgs) -> Result<Vec<AclCommand>, CommandFault>
    ensures refused { IfErr result (λ fault. IsFirstFault (commands.faults args.now) fault) }
    ensures no_action { mixes.has_one_action args.now ≡ false
        → IsErrOf result CommandFault.NoAction }
    ensures sound { IfOk result (λ made. commands.faults args.now ≡ []) }
    ensures commands { IfOk result (λ made. made.items ≡ commands.commands args.now) }
{
    if !has_one_action(args) {
        return Err(CommandFault::NoAction);
    }
    let parts = read_parts(alloc, args)?;
    match refusal(args) {
        None => Ok(commands_by(alloc, args, &parts)?),
        Some(fault) => Err(fault),
    }
}

fn commands_by(alloc: Global, args: &CliArgs, parts: &Parts) -> Result<Vec<AclCommand>, AllocError>
    ensures { IfOk result (λ made. made.items ≡ commands.commands_by parts.now args.now) }
{
    if args.add {
        creation(alloc, args, parts)
    } else if !args.remove {
        let named = targets(alloc, args, parts.pattern)?;
        let wanted = each_or_any(alloc, named.as_slice())?;
        listings_of(alloc, wanted.as_slice(), parts.principals.as_slice())
    } else if has_holder(args) {
        removals_of_rules(alloc, rules(alloc, args, parts)?)
    } else {
        removals_on(alloc, targets(alloc, args, parts.pattern)?)
    }
}

fn rules(alloc: Global, args: &CliArgs, parts: &Parts) -> Result<Vec<Rule>, AllocError>
    ensures { IfOk result (λ made. made.items ≡ commands.rules parts.now args.now) }
{
    let accesses = accesses(alloc, args, parts.pattern, parts.operations.as_slice())?;
    product(alloc, &parts.allowed, &parts.denied, accesses.as_slice())
}

fn creation(alloc: Global, args: &CliArgs, parts: &Parts) -> Result<Vec<AclCommand>, AllocError>
    ensures { IfOk result (λ made. made.items ≡ commands.creation parts.now args.now) }
{
    let mut drafts = Vec::new(alloc);
    for rule in rules(alloc, args, parts)? {
        drafts.push(rule.into_draft())?;
    }
    let mut made = Vec::new(alloc);
    made.push(AclCommand::Create(Items::from_vec(drafts)))?;
    Ok(made)
}

fn removals_of_rules(alloc: Global, rules: Vec<Rule>) -> Result<Vec<AclCommand>, AllocError>
    ensures { IfOk result (λ made. made.items ≡ map commands.removal rules.items) }
{
    let mut made = Vec::new(alloc);
    for rule in rules {
        made.push(AclCommand::Delete(rule.into_filter()))?;
    }
    Ok(made)
}

fn removals_on(alloc: Global, targets: Vec<Target>) -> Result<Vec<AclCommand>, AllocError>
    ensures { IfOk result (λ made. made.items ≡ map commands.removal_on targets.items) }
{
    let mut made = Vec::new(alloc);
    for target in targets {
        let filter = filter_on(alloc, &Some(target), &None)?;
        made.push(AclCommand::Delete(filter))?;
    }
    Ok(made)
}

fn listings_of(
    alloc: Global,
    targets: &[Option<Target>],
    principals: &[Principal],
) -> Result<Vec<AclCommand>, AllocError>
    ensures { IfOk result (λ made. made.items
        ≡ commands.listings_by (commands.each_or_any principals.now) targets.now) }
{
    let principals = each_or_any(alloc, principals)?;
    let mut made = Vec::new(alloc);
    for target in targets {
        push_listings(alloc, &mut made, target, principals.as_slice())?;
    }
    Ok(made)
}

fn push_listings(
    alloc: Global,
    made: &mut Vec<AclCommand>,
    target: &Option<Target>,
    principals: &[Option<Principal>],
) -> Result<(), AllocError>
    ensures { OnOk result (made.new.items ≡ made.old.items
        ++ map (commands.listing target.now) principals.now) }
{
    for principal in principals {
        let filter = filter_on(alloc, target, principal)?;
        made.push(AclCommand::Describe(filter))?;
    }
    Ok(())
}

fn filter_on(
    alloc: Global,
    target: &Option<Target>,
    principal: &Option<Principal>,
) -> Result<BindingFilter, AllocError>
    ensures { IfOk result (λ made. made ≡ commands.filter_on target.now principal.now) }
{
    let principal = principal.copy(alloc)?;
    let (resource, name, pattern) = match target {
        None => (None, None, FilterPattern::Any),
        Some(target) => (
            Some(target.kind),
            Some(target.name.copy(alloc)?),
            target.pattern,
        ),
    };
    Ok(BindingFilter {
        resource,
        name,
        pattern,
        principal,
        host: None,
        operation: None,
        permission: None,
    })
}

fn each_or_any<T: PlainValue>(alloc: Global, items: &[T]) -> Result<Vec<Option<T>>, AllocError>
    ensures { IfOk result (λ made. made.items ≡ commands.each_or_any items.now) }
{
    let mut made = Vec::new(alloc);
    for item in items {
        made.push(Some(item.copy(alloc)?))?;
    }
    if made.is_empty() {
        made.push(None)?;
    }
    Ok(made)
}
