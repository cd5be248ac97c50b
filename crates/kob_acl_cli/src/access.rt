//! The operations on each resource that the options of a command line mean.

ghost use Rattle.std.specs.Prelude.{◌≡◌, ◌++◌, ◌∷◌, [], OnOk, IfOk};
ghost use Rattle.kob_names.specs.declared.kinds.Operation.TheVariants.{IdempotentWrite};
ghost use Rattle.kob_acl_cli.specs.Commands.{access, accesses, accesses_to, cluster};
ghost use Rattle.kob_acl_cli.specs.Commands.{convenience_accesses, targets_named, topic_operations};

use crate::args::CliArgs;
use crate::mixes::has_convenience;
use crate::target::{Target, cluster, targets, targets_named};
use kob_names::{FilterPattern, Items, Operation, PlainValue, ResourceKind, Text};
use std::alloc::{AllocError, Global};

/// Operations on a resource.
#[derive(Drop)]
pub struct Access {
    pub target: Target,
    pub operations: Items<Operation>,
}

/// The operations on each resource that the line names: those given, or those of `--producer` and
/// `--consumer`.
pub fn accesses(
    alloc: Global,
    args: &CliArgs,
    pattern: FilterPattern,
    operations: &[Operation],
) -> Result<Vec<Access>, AllocError>
    ensures { IfOk result (λ made. made.items ≡ accesses pattern operations.now args.now) }
{
    let mut made = Vec::new(alloc);
    if has_convenience(args) {
        push_convenience(alloc, &mut made, args, pattern)?;
    } else {
        let named = targets(alloc, args, pattern)?;
        push_accesses(alloc, &mut made, operations, named.as_slice())?;
    }
    Ok(made)
}

fn push_convenience(
    alloc: Global,
    made: &mut Vec<Access>,
    args: &CliArgs,
    pattern: FilterPattern,
) -> Result<(), AllocError>
    ensures { OnOk result
        (made.new.items ≡ made.old.items ++ convenience_accesses pattern args.now) }
{
    let on_topics = topic_operations(alloc, args)?;
    let kind = ResourceKind::Topic;
    push_named(
        alloc,
        made,
        on_topics.as_slice(),
        kind,
        pattern,
        &args.topics,
    )?;
    if args.consumer {
        push_named(
            alloc,
            made,
            &[Operation::Read],
            ResourceKind::Group,
            pattern,
            &args.groups,
        )?;
    }
    if args.idempotent {
        push_on_cluster(alloc, made)?;
    }
    Ok(())
}

fn push_named(
    alloc: Global,
    made: &mut Vec<Access>,
    operations: &[Operation],
    kind: ResourceKind,
    pattern: FilterPattern,
    names: &Items<Text>,
) -> Result<(), AllocError>
    ensures { OnOk result (made.new.items ≡ made.old.items
        ++ accesses_to operations.now (targets_named kind pattern names.now)) }
{
    let targets = targets_named(alloc, kind, pattern, names)?;
    push_accesses(alloc, made, operations, targets.as_slice())
}

fn push_on_cluster(alloc: Global, made: &mut Vec<Access>) -> Result<(), AllocError>
    ensures { OnOk result (made.new.items ≡ made.old.items
        ++ access (IdempotentWrite ∷ []) cluster ∷ []) }
{
    let cluster = cluster(alloc)?;
    made.push(access_to(alloc, &[Operation::IdempotentWrite], &cluster)?)?;
    Ok(())
}

fn topic_operations(alloc: Global, args: &CliArgs) -> Result<Vec<Operation>, AllocError>
    ensures { IfOk result (λ made. made.items ≡ topic_operations args.now) }
{
    let mut operations = Vec::new(alloc);
    if args.producer {
        operations.extend_from_slice(&[Operation::Write, Operation::Describe, Operation::Create])?;
    }
    if args.consumer {
        operations.extend_from_slice(&[Operation::Read, Operation::Describe])?;
    }
    Ok(operations)
}

fn push_accesses(
    alloc: Global,
    made: &mut Vec<Access>,
    operations: &[Operation],
    targets: &[Target],
) -> Result<(), AllocError>
    ensures { OnOk result
        (made.new.items ≡ made.old.items ++ accesses_to operations.now targets.now) }
{
    for target in targets {
        made.push(access_to(alloc, operations, target)?)?;
    }
    Ok(())
}

fn access_to(alloc: Global, operations: &[Operation], target: &Target) -> Result<Access, AllocError>
    ensures { IfOk result (λ made.
        made ≡ record { target = target.now; operations = operations.now }) }
{
    let target = target.copy(alloc)?;
    let operations = Items::copied(alloc, operations)?;
    Ok(Access { target, operations })
}
