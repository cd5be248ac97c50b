//! The resources that options name.

ghost use Rattle.std.specs.Prelude.{◌≡◌, ◌++◌, map, OnOk, IfOk};
ghost use Rattle.kob_acl_cli.specs.Commands.{target, cluster, targets_named, targets};

use crate::args::CliArgs;
use kob_names::{FilterPattern, Items, PlainValue, ResourceKind, Text};
use std::alloc::{AllocError, Global};

/// The resources of a kind that an option names.
#[derive(Drop)]
pub struct Target {
    pub kind: ResourceKind,
    pub name: Text,
    pub pattern: FilterPattern,
}

/// Every resource that the options name: topics, groups, the cluster, transactional ids.
pub fn targets(
    alloc: Global,
    args: &CliArgs,
    pattern: FilterPattern,
) -> Result<Vec<Target>, AllocError>
    ensures { IfOk result (λ made. made.items ≡ targets pattern args.now) }
{
    let mut made = Vec::new(alloc);
    push_named(alloc, &mut made, ResourceKind::Topic, pattern, &args.topics)?;
    push_named(alloc, &mut made, ResourceKind::Group, pattern, &args.groups)?;
    if args.cluster {
        made.push(cluster(alloc)?)?;
    }
    push_named(
        alloc,
        &mut made,
        ResourceKind::TransactionalId,
        pattern,
        &args.transactional_ids,
    )?;
    Ok(made)
}

/// The resources of one kind, by their names.
pub fn targets_named(
    alloc: Global,
    kind: ResourceKind,
    pattern: FilterPattern,
    names: &Items<Text>,
) -> Result<Vec<Target>, AllocError>
    ensures { IfOk result (λ made. made.items ≡ targets_named kind pattern names.now) }
{
    let mut made = Vec::new(alloc);
    push_named(alloc, &mut made, kind, pattern, names)?;
    Ok(made)
}

/// The cluster, which has one name, whatever the pattern type.
pub fn cluster(alloc: Global) -> Result<Target, AllocError>
    ensures { IfOk result (λ made. made ≡ cluster) }
{
    let name = Text::copied(alloc, "kafka-cluster")?;
    Ok(Target {
        kind: ResourceKind::Cluster,
        name,
        pattern: FilterPattern::Literal,
    })
}

fn push_named(
    alloc: Global,
    made: &mut Vec<Target>,
    kind: ResourceKind,
    pattern: FilterPattern,
    names: &Items<Text>,
) -> Result<(), AllocError>
    ensures { OnOk result
        (made.new.items ≡ made.old.items ++ targets_named kind pattern names.now) }
{
    for name in names.as_slice() {
        let name = name.copy(alloc)?;
        made.push(Target {
            kind,
            name,
            pattern,
        })?;
    }
    Ok(())
}

impl PlainValue for Target {
    fn copy(&self, alloc: Global) -> Result<Self, AllocError> {
        let name = self.name.copy(alloc)?;
        Ok(Target {
            kind: self.kind,
            name,
            pattern: self.pattern,
        })
    }

    fn same(&self, other: &Self) -> bool {
        self.kind.same(&other.kind)
            && self.name.same(&other.name)
            && self.pattern.same(&other.pattern)
    }
}
