//! Classes of questions that a set of rules answers alike.

ghost use Rattle.std.specs.Prelude.{◌≡◌, IfOk};
ghost use Rattle.kob_policy_review.specs.Classes.{covers_party, is_met, is_on};

use kob_names::{Binding, Operation, PatternKind, Permission, PlainValue, ResourceKind, Text};
use std::alloc::{AllocError, Global};

/// One name, or the names that begin with a text and that no longer prefixed pattern and no literal
/// pattern takes. `Below` the empty text are the names that no pattern takes, but a literal `*`.
#[derive(Debug, PartialEq, Eq, Drop)]
pub enum Names {
    Exactly(Text),
    Below(Text),
}

/// Names of a kind of resource. The cluster has the one name `kafka-cluster`.
#[derive(Debug, PartialEq, Eq, Drop)]
pub struct Target {
    pub resource: ResourceKind,
    pub names: Names,
}

/// Questions that are answered alike. `None` as the principal is every principal that no binding
/// names and that is no super user; `None` as the host is every host that no binding names.
#[derive(Debug, PartialEq, Eq, Drop)]
pub struct Class {
    pub principal: Option<Text>,
    pub host: Option<Text>,
    pub operation: Operation,
    pub target: Target,
}

/// The same target.
pub(crate) fn copied_target(alloc: Global, target: &Target) -> Result<Target, AllocError>
    ensures { IfOk result (λ made. made ≡ target.now) }
{
    let names = match &target.names {
        Names::Exactly(name) => Names::Exactly(name.copy(alloc)?),
        Names::Below(start) => Names::Below(start.copy(alloc)?),
    };
    Ok(Target {
        resource: target.resource,
        names,
    })
}

/// Whether the binding is for the kind of resource, and its pattern matches the names.
pub(crate) fn is_on(target: &Target, entry: &(u64, Binding)) -> bool
    ensures { result ≡ is_on target.now entry.now }
{
    let binding = entry.1.parts();
    binding.resource == target.resource
        && match &target.names {
            Names::Exactly(name) => binding.pattern.matches(name.as_str()),
            Names::Below(start) => match binding.pattern.kind {
                PatternKind::Literal => binding.pattern.name.as_str() == "*",
                PatternKind::Prefixed => {
                    let name = binding.pattern.name.as_str().as_bytes();
                    start.as_str().as_bytes().starts_with(name)
                }
            },
        }
}

/// Whether what is bound is for the party, or for all.
pub(crate) fn covers_party(all: &str, bound: &str, party: &Option<Text>) -> bool
    ensures { result ≡ covers_party all.now bound.now party.now }
{
    match party {
        Some(party) => bound == party.as_str() || bound == all,
        None => bound == all,
    }
}

/// Whether the binding has this permission, covers the host and reaches the operation.
pub(crate) fn is_met(
    permission: Permission,
    host: &Option<Text>,
    operation: Operation,
    entry: &(u64, Binding),
) -> bool
    ensures { result ≡ is_met permission host.now operation entry.now }
{
    let binding = entry.1.parts();
    binding.permission == permission
        && covers_party("*", binding.host.as_str(), host)
        && permission.reaches(binding.operation, operation)
}
