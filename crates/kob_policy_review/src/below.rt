//! Who may do something on the names that begin with a prefix.

ghost use Rattle.std.specs.Prelude.{◌≡◌, ◌++◌, IfOk, OnOk, flat_map, map};
ghost use Rattle.kob_authorizer.specs.Index.{AreRising};
ghost use Rattle.kob_policy_review.specs.Below.{ListsReaches, near_below, reaches_below};
ghost use Rattle.kob_policy_review.specs.Sharing.{reach_near, reaches_near};

use crate::askers::Askers;
use crate::class::is_on;
use crate::matching::{hosts_of, push_if};
use crate::named_below::{NamesBelow, first_of, names_below};
use crate::needed::is_super_party;
use crate::parties::principals_of;
use crate::targets::{at_prefix, is_below};
use kob_authorizer::Authorizer;
use kob_names::{Binding, Operation, PlainValue, Principal, ResourceKind, Text};
use std::alloc::{AllocError, Global};

/// On which names something is granted.
#[derive(Clone, Copy, Debug, PartialEq, Eq)]
pub enum Share {
    /// On none of them.
    Nothing,
    /// On some, and not on all.
    Part,
    /// On all of them.
    Everything,
}

/// On which names something is granted to a principal at a host. `None` is every principal, or
/// host, that no binding on one of the names bears on.
#[derive(Debug, Drop)]
pub struct Reach {
    pub principal: Option<Text>,
    pub host: Option<Text>,
    pub share: Share,
}

#[tactic(auto, unfolding(crate::specs::Sharing::reach_near))]
fn reach_near(
    alloc: Global,
    names: &NamesBelow,
    asking: &[(u64, Binding)],
    operation: Operation,
    principal: &Option<Text>,
    host: &Option<Text>,
) -> Result<Reach, AllocError>
    ensures { IfOk result (λ made.
        made ≡ reach_near names.now asking.now operation principal.now host.now) }
{
    let some = names.some_yes(alloc, asking, host, operation)?;
    let all = names.all_yes(asking, host, operation);
    let principal = principal.copy(alloc)?;
    let host = host.copy(alloc)?;
    Ok(Reach {
        principal,
        host,
        share: match (some, all) {
            (false, _) => Share::Nothing,
            (true, false) => Share::Part,
            (true, true) => Share::Everything,
        },
    })
}

fn push_from(
    alloc: Global,
    out: &mut Vec<Reach>,
    names: &NamesBelow,
    asking: &[(u64, Binding)],
    operation: Operation,
    principal: &Option<Text>,
    hosts: &[Option<Text>],
) -> Result<(), AllocError>
    ensures { OnOk result (out.new.items ≡ out.old.items
        ++ map (reach_near names.now asking.now operation principal.now) hosts.now) }
{
    for host in hosts {
        out.push(reach_near(alloc, names, asking, operation, principal, host)?)?;
    }
    Ok(())
}

#[tactic(auto, unfolding(crate::specs::Sharing::reaches_near))]
fn push_by(
    alloc: Global,
    out: &mut Vec<Reach>,
    supers: &[Principal],
    names: &NamesBelow,
    near: &Askers<'_>,
    operation: Operation,
    principal: &Option<Text>,
) -> Result<(), AllocError>
    ensures { OnOk result (out.new.items ≡ out.old.items
        ++ reaches_near supers.now names.now near.now operation principal.now) }
{
    if is_super_party(supers, principal) {
        return Ok(());
    }
    let asking = near.asking(alloc, principal)?;
    let hosts = hosts_of(alloc, asking.as_slice())?;
    push_from(
        alloc,
        out,
        names,
        asking.as_slice(),
        operation,
        principal,
        hosts.as_slice(),
    )
}

fn push_principals(
    alloc: Global,
    out: &mut Vec<Reach>,
    supers: &[Principal],
    names: &NamesBelow,
    near: &Askers<'_>,
    operation: Operation,
    principals: &[Option<Text>],
) -> Result<(), AllocError>
    ensures { OnOk result (out.new.items ≡ out.old.items
        ++ flat_map (reaches_near supers.now names.now near.now operation) principals.now) }
{
    for principal in principals {
        push_by(alloc, out, supers, names, near, operation, principal)?;
    }
    Ok(())
}

/// Copies of the bindings that are on some of the names below the prefix, by rising serial.
#[tactic(auto, using(std::proofs::lemmas::List::Elements::filter_more))]
fn near_below(
    alloc: Global,
    rules: &Authorizer,
    resource: ResourceKind,
    prefix: &Text,
) -> Result<Vec<(u64, Binding)>, AllocError>
    ensures near { IfOk result (λ made.
        made.items ≡ near_below rules.now.contents resource prefix.now) }
    ensures rising { IfOk result (λ made. AreRising made.items) }
{
    let first = at_prefix(alloc, resource, prefix)?;
    let mut made = Vec::new(alloc);
    for entry in rules.entries() {
        let target = first_of(alloc, &first, entry)?;
        let wanted = is_below(resource, prefix, &target) && is_on(&target, entry);
        push_if(alloc, &mut made, entry, wanted)?;
    }
    Ok(made)
}

/// Who may do something on the names of a kind that begin with a prefix: on all of them, on some,
/// or on none; the name that is the prefix itself is one of them. There is one entry for each
/// principal and host that a binding on some of the names has, and for all others. Super users are
/// left out, to whom all is granted.
#[tactic(auto, using(crate::proofs::Shares::reaches_so))]
pub fn who_below(
    alloc: Global,
    rules: &Authorizer,
    operation: Operation,
    resource: ResourceKind,
    prefix: &Text,
) -> Result<Vec<Reach>, AllocError>
    ensures exact { IfOk result (λ found.
        ListsReaches rules.now.contents operation resource prefix.now found.items) }
    ensures listed { IfOk result (λ found.
        found.items ≡ reaches_below rules.now.contents operation resource prefix.now) }
{
    let near = near_below(alloc, rules, resource, prefix)?;
    let names = names_below(alloc, rules, resource, prefix)?;
    let askers = Askers::of(alloc, near.as_slice())?;
    let principals = principals_of(alloc, askers.entries())?;
    let mut out = Vec::new(alloc);
    push_principals(
        alloc,
        &mut out,
        rules.supers(),
        &names,
        &askers,
        operation,
        principals.as_slice(),
    )?;
    Ok(out)
}
