//! What is granted to one principal.

ghost use Rattle.std.specs.Prelude.{◌≡◌, ◌++◌, IfOk, OnOk, Some, false, filter, flat_map, map};
ghost use Rattle.kob_policy_review.specs.Classes.{operations};
ghost use Rattle.kob_policy_review.specs.Difference.{yes_to};
ghost use Rattle.kob_policy_review.specs.Holding.{ListsHoldings, holding_from, holdings_of};
ghost use Rattle.kob_policy_review.specs.Holding.{holdings_on};

use crate::class::{Target, copied_target};
use crate::finder::Finder;
use crate::matching::{OPERATIONS, asking, hosts_of};
use crate::sides::yes_to;
use crate::targets::targets_of;
use kob_authorizer::Authorizer;
use kob_names::{Binding, Host, Items, Operation, PlainValue, Principal, Text};
use std::alloc::{AllocError, Global};

/// The operations that a principal is granted on some names. `None` as the host is every host that
/// no binding for the principal on the names has.
#[derive(Debug, Drop)]
pub struct Holding {
    pub host: Option<Text>,
    pub target: Target,
    /// In the order of Kafka's list of operations, without `All`, which is no operation of a
    /// request.
    pub operations: Items<Operation>,
}

/// The operations that some binding allows and none denies.
#[tactic(auto, using(std::proofs::lemmas::List::Elements::filter_more))]
fn granted(
    alloc: Global,
    asking: &[(u64, Binding)],
    host: &Option<Text>,
) -> Result<Vec<Operation>, AllocError>
    ensures { IfOk result (λ made. made.items
        ≡ filter (yes_to false asking.now host.now) operations) }
{
    let mut made = Vec::new(alloc);
    for operation in OPERATIONS.as_slice() {
        if yes_to(false, asking, host, *operation) {
            made.push(*operation)?;
        }
    }
    Ok(made)
}

#[tactic(auto, unfolding(crate::specs::Holding::holding_from))]
fn holding_from(
    alloc: Global,
    target: &Target,
    asking: &[(u64, Binding)],
    host: &Option<Text>,
) -> Result<Holding, AllocError>
    ensures { IfOk result (λ made. made ≡ holding_from target.now asking.now host.now) }
{
    let operations = granted(alloc, asking, host)?;
    let target = copied_target(alloc, target)?;
    let host = host.copy(alloc)?;
    Ok(Holding {
        host,
        target,
        operations: Items::from_vec(operations),
    })
}

fn push_from(
    alloc: Global,
    out: &mut Vec<Holding>,
    target: &Target,
    asking: &[(u64, Binding)],
    hosts: &[Option<Text>],
) -> Result<(), AllocError>
    ensures { OnOk result (out.new.items ≡ out.old.items
        ++ map (holding_from target.now asking.now) hosts.now) }
{
    for host in hosts {
        out.push(holding_from(alloc, target, asking, host)?)?;
    }
    Ok(())
}

fn party_of(alloc: Global, principal: &Principal) -> Result<Option<Text>, AllocError>
    ensures { IfOk result (λ made. made ≡ Some principal.now) }
{
    Ok(Some(Text::copied(alloc, principal.as_str())?))
}

#[tactic(auto, unfolding(crate::specs::Holding::holdings_on))]
fn push_on(
    alloc: Global,
    out: &mut Vec<Holding>,
    finder: &Finder<'_>,
    principal: &Principal,
    host: &Option<Host>,
    target: &Target,
) -> Result<(), AllocError>
    ensures { OnOk result (out.new.items ≡ out.old.items
        ++ holdings_on finder.now principal.now host.now target.now) }
{
    let matching = finder.matching(alloc, target)?;
    let party = party_of(alloc, principal)?;
    let asking = asking(alloc, matching.as_slice(), &party)?;
    match host {
        None => {
            let hosts = hosts_of(alloc, asking.as_slice())?;
            push_from(alloc, out, target, asking.as_slice(), hosts.as_slice())
        }
        Some(host) => {
            let host = Some(Text::copied(alloc, host.as_str())?);
            out.push(holding_from(alloc, target, asking.as_slice(), &host)?)?;
            Ok(())
        }
    }
}

fn push_all(
    alloc: Global,
    out: &mut Vec<Holding>,
    finder: &Finder<'_>,
    principal: &Principal,
    host: &Option<Host>,
    targets: &[Target],
) -> Result<(), AllocError>
    ensures { OnOk result (out.new.items ≡ out.old.items
        ++ flat_map (holdings_on finder.now principal.now host.now) targets.now) }
{
    for target in targets {
        push_on(alloc, out, finder, principal, host, target)?;
    }
    Ok(())
}

/// What a principal that is no super user is granted from a host, or from each host that counts:
/// one entry for each class of names that its bindings, and those for `User:*`, tell apart, and for
/// each host that these have on the names. `Names::Below` a prefix speaks of the names below it
/// that no longer prefix and no literal of these takes. Whether names are open that no binding
/// matches is not listed.
#[tactic(auto, unfolding(crate::specs::Holding::holdings_of))]
pub fn rights(
    alloc: Global,
    rules: &Authorizer,
    principal: &Principal,
    host: &Option<Host>,
) -> Result<Vec<Holding>, AllocError>
    ensures exact { IfOk result (λ found.
        ListsHoldings rules.now.contents principal.now host.now found.items) }
    ensures listed { IfOk result (λ found.
        found.items ≡ holdings_of rules.now.contents principal.now host.now) }
{
    let party = party_of(alloc, principal)?;
    let own = asking(alloc, rules.entries(), &party)?;
    let targets = targets_of(alloc, own.as_slice())?;
    let finder = Finder::of(alloc, rules)?;
    let mut out = Vec::new(alloc);
    push_all(
        alloc,
        &mut out,
        &finder,
        principal,
        host,
        targets.as_slice(),
    )?;
    Ok(out)
}
