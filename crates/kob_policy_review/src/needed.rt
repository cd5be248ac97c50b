//! The bindings without which an answer changes.

ghost use Rattle.std.specs.Prelude.{◌≡◌, ◌++◌, ◌∷◌, [], IfOk, OnOk, flat_map, if◌then◌else◌};
ghost use Rattle.kob_policy_review.specs.Classes.{principals_named};
ghost use Rattle.kob_policy_review.specs.Needed.{closing, is_super_party, met, needed, needed_among};
ghost use Rattle.kob_policy_review.specs.Needed.{needed_by};
ghost use Rattle.kob_policy_review.specs.Needed.{needed_for, needed_from};

use crate::askers::Askers;
use crate::class::is_met;
use crate::finder::Finder;
use crate::matching::{OPERATIONS, asking, hosts_of};
use crate::parties::principals_of;
use crate::supers::is_super;
use crate::targets::targets_of;
use kob_authorizer::Authorizer;
use kob_names::{Binding, Operation, Permission, Principal, Text};
use std::alloc::{AllocError, Global};

/// The serials of the entries that are met.
#[tactic(auto, using(crate::proofs::Naming::meeting))]
pub fn met(
    alloc: Global,
    entries: &[(u64, Binding)],
    permission: Permission,
    host: &Option<Text>,
    operation: Operation,
) -> Result<Vec<u64>, AllocError>
    ensures { IfOk result (λ made. made.items ≡ met permission host.now operation entries.now) }
{
    let mut made = Vec::new(alloc);
    for entry in entries {
        push_if(
            &mut made,
            entry.0,
            is_met(permission, host, operation, entry),
        )?;
    }
    Ok(made)
}

fn push_if(made: &mut Vec<u64>, serial: u64, wanted: bool) -> Result<(), AllocError>
    ensures { OnOk result (made.new.items ≡ made.old.items
        ++ (if wanted then serial ∷ [] else [])) }
{
    if wanted {
        made.push(serial)?;
    }
    Ok(())
}

/// The binding that is needed for one answer, if there is one.
fn needed_for(alone: Option<u64>, denies: &[u64], allows: &[u64]) -> Option<u64>
    ensures { result ≡ needed_for alone denies.now allows.now }
{
    match (alone, denies, allows) {
        (Some(closing), _, []) => Some(closing),
        (Some(_), _, [_, ..]) => None,
        (None, [], [allow]) => Some(*allow),
        (None, [deny], [_, ..]) => Some(*deny),
        _ => None,
    }
}

/// The binding that alone matches, if what none matches is open to everyone.
fn closing(everyone: bool, entries: &[(u64, Binding)]) -> Option<u64>
    ensures { result ≡ closing everyone entries.now }
{
    match entries {
        [entry] if everyone => Some(entry.0),
        _ => None,
    }
}

/// Whether the party is one principal, and a super user.
pub fn is_super_party(supers: &[Principal], principal: &Option<Text>) -> bool
    ensures { result ≡ is_super_party supers.now principal.now }
{
    match principal {
        Some(principal) => is_super(supers, principal.as_str()),
        None => false,
    }
}

#[tactic(auto, unfolding(crate::specs::Needed::needed_from, crate::specs::Needed::needed_to))]
fn push_needed_from(
    alloc: Global,
    out: &mut Vec<u64>,
    alone: Option<u64>,
    asking: &[(u64, Binding)],
    host: &Option<Text>,
) -> Result<(), AllocError>
    ensures { OnOk result (out.new.items ≡ out.old.items ++ needed_from alone asking.now host.now) }
{
    for operation in OPERATIONS.as_slice() {
        let denies = met(alloc, asking, Permission::Deny, host, *operation)?;
        let allows = met(alloc, asking, Permission::Allow, host, *operation)?;
        if let Some(serial) = needed_for(alone, denies.as_slice(), allows.as_slice()) {
            out.push(serial)?;
        }
    }
    Ok(())
}

#[tactic(auto, unfolding(crate::specs::Needed::needed_among))]
fn push_needed_among(
    alloc: Global,
    out: &mut Vec<u64>,
    supers: &[Principal],
    alone: Option<u64>,
    asking: &[(u64, Binding)],
    principal: &Option<Text>,
) -> Result<(), AllocError>
    ensures { OnOk result (out.new.items ≡ out.old.items
        ++ needed_among supers.now alone asking.now principal.now) }
{
    if is_super_party(supers, principal) {
        return Ok(());
    }
    let hosts = hosts_of(alloc, asking)?;
    for host in hosts.as_slice() {
        push_needed_from(alloc, out, alone, asking, host)?;
    }
    Ok(())
}

/// Looks at each binding that matches the names.
#[tactic(auto, unfolding(crate::specs::Needed::needed_by))]
pub fn push_needed_by(
    alloc: Global,
    out: &mut Vec<u64>,
    rules: &Authorizer,
    matching: &[(u64, Binding)],
    principal: &Option<Text>,
) -> Result<(), AllocError>
    ensures { OnOk result (out.new.items ≡ out.old.items ++ needed_by rules.now.contents.supers
        rules.now.contents.everyone matching.now principal.now) }
{
    let alone = closing(rules.everyone(), matching);
    let asking = asking(alloc, matching, principal)?;
    push_needed_among(
        alloc,
        out,
        rules.supers(),
        alone,
        asking.as_slice(),
        principal,
    )
}

#[tactic(auto, unfolding(crate::specs::Needed::needed_by))]
fn push_needed_to_each(
    alloc: Global,
    out: &mut Vec<u64>,
    rules: &Authorizer,
    matching: &Askers<'_>,
) -> Result<(), AllocError>
    ensures { OnOk result (out.new.items ≡ out.old.items
        ++ flat_map (needed_by rules.now.contents.supers rules.now.contents.everyone matching.now)
        (principals_named matching.now)) }
{
    let alone = closing(rules.everyone(), matching.entries());
    let principals = principals_of(alloc, matching.entries())?;
    for principal in principals.as_slice() {
        let asking = matching.asking(alloc, principal)?;
        push_needed_among(
            alloc,
            out,
            rules.supers(),
            alone,
            asking.as_slice(),
            principal,
        )?;
    }
    Ok(())
}

/// The serials of the bindings that are needed, each at least once.
#[tactic(auto, unfolding(crate::specs::Needed::needed, crate::specs::Needed::needed_on))]
pub fn needed(alloc: Global, finder: &Finder<'_>) -> Result<Vec<u64>, AllocError>
    ensures { IfOk result (λ made. made.items ≡ needed finder.now) }
{
    let mut out = Vec::new(alloc);
    let targets = targets_of(alloc, finder.rules().entries())?;
    for target in targets.as_slice() {
        let matching = finder.matching(alloc, target)?;
        let askers = Askers::of(alloc, matching.as_slice())?;
        push_needed_to_each(alloc, &mut out, finder.rules(), &askers)?;
    }
    Ok(out)
}
