//! Allows that a deny always beats.

ghost use Rattle.std.specs.Prelude.{◌≡◌, ◌==◌, ◌++◌, ℕ, IfOk, OnOk, filter, flat_map, map, nat_eq};
ghost use Rattle.std.specs.HashSet.{contains};
ghost use Rattle.std.specs.List.{list_any};
ghost use Rattle.kob_policy_review.specs.Classes.{principals_named};
ghost use Rattle.kob_policy_review.specs.Shadows.{ListsShadowed, bearing, bearing_by, bearing_from};
ghost use Rattle.kob_policy_review.specs.Shadows.{bearing_on, bearing_to, is_between, serial_of_entry};
ghost use Rattle.kob_policy_review.specs.Shadows.{shadowed_in};

use crate::askers::Askers;
use crate::class::Target;
use crate::finder::Finder;
use crate::matching::{OPERATIONS, hosts_of};
use crate::needed::{is_super_party, met};
use crate::parties::principals_of;
use crate::redundant::set_of;
use crate::sides::some_met;
use crate::targets::targets_of;
use kob_authorizer::Authorizer;
use kob_names::{Binding, Operation, Permission, Principal, Text};
use std::alloc::{AllocError, Global};
use std::collections::HashSet;

#[tactic(auto, unfolding(crate::specs::Shadows::bearing_to))]
fn push_to(
    alloc: Global,
    out: &mut Vec<u64>,
    beaten: bool,
    asking: &[(u64, Binding)],
    host: &Option<Text>,
    operation: Operation,
) -> Result<(), AllocError>
    ensures { OnOk result (out.new.items ≡ out.old.items
        ++ bearing_to beaten asking.now host.now operation) }
{
    if beaten && some_met(asking, Permission::Deny, host, operation) {
        return Ok(());
    }
    let serials = met(alloc, asking, Permission::Allow, host, operation)?;
    out.extend_from_slice(serials.as_slice())?;
    Ok(())
}

#[tactic(auto, unfolding(crate::specs::Shadows::bearing_from))]
fn push_from(
    alloc: Global,
    out: &mut Vec<u64>,
    beaten: bool,
    asking: &[(u64, Binding)],
    host: &Option<Text>,
) -> Result<(), AllocError>
    ensures { OnOk result (out.new.items
        ≡ out.old.items ++ bearing_from beaten asking.now host.now) }
{
    for operation in OPERATIONS.as_slice() {
        push_to(alloc, out, beaten, asking, host, *operation)?;
    }
    Ok(())
}

#[tactic(auto, unfolding(crate::specs::Shadows::bearing_by))]
fn push_by(
    alloc: Global,
    out: &mut Vec<u64>,
    beaten: bool,
    supers: &[Principal],
    matching: &Askers<'_>,
    principal: &Option<Text>,
) -> Result<(), AllocError>
    ensures { OnOk result (out.new.items ≡ out.old.items
        ++ bearing_by beaten supers.now matching.now principal.now) }
{
    if is_super_party(supers, principal) {
        return Ok(());
    }
    let asking = matching.asking(alloc, principal)?;
    let hosts = hosts_of(alloc, asking.as_slice())?;
    for host in hosts.as_slice() {
        push_from(alloc, out, beaten, asking.as_slice(), host)?;
    }
    Ok(())
}

fn push_each(
    alloc: Global,
    out: &mut Vec<u64>,
    beaten: bool,
    supers: &[Principal],
    matching: &Askers<'_>,
) -> Result<(), AllocError>
    ensures { OnOk result (out.new.items ≡ out.old.items
        ++ flat_map (bearing_by beaten supers.now matching.now) (principals_named matching.now)) }
{
    let principals = principals_of(alloc, matching.entries())?;
    for principal in principals.as_slice() {
        push_by(alloc, out, beaten, supers, matching, principal)?;
    }
    Ok(())
}

#[tactic(auto, unfolding(crate::specs::Shadows::bearing_on))]
fn push_on(
    alloc: Global,
    out: &mut Vec<u64>,
    beaten: bool,
    finder: &Finder<'_>,
    target: &Target,
) -> Result<(), AllocError>
    ensures { OnOk result (out.new.items ≡ out.old.items
        ++ bearing_on beaten finder.now target.now) }
{
    let matching = finder.matching(alloc, target)?;
    let askers = Askers::of(alloc, matching.as_slice())?;
    push_each(alloc, out, beaten, finder.rules().supers(), &askers)
}

/// The serials of the allows that bear on a question of one who is no super user: with `beaten`, on
/// one that no deny bears on.
#[tactic(auto, unfolding(crate::specs::Shadows::bearing))]
fn bearing(alloc: Global, beaten: bool, finder: &Finder<'_>) -> Result<Vec<u64>, AllocError>
    ensures { IfOk result (λ made. made.items ≡ bearing beaten finder.now) }
{
    let mut out = Vec::new(alloc);
    let targets = targets_of(alloc, finder.rules().entries())?;
    for target in targets.as_slice() {
        push_on(alloc, &mut out, beaten, finder, target)?;
    }
    Ok(out)
}

/// Those serials as a set.
fn bearing_set(alloc: Global, beaten: bool, finder: &Finder<'_>) -> Result<HashSet<u64>, AllocError>
    ensures { IfOk result (λ set. (serial : ℕ) → contains nat_eq set serial
        ≡ list_any (λ other. other == serial) (bearing beaten finder.now)) }
{
    let serials = bearing(alloc, beaten, finder)?;
    set_of(alloc, serials.as_slice())
}

/// The serials of the entries that are in the one set and not in the other.
fn between(
    alloc: Global,
    entries: &[(u64, Binding)],
    some: &HashSet<u64>,
    others: &HashSet<u64>,
) -> Result<Vec<u64>, AllocError>
    ensures { IfOk result (λ found. found.items ≡ map serial_of_entry
        (filter (is_between (contains nat_eq some.now) (contains nat_eq others.now)) entries.now)) }
{
    entries
        .iter()
        .filter(|entry| some.contains(&entry.0) && !others.contains(&entry.0))
        .map(|entry| entry.0)
        .collect(alloc)
}

/// The serials of the allows that a deny always beats: wherever such an allow bears on what one who
/// is no super user asks, a deny does too. By ascending serial. An allow for a super user alone is
/// not listed.
pub fn shadowed(alloc: Global, rules: &Authorizer) -> Result<Vec<u64>, AllocError>
    ensures exact { IfOk result (λ found. ListsShadowed rules.now.contents found.items) }
    ensures listed { IfOk result (λ found. found.items ≡ shadowed_in rules.now.contents) }
{
    let entries = rules.entries();
    let finder = Finder::of(alloc, rules)?;
    let some = bearing_set(alloc, false, &finder)?;
    let others = bearing_set(alloc, true, &finder)?;
    between(alloc, entries, &some, &others)
}
