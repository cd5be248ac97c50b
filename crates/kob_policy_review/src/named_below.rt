//! The names below a prefix, and on which of them something is granted.

ghost use Rattle.std.specs.Prelude.{◌≡◌, IfOk, map};
ghost use Rattle.std.specs.List.{list_all, list_any};
ghost use Rattle.kob_policy_review.specs.Below.{is_met_on, place_on, yes_at};
ghost use Rattle.kob_policy_review.specs.Sharing.{all_yes, allows_some, first_of, is_opened};
ghost use Rattle.kob_policy_review.specs.Sharing.{names_below, some_yes};

use crate::class::{Target, copied_target, is_met, is_on};
use crate::finder::Finder;
use crate::sides::{is_nothing, some_met};
use crate::targets::{at_prefix, target_of, targets_below};
use kob_authorizer::Authorizer;
use kob_names::{Binding, Operation, Permission, ResourceKind, Text};
use std::alloc::{AllocError, Global};
use std::marker::Model;

/// Names, and whether they are open to everyone.
#[derive(Drop)]
pub struct Place {
    target: Target,
    opened: bool,
}

fn some_met_on(
    target: &Target,
    permission: Permission,
    host: &Option<Text>,
    operation: Operation,
    asking: &[(u64, Binding)],
) -> bool
    ensures { result ≡ list_any (is_met_on target.now permission host.now operation) asking.now }
{
    asking.iter().any(|entry| is_on(target, entry) && is_met(permission, host, operation, entry))
}

fn on_each(
    asking: &[(u64, Binding)],
    host: &Option<Text>,
    operation: Operation,
    places: &[Place],
) -> bool
    ensures { result ≡ list_all (yes_at asking.now host.now operation) places.now }
{
    places.iter().all(|place| {
        !some_met_on(&place.target, Permission::Deny, host, operation, asking)
            && (some_met_on(&place.target, Permission::Allow, host, operation, asking)
                || place.opened)
    })
}

/// Of the names below a prefix that a binding is on, those that the fewest others are on.
pub fn first_of(alloc: Global, first: &Target, entry: &(u64, Binding)) -> Result<Target, AllocError>
    ensures { IfOk result (λ made. made ≡ first_of first.now entry.now) }
{
    if is_on(first, entry) {
        copied_target(alloc, first)
    } else {
        target_of(alloc, entry)
    }
}

fn allows_some(
    alloc: Global,
    first: &Target,
    host: &Option<Text>,
    operation: Operation,
    asking: &[(u64, Binding)],
    entry: &(u64, Binding),
) -> Result<bool, AllocError>
    ensures { IfOk result (λ allows. allows
        ≡ allows_some first.now host.now operation asking.now entry.now) }
{
    if !is_met(Permission::Allow, host, operation, entry) {
        return Ok(false);
    }
    let target = first_of(alloc, first, entry)?;
    Ok(!some_met_on(&target, Permission::Deny, host, operation, asking))
}

fn one_allows(
    alloc: Global,
    first: &Target,
    host: &Option<Text>,
    operation: Operation,
    asking: &[(u64, Binding)],
) -> Result<bool, AllocError>
    ensures { IfOk result (λ allows. allows
        ≡ list_any (allows_some first.now host.now operation asking.now) asking.now) }
{
    for entry in asking {
        if allows_some(alloc, first, host, operation, asking, entry)? {
            return Ok(true);
        }
    }
    Ok(false)
}

/// The names below a prefix: those that a prefixed pattern of it takes first, all, and whether some
/// are open to everyone.
#[derive(Drop)]
pub struct NamesBelow {
    first: Target,
    places: Vec<Place>,
    opened: bool,
}

impl Model for NamesBelow {
    ghost use Rattle.kob_policy_review.specs.Sharing as seen;

    ghost Value = { seen.NamesBelow };

    ghost view = { λ names. record {
      first = names.first;
      places = names.places.items;
      opened = names.opened;
    } };
}

impl NamesBelow {
    pub fn some_yes(
        &self,
        alloc: Global,
        asking: &[(u64, Binding)],
        host: &Option<Text>,
        operation: Operation,
    ) -> Result<bool, AllocError>
        ensures { IfOk result (λ yes. yes ≡ some_yes self.now asking.now host.now operation) }
    {
        if self.opened {
            return Ok(true);
        }
        one_allows(alloc, &self.first, host, operation, asking)
    }

    pub fn all_yes(
        &self,
        asking: &[(u64, Binding)],
        host: &Option<Text>,
        operation: Operation,
    ) -> bool
        ensures { result ≡ all_yes self.now asking.now host.now operation }
    {
        !some_met(asking, Permission::Deny, host, operation)
            && (some_met_on(&self.first, Permission::Allow, host, operation, asking)
                || on_each(asking, host, operation, self.places.as_slice()))
    }
}

#[tactic(auto, using(crate::proofs::Shares::some_kept))]
fn is_opened(alloc: Global, rules: &Finder<'_>, target: &Target) -> Result<bool, AllocError>
    ensures { IfOk result (λ opened. opened ≡ (place_on rules.now target.now).opened) }
{
    if !rules.rules().everyone() {
        return Ok(false);
    }
    let matching = rules.matching(alloc, target)?;
    Ok(is_nothing(matching.as_slice()))
}

/// The targets, with whether each is open to everyone.
fn places_on(
    alloc: Global,
    rules: &Finder<'_>,
    targets: &[Target],
) -> Result<Vec<Place>, AllocError>
    ensures { IfOk result (λ made. made.items ≡ map (place_on rules.now) targets.now) }
{
    let mut made = Vec::new(alloc);
    for target in targets {
        let opened = is_opened(alloc, rules, target)?;
        let target = copied_target(alloc, target)?;
        made.push(Place { target, opened })?;
    }
    Ok(made)
}

fn some_open(places: &[Place]) -> bool
    ensures { result ≡ list_any is_opened places.now }
{
    places.iter().any(|place| place.opened)
}

/// The names that begin with the prefix.
pub fn names_below(
    alloc: Global,
    rules: &Authorizer,
    resource: ResourceKind,
    prefix: &Text,
) -> Result<NamesBelow, AllocError>
    ensures { IfOk result (λ made. made ≡ names_below rules.now.contents resource prefix.now) }
{
    let first = at_prefix(alloc, resource, prefix)?;
    let targets = targets_below(alloc, rules.entries(), resource, prefix)?;
    let finder = Finder::of(alloc, rules)?;
    let places = places_on(alloc, &finder, targets.as_slice())?;
    let opened = some_open(places.as_slice());
    Ok(NamesBelow {
        first,
        places,
        opened,
    })
}
