//! Bindings without which, each taken alone, no answer at all changes.

ghost use Rattle.std.specs.Prelude.{◌≡◌, ◌==◌, IfOk, ℕ, filter, map, nat_eq};
ghost use Rattle.std.specs.List.{list_any};
ghost use Rattle.std.specs.HashSet.{contains};
ghost use Rattle.kob_policy_review.specs.Redundancy.{ListsUnused, bears_on_all, binds_all};
ghost use Rattle.kob_policy_review.specs.Redundancy.{first_wider, is_outside, reaches_all};
ghost use Rattle.kob_policy_review.specs.Redundancy.{reason_of, unused_entry, unused_in};

use crate::class::{Names, Target};
use crate::finder::Finder;
use crate::matching::OPERATIONS;
use crate::needed::needed;
use crate::supers::is_super;
use kob_authorizer::Authorizer;
use kob_names::{Binding, Draft, PatternKind, Permission, PlainValue};
use std::alloc::{AllocError, Global};
use std::collections::HashSet;

/// Why a binding is not needed. The first that holds is given, in this order.
#[derive(Clone, Copy, Debug, PartialEq, Eq)]
pub enum Reason {
    /// Its principal is a super user.
    Super,
    /// The binding with this serial has the same permission and bears on all that this one does.
    CoveredBy(u64),
    /// It is an allow, and the deny with this serial bears on all that it does.
    DeniedBy(u64),
    /// None of these alone: several bindings together, or a deny of what nothing allows.
    Together,
}

/// A binding that is not needed.
#[derive(Clone, Copy, Debug, PartialEq, Eq)]
pub struct Unneeded {
    pub serial: u64,
    pub reason: Reason,
}

fn binds_all(all: &str, wide: &str, narrow: &str) -> bool
    ensures { result ≡ binds_all all.now wide.now narrow.now }
{
    wide == narrow || wide == all
}

fn reaches_all(wide: &Draft, narrow: &Draft) -> bool
    ensures { result ≡ reaches_all wide.now narrow.now }
{
    OPERATIONS.iter().all(|operation| {
        !narrow.permission.reaches(narrow.operation, *operation)
            || wide.permission.reaches(wide.operation, *operation)
    })
}

/// Whether a binding bears on all that another one does.
fn bears_on_all(wide: &Draft, narrow: &Draft) -> bool
    ensures { result ≡ bears_on_all wide.now narrow.now }
{
    let name = narrow.pattern.name.as_str();
    let start = wide.pattern.name.as_str();
    let takes_all = match (wide.pattern.kind, narrow.pattern.kind) {
        (PatternKind::Literal, PatternKind::Literal) => start == "*" || start == name,
        (PatternKind::Literal, PatternKind::Prefixed) => start == "*",
        (PatternKind::Prefixed, PatternKind::Literal) => {
            name != "*" && name.as_bytes().starts_with(start.as_bytes())
        }
        (PatternKind::Prefixed, PatternKind::Prefixed) => {
            name.as_bytes().starts_with(start.as_bytes())
        }
    };
    wide.resource == narrow.resource
        && takes_all
        && binds_all("User:*", wide.principal.as_str(), narrow.principal.as_str())
        && binds_all("*", wide.host.as_str(), narrow.host.as_str())
        && reaches_all(wide, narrow)
}

fn first_wider(
    entries: &[(u64, Binding)],
    permission: Permission,
    narrow: &(u64, Binding),
) -> Option<u64>
    ensures { result ≡ first_wider entries.now permission narrow.now }
{
    let wider = entries.iter().find(|wide| {
        wide.0 != narrow.0
            && wide.1.parts().permission == permission
            && bears_on_all(wide.1.parts(), narrow.1.parts())
    })?;
    Some(wider.0)
}

#[tactic(auto, using(crate::proofs::Widening::first_around))]
fn reason_of(
    alloc: Global,
    finder: &Finder<'_>,
    entry: &(u64, Binding),
) -> Result<Reason, AllocError>
    ensures { IfOk result (λ reason. reason ≡ reason_of finder.now entry.now) }
{
    let binding = entry.1.parts();
    let names = Names::Exactly(binding.pattern.name.copy(alloc)?);
    let target = Target {
        resource: binding.resource,
        names,
    };
    let near = finder.matching(alloc, &target)?;
    let same = first_wider(near.as_slice(), binding.permission, entry);
    let deny = first_wider(near.as_slice(), Permission::Deny, entry);
    let is_super = is_super(finder.rules().supers(), binding.principal.as_str());
    Ok(match (is_super, same, deny) {
        (true, _, _) => Reason::Super,
        (false, Some(serial), _) => Reason::CoveredBy(serial),
        (false, None, Some(serial)) if binding.permission == Permission::Allow => {
            Reason::DeniedBy(serial)
        }
        (false, None, _) => Reason::Together,
    })
}

/// The set of these serials.
pub fn set_of(alloc: Global, serials: &[u64]) -> Result<HashSet<u64>, AllocError>
    ensures { IfOk result (λ set. (serial : ℕ) → contains nat_eq set serial
        ≡ list_any (λ other. other == serial) serials.now) }
{
    let mut set = HashSet::new(alloc);
    for serial in serials {
        set.insert(*serial)?;
    }
    Ok(set)
}

/// Those whose serials are not in the set.
#[tactic(auto, using(crate::proofs::Widening::outside_more))]
fn outside(
    alloc: Global,
    finder: &Finder<'_>,
    entries: &[(u64, Binding)],
    set: &HashSet<u64>,
) -> Result<Vec<Unneeded>, AllocError>
    ensures { IfOk result (λ found. found.items ≡ map (unused_entry finder.now)
        (filter (is_outside (contains nat_eq set.now)) entries.now)) }
{
    let mut found = Vec::new(alloc);
    for entry in entries {
        if !set.contains(&entry.0) {
            let reason = reason_of(alloc, finder, entry)?;
            found.push(Unneeded {
                serial: entry.0,
                reason,
            })?;
        }
    }
    Ok(found)
}

/// The bindings without which, each taken alone, no answer at all changes: for no principal, no
/// host, no operation and no name. By ascending serial, each with its reason. Two that stand in for
/// each other are both listed; `removable` says which may go together.
pub fn unused(alloc: Global, rules: &Authorizer) -> Result<Vec<Unneeded>, AllocError>
    ensures exact { IfOk result (λ found. ListsUnused rules.now.contents found.items) }
    ensures listed { IfOk result (λ found. found.items ≡ unused_in rules.now.contents) }
{
    let entries = rules.entries();
    let finder = Finder::of(alloc, rules)?;
    let serials = needed(alloc, &finder)?;
    let set = set_of(alloc, serials.as_slice())?;
    outside(alloc, &finder, entries, &set)
}
