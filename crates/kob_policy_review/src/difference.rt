//! What becomes of the answers from one set of rules to another.

ghost use Rattle.std.specs.Prelude.{◌≡◌, ◌++◌, IfOk, OnOk, flat_map};
ghost use Rattle.kob_policy_review.specs.Classes.{operations};
ghost use Rattle.kob_policy_review.specs.Difference.{ListsChanges, changes_by};
ghost use Rattle.kob_policy_review.specs.Difference.{changes_from, changes_of, changes_on};
ghost use Rattle.kob_policy_review.specs.Difference.{changes_to, is_listed, names_all};
ghost use Rattle.kob_policy_review.specs.Difference.{same_outcome, targets_in};

use crate::class::{Class, Target, copied_target};
use crate::finder::Finder;
use crate::matching::OPERATIONS;
use crate::needed::is_super_party;
use crate::sides::{Asked, Sides, sides_on};
use crate::targets::Targets;
use kob_authorizer::Authorizer;
use kob_names::{Operation, PlainValue, Principal, Text};
use std::alloc::{AllocError, Global};

/// What becomes of an answer.
#[derive(Clone, Copy, Debug, PartialEq, Eq)]
pub enum Outcome {
    Same,
    /// From no to yes.
    Gained,
    /// From yes to no.
    Lost,
}

/// What becomes of the answers of a class. One with the outcome `Same` is only listed where a wider
/// class has another: a principal that keeps its answer where all others gain.
#[derive(Debug, Drop)]
pub struct Change {
    pub class: Class,
    pub outcome: Outcome,
}

fn same_outcome(one: Outcome, other: Outcome) -> bool
    ensures { result ≡ same_outcome one other }
{
    match (one, other) {
        (Outcome::Same, Outcome::Same) => true,
        (Outcome::Gained, Outcome::Gained) => true,
        (Outcome::Lost, Outcome::Lost) => true,
        _ => false,
    }
}

fn is_listed(
    principal: &Option<Text>,
    host: &Option<Text>,
    own: Outcome,
    from_others: Outcome,
    of_others: Outcome,
    widest: Outcome,
) -> bool
    ensures { result ≡ is_listed principal.now host.now own from_others of_others widest }
{
    match (principal, host) {
        (None, None) => !same_outcome(own, Outcome::Same),
        (Some(_), None) | (None, Some(_)) => !same_outcome(own, widest),
        (Some(_), Some(_)) => {
            !same_outcome(own, from_others)
                || same_outcome(from_others, widest) && !same_outcome(own, of_others)
        }
    }
}

/// Whether the party is the word for all, which asks as all others do.
pub fn names_all(all: &str, party: &Option<Text>) -> bool
    ensures { result ≡ names_all all.now party.now }
{
    match party {
        Some(party) => party.as_str() == all,
        None => false,
    }
}

#[tactic(auto, unfolding(crate::specs::Difference::changes_to))]
fn push_to(
    alloc: Global,
    out: &mut Vec<Change>,
    asked: &Sides,
    others: &Sides,
    target: &Target,
    principal: &Option<Text>,
    host: &Option<Text>,
    operation: Operation,
) -> Result<(), AllocError>
    ensures { OnOk result (out.new.items ≡ out.old.items
        ++ changes_to asked.now others.now target.now principal.now host.now operation) }
{
    let own = asked.outcome_to(host, operation);
    let from_others = asked.outcome_to(&None, operation);
    let of_others = others.outcome_to(host, operation);
    let widest = others.outcome_to(&None, operation);
    if !is_listed(principal, host, own, from_others, of_others, widest) {
        return Ok(());
    }
    let target = copied_target(alloc, target)?;
    let class = Class {
        principal: principal.copy(alloc)?,
        host: host.copy(alloc)?,
        operation,
        target,
    };
    out.push(Change {
        class,
        outcome: own,
    })?;
    Ok(())
}

fn push_operations(
    alloc: Global,
    out: &mut Vec<Change>,
    asked: &Sides,
    others: &Sides,
    target: &Target,
    principal: &Option<Text>,
    host: &Option<Text>,
) -> Result<(), AllocError>
    ensures { OnOk result (out.new.items ≡ out.old.items
        ++ flat_map (changes_to asked.now others.now target.now principal.now host.now)
        operations) }
{
    for operation in OPERATIONS.as_slice() {
        push_to(
            alloc, out, asked, others, target, principal, host, *operation,
        )?;
    }
    Ok(())
}

#[tactic(auto, unfolding(crate::specs::Difference::changes_from))]
fn push_from(
    alloc: Global,
    out: &mut Vec<Change>,
    asked: &Sides,
    others: &Sides,
    target: &Target,
    principal: &Option<Text>,
    host: &Option<Text>,
) -> Result<(), AllocError>
    ensures { OnOk result (out.new.items ≡ out.old.items
        ++ changes_from asked.now others.now target.now principal.now host.now) }
{
    if names_all("*", host) {
        return Ok(());
    }
    push_operations(alloc, out, asked, others, target, principal, host)
}

fn push_hosts(
    alloc: Global,
    out: &mut Vec<Change>,
    asked: &Sides,
    others: &Sides,
    target: &Target,
    principal: &Option<Text>,
    hosts: &[Option<Text>],
) -> Result<(), AllocError>
    ensures { OnOk result (out.new.items ≡ out.old.items
        ++ flat_map (changes_from asked.now others.now target.now principal.now) hosts.now) }
{
    for host in hosts {
        push_from(alloc, out, asked, others, target, principal, host)?;
    }
    Ok(())
}

#[tactic(auto, unfolding(crate::specs::Difference::changes_by))]
fn push_by(
    alloc: Global,
    out: &mut Vec<Change>,
    supers_before: &[Principal],
    supers_after: &[Principal],
    sides: &Asked<'_>,
    target: &Target,
    principal: &Option<Text>,
) -> Result<(), AllocError>
    ensures { OnOk result (out.new.items ≡ out.old.items ++ changes_by supers_before.now
        supers_after.now sides.now target.now principal.now) }
{
    if names_all("User:*", principal)
        || is_super_party(supers_before, principal)
        || is_super_party(supers_after, principal)
    {
        return Ok(());
    }
    let asked = sides.by(alloc, principal)?;
    let others = sides.by(alloc, &None)?;
    let hosts = asked.hosts(alloc)?;
    push_hosts(
        alloc,
        out,
        &asked,
        &others,
        target,
        principal,
        hosts.as_slice(),
    )
}

fn push_principals(
    alloc: Global,
    out: &mut Vec<Change>,
    supers_before: &[Principal],
    supers_after: &[Principal],
    sides: &Asked<'_>,
    target: &Target,
    principals: &[Option<Text>],
) -> Result<(), AllocError>
    ensures { OnOk result (out.new.items ≡ out.old.items
        ++ flat_map (changes_by supers_before.now supers_after.now sides.now target.now)
        principals.now) }
{
    for principal in principals {
        push_by(
            alloc,
            out,
            supers_before,
            supers_after,
            sides,
            target,
            principal,
        )?;
    }
    Ok(())
}

#[tactic(auto, unfolding(crate::specs::Difference::changes_on))]
fn push_on(
    alloc: Global,
    out: &mut Vec<Change>,
    before: &Finder<'_>,
    after: &Finder<'_>,
    target: &Target,
) -> Result<(), AllocError>
    ensures { OnOk result (out.new.items ≡ out.old.items
        ++ changes_on before.now after.now target.now) }
{
    let sides = sides_on(alloc, before, after, target)?;
    let principals = sides.principals(alloc)?;
    let asked = Asked::of(alloc, &sides)?;
    push_principals(
        alloc,
        out,
        before.rules().supers(),
        after.rules().supers(),
        &asked,
        target,
        principals.as_slice(),
    )
}

#[tactic(auto, unfolding(crate::specs::Difference::targets_in))]
fn targets_in(
    alloc: Global,
    before: &Authorizer,
    after: &Authorizer,
) -> Result<Vec<Target>, AllocError>
    ensures { IfOk result (λ made.
        made.items ≡ targets_in before.now.contents after.now.contents) }
{
    let mut made = Targets::of(alloc, before.entries())?;
    made.add_all(alloc, after.entries())?;
    Ok(made.into_vec())
}

fn push_all(
    alloc: Global,
    out: &mut Vec<Change>,
    before: &Finder<'_>,
    after: &Finder<'_>,
    targets: &[Target],
) -> Result<(), AllocError>
    ensures { OnOk result (out.new.items ≡ out.old.items
        ++ flat_map (changes_on before.now after.now) targets.now) }
{
    for target in targets {
        push_on(alloc, out, before, after, target)?;
    }
    Ok(())
}

/// What becomes of the answers from one set of rules to another, for principals that are super
/// users neither before nor after. Empty exactly if no such answer changes. For an operation and a
/// target a principal at a host takes the outcome that is listed for both, else for the principal
/// at other hosts, else for other principals at the host, else for all others; else it stays.
#[tactic(auto, unfolding(crate::specs::Difference::changes_of))]
pub fn changes(
    alloc: Global,
    before: &Authorizer,
    after: &Authorizer,
) -> Result<Vec<Change>, AllocError>
    ensures exact { IfOk result (λ found.
        ListsChanges before.now.contents after.now.contents found.items) }
    ensures listed { IfOk result (λ found.
        found.items ≡ changes_of before.now.contents after.now.contents) }
{
    let targets = targets_in(alloc, before, after)?;
    let earlier = Finder::of(alloc, before)?;
    let later = Finder::of(alloc, after)?;
    let mut out = Vec::new(alloc);
    push_all(alloc, &mut out, &earlier, &later, targets.as_slice())?;
    Ok(out)
}
