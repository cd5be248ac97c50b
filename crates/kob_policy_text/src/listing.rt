//! The lines that `kafka-acls --list` prints.

ghost use Rattle.std.specs.Prelude.{◌≡◌, ok_or};
ghost use Rattle.kob_policy_text.specs.Listing.{grant_item, grant_of, heading_item};
ghost use Rattle.kob_policy_text.specs.Listing.{heading_text, holder_of};
ghost use Rattle.kob_policy_text.specs.Listing.{is_other_operation, known_operation};
ghost use Rattle.kob_policy_text.specs.Listing.{known_resource};
ghost use Rattle.kob_policy_text.specs.Listing.{listed_operation, listed_resource, one_principal};
ghost use Rattle.kob_policy_text.specs.Listing.{unclosed};
ghost use Rattle.kob_policy_text.specs.Listing.{newer_grant, newer_target, newer_words};
ghost use Rattle.kob_policy_text.specs.Listing.{older_grant, older_words};
ghost use Rattle.kob_policy_text.specs.Listing.{target_item, target_of};
ghost use Rattle.kob_script.specs.Words.{Gives, GivesSeen};
ghost use Rattle.kob_script.specs.declared.fault.FaultKind.TheVariants.{BadWord};

use crate::item::{Grant, Item, Target};
use crate::pieces::{around_first, around_last, first_parts, holds_mark, last_parts};
use crate::users::{OTHER_OPERATION, copied_text, host_in, user_in};
use kob_names::{Operation, Pattern, Permission, Principal, ResourceKind};
use kob_script::{FaultKind, LineError, principal_of};
use kob_words::{operation_named, pattern_named, permission_named, resource_named};
use std::alloc::Global;
use std::marker::Model;

/// The parts of a listed binding, as they are there.
#[derive(Drop)]
pub struct GrantWords<'a> {
    pub principal: &'a [u8],
    pub host: &'a [u8],
    pub operation: &'a [u8],
    pub permission: &'a [u8],
}

impl<'a> Model for GrantWords<'a> {
    ghost use Rattle.kob_policy_text.specs.Listing.{GrantWords};

    ghost Value = { GrantWords };

    ghost view = { λ words. record {
      principal = words.principal.now;
      host = words.host.now;
      operation = words.operation.now;
      permission = words.permission.now;
    } };
}

/// The words of a resource.
#[derive(Drop)]
pub struct TargetWords<'a> {
    pub resource: &'a [u8],
    pub pattern: &'a [u8],
    pub name: &'a [u8],
}

impl<'a> Model for TargetWords<'a> {
    ghost use Rattle.kob_policy_text.specs.Listing.{TargetWords};

    ghost Value = { TargetWords };

    ghost view = { λ words. record {
      resource = words.resource.now;
      pattern = words.pattern.now;
      name = words.name.now;
    } };
}

/// Whether the operation is one that is left out.
pub fn is_other_operation(word: &[u8]) -> bool
    ensures { result ≡ is_other_operation word.now }
{
    word.eq_ignore_ascii_case(b"CREATE_TOKENS")
        || word.eq_ignore_ascii_case(b"CreateTokens")
        || word.eq_ignore_ascii_case(b"DESCRIBE_TOKENS")
        || word.eq_ignore_ascii_case(b"DescribeTokens")
        || word.eq_ignore_ascii_case(b"TWO_PHASE_COMMIT")
        || word.eq_ignore_ascii_case(b"TwoPhaseCommit")
}

/// The operation, or none for one that is left out.
pub fn listed_operation(word: &[u8]) -> Option<Option<Operation>>
    ensures { result ≡ listed_operation word.now }
{
    if word.eq_ignore_ascii_case(b"CLUSTER_ACTION") {
        Some(Some(Operation::ClusterAction))
    } else if word.eq_ignore_ascii_case(b"DESCRIBE_CONFIGS") {
        Some(Some(Operation::DescribeConfigs))
    } else if word.eq_ignore_ascii_case(b"ALTER_CONFIGS") {
        Some(Some(Operation::AlterConfigs))
    } else if word.eq_ignore_ascii_case(b"IDEMPOTENT_WRITE") {
        Some(Some(Operation::IdempotentWrite))
    } else if is_other_operation(word) {
        Some(None)
    } else {
        match operation_named(word) {
            Some(operation) => Some(Some(operation)),
            None => None,
        }
    }
}

/// The kind of resource, or none for one that is left out.
pub fn listed_resource(word: &[u8]) -> Option<Option<ResourceKind>>
    ensures { result ≡ listed_resource word.now }
{
    if word.eq_ignore_ascii_case(b"TRANSACTIONAL_ID") {
        Some(Some(ResourceKind::TransactionalId))
    } else if word.eq_ignore_ascii_case(b"DELEGATION_TOKEN")
        || word.eq_ignore_ascii_case(b"DelegationToken")
        || word.eq_ignore_ascii_case(b"USER")
    {
        Some(None)
    } else {
        match resource_named(word) {
            Some(kind) => Some(Some(kind)),
            None => None,
        }
    }
}

/// An operation that a policy may have.
pub fn known_operation(word: &[u8]) -> Option<Operation>
    ensures { result ≡ known_operation word.now }
{
    listed_operation(word).unwrap_or(None)
}

/// A kind of resource that a policy may have.
pub fn known_resource(word: &[u8]) -> Option<ResourceKind>
    ensures { result ≡ known_resource word.now }
{
    listed_resource(word).unwrap_or(None)
}

/// The word without the parenthesis that closes a list.
fn unclosed(word: &[u8]) -> &[u8]
    ensures { result.now ≡ unclosed word.entry.now }
{
    match last_parts(word, b")") {
        Some((front, behind)) if behind == b"".as_slice() => front,
        _ => word,
    }
}

/// What was found, or `BadWord`.
pub fn known<T: Drop>(found: Option<T>) -> Result<T, LineError>
    ensures { Gives result (ok_or found BadWord) }
{
    match found {
        Some(value) => Ok(value),
        None => Err(LineError::Fault(FaultKind::BadWord)),
    }
}

/// The user, or the principal in its place if the operation is left out.
fn holder_of(
    alloc: Global,
    operation: Option<Operation>,
    bytes: &[u8],
) -> Result<Principal, LineError>
    ensures { Gives result (holder_of operation bytes.now) }
{
    let user = user_in(alloc, bytes)?;
    match operation {
        Some(_) => Ok(user),
        None => principal_of(alloc, OTHER_OPERATION),
    }
}

#[tactic(auto, unfolding(crate::specs::Listing::grant_of))]
pub fn grant_of(alloc: Global, words: &GrantWords<'_>) -> Result<Grant, LineError>
    ensures { Gives result (grant_of words.now) }
{
    let permission = known(permission_named(unclosed(words.permission)))?;
    let operation = known(listed_operation(words.operation))?;
    let principal = holder_of(alloc, operation, words.principal)?;
    let host = host_in(alloc, words.host)?;
    Ok(Grant {
        permission,
        principal,
        host,
        operation: operation.unwrap_or(Operation::All),
    })
}

fn grant_item(alloc: Global, words: &GrantWords<'_>) -> Result<Item, LineError>
    ensures { Gives result (grant_item words.now) }
{
    Ok(Item::Grant(grant_of(alloc, words)?))
}

/// The principal, unless another binding begins on the same line.
fn one_principal(text: &[u8]) -> Result<&[u8], LineError>
    ensures { GivesSeen (λ text. text.now) result (one_principal text.entry.now) }
{
    if holds_mark(text, b")(principal=") {
        return Err(LineError::Fault(FaultKind::BadLine));
    }
    Ok(text)
}

/// `(principal=PRINCIPAL, host=HOST, operation=OPERATION, permissionType=PERMISSION)`
#[tactic(auto, unfolding(crate::specs::Listing::newer_words))]
fn newer_words(line: &[u8]) -> Result<GrantWords<'_>, LineError>
    ensures { Gives result (newer_words line.entry.now) }
{
    let (_, inside) = around_first(line, b"(principal=")?;
    let (front, permission) = around_last(inside, b", permissionType=")?;
    let (holder, operation) = around_last(front, b", operation=")?;
    let (principal, host) = around_last(holder, b", host=")?;
    Ok(GrantWords {
        principal: one_principal(principal)?,
        host,
        operation,
        permission,
    })
}

pub fn newer_grant(alloc: Global, line: &[u8]) -> Result<Item, LineError>
    ensures { Gives result (newer_grant line.now) }
{
    grant_item(alloc, &newer_words(line)?)
}

/// `PRINCIPAL has PERMISSION permission for operations: OPERATION from hosts: HOST`
#[tactic(auto, unfolding(crate::specs::Listing::older_words))]
fn older_words(line: &[u8]) -> Result<GrantWords<'_>, LineError>
    ensures { Gives result (older_words line.entry.now) }
{
    let (front, host) = around_last(line, b" from hosts: ")?;
    let (holder, operation) = around_last(front, b" permission for operations: ")?;
    let (principal, permission) = around_last(holder, b" has ")?;
    Ok(GrantWords {
        principal,
        host,
        operation,
        permission,
    })
}

pub fn older_grant(alloc: Global, line: &[u8]) -> Result<Item, LineError>
    ensures { Gives result (older_grant line.now) }
{
    grant_item(alloc, &older_words(line)?)
}

#[tactic(auto, unfolding(crate::specs::Listing::target_of))]
pub fn target_of(alloc: Global, words: &TargetWords<'_>) -> Result<Option<Target>, LineError>
    ensures { Gives result (target_of words.now) }
{
    let kind = known(listed_resource(words.resource))?;
    let pattern = known(pattern_named(unclosed(words.pattern)))?;
    let name = copied_text(alloc, words.name)?;
    match kind {
        None => Ok(None),
        Some(resource) => Ok(Some(Target {
            resource,
            pattern: Pattern {
                kind: pattern,
                name,
            },
        })),
    }
}

fn target_item(alloc: Global, words: &TargetWords<'_>) -> Result<Item, LineError>
    ensures { Gives result (target_item words.now) }
{
    Ok(Item::Resource(target_of(alloc, words)?))
}

#[tactic(auto, unfolding(crate::specs::Listing::newer_target))]
fn newer_target(text: &[u8]) -> Result<TargetWords<'_>, LineError>
    ensures { Gives result (newer_target text.entry.now) }
{
    let (front, rest) = around_first(text, b", name=")?;
    let (_, resource) = around_first(front, b"resourceType=")?;
    let (name, pattern) = around_last(rest, b", patternType=")?;
    Ok(TargetWords {
        resource,
        pattern,
        name,
    })
}

/// The part of a heading between its quotes.
#[tactic(auto, unfolding(crate::specs::Listing::heading_text))]
fn heading_text(line: &[u8]) -> Result<&[u8], LineError>
    ensures { GivesSeen (λ text. text.now) result (heading_text line.entry.now) }
{
    let (_, quoted) = around_first(line, b"`")?;
    let (text, end) = around_last(quoted, b"`")?;
    if end != b":".as_slice() {
        return Err(LineError::Fault(FaultKind::BadLine));
    }
    Ok(text)
}

/// ``Current ACLs for resource `RESOURCE`:``
#[tactic(auto, unfolding(crate::specs::Listing::older_resource))]
pub fn heading_item(alloc: Global, line: &[u8]) -> Result<Item, LineError>
    ensures { Gives result (heading_item line.now) }
{
    let text = heading_text(line)?;
    if text.starts_with(b"ResourcePattern(") {
        return target_item(alloc, &newer_target(text)?);
    }
    let (resource, rest) = around_first(text, b":")?;
    let (pattern, name) = match first_parts(rest, b":") {
        Some((pattern, name))
            if pattern == b"LITERAL".as_slice() || pattern == b"PREFIXED".as_slice() => {
            (pattern, name)
        }
        _ => (b"LITERAL".as_slice(), rest),
    };
    target_item(
        alloc,
        &TargetWords {
            resource,
            pattern,
            name,
        },
    )
}
