//! A line of a broker's log that records an access.

ghost use Rattle.std.specs.Prelude.{◌≡◌, codes, option_map};
ghost use Rattle.kob_policy_text.specs.Listing.{first_parts};
ghost use Rattle.kob_policy_text.specs.LogLines.{access_of, access_words, allowed_by};
ghost use Rattle.kob_policy_text.specs.LogLines.{name_in, one_name};
ghost use Rattle.kob_policy_text.specs.LogLines.{resource_alone, right_in, up_to};
ghost use Rattle.kob_script.specs.Words.{Gives};

use crate::listing::{known, listed_operation, listed_resource};
use crate::pieces::{around_first, around_last, first_parts, last_parts};
use crate::question::{Asker, Right};
use crate::users::{OTHER_PRINCIPAL, copied_text, host_in, user_in};
use kob_names::Text;
use kob_script::{FaultKind, LineError};
use std::alloc::Global;
use std::marker::Model;

/// An access, and whether the broker allowed it.
#[derive(Drop)]
pub struct Recorded {
    pub asker: Asker,
    pub right: Right,
    pub allowed: bool,
}

/// The parts of a line that records an access, as they are there.
#[derive(Drop)]
pub struct AccessWords<'a> {
    pub principal: &'a [u8],
    pub outcome: &'a [u8],
    pub operation: &'a [u8],
    pub host: &'a [u8],
    pub resource: &'a [u8],
}

impl<'a> Model for AccessWords<'a> {
    ghost use Rattle.kob_policy_text.specs.LogLines as seen;

    ghost Value = { seen.AccessWords };

    ghost view = { λ words. record {
      principal = words.principal.now;
      outcome = words.outcome.now;
      operation = words.operation.now;
      host = words.host.now;
      resource = words.resource.now;
    } };
}

/// `Principal = PRINCIPAL is OUTCOME operation = OPERATION from host = HOST on resource = RESOURCE`
#[tactic(auto, unfolding(crate::specs::LogLines::access_words))]
fn access_words(line: &[u8]) -> Result<AccessWords<'_>, LineError>
    ensures { Gives result (access_words line.entry.now) }
{
    let (_, access) = around_first(line, b"Principal = ")?;
    let (front, behind) = around_first(access, b"peration = ")?;
    let (principal, outcome) = around_last(front, b" is ")?;
    let (operation, rest) = around_first(behind, b" from host = ")?;
    let (host, resource) = around_first(rest, b" on resource = ")?;
    Ok(AccessWords {
        principal,
        outcome,
        operation,
        host,
        resource,
    })
}

/// Whether the access was allowed, with the first letter of the word behind.
fn allowed_by(outcome: &[u8]) -> Result<bool, LineError>
    ensures { Gives result (allowed_by outcome.now) }
{
    if outcome == b"Allowed o".as_slice() || outcome == b"Allowed O".as_slice() {
        Ok(true)
    } else if outcome == b"Denied o".as_slice() || outcome == b"Denied O".as_slice() {
        Ok(false)
    } else {
        Err(LineError::Fault(FaultKind::BadLine))
    }
}

/// The part before the last mark, or all.
fn up_to<'a>(mark: &[u8], text: &'a [u8]) -> &'a [u8]
    ensures { result.now ≡ up_to mark.now text.entry.now }
{
    match last_parts(text, mark) {
        Some((front, _)) => front,
        None => text,
    }
}

/// Without the request and the name of the logger.
fn resource_alone(text: &[u8]) -> &[u8]
    ensures { result.now ≡ resource_alone text.entry.now }
{
    up_to(
        b" (kafka.authorizer.logger)",
        up_to(b" for request = ", text),
    )
}

/// The name of one resource, if the text has one.
fn one_name(text: &[u8]) -> Option<&[u8]>
    ensures { option_map (λ name. name.now) result
        ≡ one_name text.entry.now (first_parts text.entry.now (codes ":")) }
{
    match first_parts(text, b":") {
        Some((pattern, name)) if pattern == b"LITERAL".as_slice() => Some(name),
        Some((pattern, _)) if pattern == b"UNKNOWN".as_slice() => None,
        _ => Some(text),
    }
}

fn name_in(alloc: Global, name: Option<&[u8]>) -> Result<Option<Text>, LineError>
    ensures { Gives result (name_in (option_map (λ name. name.now) name.entry)) }
{
    match name {
        None => Ok(None),
        Some(bytes) => Ok(Some(copied_text(alloc, bytes)?)),
    }
}

/// The right, if rules can grant it.
#[tactic(auto, unfolding(crate::specs::LogLines::right_in))]
fn right_in(alloc: Global, operation: &[u8], resource: &[u8]) -> Result<Option<Right>, LineError>
    ensures { Gives result (right_in operation.now resource.now) }
{
    let (kind, rest) = around_first(resource_alone(resource), b":")?;
    let operation = known(listed_operation(operation))?;
    let kind = known(listed_resource(kind))?;
    let name = name_in(alloc, one_name(rest))?;
    match (operation, kind, name) {
        (Some(operation), Some(resource), Some(name)) => Ok(Some(Right {
            operation,
            resource,
            name,
        })),
        _ => Ok(None),
    }
}

/// The access that a line records, or none if rules cannot bear on it. The fault is that the line
/// records no access.
#[tactic(auto, unfolding(crate::specs::LogLines::asker_in, crate::specs::LogLines::recorded_of))]
pub fn access_of(alloc: Global, line: &[u8]) -> Result<Option<Recorded>, LineError>
    ensures { Gives result (access_of line.now) }
{
    let words = access_words(line)?;
    let allowed = allowed_by(words.outcome)?;
    let principal = user_in(alloc, words.principal)?;
    let host = host_in(alloc, words.host)?;
    match right_in(alloc, words.operation, words.resource)? {
        None => Ok(None),
        Some(_) if principal.as_str() == OTHER_PRINCIPAL => Ok(None),
        Some(right) => Ok(Some(Recorded {
            asker: Asker { principal, host },
            right,
            allowed,
        })),
    }
}
