//! What is granted to a principal.

ghost use Rattle.std.specs.Prelude.{◌≡◌, ◌++◌, OnOk, flat_map};
ghost use Rattle.kob_policy_text.specs.Holdings.{behind_comma, from_host, held_text};
ghost use Rattle.kob_policy_text.specs.Holdings.{holding_text, holdings_text, is_repeated};
ghost use Rattle.kob_policy_text.specs.Holdings.{operations_text};

use crate::judge::Judge;
use crate::parts::{Part, push_parts};
use crate::remarks::{push_no_binding, push_none};
use kob_names::{Host, Operation, Principal};
use kob_policy_review::{Holding, is_super, names_all, rights};
use kob_words::{operation_name, resource_name};
use std::alloc::{AllocError, Global};

fn push_others(out: &mut Vec<u8>, operations: &[Operation]) -> Result<(), AllocError>
    ensures { OnOk result
        (out.new.items ≡ out.old.items ++ flat_map behind_comma operations.now) }
{
    for operation in operations {
        push_parts(
            out,
            &[Part::Words(","), Part::Words(operation_name(*operation))],
        )?;
    }
    Ok(())
}

fn push_operations(out: &mut Vec<u8>, operations: &[Operation]) -> Result<(), AllocError>
    ensures { OnOk result (out.new.items ≡ out.old.items ++ operations_text operations.now) }
{
    if operations.len() == 10 {
        return out.extend_from_slice(b"All");
    }
    match operations {
        [] => Ok(()),
        [first, others @ ..] => {
            out.extend_from_slice(operation_name(*first).as_bytes())?;
            push_others(out, others)
        }
    }
}

fn push_from(out: &mut Vec<u8>, host: &Option<Host>, one: &Holding) -> Result<(), AllocError>
    ensures { OnOk result (out.new.items ≡ out.old.items ++ from_host host.now one.now) }
{
    match host {
        Some(_) => Ok(()),
        None => {
            push_parts(
                out,
                &[Part::Party("* (others)", &one.host), Part::Words(" ")],
            )
        }
    }
}

/// Whether a holding is at the word for all hosts, which asks as all others do, where each host is
/// listed.
pub fn is_repeated(host: &Option<Host>, one: &Holding) -> bool
    ensures { result ≡ is_repeated host.now one.now }
{
    match host {
        Some(_) => false,
        None => names_all("*", &one.host),
    }
}

#[tactic(auto, using(kob_words::proofs::Appending::appending), unfolding(crate::specs::Holdings::holding_line))]
fn push_each(out: &mut Vec<u8>, host: &Option<Host>, found: &[Holding]) -> Result<(), AllocError>
    ensures { OnOk result
        (out.new.items ≡ out.old.items ++ flat_map (holding_text host.now) found.now) }
{
    for one in found {
        if one.operations.as_slice().is_empty() || is_repeated(host, one) {
            continue;
        }
        out.extend_from_slice(b"  ")?;
        push_from(out, host, one)?;
        push_operations(out, one.operations.as_slice())?;
        push_parts(
            out,
            &[
                Part::Words(" "),
                Part::Words(resource_name(one.target.resource)),
                Part::Words(" "),
                Part::Names(&one.target.names),
                Part::Words("\n"),
            ],
        )?;
    }
    Ok(())
}

/// What is granted to a principal that is no super user.
fn push_held(
    alloc: Global,
    out: &mut Vec<u8>,
    judge: &Judge,
    principal: &Principal,
    host: &Option<Host>,
) -> Result<(), AllocError>
    ensures { OnOk result
        (out.new.items ≡ out.old.items ++ held_text judge.now principal.now host.now) }
{
    let found = rights(alloc, judge.authorizer(), principal, host)?;
    push_each(out, host, found.as_slice())?;
    if judge.policy().everyone() {
        out.extend_from_slice(b"  All on names that no pattern takes\n")
    } else {
        Ok(())
    }
}

/// Prints what is granted to a principal, from one host or from each that counts: a line for each
/// class of names, and what is remarked below, unless it is a super user.
#[tactic(auto, using(kob_words::proofs::Appending::appending, crate::proofs::Remarking::empty_since))]
pub fn push_holdings(
    alloc: Global,
    out: &mut Vec<u8>,
    judge: &Judge,
    principal: &Principal,
    host: &Option<Host>,
) -> Result<(), AllocError>
    ensures { OnOk result
        (out.new.items ≡ out.old.items ++ holdings_text judge.now principal.now host.now) }
{
    if is_super(judge.policy().supers(), principal.as_str()) {
        return out.extend_from_slice(b"  All on every name, as a super user\n");
    }
    let start = out.len();
    push_held(alloc, out, judge, principal, host)?;
    let is_empty = out.len() == start;
    if judge.is_named(principal) {
        push_none(out, is_empty)
    } else {
        push_no_binding(out, principal)
    }
}
