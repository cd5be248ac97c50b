//! What is answered to each principal and host on some names.

ghost use Rattle.std.specs.Prelude.{◌≡◌, ◌++◌, IfOk, OnOk, flat_map, map};
ghost use Rattle.kob_policy_review.specs.Granting.{ListsAnswers, answer_at, answers_by, answers_on};
ghost use Rattle.kob_policy_review.specs.Granting.{first_met};

use crate::askers::Askers;
use crate::class::{Target, is_met};
use crate::matching::{hosts_of, matching};
use crate::needed::is_super_party;
use crate::parties::principals_of;
use crate::sides::is_nothing;
use kob_authorizer::Authorizer;
use kob_names::{Binding, Operation, Permission, PlainValue, Principal, Text, Verdict};
use std::alloc::{AllocError, Global};

/// What a principal at a host is answered. `None` is every principal, or host, that no binding on
/// the names bears on.
#[derive(Debug, Drop)]
pub struct Answer {
    pub principal: Option<Text>,
    pub host: Option<Text>,
    pub verdict: Verdict,
}

/// The serial of the first entry that is met.
fn first_met(
    asking: &[(u64, Binding)],
    permission: Permission,
    host: &Option<Text>,
    operation: Operation,
) -> Option<u64>
    ensures { result ≡ first_met permission host.now operation asking.now }
{
    let entry = asking
        .iter()
        .find(|entry| is_met(permission, host, operation, entry))?;
    Some(entry.0)
}

#[tactic(auto, unfolding(crate::specs::Granting::answer_at))]
fn answer_at(
    alloc: Global,
    opened: bool,
    asking: &[(u64, Binding)],
    operation: Operation,
    principal: &Option<Text>,
    host: &Option<Text>,
) -> Result<Answer, AllocError>
    ensures { IfOk result (λ made.
        made ≡ answer_at opened asking.now operation principal.now host.now) }
{
    let deny = first_met(asking, Permission::Deny, host, operation);
    let allow = first_met(asking, Permission::Allow, host, operation);
    let principal = principal.copy(alloc)?;
    let host = host.copy(alloc)?;
    Ok(Answer {
        principal,
        host,
        verdict: match (deny, allow) {
            (Some(serial), _) => Verdict::DeniedBy(serial),
            (None, Some(serial)) => Verdict::AllowedBy(serial),
            (None, None) if opened => Verdict::NoAclFound,
            (None, None) => Verdict::NoAllow,
        },
    })
}

fn push_from(
    alloc: Global,
    out: &mut Vec<Answer>,
    opened: bool,
    asking: &[(u64, Binding)],
    operation: Operation,
    principal: &Option<Text>,
    hosts: &[Option<Text>],
) -> Result<(), AllocError>
    ensures { OnOk result (out.new.items ≡ out.old.items
        ++ map (answer_at opened asking.now operation principal.now) hosts.now) }
{
    for host in hosts {
        out.push(answer_at(alloc, opened, asking, operation, principal, host)?)?;
    }
    Ok(())
}

#[tactic(auto, unfolding(crate::specs::Granting::answers_by))]
fn push_by(
    alloc: Global,
    out: &mut Vec<Answer>,
    supers: &[Principal],
    opened: bool,
    matching: &Askers<'_>,
    operation: Operation,
    principal: &Option<Text>,
) -> Result<(), AllocError>
    ensures { OnOk result (out.new.items ≡ out.old.items
        ++ answers_by supers.now opened matching.now operation principal.now) }
{
    if is_super_party(supers, principal) {
        return Ok(());
    }
    let asking = matching.asking(alloc, principal)?;
    let hosts = hosts_of(alloc, asking.as_slice())?;
    push_from(
        alloc,
        out,
        opened,
        asking.as_slice(),
        operation,
        principal,
        hosts.as_slice(),
    )
}

fn push_principals(
    alloc: Global,
    out: &mut Vec<Answer>,
    supers: &[Principal],
    opened: bool,
    matching: &Askers<'_>,
    operation: Operation,
    principals: &[Option<Text>],
) -> Result<(), AllocError>
    ensures { OnOk result (out.new.items ≡ out.old.items
        ++ flat_map (answers_by supers.now opened matching.now operation) principals.now) }
{
    for principal in principals {
        push_by(alloc, out, supers, opened, matching, operation, principal)?;
    }
    Ok(())
}

/// What each principal and host is answered on a target, with the binding that decides: those that
/// a binding on it names, and all others. Super users are left out, to whom all is granted.
/// `Names::Below` a prefix speaks of the names below it that no longer prefix and no literal takes.
#[tactic(auto, unfolding(crate::specs::Granting::answers_on))]
pub fn who(
    alloc: Global,
    rules: &Authorizer,
    operation: Operation,
    target: &Target,
) -> Result<Vec<Answer>, AllocError>
    ensures exact { IfOk result (λ found.
        ListsAnswers rules.now.contents operation target.now found.items) }
    ensures listed { IfOk result (λ found.
        found.items ≡ answers_on rules.now.contents operation target.now) }
{
    let matching = matching(alloc, rules.entries(), target)?;
    let opened = rules.everyone() && is_nothing(matching.as_slice());
    let askers = Askers::of(alloc, matching.as_slice())?;
    let principals = principals_of(alloc, matching.as_slice())?;
    let mut out = Vec::new(alloc);
    push_principals(
        alloc,
        &mut out,
        rules.supers(),
        opened,
        &askers,
        operation,
        principals.as_slice(),
    )?;
    Ok(out)
}
