//! Which events are denied.

ghost use Rattle.std.specs.Prelude.{◌≡◌, ◌≢◌, map, IfOk, IfSome, None, OnErr, is_none};
ghost use Rattle.std.specs.Option.{option_map};
ghost use Rattle.kob_broker.specs.Denial.{denial_of, is_met, verdict, verdicts_view};
ghost use Rattle.kob_rights.specs.Table.{check_view, clause_view};

use crate::verdicts::Verdicts;
use kob_authorizer::Authorizer;
use kob_names::{Items, Verdict};
use kob_rights::{Check, Clause, Code, Event, Reply, Rights};
use std::alloc::{AllocError, Global};

fn verdict(authorizer: &Authorizer, event: &Event, check: &Check<'_>) -> Verdict
    ensures { result ≡ verdict authorizer.now.contents event.now (check_view check.now) }
{
    authorizer.authorize(
        &event.principal,
        &event.host,
        check.operation,
        check.resource,
        check.name,
    )
}

/// The verdicts of a clause of which no alternative is granted.
fn blamed(authorizer: &Authorizer, event: &Event, clause: &Clause<'_>) -> Option<Verdicts>
    ensures met { is_met authorizer.now.contents event.now (clause_view clause.now)
        ≡ is_none result }
    ensures verdicts { IfSome result (λ verdicts. verdicts_view verdicts
        ≡ map (verdict authorizer.now.contents event.now) (clause_view clause.now)) }
{
    match clause {
        Clause::Only(check) => {
            let verdict = verdict(authorizer, event, check);
            if verdict.is_granted() {
                return None;
            }
            Some(Verdicts::Only(verdict))
        }
        Clause::Either(first, second) => {
            let first = verdict(authorizer, event, first);
            let second = verdict(authorizer, event, second);
            if first.is_granted() || second.is_granted() {
                return None;
            }
            Some(Verdicts::Either(first, second))
        }
    }
}

/// The code and the verdicts of the first clause of which no alternative is granted.
fn first_blamed(authorizer: &Authorizer, event: &Event) -> Option<(Code, Verdicts)>
    ensures { option_map (λ blamed. Reply.Denied blamed.0 (verdicts_view blamed.1)) result
        ≡ denial_of authorizer.now.contents event.now }
{
    match event.request.rights() {
        Rights::Free => None,
        Rights::One(clause) => {
            let verdicts = blamed(authorizer, event, &clause)?;
            Some((event.request.denial_code(0), verdicts))
        }
        Rights::Both(first, second) => {
            if let Some(verdicts) = blamed(authorizer, event, &first) {
                return Some((event.request.denial_code(0), verdicts));
            }
            let verdicts = blamed(authorizer, event, &second)?;
            Some((event.request.denial_code(1), verdicts))
        }
    }
}

/// The denial of the event, if it is denied. Allocates only for a denial.
pub(crate) fn denial_of(
    alloc: Global,
    authorizer: &Authorizer,
    event: &Event,
) -> Result<Option<Reply>, AllocError>
    ensures denial { IfOk result (λ denial. denial ≡ denial_of authorizer.now.contents event.now) }
    ensures denied { OnErr result (denial_of authorizer.now.contents event.now ≢ None) }
{
    let Some((code, verdicts)) = first_blamed(authorizer, event) else {
        return Ok(None);
    };
    let verdicts = match verdicts {
        Verdicts::Only(verdict) => Vec::from_array(alloc, [verdict])?,
        Verdicts::Either(first, second) => Vec::from_array(alloc, [first, second])?,
    };
    let verdicts = Items::from_vec(verdicts);
    Ok(Some(Reply::Denied { code, verdicts }))
}
