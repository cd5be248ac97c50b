//! The answers to `may`, and whether they are as expected.

ghost use Rattle.std.specs.Prelude.{◌≡◌, ◌++◌, OnOk};
ghost use Rattle.kob_policy_text.specs.Access.{access_text, act_text, any_fails};
ghost use Rattle.kob_policy_text.specs.Access.{expect_text, is_allowed, is_other_answer};
ghost use Rattle.kob_policy_text.specs.Access.{outcome_of_expected};

use crate::hints::{push_unnamed, push_untaken};
use crate::judge::Judge;
use crate::printed::push_may;
use crate::question::{Access, Act, Asker, Query, Question};
use crate::rights::{
    are_met, check_of, idempotent_rights, on, push_rights, rights_of, transactional_rights,
};
use std::alloc::AllocError;

fn push_act<'a>(
    out: &mut Vec<u8>,
    judge: &'a Judge,
    asker: &'a Asker,
    act: &'a Act,
) -> Result<(), AllocError>
    ensures { OnOk result (out.new.items ≡ out.old.items ++ act_text judge.now asker.now act.now) }
{
    match act {
        Act::Right(right) => {
            let asked = on(asker, &check_of(right));
            let verdict = judge.verdict(&asked);
            push_may(out, judge, verdict)?;
            push_untaken(out, judge, verdict, &asked)
        }
        Act::Request(request) => push_rights(out, judge, asker, &request.rights()),
        Act::Idempotent(topic) => {
            let release = judge.policy().release();
            push_rights(out, judge, asker, &idempotent_rights(release, topic))
        }
        Act::Transactional(topic, id) => {
            push_rights(out, judge, asker, &transactional_rights(topic, id))
        }
    }
}

/// The answer, and the bindings that decide.
pub fn push_access<'a>(
    out: &mut Vec<u8>,
    judge: &'a Judge,
    access: &'a Access,
) -> Result<(), AllocError>
    ensures { OnOk result (out.new.items ≡ out.old.items ++ access_text judge.now access.now) }
{
    push_act(out, judge, &access.asker, &access.act)?;
    let allowed = is_allowed(judge, access);
    push_unnamed(out, judge, allowed, &access.asker.principal)
}

/// Whether the answer to `may` is yes.
pub fn is_allowed(judge: &Judge, access: &Access) -> bool
    ensures { result ≡ is_allowed judge.now access.now }
{
    let rights = rights_of(judge.policy().release(), &access.act);
    are_met(judge, &access.asker, &rights)
}

/// Whether the answer is not the one that is expected.
pub fn is_other_answer(expected: bool, allowed: bool) -> bool
    ensures { result ≡ is_other_answer expected allowed }
{
    expected != allowed
}

fn outcome_of_expected(other: bool) -> &'static str
    ensures { result.now ≡ outcome_of_expected other }
{
    if other {
        "  not as expected\n"
    } else {
        "  as expected\n"
    }
}

/// The answer, and whether it is as expected.
pub fn push_expected<'a>(
    out: &mut Vec<u8>,
    judge: &'a Judge,
    expected: bool,
    access: &'a Access,
) -> Result<(), AllocError>
    ensures { OnOk result
        (out.new.items ≡ out.old.items ++ expect_text judge.now expected access.now) }
{
    push_access(out, judge, access)?;
    let other = is_other_answer(expected, is_allowed(judge, access));
    out.extend_from_slice(outcome_of_expected(other).as_bytes())
}

/// Whether some answer is not the one that is expected.
pub fn any_fails(judge: &Judge, queries: &[Query]) -> bool
    ensures { result ≡ any_fails judge.now queries.now }
{
    queries.iter().any(|query| {
        matches!(&query.question, Question::Expect(expected, access)
            if is_other_answer(*expected, is_allowed(judge, access)))
    })
}
