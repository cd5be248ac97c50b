//! The rights that an act needs, each clause with its answers.

ghost use Rattle.std.specs.Prelude.{◌≡◌, ◌++◌, OnOk};
ghost use Rattle.kob_policy_text.specs.Access.{act_rights, are_met, check_of, check_text};
ghost use Rattle.kob_policy_text.specs.Access.{clause_text, idempotent_rights, is_clause_met};
ghost use Rattle.kob_policy_text.specs.Access.{question_on, rights_text, transactional_rights};
ghost use Rattle.kob_rights.specs.Table.{check_view, clause_view, on_cluster, on_topic, rights_view};

use crate::asked::Asked;
use crate::hints::push_untaken;
use crate::judge::{Judge, deciding};
use crate::parts::{Part, push_parts};
use crate::printed::{origin_by, yes_or_no};
use crate::question::{Act, Asker, Right};
use crate::release::Release;
use kob_names::{Operation, ResourceKind, Text};
use kob_rights::{Check, Clause, Rights};
use kob_words::{operation_name, resource_name};
use std::alloc::AllocError;

fn idempotent_write<'a>() -> Check<'a>
    ensures { check_view result ≡ on_cluster Operation.IdempotentWrite }
{
    Check {
        operation: Operation::IdempotentWrite,
        resource: ResourceKind::Cluster,
        name: "kafka-cluster",
    }
}

fn write_on(topic: &Text) -> Check<'_>
    ensures { check_view result ≡ on_topic Operation.Write topic.entry.now }
{
    Check {
        operation: Operation::Write,
        resource: ResourceKind::Topic,
        name: topic.as_str(),
    }
}

/// An operation on a resource.
pub fn check_of(right: &Right) -> Check<'_>
    ensures { check_view result ≡ check_of right.entry.now }
{
    Check {
        operation: right.operation,
        resource: right.resource,
        name: right.name.as_str(),
    }
}

/// Before 2.8 a right on the cluster, since then that or Write on some topic (KIP-679), which Write
/// on the topic is; and Write on the topic.
pub fn idempotent_rights(release: Release, topic: &Text) -> Rights<'_>
    ensures { rights_view result ≡ idempotent_rights release topic.entry.now }
{
    let start = match release {
        Release::Before28 => Clause::Only(idempotent_write()),
        Release::Since28 => Clause::Either(idempotent_write(), write_on(topic)),
    };
    Rights::Both(start, Clause::Only(write_on(topic)))
}

/// Write on the transactional id, and Write on the topic.
pub fn transactional_rights<'a>(topic: &'a Text, id: &'a Text) -> Rights<'a>
    ensures { rights_view result ≡ transactional_rights topic.entry.now id.entry.now }
{
    let write_in = Check {
        operation: Operation::Write,
        resource: ResourceKind::TransactionalId,
        name: id.as_str(),
    };
    Rights::Both(Clause::Only(write_in), Clause::Only(write_on(topic)))
}

/// The rights that an act needs of brokers of a release.
pub fn rights_of(release: Release, act: &Act) -> Rights<'_>
    ensures { rights_view result ≡ act_rights release act.entry.now }
{
    match act {
        Act::Right(right) => Rights::One(Clause::Only(check_of(right))),
        Act::Request(request) => request.rights(),
        Act::Idempotent(topic) => idempotent_rights(release, topic),
        Act::Transactional(topic, id) => transactional_rights(topic, id),
    }
}

/// What an asker asks by a check.
pub fn on<'a>(asker: &'a Asker, check: &Check<'a>) -> Asked<'a>
    ensures { result ≡ question_on asker.entry.now (check_view check.entry.now) }
{
    Asked {
        principal: &asker.principal,
        host: &asker.host,
        operation: check.operation,
        resource: check.resource,
        name: check.name,
    }
}

#[tactic(auto, using(kob_words::proofs::Appending::appending), unfolding(crate::specs::Access::check_line, crate::specs::Access::check_text))]
fn push_check<'a>(
    out: &mut Vec<u8>,
    judge: &'a Judge,
    number: u64,
    asked: &Asked<'a>,
) -> Result<(), AllocError>
    ensures { OnOk result (out.new.items ≡ out.old.items
        ++ check_text judge.now number asked.now) }
{
    let verdict = judge.verdict(asked);
    push_parts(
        out,
        &[
            Part::Words("  "),
            Part::Number(number),
            Part::Words(" "),
            Part::Words(operation_name(asked.operation)),
            Part::Words(" "),
            Part::Words(resource_name(asked.resource)),
            Part::Words(" "),
            Part::Name(asked.name),
            Part::Words(" "),
            Part::Answer(verdict),
            Part::Origin(origin_by(judge, deciding(verdict))),
            Part::Words("\n"),
        ],
    )?;
    push_untaken(out, judge, verdict, asked)
}

fn push_clause<'a>(
    out: &mut Vec<u8>,
    judge: &'a Judge,
    number: u64,
    asker: &'a Asker,
    clause: &Clause<'a>,
) -> Result<(), AllocError>
    ensures { OnOk result (out.new.items ≡ out.old.items
        ++ clause_text judge.now number asker.now (clause_view clause.now)) }
{
    match clause {
        Clause::Only(check) => push_check(out, judge, number, &on(asker, check)),
        Clause::Either(one, other) => {
            push_check(out, judge, number, &on(asker, one))?;
            push_check(out, judge, number, &on(asker, other))
        }
    }
}

fn is_clause_met(judge: &Judge, asker: &Asker, clause: &Clause<'_>) -> bool
    ensures { result ≡ is_clause_met judge.now asker.now (clause_view clause.now) }
{
    match clause {
        Clause::Only(check) => judge.is_yes(&on(asker, check)),
        Clause::Either(one, other) => {
            judge.is_yes(&on(asker, one)) || judge.is_yes(&on(asker, other))
        }
    }
}

pub fn are_met(judge: &Judge, asker: &Asker, rights: &Rights<'_>) -> bool
    ensures { result ≡ are_met judge.now asker.now (rights_view rights.now) }
{
    match rights {
        Rights::Free => true,
        Rights::One(clause) => is_clause_met(judge, asker, clause),
        Rights::Both(one, other) => {
            is_clause_met(judge, asker, one) && is_clause_met(judge, asker, other)
        }
    }
}

/// Whether all are granted, and the answers to each clause, numbered from 1.
#[tactic(auto, using(kob_words::proofs::Appending::appending), unfolding(crate::specs::Access::clauses_text))]
pub fn push_rights<'a>(
    out: &mut Vec<u8>,
    judge: &'a Judge,
    asker: &'a Asker,
    rights: &Rights<'a>,
) -> Result<(), AllocError>
    ensures { OnOk result (out.new.items ≡ out.old.items
        ++ rights_text judge.now asker.now (rights_view rights.now)) }
{
    let answer = yes_or_no(are_met(judge, asker, rights));
    push_parts(
        out,
        &[Part::Words("  "), Part::Words(answer), Part::Words("\n")],
    )?;
    match rights {
        Rights::Free => Ok(()),
        Rights::One(clause) => push_clause(out, judge, 1, asker, clause),
        Rights::Both(one, other) => {
            push_clause(out, judge, 1, asker, one)?;
            push_clause(out, judge, 2, asker, other)
        }
    }
}
