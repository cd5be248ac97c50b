//! Who may do what, and which topics a principal sees.

ghost use Rattle.std.specs.Prelude.{◌≡◌, ◌++◌, IfOk, OnOk, flat_map};
ghost use Rattle.std.specs.List.{list_any};
ghost use Rattle.kob_policy_text.specs.Answers.{is_seen, seen_text, seen_texts};
ghost use Rattle.kob_policy_text.specs.Answers.{sees_text, who_line};
ghost use Rattle.kob_policy_text.specs.Parties.{super_grant};
ghost use Rattle.kob_policy_text.specs.Review.{consumers_text, grants_text};
ghost use Rattle.kob_policy_text.specs.Review.{is_told, is_yes_for, speaks_for};
ghost use Rattle.kob_policy_text.specs.Review.{target_at, told_text, who_list, who_text};

use crate::asked::Asked;
use crate::at_hand::{each_once, principals_at_hand, topics_named};
use crate::judge::{Judge, deciding};
use crate::parts::{Part, push_parts};
use crate::printed::origin_by;
use crate::question::{Asker, Right};
use crate::remarks::{push_below_line, push_no_taker, push_none, push_taking};
use kob_names::{Host, Operation, PlainValue, Principal, ResourceKind, Text, Verdict};
use kob_policy_review::{Answer, Names, Target, names_all, who};
use kob_words::{operation_name, resource_name};
use std::alloc::{AllocError, Global};

#[tactic(auto, using(kob_words::proofs::Appending::appending), unfolding(crate::specs::Answers::who_line))]
fn push_who_lines<'a>(
    out: &mut Vec<u8>,
    judge: &'a Judge,
    right: &'a Right,
    host: &'a Host,
    principals: &'a [Principal],
) -> Result<(), AllocError>
    ensures { OnOk result (out.new.items ≡ out.old.items
        ++ flat_map (who_line judge.now right.now host.now) principals.now) }
{
    for principal in principals {
        let verdict = judge.verdict(&Asked {
            principal,
            host,
            operation: right.operation,
            resource: right.resource,
            name: right.name.as_str(),
        });
        push_parts(
            out,
            &[
                Part::Words("  "),
                Part::Name(principal.as_str()),
                Part::Words(" "),
                Part::Answer(verdict),
                Part::Origin(origin_by(judge, deciding(verdict))),
                Part::Words("\n"),
            ],
        )?;
    }
    Ok(())
}

#[tactic(auto, unfolding(crate::specs::Parties::super_grant))]
fn push_super(out: &mut Vec<u8>, user: &Principal) -> Result<(), AllocError>
    ensures { OnOk result (out.new.items ≡ out.old.items ++ super_grant user.now) }
{
    push_parts(
        out,
        &[
            Part::Words("  "),
            Part::Name(user.as_str()),
            Part::Words(" yes super\n"),
        ],
    )
}

/// Each super user, to whom all is granted.
pub fn push_supers(out: &mut Vec<u8>, supers: &[Principal]) -> Result<(), AllocError>
    ensures { OnOk result (out.new.items ≡ out.old.items ++ flat_map super_grant supers.now) }
{
    for user in supers {
        push_super(out, user)?;
    }
    Ok(())
}

/// The one name that a right is on.
pub fn target_at(alloc: Global, right: &Right) -> Result<Target, AllocError>
    ensures { IfOk result (λ made. made ≡ target_at right.now) }
{
    let names = Names::Exactly(right.name.copy(alloc)?);
    Ok(Target {
        resource: right.resource,
        names,
    })
}

/// Whether a party is all others, or the other one.
fn speaks_for(one: &Option<Text>, party: &Option<Text>) -> bool
    ensures { result ≡ speaks_for one.now party.now }
{
    match (one, party) {
        (None, _) => true,
        (Some(_), None) => false,
        (Some(one), Some(party)) => one.as_str() == party.as_str(),
    }
}

fn any_yes_for(answers: &[Answer], answer: &Answer) -> bool
    ensures { result ≡ list_any (is_yes_for answer.now) answers.now }
{
    answers.iter().any(|other| {
        other.verdict.is_granted()
            && speaks_for(&other.principal, &answer.principal)
            && speaks_for(&other.host, &answer.host)
    })
}

/// Whether `who` lists one of its answers: a yes, or a no by a deny that takes away what another of
/// them grants. Of the words for all no row speaks, since they ask as all others do.
pub fn is_told(answers: &[Answer], answer: &Answer) -> bool
    ensures { result ≡ is_told answers.now answer.now }
{
    (answer.verdict.is_granted()
        || matches!(answer.verdict, Verdict::DeniedBy(_)) && any_yes_for(answers, answer))
        && !(names_all("User:*", &answer.principal) || names_all("*", &answer.host))
}

#[tactic(auto, using(kob_words::proofs::Appending::appending), unfolding(crate::specs::Review::grant_line))]
fn push_grants<'a>(
    out: &mut Vec<u8>,
    judge: &'a Judge,
    answers: &'a [Answer],
) -> Result<(), AllocError>
    ensures { OnOk result (out.new.items
        ≡ out.old.items ++ told_text judge.now answers.now) }
{
    for answer in answers {
        if is_told(answers, answer) {
            push_parts(
                out,
                &[
                    Part::Words("  "),
                    Part::Party("User:* (others)", &answer.principal),
                    Part::Words(" "),
                    Part::Party("* (others)", &answer.host),
                    Part::Words(" "),
                    Part::Answer(answer.verdict),
                    Part::Origin(origin_by(judge, deciding(answer.verdict))),
                    Part::Words("\n"),
                ],
            )?;
        }
    }
    Ok(())
}

/// Super users, and then each principal and host to which the right is granted, or from which a
/// deny takes it away, and what is remarked below them.
#[tactic(auto, using(kob_words::proofs::Appending::appending, crate::proofs::Remarking::empty_since))]
fn push_who_list(
    alloc: Global,
    out: &mut Vec<u8>,
    judge: &Judge,
    right: &Right,
) -> Result<(), AllocError>
    ensures { OnOk result (out.new.items ≡ out.old.items ++ who_list judge.now right.now) }
{
    let start = out.len();
    let target = target_at(alloc, right)?;
    let found = who(alloc, judge.authorizer(), right.operation, &target)?;
    let supers = each_once(alloc, judge.policy().supers())?;
    push_supers(out, supers.as_slice())?;
    push_grants(out, judge, found.as_slice())?;
    if judge.is_name_taken(right.resource, right.name.as_str()) {
        let is_empty = out.len() == start;
        return push_none(out, is_empty);
    }
    push_no_taker(alloc, out, judge, right)
}

/// Prints who may do this: from every host, or the answer from one host to each principal.
pub fn push_who(
    alloc: Global,
    out: &mut Vec<u8>,
    judge: &Judge,
    right: &Right,
    host: &Option<Host>,
) -> Result<(), AllocError>
    ensures { OnOk result
        (out.new.items ≡ out.old.items ++ who_text judge.now right.now host.now) }
{
    match host {
        Some(host) => {
            let principals = principals_at_hand(alloc, judge.policy().bindings())?;
            push_who_lines(out, judge, right, host, principals.as_slice())?;
            push_taking(alloc, out, judge, right)
        }
        None => push_who_list(alloc, out, judge, right),
    }
}

#[tactic(auto, using(kob_words::proofs::Appending::appending), unfolding(crate::specs::Review::right_line))]
fn push_grants_of(
    alloc: Global,
    out: &mut Vec<u8>,
    judge: &Judge,
    right: &Right,
) -> Result<(), AllocError>
    ensures { OnOk result (out.new.items ≡ out.old.items ++ grants_text judge.now right.now) }
{
    push_parts(
        out,
        &[
            Part::Words("  "),
            Part::Words(operation_name(right.operation)),
            Part::Words(" "),
            Part::Words(resource_name(right.resource)),
            Part::Words(" "),
            Part::Name(right.name.as_str()),
            Part::Words("\n"),
        ],
    )?;
    push_who_list(alloc, out, judge, right)
}

/// Prints who may read a topic, and then who may read as a group, each below the right.
pub fn push_consumers(
    alloc: Global,
    out: &mut Vec<u8>,
    judge: &Judge,
    topic: &Right,
    group: &Right,
) -> Result<(), AllocError>
    ensures { OnOk result
        (out.new.items ≡ out.old.items ++ consumers_text judge.now topic.now group.now) }
{
    push_grants_of(alloc, out, judge, topic)?;
    push_grants_of(alloc, out, judge, group)
}

/// Whether an asker may describe a topic.
pub fn is_seen(judge: &Judge, asker: &Asker, topic: &Text) -> bool
    ensures { result ≡ is_seen judge.now asker.now topic.now }
{
    judge.is_yes(&Asked {
        principal: &asker.principal,
        host: &asker.host,
        operation: Operation::Describe,
        resource: ResourceKind::Topic,
        name: topic.as_str(),
    })
}

fn push_topics(
    out: &mut Vec<u8>,
    judge: &Judge,
    asker: &Asker,
    topics: &[Text],
) -> Result<(), AllocError>
    ensures { OnOk result (out.new.items ≡ out.old.items
        ++ flat_map (seen_text judge.now asker.now) topics.now) }
{
    for topic in topics {
        if is_seen(judge, asker, topic) {
            push_parts(out, &[Part::Words(" "), Part::Name(topic.as_str())])?;
        }
    }
    Ok(())
}

fn push_asked(
    alloc: Global,
    out: &mut Vec<u8>,
    judge: &Judge,
    topics: &[Text],
    asker: &Asker,
) -> Result<(), AllocError>
    ensures { OnOk result (out.new.items ≡ out.old.items
        ++ seen_texts judge.now topics.now asker.now) }
{
    match topics {
        [] => {
            let named = topics_named(alloc, judge.policy().bindings())?.into_vec();
            push_topics(out, judge, asker, named.as_slice())
        }
        _ => push_topics(out, judge, asker, topics),
    }
}

/// Which of the given topics an asker may describe, or of those that bindings name.
#[tactic(auto, using(kob_words::proofs::Appending::appending, crate::proofs::Remarking::empty_since))]
pub fn push_sees(
    alloc: Global,
    out: &mut Vec<u8>,
    judge: &Judge,
    topics: &[Text],
    asker: &Asker,
) -> Result<(), AllocError>
    ensures { OnOk result (out.new.items ≡ out.old.items
        ++ sees_text judge.now topics.now asker.now) }
{
    out.extend_from_slice(b"  topics")?;
    let start = out.len();
    push_asked(alloc, out, judge, topics, asker)?;
    let is_empty = out.len() == start;
    out.extend_from_slice(b"\n")?;
    push_below_line(out, judge, &asker.principal, is_empty)
}
