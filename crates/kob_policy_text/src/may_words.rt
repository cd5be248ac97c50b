//! What the words after `may` ask.

ghost use Rattle.std.specs.Prelude.{◌≡◌};
ghost use Rattle.kob_policy_text.specs.Questions.{may_consume, may_produce};
ghost use Rattle.kob_policy_text.specs.Questions.{may_request};
ghost use Rattle.kob_policy_text.specs.Questions.{may_words};
ghost use Rattle.kob_policy_text.specs.Questions.{may_by, may_six};
ghost use Rattle.kob_script.specs.Words.{Gives};

use crate::lines::only_event;
use crate::listing::known_operation;
use crate::question::{Access, Act, Asker};
use crate::question_words::{asker_of, is_word, right_of, two_texts};
use kob_names::{Batch, Items, PlainValue};
use kob_rights::{OffsetCommit, Produce, Request};
use kob_script::{FaultKind, LineError, Word, events_of, text_of};
use std::alloc::Global;

#[tactic(auto, unfolding(crate::specs::Questions::may_produce))]
fn may_produce(
    alloc: Global,
    principal: &Word<'_>,
    host: &Word<'_>,
    topic: &Word<'_>,
) -> Result<Access, LineError>
    ensures { Gives result (may_produce principal.now host.now topic.now) }
{
    let asker = asker_of(alloc, principal, host)?;
    let topic = text_of(alloc, topic)?;
    let records = Items::from_vec(Vec::new(alloc));
    Ok(Access {
        asker,
        act: Act::Request(Request::Produce(Produce {
            topic,
            partition: 0,
            batch: Batch {
                idem: None,
                records,
            },
        })),
    })
}

#[tactic(auto, unfolding(crate::specs::Questions::may_consume))]
fn may_consume(
    alloc: Global,
    principal: &Word<'_>,
    host: &Word<'_>,
    topic: &Word<'_>,
    group: &Word<'_>,
) -> Result<Access, LineError>
    ensures { Gives result (may_consume principal.now host.now topic.now group.now) }
{
    let asker = asker_of(alloc, principal, host)?;
    let (topic, group) = two_texts(alloc, topic, group)?;
    Ok(Access {
        asker,
        act: Act::Request(Request::OffsetCommit(OffsetCommit {
            group,
            topic,
            partition: 0,
            offset: 0,
        })),
    })
}

/// A request as a script has it, unless it is said to come from `*`; `acl` is not one.
#[tactic(auto, unfolding(crate::specs::Questions::may_request))]
fn may_request(alloc: Global, words: &[Word<'_>]) -> Result<Access, LineError>
    ensures { Gives result (may_request words.now) }
{
    let Some(event) = only_event(events_of(alloc, words, &None)?) else {
        return Err(LineError::Fault(FaultKind::BadLine));
    };
    if event.host.as_str() == "*" {
        return Err(LineError::Fault(FaultKind::BadHost));
    }
    Ok(Access {
        asker: Asker {
            principal: event.principal.copy(alloc)?,
            host: event.host.copy(alloc)?,
        },
        act: Act::Request(event.into_request()),
    })
}

#[tactic(auto, unfolding(crate::specs::Questions::may_by, crate::specs::Questions::may_right, crate::specs::Questions::may_repeat))]
fn may_by(
    alloc: Global,
    words: &[Word<'_>],
    principal: &Word<'_>,
    host: &Word<'_>,
    command: &Word<'_>,
    one: &Word<'_>,
    other: &Word<'_>,
) -> Result<Access, LineError>
    ensures { Gives result
        (may_by words.now principal.now host.now command.now one.now other.now) }
{
    if known_operation(command.decoded()).is_some() {
        let asker = asker_of(alloc, principal, host)?;
        let act = Act::Right(right_of(alloc, command, one, other)?);
        Ok(Access { asker, act })
    } else if is_word(command, b"consume") {
        may_consume(alloc, principal, host, one, other)
    } else if !is_word(command, b"produce") {
        may_request(alloc, words)
    } else if is_word(other, b"idempotent") {
        let asker = asker_of(alloc, principal, host)?;
        let act = Act::Idempotent(text_of(alloc, one)?);
        Ok(Access { asker, act })
    } else {
        Err(LineError::Fault(FaultKind::BadLine))
    }
}

#[tactic(auto, unfolding(crate::specs::Questions::may_six, crate::specs::Questions::may_transact))]
fn may_six(
    alloc: Global,
    words: &[Word<'_>],
    principal: &Word<'_>,
    host: &Word<'_>,
    command: &Word<'_>,
    topic: &Word<'_>,
    how: &Word<'_>,
    id: &Word<'_>,
) -> Result<Access, LineError>
    ensures { Gives result
        (may_six words.now principal.now host.now command.now topic.now how.now id.now) }
{
    if is_word(command, b"produce") && is_word(how, b"transactional") {
        let asker = asker_of(alloc, principal, host)?;
        let (name, transaction) = two_texts(alloc, topic, id)?;
        Ok(Access {
            asker,
            act: Act::Transactional(name, transaction),
        })
    } else {
        may_request(alloc, words)
    }
}

pub fn may_words(alloc: Global, words: &[Word<'_>]) -> Result<Access, LineError>
    ensures { Gives result (may_words words.now) }
{
    match words {
        [principal, host, command, topic] if is_word(command, b"produce") => {
            may_produce(alloc, principal, host, topic)
        }
        [principal, host, command, one, other] => {
            may_by(alloc, words, principal, host, command, one, other)
        }
        [principal, host, command, topic, how, id] => {
            may_six(alloc, words, principal, host, command, topic, how, id)
        }
        _ => may_request(alloc, words),
    }
}
