//! What the words of a question ask.

ghost use Rattle.std.specs.Prelude.{◌≡◌};
ghost use Rattle.kob_policy_text.specs.Questions.{asker_of, expect_words};
ghost use Rattle.kob_policy_text.specs.Questions.{host_in, is_word};
ghost use Rattle.kob_policy_text.specs.Questions.{question_by, right_of};
ghost use Rattle.kob_policy_text.specs.Questions.{rights_words};
ghost use Rattle.kob_policy_text.specs.Questions.{two_texts};
ghost use Rattle.kob_script.specs.Words.{Gives};

use crate::listing::{known, known_operation, known_resource};
use crate::may_words::may_words;
use crate::question::{Asker, Question, Right};
use crate::who_words::who_words;
use kob_names::{Host, ResourceKind, Text};
use kob_script::{FaultKind, LineError, Word, host_of, lent_text_of, principal_of, text_of};
use std::alloc::Global;

/// Whether the word is a text.
pub fn is_word(word: &Word<'_>, text: &[u8]) -> bool
    ensures { result ≡ is_word word.now text.now }
{
    word.decoded() == text
}

/// A host that asks, and so not `*`, which stands for all hosts in a binding.
#[tactic(auto, unfolding(crate::specs::Questions::host_in))]
pub fn host_in(alloc: Global, word: &Word<'_>) -> Result<Host, LineError>
    ensures { Gives result (host_in word.now) }
{
    let text = lent_text_of(word)?;
    if text == "*" {
        return Err(LineError::Fault(FaultKind::BadHost));
    }
    host_of(alloc, text)
}

#[tactic(auto, unfolding(crate::specs::Questions::asker_of))]
pub fn asker_of(alloc: Global, principal: &Word<'_>, host: &Word<'_>) -> Result<Asker, LineError>
    ensures { Gives result (asker_of principal.now host.now) }
{
    let text = lent_text_of(principal)?;
    let principal = principal_of(alloc, text)?;
    let host = host_in(alloc, host)?;
    Ok(Asker { principal, host })
}

/// The texts of two words.
#[tactic(auto, unfolding(crate::specs::Questions::two_texts))]
pub fn two_texts(alloc: Global, one: &Word<'_>, other: &Word<'_>) -> Result<(Text, Text), LineError>
    ensures { Gives result (two_texts one.now other.now) }
{
    let first = text_of(alloc, one)?;
    let second = text_of(alloc, other)?;
    Ok((first, second))
}

/// The right; the name of the cluster may be `cluster`.
#[tactic(auto, unfolding(crate::specs::Questions::right_of))]
pub fn right_of(
    alloc: Global,
    operation: &Word<'_>,
    resource: &Word<'_>,
    name: &Word<'_>,
) -> Result<Right, LineError>
    ensures { Gives result (right_of operation.now resource.now name.now) }
{
    let operation = known(known_operation(operation.decoded()))?;
    let resource = known(known_resource(resource.decoded()))?;
    let text = lent_text_of(name)?;
    let name = if resource == ResourceKind::Cluster && text == "cluster" {
        "kafka-cluster"
    } else {
        text
    };
    Ok(Right {
        operation,
        resource,
        name: Text::copied(alloc, name)?,
    })
}

#[tactic(auto, unfolding(crate::specs::Questions::expects))]
fn expect_words(alloc: Global, words: &[Word<'_>]) -> Result<Question, LineError>
    ensures { Gives result (expect_words words.now) }
{
    match words {
        [answer, may, arguments @ ..] if is_word(may, b"may") => {
            let expected = if is_word(answer, b"yes") {
                true
            } else if is_word(answer, b"no") {
                false
            } else {
                return Err(LineError::Fault(FaultKind::BadWord));
            };
            Ok(Question::Expect(expected, may_words(alloc, arguments)?))
        }
        _ => Err(LineError::Fault(FaultKind::BadLine)),
    }
}

fn rights_words(alloc: Global, words: &[Word<'_>]) -> Result<Question, LineError>
    ensures { Gives result (rights_words words.now) }
{
    match words {
        [principal] => {
            let text = lent_text_of(principal)?;
            Ok(Question::Rights(principal_of(alloc, text)?, None))
        }
        [principal, host] => {
            let Asker { principal, host } = asker_of(alloc, principal, host)?;
            Ok(Question::Rights(principal, Some(host)))
        }
        _ => Err(LineError::Fault(FaultKind::BadLine)),
    }
}

/// The question that words ask.
#[tactic(auto, unfolding(crate::specs::Questions::question_by))]
pub fn question_by(
    alloc: Global,
    first: &Word<'_>,
    words: &[Word<'_>],
) -> Result<Question, LineError>
    ensures { Gives result (question_by first.now words.now) }
{
    if is_word(first, b"may") {
        Ok(Question::May(may_words(alloc, words)?))
    } else if is_word(first, b"expect") {
        expect_words(alloc, words)
    } else if is_word(first, b"who") {
        who_words(alloc, words)
    } else if is_word(first, b"rights") {
        rights_words(alloc, words)
    } else if is_word(first, b"sees") {
        match words {
            [principal, host] => Ok(Question::Sees(asker_of(alloc, principal, host)?)),
            _ => Err(LineError::Fault(FaultKind::BadLine)),
        }
    } else {
        match words {
            [] if is_word(first, b"summary") => Ok(Question::Summary),
            [] if is_word(first, b"unused") => Ok(Question::Unused),
            [] if is_word(first, b"shadowed") => Ok(Question::Shadowed),
            [] if is_word(first, b"removable") => Ok(Question::Removable),
            _ => Err(LineError::Fault(FaultKind::BadLine)),
        }
    }
}
