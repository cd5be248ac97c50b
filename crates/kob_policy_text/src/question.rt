//! Questions, a line each.

ghost use Rattle.std.specs.Prelude.{◌≡◌, [], false, true};
ghost use Rattle.kob_policy_text.specs.Policy.{IsRead};
ghost use Rattle.kob_policy_text.specs.Questions.{has_quotes, topic_words};
ghost use Rattle.kob_policy_text.specs.Questions.{with_line, with_lines};
ghost use Rattle.kob_policy_text.specs.Questions.{with_questions, with_topics};
ghost use Rattle.kob_policy_text.specs.Questions.{with_words};
ghost use Rattle.kob_policy_text.specs.Questions.{or_bad_line};
ghost use Rattle.kob_policy_text.specs.Shell as shells;
ghost use Rattle.kob_script.specs.Words.{GivesSeen, each, word_of};

use crate::pieces::trimmed;
use crate::question_words::{is_word, question_by};
use crate::reading::fault_at;
use crate::shell::shell_words;
use bstr::ByteSlice;
use kob_names::{Bytes, Host, Operation, Principal, ResourceKind, Text};
use kob_rights::Request;
use kob_script::{FaultKind, LineError, ScriptError, Word, text_of, words_of};
use std::alloc::Global;
use std::marker::Model;

/// Who asks and from where.
#[derive(Drop)]
pub struct Asker {
    pub principal: Principal,
    pub host: Host,
}

/// An operation on a resource, by its name.
#[derive(Drop)]
pub struct Right {
    pub operation: Operation,
    pub resource: ResourceKind,
    pub name: Text,
}

/// What is done, by the rights that it needs.
#[derive(Drop)]
pub enum Act {
    /// An operation on a resource.
    Right(Right),
    /// A request, with the rights of its row of the operation table.
    Request(Request),
    /// An idempotent producer writes to a topic.
    Idempotent(Text),
    /// A producer writes to a topic in transactions of an id, the second text.
    Transactional(Text, Text),
}

/// What a principal asks to do from a host.
#[derive(Drop)]
pub struct Access {
    pub asker: Asker,
    pub act: Act,
}

/// A question.
#[derive(Drop)]
pub enum Question {
    /// Is this granted?
    May(Access),
    /// Is the answer to this yes, or no, as it is expected to be?
    Expect(bool, Access),
    /// Who may do this, from this host, or from one that no binding names?
    Who(Right, Option<Host>),
    /// Who may read this topic, and who may read as this group?
    WhoConsumes(Right, Right),
    /// Who may do this on all names, or on some, that begin with the name of the right?
    WhoBelow(Right),
    /// What is granted to this principal, from this host, or from each that counts?
    Rights(Principal, Option<Host>),
    /// Which topics may this principal describe?
    Sees(Asker),
    /// How many are there of what the policy has?
    Summary,
    /// Which bindings does no other need?
    Unused,
    /// Which allows does a deny always beat?
    Shadowed,
    /// Which bindings may be deleted together?
    Removable,
}

/// A question beside its text, which has no white space at its ends.
#[derive(Drop)]
pub struct Query {
    pub text: Bytes,
    pub question: Question,
}

/// The given names of topics, and the questions in order.
#[derive(Drop)]
pub struct Questions {
    topics: Vec<Text>,
    asked: Vec<Query>,
}

impl Model for Questions {
    ghost use Rattle.kob_policy_text.specs.Questions as seen;

    ghost Value = { seen.Questions };

    ghost view = { λ questions. record {
      topics = questions.topics.items;
      asked = questions.asked.items;
    } };
}

impl Questions {
    /// No topics and no questions. Does not allocate.
    pub fn new(alloc: Global) -> Questions
        ensures topics { result.topics ≡ [] }
        ensures asked { result.asked ≡ [] }
    {
        Questions {
            topics: Vec::new(alloc),
            asked: Vec::new(alloc),
        }
    }

    /// The given names of topics.
    pub fn topics(&self) -> &[Text]
        ensures { result.now ≡ self.now.topics }
    {
        self.topics.as_slice()
    }

    /// The questions, in their order.
    pub fn asked(&self) -> &[Query]
        ensures { result.now ≡ self.now.asked }
    {
        self.asked.as_slice()
    }

    fn add_topic(&mut self, alloc: Global, words: &[Word<'_>]) -> Result<(), LineError>
        ensures { GivesSeen (λ _. self.new) result (topic_words self.old words.now) }
    {
        match words {
            [name] => {
                self.topics.push(text_of(alloc, name)?)?;
                Ok(())
            }
            _ => Err(LineError::Fault(FaultKind::BadLine)),
        }
    }

    fn add_words(
        &mut self,
        alloc: Global,
        line: &[u8],
        words: &[Word<'_>],
        are_names: bool,
    ) -> Result<(), LineError>
        ensures { GivesSeen (λ _. self.new) result
            (with_words are_names line.now self.old words.now) }
    {
        match words {
            [] => Ok(()),
            _ if are_names => self.add_topic(alloc, words),
            [first, arguments @ ..] if is_word(first, b"topic") => {
                self.add_topic(alloc, arguments)
            }
            [first, arguments @ ..] => {
                let text = Bytes::copied(alloc, trimmed(line))?;
                let question = question_by(alloc, first, arguments)?;
                Ok(self.asked.push(Query { text, question })?)
            }
        }
    }

    /// A line with quotes is cut as a shell cuts it, if it has words.
    #[tactic(auto, unfolding(crate::specs::Questions::with_line, crate::specs::Questions::unquoted_words))]
    fn add_line(&mut self, alloc: Global, line: &[u8], are_names: bool) -> Result<(), LineError>
        ensures { GivesSeen (λ _. self.new) result
            (with_line are_names self.old line.now) }
    {
        let words = words_of(alloc, line)?;
        if !has_quotes(line) {
            return self.add_words(alloc, line, &words, are_names);
        }
        match words.as_slice() {
            [] => Ok(()),
            [_, ..] => {
                let texts = texts_of(alloc, line)?;
                let words = each_word(alloc, texts.as_slice())?;
                self.add_words(alloc, line, &words, are_names)
            }
        }
    }
}

fn has_quotes(line: &[u8]) -> bool
    ensures { result ≡ has_quotes line.now }
{
    line.iter()
        .any(|byte| *byte == b'"' || *byte == b'\'' || *byte == b'\\')
}

fn each_word(alloc: Global, texts: &[Bytes]) -> Result<Vec<Word<'_>>, LineError>
    ensures { GivesSeen (λ words. words.items) result (each word_of texts.entry.now) }
{
    let mut words = Vec::with_capacity(alloc, texts.len())?;
    for text in texts {
        let word = Word::read(alloc, text.as_slice())?;
        words.push(word)?;
    }
    Ok(words)
}

/// The words of a line as a shell cuts it.
fn texts_of(alloc: Global, line: &[u8]) -> Result<Vec<Bytes>, LineError>
    ensures { GivesSeen (λ texts. texts.items) result (or_bad_line (shells.shell_words line.now)) }
{
    match shell_words(alloc, line) {
        Err(LineError::Fault(_)) => Err(LineError::Fault(FaultKind::BadLine)),
        read => read,
    }
}

/// Reads lines of names or of questions.
fn read_lines(
    alloc: Global,
    questions: &mut Questions,
    text: &[u8],
    are_names: bool,
) -> Result<(), ScriptError>
    ensures { IsRead result questions.new
        (λ read. read ≡ with_lines are_names questions.old text.now) }
{
    let mut number: u64 = 0;
    for line in text.lines() {
        number += 1;
        match questions.add_line(alloc, line, are_names) {
            Ok(()) => {}
            Err(error) => return Err(fault_at(error, number)),
        }
    }
    Ok(())
}

/// Reads questions, a line each, after those that were read before: `may`, `expect`, `who`,
/// `rights`, `sees`, `summary`, `unused`, `shadowed` and `removable`, and `topic` with a name that
/// is given. Quotes and backslashes are read as a POSIX shell reads them, and then `%` and two
/// hexadecimal digits as a byte. The error is the first line with a fault, or out of memory:
/// `BadLine` is also a quote that does not end, or a dollar or a backquote outside single quotes on
/// a line that has quotes.
pub fn read_questions(
    alloc: Global,
    questions: &mut Questions,
    text: &[u8],
) -> Result<(), ScriptError>
    ensures { IsRead result questions.new (λ read. read ≡ with_questions questions.old text.now) }
{
    read_lines(alloc, questions, text, false)
}

/// Reads names of topics, one on a line.
pub fn read_topics(alloc: Global, questions: &mut Questions, text: &[u8]) -> Result<(), ScriptError>
    ensures { IsRead result questions.new (λ read. read ≡ with_topics questions.old text.now) }
{
    read_lines(alloc, questions, text, true)
}
