//! Names of topics.

ghost use Rattle.std.specs.Prelude.{◌≡◌, IfOk, None, not};
ghost use Rattle.std.specs.List.{position};
ghost use Rattle.kob_names.specs.TextRules.{OkUnlessFault, topic_fault, is_topic_byte};

use crate::limits::TOPIC_NAME_LIMIT;
use crate::plain_value::PlainValue;
use crate::text::Text;
use std::alloc::{AllocError, Global};
use std::marker::Model;
use thiserror::Error;

/// The name of a topic.
#[derive(Debug, PartialEq, Eq, Drop)]
pub struct TopicName {
    text: Text,
}

impl Model for TopicName {
    ghost use Rattle.std.specs.Prelude.{◌≡◌, List, ℕ, None};
    ghost use Rattle.kob_names.specs.TextRules.{topic_fault};

    ghost Value = { List ℕ };

    ghost view = { λ name. name.text };

    ghost invariant = { λ name. topic_fault name.text ≡ None };

    ghost inverse = { λ text. record { text = text } };
}

/// Why a text is not a valid topic name.
#[derive(Clone, Copy, Debug, PartialEq, Eq, Error)]
pub enum TopicNameFault {
    #[error("the topic name is empty")]
    Empty,
    #[error("the topic name is `.` or `..`")]
    Dots,
    #[error("the topic name is too long")]
    TooLong,
    #[error("the topic name has an invalid byte at {0}")]
    BadByte(usize),
    #[error("out of memory")]
    Memory(AllocError),
}

impl TopicName {
    /// Reads a topic's name by Kafka's rules: 1 to 249 bytes of ASCII letters, digits, `.`, `_` and
    /// `-`, and not `.` or `..`. The first fault is returned, in the order `Empty`, `Dots`,
    /// `TooLong`, `BadByte` with the place of the first bad byte (from 0), `Memory`.
    pub fn parse(alloc: Global, text: &str) -> Result<TopicName, TopicNameFault>
        ensures { OkUnlessFault (topic_fault text.now) TopicNameFault.Memory text.now result }
    {
        if let Some(fault) = TopicNameFault::of(text) {
            return Err(fault);
        }
        let text = Text::copied(alloc, text).map_err(TopicNameFault::Memory)?;
        Ok(TopicName { text })
    }

    /// The name as text. Does not allocate.
    pub fn as_str(&self) -> &str
        ensures text { result.now ≡ self.now }
        ensures valid { topic_fault self.now ≡ None }
    {
        self.text.as_str()
    }

    /// The name's text. Does not allocate.
    pub fn as_text(&self) -> &Text
        ensures { result.now ≡ self.now }
    {
        &self.text
    }

    /// Returns the name's text, by value. Does not allocate.
    pub fn into_text(self) -> Text
        ensures { result ≡ self }
    {
        self.text
    }
}

impl TopicNameFault {
    /// The first rule of topic names that the text breaks, if it breaks one. Does not allocate.
    pub fn of(text: &str) -> Option<TopicNameFault>
        ensures { result ≡ topic_fault text.now }
    {
        if text.is_empty() {
            Some(TopicNameFault::Empty)
        } else if text == "." || text == ".." {
            Some(TopicNameFault::Dots)
        } else if text.len() > TOPIC_NAME_LIMIT {
            Some(TopicNameFault::TooLong)
        } else {
            bad_byte(text).map(TopicNameFault::BadByte)
        }
    }
}

impl PlainValue for TopicName {
    fn copy(&self, alloc: Global) -> Result<Self, AllocError> {
        let text = self.text.copy(alloc)?;
        Ok(TopicName { text })
    }

    fn same(&self, other: &Self) -> bool {
        self.text.same(&other.text)
    }
}

/// The place of the first byte that no topic name may have.
fn bad_byte(text: &str) -> Option<usize>
    ensures { result ≡ position (λ byte. not (is_topic_byte byte)) text.now }
{
    text.as_bytes()
        .iter()
        .position(|byte| !is_topic_name_byte(*byte))
}

fn is_topic_name_byte(byte: u8) -> bool
    ensures { result ≡ is_topic_byte byte }
{
    byte.is_ascii_alphanumeric() || byte == b'.' || byte == b'_' || byte == b'-'
}
