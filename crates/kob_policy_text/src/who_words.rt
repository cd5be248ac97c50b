//! What the words after `who` ask.

ghost use Rattle.std.specs.Prelude.{◌≡◌};
ghost use Rattle.kob_policy_text.specs.Questions.{right_to_read};
ghost use Rattle.kob_policy_text.specs.Questions.{who_words};
ghost use Rattle.kob_script.specs.Words.{Gives};

use crate::question::{Question, Right};
use crate::question_words::{host_in, is_word, right_of, two_texts};
use kob_names::{Operation, ResourceKind, Text};
use kob_script::{FaultKind, LineError, Word, text_of};
use std::alloc::Global;

fn read_of(resource: ResourceKind, name: Text) -> Right
    ensures { result ≡ right_to_read resource name }
{
    Right {
        operation: Operation::Read,
        resource,
        name,
    }
}

/// The question that the words after `who` ask.
pub fn who_words(alloc: Global, words: &[Word<'_>]) -> Result<Question, LineError>
    ensures { Gives result (who_words words.now) }
{
    match words {
        [command, topic] if is_word(command, b"produce") => {
            let right = Right {
                operation: Operation::Write,
                resource: ResourceKind::Topic,
                name: text_of(alloc, topic)?,
            };
            Ok(Question::Who(right, None))
        }
        [command, topic, group] if is_word(command, b"consume") => {
            let (topic, group) = two_texts(alloc, topic, group)?;
            let read = read_of(ResourceKind::Topic, topic);
            let joined = read_of(ResourceKind::Group, group);
            Ok(Question::WhoConsumes(read, joined))
        }
        [operation, resource, name] => {
            let right = right_of(alloc, operation, resource, name)?;
            Ok(Question::Who(right, None))
        }
        [operation, resource, prefix, name] if is_word(prefix, b"prefix") => {
            let right = right_of(alloc, operation, resource, name)?;
            if right.resource == ResourceKind::Cluster {
                return Err(LineError::Fault(FaultKind::BadWord));
            }
            Ok(Question::WhoBelow(right))
        }
        [operation, resource, name, host] => {
            let right = right_of(alloc, operation, resource, name)?;
            let host = host_in(alloc, host)?;
            Ok(Question::Who(right, Some(host)))
        }
        _ => Err(LineError::Fault(FaultKind::BadLine)),
    }
}
