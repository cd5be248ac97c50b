//! The form of a question, by its words.

use crate::forms::request_form;
use crate::kinds::{Kind, kind_named};
use crate::words::word_at;
use kob_words::operation_named;

/// The form of a question with these words, as they stand there.
pub(crate) fn question_form(words: &[&[u8]]) -> &'static str {
    let act = word_at(words, 1);
    match kind_named(word_at(words, 0)) {
        Some(Kind::May) => access_form(words, 3),
        Some(Kind::Expect) if word_at(words, 2) == b"may".as_slice() => access_form(words, 5),
        Some(Kind::Who) if act == b"produce".as_slice() => "who produce TOPIC",
        Some(Kind::Who) if act == b"consume".as_slice() => "who consume TOPIC GROUP",
        Some(Kind::Who)
            if is_prefix(act) || is_prefix(word_at(words, 2)) || is_prefix(word_at(words, 3)) => {
            "who OPERATION RESOURCE prefix NAME"
        }
        Some(kind) => kind.form(),
        None => {
            "a question: may, expect, who, rights, sees, topic, summary, unused, shadowed or removable"
        }
    }
}

/// The form behind `may`, by the word at the place of what is asked for.
fn access_form(words: &[&[u8]], place: usize) -> &'static str {
    let act = word_at(words, place);
    if act == b"consume".as_slice() {
        "may PRINCIPAL HOST consume TOPIC GROUP"
    } else if act == b"produce".as_slice()
        && (words.len() < place.saturating_add(4)
            || word_at(words, place.saturating_add(2)) == b"transactional".as_slice())
    {
        "may PRINCIPAL HOST produce TOPIC [idempotent|transactional ID]"
    } else if operation_named(act).is_some() {
        "may PRINCIPAL HOST OPERATION RESOURCE NAME"
    } else {
        request_form(act).unwrap_or(Kind::May.form())
    }
}

fn is_prefix(word: &[u8]) -> bool {
    word == b"prefix".as_slice()
}
