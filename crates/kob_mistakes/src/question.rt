//! A fault of a question or of a list of bindings, as it is reported to a person.

ghost use Rattle.std.specs.Prelude.{◌≡◌, IfOk, map};
ghost use Rattle.kob_mistakes.specs.Lines.{line_of};
ghost use Rattle.kob_mistakes.specs.Mistakes.{words_in};
ghost use Rattle.kob_mistakes.specs.Quotes.{quoted_words};
ghost use Rattle.kob_script.specs.Words.{raw_words};

use crate::hint::hint_on_question;
use crate::listed::{binding_place, hint_on_list, value_in};
use crate::mistake::Mistake;
use crate::question_form::question_form;
use crate::question_place::{hint_on_missing, is_cut, place_by_name};
use crate::quotes::{each_unquoted, quoted_words, read_each, unread_in};
use crate::rule::rule_at;
use crate::spelling::{nearest, unless_same};
use crate::words::{escape_place, line_at, lines_of, raw_words, word_at};
use bstr::ByteSlice;
use kob_names::Text;
use kob_scene_text::SceneFaultKind;
use kob_script::{FaultKind, LineError};
use std::alloc::{AllocError, Global};

/// What a text has on its lines.
#[derive(Clone, Copy)]
pub enum Lines {
    /// Bindings and settings.
    Bindings,
    Questions,
}

/// The words of questions and of bindings.
static WORDS: [&str; 32] = [
    "may",
    "expect",
    "who",
    "rights",
    "prefix",
    "sees",
    "topic",
    "summary",
    "unused",
    "shadowed",
    "removable",
    "produce",
    "consume",
    "idempotent",
    "transactional",
    "All",
    "Read",
    "Write",
    "Create",
    "Delete",
    "Alter",
    "Describe",
    "ClusterAction",
    "DescribeConfigs",
    "AlterConfigs",
    "IdempotentWrite",
    "Topic",
    "Group",
    "Cluster",
    "TransactionalId",
    "allow",
    "deny",
];

/// What is reported of a fault of this kind on a line of a text, counted from 1.
pub fn line_mistake<'a>(
    alloc: Global,
    text: &'a [u8],
    line: u64,
    kind: FaultKind,
    lines: Lines,
) -> Result<Mistake<'a>, AllocError>
    ensures { IfOk result (λ mistake. map (λ word. word.now) mistake.words.items
        ≡ words_in lines (line_of text.now line)) }
{
    let every = lines_of(alloc, text)?;
    let line = line_at(&every, line);
    match lines {
        Lines::Questions => question_mistake(alloc, text, line, kind),
        Lines::Bindings => binding_mistake(alloc, text, line, kind),
    }
}

fn question_mistake<'a>(
    alloc: Global,
    text: &[u8],
    line: &'a [u8],
    kind: FaultKind,
) -> Result<Mistake<'a>, AllocError>
    ensures { IfOk result (λ mistake. map (λ word. word.now) mistake.words.items
        ≡ quoted_words line.now) }
{
    let words = quoted_words(alloc, line)?;
    let wrong = question_place(alloc, line, &words, kind)?;
    let nearest = nearest_word(alloc, word_at(&words, wrong.place))?;
    let missing = if nearest.is_none() {
        wrong.missing
    } else {
        None
    };
    Ok(Mistake {
        form: question_form(&words),
        hint: hint_on_question(text, line)
            .or(missing)
            .or(rule_of(kind, &words, wrong.place)),
        words,
        place: wrong.place,
        nearest,
        misuse: None,
    })
}

fn binding_mistake<'a>(
    alloc: Global,
    text: &[u8],
    line: &'a [u8],
    kind: FaultKind,
) -> Result<Mistake<'a>, AllocError>
    ensures { IfOk result (λ mistake. map (λ word. word.now) mistake.words.items
        ≡ raw_words line.now) }
{
    let words = raw_words(alloc, line)?;
    let place = binding_place(alloc, line, &words, kind)?;
    let nearest = nearest_word(alloc, value_in(word_at(&words, place)))?;
    Ok(Mistake {
        form: "a line of kafka-acls --list or --add, create-acl or acl of scripts, or a setting",
        hint: hint_on_list(text, &words).or(rule_of(kind, &words, place)),
        words,
        place,
        nearest,
        misuse: None,
    })
}

/// The rule of the word at a place of a question or of a line of a list.
fn rule_of(kind: FaultKind, words: &[&[u8]], place: usize) -> Option<&'static str> {
    match kind {
        FaultKind::BadHost => Some(
            "a host is one address, as 10.0.0.1; * stands in bindings alone",
        ),
        _ => rule_at(SceneFaultKind::Script(kind), words, place),
    }
}

fn nearest_word(alloc: Global, word: &[u8]) -> Result<Option<Text>, AllocError> {
    let Ok(word) = word.to_str() else {
        return Ok(None);
    };
    Ok(unless_same(nearest(alloc, word, &WORDS)?, word))
}

/// Where a name is cut by a blank.
const CUT: &str = "a name with a blank stands in quotes, as \"User:CN=Acme Shop\"";

/// The place of the word of a question that is wrong, the number of words if one is missing, and what
/// is missing there.
#[derive(Clone, Copy)]
struct Wrong {
    place: usize,
    missing: Option<&'static str>,
}

fn wrong_at(place: usize) -> Wrong {
    Wrong {
        place,
        missing: None,
    }
}

fn question_place(
    alloc: Global,
    line: &[u8],
    raw: &[&[u8]],
    kind: FaultKind,
) -> Result<Wrong, AllocError> {
    if let Some(place) = escape_place(alloc, raw)? {
        return Ok(wrong_at(place));
    }
    if unread_in(line).is_some() {
        let unread = raw.iter().position(|word| unread_in(word).is_some());
        return Ok(wrong_at(unread.unwrap_or(raw.len().saturating_sub(1))));
    }
    let texts = each_unquoted(alloc, raw)?;
    match read_each(alloc, &texts) {
        Ok(words) => {
            let place = place_by_name(alloc, &words, kind)?;
            let cut = is_cut(&words, place).then_some(CUT);
            Ok(Wrong {
                place,
                missing: hint_on_missing(&words, place).or(cut),
            })
        }
        Err(LineError::Memory(refused)) => Err(refused),
        Err(LineError::Fault(_)) => Ok(wrong_at(0)),
    }
}
