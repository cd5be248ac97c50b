//! A fault of a scene or a script, as it is reported to a person.

ghost use Rattle.std.specs.Prelude.{◌≡◌, ◌++◌, IfOk, OnOk, map, option_map, slice_get};
ghost use Rattle.kob_scene_text.specs.Misuses.{misuse_at};
ghost use Rattle.kob_script.specs.Script.{line_words};
ghost use Rattle.kob_script.specs.Words.{raw_words, words_of};
ghost use Rattle.kob_mistakes.specs.Places.{count_of, is_half};
ghost use Rattle.kob_mistakes.specs.Places.{place_by, place_of};
ghost use Rattle.kob_scene_text.specs.Places.{same_kind};
ghost use Rattle.kob_mistakes.specs.Lines.{line_of, line_where, lines_before};
ghost use Rattle.kob_mistakes.specs.Mistakes.{form_at, hint_at, nearest_on, place_at};
ghost use Rattle.kob_mistakes.specs.Names.{name_on, nearest_at, text_of};
ghost use Rattle.kob_mistakes.specs.Names.{worker_names};
ghost use Rattle.kob_mistakes.specs.Forms.{form_by};

use crate::forms::{LAW_FORM, form_of, keyword_form};
use crate::hint::hint_on;
use crate::left_out::left_out;
use crate::names::push_names;
use crate::place::word_place;
use crate::record::{before_ending, hint_on_record, word_is};
use crate::rule::rule_at;
use crate::spelling::{nearest, unless_same};
use crate::words::{as_text, escape_place, line_at, lines_before, lines_of, raw_words, word_at};
use crate::worker::{WorkerKind, declared_by, kind_named, stepping_at};
use kob_names::Text;
use kob_scene_text::{Misuse, SceneFault, SceneFaultKind, misuse_at};
use kob_script::{FaultKind, LineError, words_of};
use std::alloc::{AllocError, Global};

/// A fault with its line.
#[derive(Drop)]
pub struct Mistake<'a> {
    /// The words of the line, as they are written in it.
    pub words: Vec<&'a [u8]>,
    /// The place of the word that is wrong, from 0; the number of words if one is missing.
    pub place: usize,
    /// The form of such a line.
    pub form: &'static str,
    /// The nearest word that exists, if the word is misspelt.
    pub nearest: Option<Text>,
    /// What the word is, if its line means it otherwise.
    pub misuse: Option<Misuse>,
    pub hint: Option<&'static str>,
}

/// What is reported of a fault of a text.
pub fn mistake_in<'a>(
    alloc: Global,
    text: &'a [u8],
    fault: SceneFault,
) -> Result<Mistake<'a>, AllocError>
    ensures words { IfOk result (λ mistake. map (λ word. word.now) mistake.words.items
        ≡ raw_words (line_of text.now fault.line)) }
    ensures place { IfOk result (λ mistake. mistake.place
        ≡ place_at text.now fault.line fault.kind) }
    ensures hint { IfOk result (λ mistake. option_map (λ hint. hint.now) mistake.hint
        ≡ hint_at text.now fault.line fault.kind) }
    ensures form { IfOk result (λ mistake. mistake.form.now
        ≡ form_at text.now fault.line fault.kind mistake.place) }
    ensures nearest { IfOk result (λ mistake. mistake.nearest
        ≡ nearest_on text.now fault.line fault.kind mistake.place) }
    ensures misuse { IfOk result (λ mistake. mistake.misuse
        ≡ misuse_at (lines_before text.now fault.line)
        (line_words (line_of text.now fault.line)) fault.kind mistake.place) }
{
    let lines = lines_of(alloc, text)?;
    let line = line_at(&lines, fault.line);
    let before = lines_before(&lines, fault.line);
    let words = raw_words(alloc, line)?;
    let fault_at = place_of(alloc, before, line, &words, fault.kind)?;
    let left_out = left_out(line, &words, fault_at);
    let place = match left_out {
        Some(left_out) => left_out.place(fault_at),
        None => before_ending(&words, fault_at),
    };
    let stepping = stepping_at(alloc, before, &words, place)?;
    let nearest = nearest_at(alloc, &lines, &words, place, fault.kind, stepping)?;
    let misuse = misuse_in(alloc, before, line, place, fault.kind)?;
    let hint = match left_out {
        Some(left_out) => Some(left_out.hint()),
        None => hint_on_record(&words, place).or(hint_on(text, line, words.len())),
    };
    Ok(Mistake {
        form: form_by(fault.kind, &words, stepping),
        hint: hint.or(rule_at(fault.kind, &words, place)),
        misuse,
        words,
        place,
        nearest,
    })
}

/// What the word at a place is, if its line means it otherwise.
fn misuse_in(
    alloc: Global,
    before: &[&[u8]],
    line: &[u8],
    place: usize,
    kind: SceneFaultKind,
) -> Result<Option<Misuse>, AllocError>
    ensures { IfOk result (λ misuse. misuse
        ≡ misuse_at (map (λ line. line.now) before.now) (line_words line.now) kind place) }
{
    match words_of(alloc, line) {
        Ok(words) => misuse_at(alloc, before, &words, kind, place),
        Err(LineError::Memory(refused)) => Err(refused),
        Err(LineError::Fault(_)) => Ok(None),
    }
}

/// The form of a line with a fault of this kind. Of a law that does not speak of a worker it says of
/// which workers it does.
#[tactic(auto, unfolding(crate::specs::Forms::law_form))]
fn form_by(kind: SceneFaultKind, words: &[&[u8]], stepping: Option<WorkerKind>) -> &'static str
    ensures { result.now ≡ form_by kind stepping (map (λ word. word.now) words.now) }
{
    match kind {
        SceneFaultKind::NoLaw => LAW_FORM,
        _ => form_of(words, stepping),
    }
}

#[tactic(auto, using(crate::proofs::Walking::lent_length))]
fn place_of(
    alloc: Global,
    before: &[&[u8]],
    line: &[u8],
    raw: &[&[u8]],
    kind: SceneFaultKind,
) -> Result<usize, AllocError>
    requires { map (λ word. word.now) raw.now ≡ raw_words line.now }
    ensures { IfOk result (λ place.
        place ≡ place_of (map (λ line. line.now) before.now) line.now kind) }
{
    if let Some(place) = escape_place(alloc, raw)? {
        return Ok(place);
    }
    if line.starts_with(b"\xef\xbb\xbf") {
        return Ok(0);
    }
    // (a blank in JSON or in a quoted text cuts a word of a record in two: its first half is named,
    // and not the word that is one too many)
    if is_bad_line(kind) && word_is(raw, 1, b"record") && raw.len() > 10 {
        if let Some(place) = first_half(raw) {
            return Ok(place);
        }
    }
    place_by(alloc, before, line, raw, kind)
}

fn place_by(
    alloc: Global,
    before: &[&[u8]],
    line: &[u8],
    raw: &[&[u8]],
    kind: SceneFaultKind,
) -> Result<usize, AllocError>
    ensures { IfOk result (λ place. place ≡ place_by (map (λ line. line.now) before.now)
        (map (λ word. word.now) raw.now) kind (words_of line.now)) }
{
    match words_of(alloc, line) {
        Ok(words) => {
            // (such a line may begin with no word of its own, no principal, and no worker)
            let first = word_at(raw, 0);
            if is_bad_line(kind) && keyword_form(first).is_none() && !first.contains(&b':') {
                let worker = kind_named(alloc, before, first)?;
                if worker.is_none() {
                    return Ok(0);
                }
            }
            word_place(alloc, before, &words, kind)
        }
        Err(LineError::Memory(refused)) => Err(refused),
        Err(LineError::Fault(_)) => Ok(0),
    }
}

fn is_bad_line(kind: SceneFaultKind) -> bool
    ensures { result ≡ same_kind kind (SceneFaultKind.Script FaultKind.BadLine) }
{
    match kind {
        SceneFaultKind::Script(FaultKind::BadLine) => true,
        _ => false,
    }
}

#[tactic(auto, using(crate::proofs::Walking::goes_on, crate::proofs::Walking::stops, crate::proofs::Walking::ends))]
fn first_half(words: &[&[u8]]) -> Option<usize>
    ensures { result ≡ line_where is_half 0 (map (λ word. word.now) words.now) }
{
    let mut place: usize = 0;
    for word in words {
        if count_of(b'{', word) != count_of(b'}', word) || count_of(b'"', word) % 2 == 1 {
            return Some(place);
        }
        place += 1;
    }
    None
}

fn count_of(sign: u8, word: &[u8]) -> usize
    ensures { result ≡ count_of sign word.now }
{
    word.iter().filter(|byte| **byte == sign).count()
}

/// The name nearest to a word: of the workers of the text, or of the words of such lines.
fn nearest_at(
    alloc: Global,
    lines: &[&[u8]],
    words: &[&[u8]],
    place: usize,
    kind: SceneFaultKind,
    stepping: Option<WorkerKind>,
) -> Result<Option<Text>, AllocError>
    ensures { IfOk result (λ name. name ≡ nearest_at (map (λ line. line.now) lines.now) stepping
        (map (λ word. word.now) words.now) kind place) }
{
    let Some(word) = text_at(words, place) else {
        return Ok(None);
    };
    let mut names = Vec::new(alloc);
    if place == 0 || is_unknown_worker(kind) {
        push_declared(alloc, &mut names, lines)?;
    }
    if !is_unknown_worker(kind) {
        push_names(&mut names, words, place, stepping)?;
    }
    Ok(unless_same(nearest(alloc, word, &names)?, word))
}

/// The word at a place, if it is a text.
#[tactic(auto, using(crate::proofs::Walking::lent_at))]
fn text_at<'a>(words: &[&'a [u8]], place: usize) -> Option<&'a str>
    ensures { option_map (λ text. text.now) result
        ≡ text_of (slice_get (map (λ word. word.now) words.now) place) }
{
    match words.get(place) {
        Some(word) => as_text(word),
        None => None,
    }
}

fn is_unknown_worker(kind: SceneFaultKind) -> bool
    ensures { result ≡ same_kind kind SceneFaultKind.UnknownWorker }
{
    match kind {
        SceneFaultKind::UnknownWorker => true,
        _ => false,
    }
}

/// Appends the names of the workers that lines declare.
fn push_declared<'a>(
    alloc: Global,
    names: &mut Vec<&'a str>,
    lines: &[&'a [u8]],
) -> Result<(), AllocError>
    ensures { OnOk result (map (λ name. name.now) names.new.items
        ≡ map (λ name. name.now) names.old.items ++ worker_names (map (λ line. line.now) lines.now)) }
{
    for line in lines {
        let words = raw_words(alloc, line)?;
        if declared_by(word_at(&words, 0)).is_some() {
            if let Some(name) = text_at(&words, 1) {
                names.push(name)?;
            }
        }
    }
    Ok(())
}
