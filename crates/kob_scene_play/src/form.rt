//! How the answers of a scene are written.

ghost use Rattle.kob_script.specs.Script.{lines_in};
ghost use Rattle.std.specs.Prelude.{◌≡◌, ◌++◌, IfOk, OnOk, [], get_or, ◌-◌};
ghost use Rattle.kob_scene_play.specs.Forms.{head_text, line_at, line_before, shown_by};

use bstr::ByteSlice;
use kob_names::{Bytes, Items};
use std::alloc::{AllocError, Global};

/// How the answers of a scene are written.
#[derive(Clone, Copy, Debug, PartialEq, Eq)]
pub enum Form {
    /// The answers alone.
    Plain,
    /// Each line of the text before its answers, after `> `. Below the answer to a request that is
    /// denied, `> # needs` and the right that is not granted.
    Trace,
    /// An object of JSON for each line of an answer.
    Json,
}

/// The same; for a trace, with the lines of the text.
#[derive(Drop)]
pub enum Shown {
    Plain,
    Trace(Items<Bytes>),
    Json,
}

/// A form, and the line of each step.
#[derive(Clone, Copy)]
pub(crate) struct Showing<'a> {
    pub(crate) shown: &'a Shown,
    pub(crate) lines: &'a [u64],
}

impl Shown {
    /// This form, for the scene of a text. The error is out of memory.
    pub fn of(alloc: Global, form: Form, text: &[u8]) -> Result<Shown, AllocError>
        ensures { IfOk result (λ shown. shown ≡ shown_by form text.now) }
    {
        match form {
            Form::Plain => Ok(Shown::Plain),
            Form::Trace => Ok(Shown::Trace(lines_of(alloc, text)?)),
            Form::Json => Ok(Shown::Json),
        }
    }
}

/// The lines of a text, without their ends.
fn lines_of(alloc: Global, text: &[u8]) -> Result<Items<Bytes>, AllocError>
    ensures { IfOk result (λ lines. lines ≡ lines_in text.now) }
{
    let mut lines = Vec::new(alloc);
    for line in text.lines() {
        lines.push(Bytes::copied(alloc, line)?)?;
    }
    Ok(Items::from_vec(lines))
}

/// The line of the step at a place; 0 if the step has none.
pub(crate) fn line_at(lines: &[u64], place: usize) -> u64
    ensures { result ≡ line_at lines.now place }
{
    match lines.get(place) {
        Some(line) => *line,
        None => 0,
    }
}

fn line_before(lines: &[u64], place: usize) -> u64
    ensures { result ≡ line_before lines.now place }
{
    if place == 0 {
        return 0;
    }
    line_at(lines, place - 1)
}

/// Appends the text of a line before the first of its steps.
#[tactic(auto, using(kob_words::proofs::Appending::appending))]
pub(crate) fn push_head(
    out: &mut Vec<u8>,
    texts: &[Bytes],
    lines: &[u64],
    place: usize,
) -> Result<(), AllocError>
    ensures { OnOk result (out.new.items ≡ out.old.items ++ head_text texts.now lines.now place) }
{
    let line = line_at(lines, place);
    if line == line_before(lines, place) {
        return Ok(());
    }
    out.extend_from_slice(b"> ")?;
    out.extend_from_slice(text_of(texts, line))?;
    out.extend_from_slice(b"\n")
}

/// The text of a line, from 1 on; empty if there is none.
fn text_of(texts: &[Bytes], line: u64) -> &[u8]
    ensures { result.now ≡ get_or texts.now (line - 1) [] }
{
    match texts.get((line as usize).saturating_sub(1)) {
        Some(text) => text.as_slice(),
        None => b"",
    }
}
