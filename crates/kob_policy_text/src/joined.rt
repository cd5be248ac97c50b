//! The lines of a text with their numbers, and commands that go on over several lines.

ghost use Rattle.std.specs.Prelude.{◌≡◌, ◌++◌, IfOk};
ghost use Rattle.kob_policy_text.specs.Joined.{is_continued, joined, joined_lines};
ghost use Rattle.kob_policy_text.specs.Joined.{quoting_after, without_last};
ghost use Rattle.kob_script.specs.Script.{lines_in};
ghost use Rattle.std.specs.Option.{option_to_list};

use crate::pieces::trimmed;
use crate::shell::{Quoting, quoting_after};
use crate::tool::tool_arguments;
use bstr::ByteSlice;
use std::alloc::{AllocError, Global};
use std::marker::Model;

/// A line, or several that are joined, with the number of the first.
#[derive(Drop)]
pub struct Numbered {
    pub line: u64,
    pub text: Vec<u8>,
}

impl Model for Numbered {
    ghost use Rattle.kob_policy_text.specs.Joined as seen;

    ghost Value = { seen.Numbered };

    ghost view = { λ numbered. record { line = numbered.line; text = numbered.text.items } };
}

/// Whether a command goes on behind the line.
#[tactic(auto, unfolding(crate::specs::Joined::is_continued))]
fn is_continued(alloc: Global, line: &Numbered) -> Result<bool, AllocError>
    ensures { IfOk result (λ is. is ≡ is_continued line.now.text) }
{
    let text = line.text.as_slice();
    if tool_arguments(trimmed(text)).is_none() {
        return Ok(false);
    }
    Ok(matches!(
        quoting_after(alloc, text)?,
        Quoting::Escaped | Quoting::DoubleEscaped
    ))
}

/// What goes on, with the next line.
fn joined(
    alloc: Global,
    held: Option<Numbered>,
    number: u64,
    line: &[u8],
) -> Result<Numbered, AllocError>
    ensures { IfOk result (λ made. made ≡ joined held number line.now) }
{
    match held {
        None => Ok(Numbered {
            line: number,
            text: Vec::from_slice(alloc, line)?,
        }),
        Some(mut held) => {
            held.text.extend_from_slice(line)?;
            Ok(held)
        }
    }
}

fn drop_last(held: &mut Numbered)
    ensures { held.new ≡ without_last held.old }
{
    held.text.pop();
}

/// What is made, and what goes on where the text ends.
fn with_last(mut made: Vec<Numbered>, held: Option<Numbered>) -> Result<Vec<Numbered>, AllocError>
    ensures { IfOk result (λ lines. lines.items ≡ made.items ++ option_to_list held) }
{
    if let Some(last) = held {
        made.push(last)?;
    }
    Ok(made)
}

/// The lines of a text, of which those that go on are joined.
pub fn joined_lines(alloc: Global, text: &[u8]) -> Result<Vec<Numbered>, AllocError>
    ensures { IfOk result (λ lines. lines.items ≡ joined_lines (lines_in text.now)) }
{
    let mut made = Vec::new(alloc);
    let mut held = None;
    let mut number: u64 = 0;
    for line in text.lines() {
        number += 1;
        let mut whole = joined(alloc, held, number, line)?;
        if is_continued(alloc, &whole)? {
            drop_last(&mut whole);
            held = Some(whole);
        } else {
            made.push(whole)?;
            held = None;
        }
    }
    with_last(made, held)
}
