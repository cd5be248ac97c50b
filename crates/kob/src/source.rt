//! A text of bindings or of questions, and what is reported of its fault.

ghost use Rattle.std.specs.Prelude.{◌≡◌};
ghost use Rattle.kob_mistakes.specs.declared.question.Lines.TheVariants.{Questions};

use crate::ending::Ending;
use crate::marks::push_mistake;
use crate::report::{self, tell_lines};
use kob_mistakes::{Lines, line_mistake};
use kob_policy_text::plain_text;
use kob_script::Fault;
use std::alloc::AllocError;

/// A text with its name, and what it has on its lines.
#[derive(Clone, Copy)]
pub struct Source<'a> {
    pub name: &'a str,
    pub text: &'a [u8],
    pub lines: Lines,
}

/// A text of questions.
pub fn questions_in<'a>(name: &'a str, text: &'a [u8]) -> Source<'a>
    ensures name { result.name ≡ name.entry }
    ensures text { result.text ≡ text.entry }
    ensures lines { result.lines ≡ Questions }
{
    Source {
        name,
        text,
        lines: Lines::Questions,
    }
}

/// Reports a fault, and which word of its line is wrong.
pub fn say_fault<R: AllocGlobal + Eprint>(rt: &R, source: &Source<'_>, fault: Fault) -> Ending
    ensures { result ≡ Ending.Failed }
{
    let ending = report::fault(rt, source.name, fault);
    let _ = match plain_text(rt.alloc(), source.text) {
        Ok(text) => say_mistake(rt, &text, source.lines, fault),
        Err(_) => say_mistake(rt, source.text, source.lines, fault),
    };
    ending
}

fn say_mistake<R: AllocGlobal + Eprint>(
    rt: &R,
    text: &[u8],
    lines: Lines,
    fault: Fault,
) -> Result<(), AllocError> {
    let mistake = line_mistake(rt.alloc(), text, fault.line, fault.kind, lines)?;
    let mut out = Vec::new(rt.alloc());
    let made = push_mistake(&mut out, &mistake);
    tell_lines(rt, made, &out);
    Ok(())
}
