//! The lines that call Kafka's tool.

ghost use Rattle.std.specs.Prelude.{◌≡◌, option_map};
ghost use Rattle.kob_acl_cli.specs.Lines.{texts};
ghost use Rattle.kob_policy_text.specs.Lines.{is_tool, tool_arguments, tool_texts};
ghost use Rattle.kob_policy_text.specs.Options.{SaysOptions};
ghost use Rattle.kob_policy_text.specs.Outcomes.{MayGive};
ghost use Rattle.kob_script.specs.Words.{GivesSeen, each, text_in};

use crate::item::Item;
use crate::options::added;
use crate::pieces::{first_parts, last_parts};
use crate::shell::shell_words;
use crate::users::text_in;
use kob_names::Bytes;
use kob_script::LineError;
use std::alloc::Global;

/// Whether the command is Kafka's tool, with any path, and not a principal.
#[tactic(auto, unfolding(crate::specs::Lines::is_tool))]
fn is_tool(command: &[u8]) -> bool
    ensures { result ≡ is_tool command.now }
{
    let base = match last_parts(command, b"/") {
        Some((_, base)) => base,
        None => command,
    };
    !command.starts_with(b"User:")
        && (base == b"kafka-acls".as_slice() || base == b"kafka-acls.sh".as_slice())
}

/// What is after the word of Kafka's tool.
#[tactic(auto, unfolding(crate::specs::Lines::tool_arguments))]
pub fn tool_arguments(line: &[u8]) -> Option<&[u8]>
    ensures { option_map (λ arguments. arguments.now) result ≡ tool_arguments line.entry.now }
{
    match first_parts(line, b" ") {
        Some((command, arguments)) if is_tool(command) => Some(arguments),
        _ => None,
    }
}

/// The words as texts, borrowed from them.
fn texts_in(alloc: Global, words: &[Bytes]) -> Result<Vec<&str>, LineError>
    ensures { GivesSeen (λ lent. texts lent.items) result (each text_in words.entry.now) }
{
    let mut texts = Vec::with_capacity(alloc, words.len())?;
    for word in words {
        match text_in(word.as_slice()) {
            Ok(text) => texts.push(text)?,
            Err(error) => return Err(error),
        }
    }
    Ok(texts)
}

pub fn tool_items(alloc: Global, arguments: &[u8]) -> Result<Vec<Item>, LineError>
    ensures { MayGive (λ items. items.items) result (SaysOptions (tool_texts arguments.now)) }
{
    let words = shell_words(alloc, arguments)?;
    let texts = texts_in(alloc, &words)?;
    added(alloc, &texts)
}
