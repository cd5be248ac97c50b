//! The reading of a file of bindings.

ghost use Rattle.std.specs.Prelude.{◌≡◌, Ok};
ghost use Rattle.kob_policy_text.specs.Outcomes.{GivesAt, MayGive};
ghost use Rattle.kob_policy_text.specs.Policy.{FileMakes, IsRead, LineMakes, LinesMake};
ghost use Rattle.kob_policy_text.specs.Policy.{fault_at, numbered_in, with_items};
ghost use Rattle.kob_script.specs.Words.{GivesSeen};

use crate::encoding::plain_text;
use crate::item::Item;
use crate::joined::{Numbered, joined_lines};
use crate::lines::items_of;
use crate::objects::{is_array, objects_in};
use crate::origin::Origin;
use crate::policy::Policy;
use kob_names::{PlainValue, Text};
use kob_script::{Fault, LineError, ScriptError};
use std::alloc::Global;

/// Reads a file after those that were read before: UTF-8, or UTF-16 behind a byte order mark. Lines
/// end with a line feed, before which one carriage return is dropped; a backslash that ends a line
/// of `kafka-acls` joins it with the next one. An array of JSON is read object by object.
///
/// The error is the first line with a fault, or out of memory; the policy then holds what the lines
/// before it say, and maybe a part of that line. `BadName` is a pattern's name that no binding may
/// have, `NoResource` a listed binding without a heading. The fault of a text that is not UTF-16,
/// or of an array that does not end, comes before all others.
pub fn read_file(
    alloc: Global,
    policy: &mut Policy,
    file: &Text,
    text: &[u8],
) -> Result<(), ScriptError>
    ensures { IsRead result policy.new (FileMakes file.now text.now policy.old) }
{
    let text = plain_text(alloc, text)?;
    policy.begin_file(&text);
    let lines = numbered_in(alloc, &text)?;
    read_lines(alloc, policy, file, &lines)
}

/// The lines of a text, or the objects of an array.
#[tactic(auto, unfolding(crate::specs::Policy::numbered_in))]
fn numbered_in(alloc: Global, text: &[u8]) -> Result<Vec<Numbered>, ScriptError>
    ensures { GivesAt (λ lines. lines.items) result (numbered_in text.now) }
{
    if is_array(text) {
        objects_in(alloc, text)
    } else {
        Ok(joined_lines(alloc, text)?)
    }
}

fn read_lines(
    alloc: Global,
    policy: &mut Policy,
    file: &Text,
    lines: &[Numbered],
) -> Result<(), ScriptError>
    ensures { IsRead result policy.new (LinesMake file.now policy.old lines.now) }
{
    for line in lines {
        match add_numbered(alloc, policy, file, line) {
            Ok(()) => {}
            Err(error) => return Err(fault_on(error, line)),
        }
    }
    Ok(())
}

fn fault_on(error: LineError, line: &Numbered) -> ScriptError
    ensures { result ≡ fault_at line.now.line error }
{
    fault_at(error, line.line)
}

fn add_numbered(
    alloc: Global,
    policy: &mut Policy,
    file: &Text,
    line: &Numbered,
) -> Result<(), LineError>
    ensures { MayGive (λ _. policy.new) result
        (LineMakes file.now policy.old line.now.line line.now.text) }
{
    add_line(alloc, policy, file, line.line, &line.text)
}

#[tactic(auto, unfolding(crate::specs::Policy::LineMakes))]
fn add_line(
    alloc: Global,
    policy: &mut Policy,
    file: &Text,
    line: u64,
    text: &[u8],
) -> Result<(), LineError>
    ensures { MayGive (λ _. policy.new) result (LineMakes file.now policy.old line text.now) }
{
    let items = items_of(alloc, policy.is_above(), policy.has_list(), text)?;
    let file = file.copy(alloc)?;
    add_items(alloc, policy, &Origin { file, line }, items)
}

fn add_items(
    alloc: Global,
    policy: &mut Policy,
    origin: &Origin,
    items: Vec<Item>,
) -> Result<(), LineError>
    ensures { GivesSeen (λ _. policy.new) result (with_items policy.old origin.now items.items) }
{
    for item in items {
        policy.add_item(alloc, origin, item)?;
    }
    Ok(())
}

pub fn fault_at(error: LineError, line: u64) -> ScriptError
    ensures { result ≡ fault_at line error }
{
    match error {
        LineError::Memory(refused) => ScriptError::Memory(refused),
        LineError::Fault(kind) => ScriptError::Fault(Fault { line, kind }),
    }
}
