//! What a line of a policy says.

ghost use Rattle.std.specs.Prelude.{◌≡◌, IfOk, Ok};
ghost use Rattle.kob_acl_cli.specs.Lines.{texts};
ghost use Rattle.kob_policy_text.specs.Lines.{SaysAt, acl_texts};
ghost use Rattle.kob_policy_text.specs.Lines.{held_words, is_creation};
ghost use Rattle.kob_policy_text.specs.Lines.{is_for_other_kind, is_heading};
ghost use Rattle.kob_policy_text.specs.Lines.{is_heading_line, is_listed, is_release, is_skipped};
ghost use Rattle.kob_policy_text.specs.Lines.{listed_items, only_event};
ghost use Rattle.kob_policy_text.specs.Lines.{setting_items};
ghost use Rattle.kob_policy_text.specs.Lines.{texts_behind, words_items, rules_in};
ghost use Rattle.kob_policy_text.specs.Outcomes.{MayGive};
ghost use Rattle.kob_script.specs.Words.{GivesSeen, words_of};

use crate::item::Item;
use crate::listing::{heading_item, known, newer_grant, older_grant};
use crate::options::{added, rule_items};
use crate::pieces::{holds_mark, trimmed};
use crate::properties::{is_other_property, is_property, one, property_items, super_item};
use crate::release::release_named;
use crate::rows::{is_tabular, tabular_item};
use crate::tool::{tool_arguments, tool_items};
use crate::users::{OTHER_PRINCIPAL, is_other_kind};
use kob_rights::{Event, Request};
use kob_script::{
    FaultKind, LineError, Word, events_of, everyone_of, host_of, is_setting, is_super,
    lent_text_of, principal_of, texts_of, words_of,
};
use std::alloc::{AllocError, Global};
use std::collections::VecDeque;

/// Whether the line names what the bindings below it are on.
fn is_heading(line: &[u8]) -> bool
    ensures { result ≡ is_heading line.now }
{
    line.starts_with(b"Current ACLs for resource ")
        || line.starts_with(b"Adding ACLs for resource ")
}

/// Whether the line is a heading of a list.
pub fn is_heading_line(line: &[u8]) -> bool
    ensures { result ≡ is_heading_line line.now }
{
    is_heading(trimmed(line))
}

/// Whether the line is read as a whole and not word by word.
#[tactic(auto, unfolding(crate::specs::Lines::is_listed))]
fn is_listed(line: &[u8]) -> bool
    ensures { result ≡ is_listed line.now }
{
    line.starts_with(b"#")
        || line.starts_with(b"ACLs for principal ")
        || is_heading(line)
        || line.starts_with(b"(principal=")
        || is_property(line)
        || is_tabular(line)
        || holds_mark(line, b" permission for operations: ")
}

/// What a line that is read as a whole says.
#[tactic(auto, unfolding(crate::specs::Lines::listed_items))]
fn listed_items(alloc: Global, line: &[u8]) -> Result<Vec<Item>, LineError>
    ensures { GivesSeen (λ items. items.items) result (listed_items line.now) }
{
    if line.starts_with(b"#") || line.starts_with(b"ACLs for principal ") {
        Ok(Vec::new(alloc))
    } else if is_property(line) {
        property_items(alloc, line)
    } else if is_heading(line) {
        one(alloc, heading_item(alloc, line)?)
    } else if line.starts_with(b"(principal=") {
        one(alloc, newer_grant(alloc, line)?)
    } else if is_tabular(line) {
        match tabular_item(alloc, line)? {
            Some(item) => one(alloc, item),
            None => Ok(Vec::new(alloc)),
        }
    } else {
        one(alloc, older_grant(alloc, line)?)
    }
}

fn is_release(first: &Word<'_>) -> bool
    ensures { result ≡ is_release first.now }
{
    first.decoded() == b"kafka".as_slice()
}

/// `super PRINCIPAL`, `everyone on` or `everyone off`
#[tactic(auto, unfolding(crate::specs::Lines::setting_items))]
fn setting_items(
    alloc: Global,
    first: &Word<'_>,
    arguments: &[Word<'_>],
) -> Result<Vec<Item>, LineError>
    ensures { GivesSeen (λ items. items.items) result (setting_items first.now arguments.now) }
{
    if !is_super(first) {
        return one(alloc, Item::Everyone(everyone_of(arguments)?));
    }
    match arguments {
        [name] => one(alloc, super_item(alloc, name.decoded())?),
        _ => Err(LineError::Fault(FaultKind::BadLine)),
    }
}

/// Whether the words create a binding for a principal of another kind.
fn is_for_other_kind(words: &[Word<'_>]) -> bool
    ensures { result ≡ is_for_other_kind words.now }
{
    match words {
        [_, _, command, _, principal, ..] if command.decoded() == b"create-acl".as_slice() => {
            match lent_text_of(principal) {
                Ok(text) => is_other_kind(text),
                Err(_) => false,
            }
        }
        _ => false,
    }
}

#[tactic(auto, using(crate::proofs::Passing::has_fifth))]
fn held_words<'a>(alloc: Global, words: Vec<Word<'a>>) -> Result<Vec<Word<'a>>, LineError>
    ensures { GivesSeen (λ held. held.items) result (held_words words.entry.items) }
{
    if !is_for_other_kind(&words) {
        return Ok(words);
    }
    let mut held = words;
    held[4] = Word::read(alloc, OTHER_PRINCIPAL.as_bytes())?;
    Ok(held)
}

fn rules_in(alloc: Global, request: Request) -> Result<Vec<Item>, LineError>
    ensures { GivesSeen (λ items. items.items) result (rules_in request) }
{
    match request {
        Request::CreateAcls(made) => Ok(rule_items(alloc, made.drafts.into_vec())?),
        _ => Err(LineError::Fault(FaultKind::BadLine)),
    }
}

/// The event of a list of exactly one.
pub fn only_event(mut asked: VecDeque<Event>) -> Option<Event>
    ensures { result ≡ only_event asked.items }
{
    if asked.len() != 1 {
        return None;
    }
    asked.pop_front()
}

#[tactic(auto, unfolding(crate::specs::Lines::words_items))]
fn words_items(alloc: Global, words: Vec<Word<'_>>) -> Result<Vec<Item>, LineError>
    ensures { GivesSeen (λ items. items.items) result (words_items words.entry.items) }
{
    let Some((first, arguments)) = words.split_first() else {
        return Ok(Vec::new(alloc));
    };
    if is_setting(first) {
        return setting_items(alloc, first, arguments);
    }
    if is_release(first) {
        let [version] = arguments else {
            return Err(LineError::Fault(FaultKind::BadLine));
        };
        let release = known(release_named(version.decoded()))?;
        return one(alloc, Item::Brokers(release));
    }
    let held = held_words(alloc, words)?;
    match only_event(events_of(alloc, &held, &None)?) {
        Some(event) => rules_in(alloc, event.into_request()),
        None => Err(LineError::Fault(FaultKind::BadLine)),
    }
}

/// The texts after `acl`, borrowed from the words.
#[tactic(auto, unfolding(crate::specs::Lines::acl_texts))]
fn acl_texts<'w>(alloc: Global, words: &'w [Word<'_>]) -> Result<Vec<&'w str>, LineError>
    ensures { GivesSeen (λ lent. texts lent.items) result (acl_texts words.entry.now) }
{
    match words {
        [who, from, _, arguments @ ..] => texts_behind(alloc, who, from, arguments),
        _ => Ok(Vec::new(alloc)),
    }
}

fn texts_behind<'w>(
    alloc: Global,
    who: &Word<'_>,
    from: &Word<'_>,
    arguments: &'w [Word<'_>],
) -> Result<Vec<&'w str>, LineError>
    ensures { GivesSeen (λ lent. texts lent.items) result
        (texts_behind who.now from.now arguments.entry.now) }
{
    let name = lent_text_of(who)?;
    let address = lent_text_of(from)?;
    let texts = texts_of(alloc, arguments)?;
    drop(principal_of(alloc, name)?);
    drop(host_of(alloc, address)?);
    Ok(texts)
}

/// Whether the words create bindings.
fn is_creation(words: &[Word<'_>]) -> bool
    ensures { result ≡ is_creation words.now }
{
    match words {
        [_, _, command, ..] => {
            command.decoded() == b"create-acl".as_slice() || command.decoded() == b"acl".as_slice()
        }
        _ => false,
    }
}

/// Whether a line above every heading says nothing of rules: another setting, or in a file with a
/// heading a line of no form.
#[tactic(auto, unfolding(crate::specs::Lines::is_skipped, crate::specs::Lines::is_foreign))]
fn is_skipped(alloc: Global, has_list: bool, line: &[u8]) -> Result<bool, AllocError>
    ensures { IfOk result (λ skipped. skipped ≡ is_skipped has_list line.now) }
{
    if is_other_property(line) {
        return Ok(true);
    }
    if !has_list || is_listed(line) || tool_arguments(line).is_some() {
        return Ok(false);
    }
    match words_of(alloc, line) {
        Ok(words) => match words.as_slice() {
            [] => Ok(false),
            [first, ..] => Ok(!(is_setting(first) || is_release(first) || is_creation(&words))),
        },
        Err(LineError::Memory(refused)) => Err(refused),
        Err(LineError::Fault(_)) => Ok(true),
    }
}

/// What a line says, above every heading of its file or not. The options of `kafka-acls` and of
/// `acl` are read by `clap`.
#[tactic(auto, unfolding(crate::specs::Lines::SaysTrimmed))]
pub fn items_of(
    alloc: Global,
    above: bool,
    has_list: bool,
    line: &[u8],
) -> Result<Vec<Item>, LineError>
    ensures { MayGive (λ items. items.items) result (SaysAt above has_list line.now) }
{
    let line = trimmed(line);
    if above && is_skipped(alloc, has_list, line)? {
        return one(alloc, Item::Skipped);
    }
    if is_listed(line) {
        return listed_items(alloc, line);
    }
    if let Some(arguments) = tool_arguments(line) {
        return tool_items(alloc, arguments);
    }
    let words = words_of(alloc, line)?;
    match words.as_slice() {
        [first, _, command, ..] if !is_setting(first) && command.decoded() == b"acl".as_slice() => {
            let texts = acl_texts(alloc, &words)?;
            added(alloc, &texts)
        }
        _ => words_items(alloc, words),
    }
}
