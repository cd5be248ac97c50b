//! What the options of `kafka-acls` say.

ghost use Rattle.std.specs.Prelude.{◌≡◌, ◌++◌, ◌∷◌, [], IfOk, OnOk, Some, map, option_map};
ghost use Rattle.std.specs.Option.{option_to_list};
ghost use Rattle.kob_acl_cli.specs.Lines.{texts};
ghost use Rattle.kob_policy_text.specs.Options.{Adds, added_by, added_from};
ghost use Rattle.kob_policy_text.specs.Options.{held_at, held_options, is_ignored};
ghost use Rattle.kob_policy_text.specs.Options.{is_ignored_whole, is_other};
ghost use Rattle.kob_policy_text.specs.Options.{ids_alone};
ghost use Rattle.kob_policy_text.specs.Options.{next_place, rule_items, then_added};
ghost use Rattle.kob_policy_text.specs.Options.{without_ids, drafts_from, with_other_operations};
ghost use Rattle.kob_policy_text.specs.Options.{added_on_both};
ghost use Rattle.kob_policy_text.specs.Options.{left_out_from};
ghost use Rattle.kob_policy_text.specs.Listing.{held_name};
ghost use Rattle.kob_policy_text.specs.Outcomes.{MayGive};
ghost use Rattle.kob_policy_text.specs.declared.options.Place.TheVariants.{Anywhere};
ghost use Rattle.kob_script.specs.Script.{MayAnswer};
ghost use Rattle.kob_script.specs.Words.{GivesSeen};

use crate::item::Item;
use crate::other_operations::{
    has_other_operation, has_others_alone, left_out_principal, left_out_rules, others_as_all,
    own_operations,
};
use crate::users::{OTHER_RESOURCE, held_name};
use kob_acl_cli::{AclCommand, CliArgs, LineFault, read_line};
use kob_names::{Draft, Items, Text};
use kob_script::{FaultKind, LineError, acl_commands};
use std::alloc::{AllocError, Global};
use std::mem;

/// Where a word of options is: maybe behind an option whose value has no effect, or behind one for
/// a resource of another kind.
#[derive(Clone, Copy)]
pub enum Place {
    Anywhere,
    BehindIgnored,
    BehindOther,
}

fn is_ignored(word: &str) -> bool
    ensures { result ≡ is_ignored word.now }
{
    word == "--authorizer-properties"
        || word == "--bootstrap-controller"
        || word == "--authorizer"
        || word == "--zk-tls-config-file"
}

fn is_ignored_whole(word: &str) -> bool
    ensures { result ≡ is_ignored_whole word.now }
{
    word.as_bytes().starts_with(b"--authorizer-properties=")
        || word.as_bytes().starts_with(b"--bootstrap-controller=")
        || word.as_bytes().starts_with(b"--authorizer=")
        || word.as_bytes().starts_with(b"--zk-tls-config-file=")
}

fn is_other(word: &str) -> bool
    ensures { result ≡ is_other word.now }
{
    word == "--delegation-token" || word == "--user-principal"
}

/// The word that is passed on at a place.
fn held_at(place: Place, word: &str) -> Option<&str>
    ensures { option_to_list (option_map (λ text. text.now) result) ≡ held_at place word.entry.now }
{
    match place {
        Place::BehindIgnored => None,
        Place::BehindOther => Some(OTHER_RESOURCE),
        Place::Anywhere if is_ignored(word) || is_ignored_whole(word) => None,
        Place::Anywhere if is_other(word) => Some("--topic"),
        Place::Anywhere
            if word.as_bytes().starts_with(b"--delegation-token=")
                || word.as_bytes().starts_with(b"--user-principal=") => {
            Some("--topic=(another kind of resource)")
        }
        Place::Anywhere => Some(word),
    }
}

/// Where the word behind one at a place is.
fn next_place(place: Place, word: &str) -> Place
    ensures { result ≡ next_place place word.now }
{
    match place {
        Place::Anywhere if is_ignored(word) => Place::BehindIgnored,
        Place::Anywhere if is_other(word) => Place::BehindOther,
        _ => Place::Anywhere,
    }
}

fn push_held<'a>(held: &mut Vec<&'a str>, place: Place, word: &'a str) -> Result<(), AllocError>
    ensures { OnOk result (texts held.new.items ≡ texts held.old.items
        ++ held_at place word.entry.now) }
{
    match held_at(place, word) {
        None => Ok(()),
        Some(text) => {
            held.push(text)?;
            Ok(())
        }
    }
}

/// The words that are passed on to `clap`.
#[tactic(auto, using(crate::proofs::Passing::passes_more, crate::proofs::Passing::passes_all))]
fn held_options<'w>(alloc: Global, words: &[&'w str]) -> Result<Vec<&'w str>, AllocError>
    ensures { IfOk result (λ held. texts held.items ≡ held_options Anywhere (texts words.now)) }
{
    let mut held = Vec::with_capacity(alloc, words.len())?;
    let mut place = Place::Anywhere;
    for word in words {
        push_held(&mut held, place, word)?;
        place = next_place(place, word);
    }
    Ok(held)
}

pub fn push_text(alloc: Global, texts: &mut Vec<Text>, text: &str) -> Result<(), AllocError>
    ensures { OnOk result (texts.new.items ≡ texts.old.items ++ text.now ∷ []) }
{
    texts.push(Text::copied(alloc, text)?)?;
    Ok(())
}

/// The names, with another in place of each principal of another kind.
fn held_names(alloc: Global, names: &Items<Text>) -> Result<Items<Text>, AllocError>
    ensures { IfOk result (λ held. held ≡ map held_name names.now) }
{
    let mut held = Vec::with_capacity(alloc, names.len())?;
    for name in names.as_slice() {
        push_text(alloc, &mut held, held_name(name.as_str()))?;
    }
    Ok(Items::from_vec(held))
}

pub fn rule_items(alloc: Global, drafts: Vec<Draft>) -> Result<Vec<Item>, AllocError>
    ensures { IfOk result (λ items. items.items ≡ rule_items drafts.items) }
{
    let mut items = Vec::with_capacity(alloc, drafts.len())?;
    for draft in drafts {
        items.push(Item::Rule(draft))?;
    }
    Ok(items)
}

/// What the only command adds. Commands that remove or list are a fault.
fn drafts_from(alloc: Global, args: &CliArgs) -> Result<Vec<Draft>, LineError>
    ensures { GivesSeen (λ drafts. drafts.items) result (drafts_from args.now) }
{
    let mut commands = acl_commands(alloc, Some(args))?;
    if commands.len() != 1 {
        return Err(LineError::Fault(FaultKind::BadLine));
    }
    match commands.pop() {
        Some(AclCommand::Create(drafts)) => Ok(drafts.into_vec()),
        _ => Err(LineError::Fault(FaultKind::BadLine)),
    }
}

fn added_from(alloc: Global, args: &CliArgs) -> Result<Vec<Item>, LineError>
    ensures { GivesSeen (λ items. items.items) result (added_from args.now) }
{
    let drafts = drafts_from(alloc, args)?;
    Ok(rule_items(alloc, drafts)?)
}

/// The bindings whose operations are left out.
fn left_out_from(alloc: Global, args: &mut CliArgs) -> Result<Vec<Item>, LineError>
    ensures { GivesSeen (λ items. items.items) result
        (left_out_from (with_other_operations args.old)) }
{
    args.operations = others_as_all(alloc, &args.operations)?;
    let principal = left_out_principal(alloc)?;
    let drafts = drafts_from(alloc, args)?;
    Ok(left_out_rules(alloc, &principal, drafts)?)
}

/// The bindings of a product of which some operations are left out.
fn added_on_both(alloc: Global, args: &mut CliArgs) -> Result<Vec<Item>, LineError>
    ensures { GivesSeen (λ items. items.items) result (added_on_both args.old) }
{
    let own = own_operations(alloc, &args.operations)?;
    let all = mem::replace(&mut args.operations, own);
    let mut items = added_from(alloc, args)?;
    args.operations = all;
    items.append(&mut left_out_from(alloc, args)?)?;
    Ok(items)
}

/// What a producer needs, and then what it needs for its transactional ids.
fn added_for_ids(alloc: Global, args: &mut CliArgs) -> Result<Vec<Item>, LineError>
    ensures { GivesSeen (λ items. items.items) result
        (then_added (added_from (without_ids args.old)) (added_from (ids_alone args.old))) }
{
    let none = Items::from_vec(Vec::new(alloc));
    let ids = mem::replace(&mut args.transactional_ids, none);
    let mut items = added_from(alloc, args)?;
    args.transactional_ids = ids;
    let mut made = Vec::new(alloc);
    push_text(alloc, &mut made, "Write")?;
    push_text(alloc, &mut made, "Describe")?;
    args.operations = Items::from_vec(made);
    args.topics = Items::from_vec(Vec::new(alloc));
    args.groups = Items::from_vec(Vec::new(alloc));
    args.producer = false;
    args.consumer = false;
    args.idempotent = false;
    items.append(&mut added_from(alloc, args)?)?;
    Ok(items)
}

/// What options add, for a producer with transactional ids as by two lines, and with single bindings
/// left out for operations that are.
fn added_by(alloc: Global, answer: &mut Option<CliArgs>) -> Result<Vec<Item>, LineError>
    ensures { GivesSeen (λ items. items.items) result (added_by answer.old) }
{
    let Some(args) = answer else {
        return Err(LineError::Fault(FaultKind::Usage));
    };
    args.allow_principals = held_names(alloc, &args.allow_principals)?;
    args.deny_principals = held_names(alloc, &args.deny_principals)?;
    if args.producer && !args.transactional_ids.as_slice().is_empty() {
        added_for_ids(alloc, args)
    } else if !has_other_operation(args) {
        added_from(alloc, args)
    } else if has_others_alone(args) {
        left_out_from(alloc, args)
    } else {
        added_on_both(alloc, args)
    }
}

/// What `clap` answers to words, or `None` if it refuses them.
fn answer_to(alloc: Global, words: &[&str]) -> Result<Option<CliArgs>, AllocError>
    ensures { IfOk result (λ answer. MayAnswer (texts words.entry.now) answer) }
{
    match read_line(alloc, words) {
        Ok(args) => Ok(Some(args)),
        Err(LineFault::Usage) => Ok(None),
        Err(LineFault::Memory(error)) => Err(error),
    }
}

/// The bindings that the words of `kafka-acls` add, as `clap` reads them.
#[tactic(auto, using(crate::proofs::Chains::adds))]
pub fn added(alloc: Global, words: &[&str]) -> Result<Vec<Item>, LineError>
    ensures { MayGive (λ items. items.items) result (Adds (texts words.now)) }
{
    let held = held_options(alloc, words)?;
    let mut answer = answer_to(alloc, &held)?;
    added_by(alloc, &mut answer)
}
