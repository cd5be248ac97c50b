//! A script: settings, and then requests, one a line. All its lines are checked before the first
//! request is served.

ghost use Rattle.std.specs.List.{concat};
ghost use Rattle.std.specs.Prelude.{◌≡◌, ◌<◌, ◌^◌, ℕ, List, Ok, length, true, IfOk, option_copied};
ghost use Rattle.kob_rights.specs.declared.event.Event as event;
ghost use Rattle.kob_script.specs.Checks.{ChecksLine, ChecksNext, as_read, fault_at};
ghost use Rattle.kob_script.specs.Checks.{first_fault, script_so_far};
ghost use Rattle.std.specs.Result.{result_err};
ghost use Rattle.kob_script.specs.Words.{Gives, HidesNoFault, words_of};
ghost use Rattle.kob_script.specs.Script.{AreWholeLines, HasNoAclLine, IfRead, ReadsAs, asks_clap};
ghost use Rattle.kob_script.specs.Script.{everyone_of, is_setting, is_super, script_of, super_of};
ghost use Rattle.kob_script.specs.Script.{with_events, with_words};

use crate::checked::CheckedScript;
use crate::command_lines::{answer_to, asks_clap, count_of};
use crate::fault::{Fault, FaultKind, LineError, ScriptError};
use crate::requests::Requests;
use crate::values::named_principal;
use crate::words::{NO_WORD, Word, put_words, words_of};
use bstr::ByteSlice;
use kob_acl_cli::CliArgs;
use kob_names::{Bytes, Items, Principal, Settings, sum_of};
use kob_rights::Event;
use std::alloc::{AllocError, Global};

/// A script: its settings, without opening bindings, and what its lines ask for, in order.
#[derive(Debug, Drop)]
pub struct Script {
    pub settings: Settings,
    pub events: Items<Event>,
}

/// Reads a script, of which it makes a copy, in time linear in its size. A line ends with a line
/// feed, or with a carriage return and a line feed; the last line may have no end. The error is the
/// first line with a fault, or `Memory`. `clap` says what the words of an `acl` line mean, and for
/// some words its port may return more than one result. A script without such lines has one reading.
pub fn read_script(alloc: Global, text: &[u8]) -> Result<Script, ScriptError>
    ensures any { IfRead result (ReadsAs text.now) }
    ensures plain { HasNoAclLine text.now → IfRead result (λ read. script_of text.now ≡ read) }
{
    let copy = Bytes::copied(alloc, text)?;
    let blocks = vec![in alloc; copy].map_err(AllocError::from)?;
    let CheckedScript { settings, requests } = check_script(alloc, blocks)?;
    let mut last = None;
    let events = all_events(alloc, requests, &mut last);
    drop(last);
    Ok(Script {
        settings,
        events: Items::from_vec(events?),
    })
}

/// The events that are left. Each is read into `next`, which is lent: an event that is dropped at an
/// early return makes a proof long.
fn all_events(
    alloc: Global,
    mut requests: Requests,
    next: &mut Option<Event>,
) -> Result<Vec<Event>, AllocError>
    ensures { IfOk result (λ events. events.items ≡ requests) }
{
    let mut events = Vec::new(alloc);
    for _ in 0..requests.len() {
        requests.next_event(alloc, next)?;
        if let Some(event) = next.take() {
            events.push(event)?;
        }
    }
    Ok(events)
}

/// What is known of a script as its lines are checked.
#[derive(Drop)]
struct Checking {
    supers: Vec<Principal>,
    everyone: bool,
    requests: usize,
    /// An event by the principal and the host that were read last.
    last: Option<Event>,
}

/// Checks a script in blocks of whole lines, with fewer than 2^63 bytes, in time linear in its
/// size. The requests are counted, and the blocks are kept until they are served. The error is the
/// first line with a fault, or `Memory`, also for 2^64 requests. `clap` says what the words of an
/// `acl` line mean, and for some words its port may return more than one result. A script without
/// such lines has one reading.
pub fn check_script(alloc: Global, blocks: Vec<Bytes>) -> Result<CheckedScript, ScriptError>
    requires whole { AreWholeLines blocks.items }
    requires short { length (concat blocks.items) < 2 ^ 63 }
    ensures any { IfRead (as_read result) (ReadsAs (concat blocks.items)) }
    ensures plain { HasNoAclLine (concat blocks.items)
        → IfRead (as_read result) (λ read. script_of (concat blocks.items) ≡ read) }
{
    let mut checking = Checking {
        supers: Vec::new(alloc),
        everyone: false,
        requests: 0,
        last: None,
    };
    let mut answers = Vec::new(alloc);
    let mut number: u64 = 0;
    // The words of a line take the places of those of the line before.
    let mut few = [
        NO_WORD, NO_WORD, NO_WORD, NO_WORD, NO_WORD, NO_WORD, NO_WORD, NO_WORD, NO_WORD, NO_WORD,
    ];
    for block in blocks.as_slice() {
        for line in block.as_slice().lines() {
            number += 1;
            if let Err(error) = check_line(alloc, &mut checking, &mut answers, &mut few, line) {
                drop(checking);
                return Err(fault_at(error, number));
            }
        }
    }
    drop(few);
    drop(checking.last);
    Ok(CheckedScript {
        settings: Settings {
            supers: Items::from_vec(checking.supers),
            opening: Items::from_vec(Vec::new(alloc)),
            everyone: checking.everyone,
        },
        requests: Requests::new(alloc, blocks, answers, checking.requests as u64),
    })
}

fn fault_at(error: LineError, line: u64) -> ScriptError
    ensures { result ≡ fault_at line error }
{
    match error {
        LineError::Memory(error) => ScriptError::Memory(error),
        LineError::Fault(kind) => ScriptError::Fault(Fault { line, kind }),
    }
}

fn check_line<'l>(
    alloc: Global,
    checking: &mut Checking,
    answers: &mut Vec<Option<CliArgs>>,
    few: &mut [Word<'l>],
    line: &'l [u8],
) -> Result<(), LineError>
    ensures { (events : List event.Event) → checking.old.requests ≡ length events
        → ChecksLine (script_so_far checking.old events) line.now checking.new
        answers.old.items answers.new.items result }
{
    if let Some(count) = put_words(few, line) {
        return check_cut(alloc, checking, answers, &few[..count]);
    }
    let words = words_of(alloc, line)?;
    check_cut(alloc, checking, answers, &words)
}

// Checks a line that was cut into words.
fn check_cut(
    alloc: Global,
    checking: &mut Checking,
    answers: &mut Vec<Option<CliArgs>>,
    words: &[Word<'_>],
) -> Result<(), LineError>
    ensures { (line : List ℕ) (events : List event.Event) → words_of line ≡ Ok words.now
        → checking.old.requests ≡ length events
        → ChecksLine (script_so_far checking.old events) line checking.new
        answers.old.items answers.new.items result }
{
    if asks_clap(words) {
        check_answered(alloc, checking, answers, words)
    } else {
        check_words(alloc, checking, words, None)
    }
}

// Checks words that clap is asked about. Another call of clap may return another answer, so its
// answer is kept. A frame of its own, since options take much room.
#[inline(never)]
fn check_answered(
    alloc: Global,
    checking: &mut Checking,
    answers: &mut Vec<Option<CliArgs>>,
    words: &[Word<'_>],
) -> Result<(), LineError>
    ensures { (line : List ℕ) (events : List event.Event) → words_of line ≡ Ok words.now
        → asks_clap words.now ≡ true → checking.old.requests ≡ length events
        → ChecksLine (script_so_far checking.old events) line checking.new
        answers.old.items answers.new.items result }
{
    let answer = answer_to(alloc, words)?;
    check_words(alloc, checking, words, answer.as_ref())?;
    answers.push(answer)?;
    Ok(())
}

fn check_words(
    alloc: Global,
    checking: &mut Checking,
    words: &[Word<'_>],
    answer: Option<&CliArgs>,
) -> Result<(), LineError>
    ensures next { (events : List event.Event) → checking.old.requests ≡ length events
        → ChecksNext checking.new result
        (with_words (option_copied answer.entry) (script_so_far checking.old events) words.now) }
    ensures memory { (events : List event.Event) → checking.old.requests ≡ length events
        → HidesNoFault result (first_fault (script_so_far checking.old events) words.now) }
{
    match words {
        [] => Ok(()),
        [first, arguments @ ..] if is_setting(first) => {
            if checking.requests > 0 {
                return Err(LineError::Fault(FaultKind::LateSetting));
            }
            if is_super(first) {
                let principal = super_of(alloc, arguments)?;
                checking.supers.push(principal)?;
            } else {
                checking.everyone = everyone_of(arguments)?;
            }
            Ok(())
        }
        _ => {
            let asked = count_of(alloc, &mut checking.last, words, answer)?;
            checking.requests = sum_of(checking.requests, asked)?;
            Ok(())
        }
    }
}

/// Whether a line with this first word is a setting.
pub fn is_setting(first: &Word<'_>) -> bool
    ensures { result ≡ is_setting first.now }
{
    is_super(first) || first.decoded() == b"everyone".as_slice()
}

/// Whether a line with this first word names a super user.
pub fn is_super(first: &Word<'_>) -> bool
    ensures { result ≡ is_super first.now }
{
    first.decoded() == b"super".as_slice()
}

/// The super user whom the words after `super` name.
pub fn super_of(alloc: Global, arguments: &[Word<'_>]) -> Result<Principal, LineError>
    ensures gives { Gives result (super_of arguments.now) }
    ensures memory { HidesNoFault result (result_err (super_of arguments.now)) }
{
    match arguments {
        [name] => named_principal(alloc, name),
        _ => Err(LineError::Fault(FaultKind::BadLine)),
    }
}

/// Whether a resource that no binding matches is open to everyone, by the words after `everyone`.
pub fn everyone_of(arguments: &[Word<'_>]) -> Result<bool, FaultKind>
    ensures { result ≡ everyone_of arguments.now }
{
    match arguments {
        [word] if word.decoded() == b"on".as_slice() => Ok(true),
        [word] if word.decoded() == b"off".as_slice() => Ok(false),
        _ => Err(FaultKind::BadLine),
    }
}
