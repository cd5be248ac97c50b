//! What a line asks for: the request of its command, or those of the words after `acl`, which are
//! the words of `kafka-acls`, one for each of its commands.

ghost use Rattle.std.specs.Prelude.{◌≡◌, [], IfOk, IfSome, None, OnErr, Ok, map};
ghost use Rattle.std.specs.Prelude.{option_copied, option_map};
ghost use Rattle.kob_script.specs.CommandLines.{GivesEvents, acl_commands, acl_request, asked_by};
ghost use Rattle.kob_script.specs.CommandLines.{error_of, events_by, events_of, line_fault};
ghost use Rattle.kob_script.specs.Words.{GivesSeen, HidesNoFault, Gives, counted, each, text_of};
ghost use Rattle.kob_script.specs.Script.{after_acl, asks_clap, IsAnswerTo};

use crate::command::command_named;
use crate::command_requests::request_of;
use crate::fault::{FaultKind, LineError};
use crate::faults::{check_asker, check_line};
use crate::script::is_setting;
use crate::values::texts_of;
use crate::words::Word;
use kob_acl_cli::{AclCommand, CliArgs, CommandFault, LineFault, commands_of, read_line};
use kob_names::PlainValue;
use kob_rights::{CreateAcls, DeleteAcls, DescribeAcls, Event, Request};
use std::alloc::{AllocError, Global};
use std::collections::VecDeque;

/// The number of events that a line's words ask for, by `clap`'s answer to those of `acl`. The fault
/// is that of the words, or of the options of `acl`. No event is made.
#[tactic(auto, using(crate::proofs::LineFaults::line_counted, crate::proofs::LineFaults::count_fails))]
pub fn count_of(
    alloc: Global,
    last: &mut Option<Event>,
    words: &[Word<'_>],
    answer: Option<&CliArgs>,
) -> Result<usize, LineError>
    ensures gives { Gives result (counted (events_of (option_copied answer.entry) words.now)) }
    ensures memory { HidesNoFault result (line_fault words.now) }
{
    check_line(alloc, last, words)?;
    match words {
        [_, _, command, ..] if command.decoded() == b"acl".as_slice() => {
            let commands = acl_commands(alloc, answer)?;
            Ok(commands.len())
        }
        _ => Ok(1),
    }
}

/// The events of a line's words, in order, by `clap`'s answer to those of `acl`.
pub fn events_of(
    alloc: Global,
    words: &[Word<'_>],
    answer: &Option<CliArgs>,
) -> Result<VecDeque<Event>, LineError>
    ensures { GivesSeen (λ events. events.items) result (events_of answer.now words.now) }
{
    let mut event = None;
    let events = read_events(alloc, &mut event, words, answer.as_ref());
    drop(event);
    events
}

#[tactic(auto, using(crate::proofs::LineFaults::uncounted, crate::proofs::LineFaults::were_asked))]
fn read_events(
    alloc: Global,
    event: &mut Option<Event>,
    words: &[Word<'_>],
    answer: Option<&CliArgs>,
) -> Result<VecDeque<Event>, LineError>
    ensures { GivesSeen (λ events. events.items) result
        (events_of (option_copied answer.entry) words.now) }
{
    count_of(alloc, event, words, answer)?;
    let mut asked = VecDeque::new(alloc);
    if !read_event(alloc, event, words, answer, &mut asked)? {
        return Ok(asked);
    }
    let Some(event) = event.take() else {
        unreachable!()
    };
    asked.push_front(event)?;
    Ok(asked)
}

/// Reads what words ask for. `event` is the one event of a command, and true is returned. Those of
/// `acl` are put into `asked`, in order, and false is returned. The principal and the host of the
/// event before are not parsed again. After an error `event` may be by those of these words.
#[tactic(auto, unfolding(crate::specs::CommandLines::asked_by))]
pub fn read_event(
    alloc: Global,
    event: &mut Option<Event>,
    words: &[Word<'_>],
    answer: Option<&CliArgs>,
    asked: &mut VecDeque<Event>,
) -> Result<bool, LineError>
    requires { asked.old.items ≡ [] }
    ensures asked { GivesEvents result event.new asked.new.items
        (asked_by (option_copied answer.entry) words.now) }
    ensures same { OnErr result (asked.new.items ≡ []) }
{
    let [principal, host, command, arguments @ ..] = words else {
        return Err(LineError::Fault(FaultKind::BadLine));
    };
    check_asker(alloc, event, principal, host)?;
    let Some(event) = event else { unreachable!() };
    if command.decoded() == b"acl".as_slice() {
        let commands = acl_commands(alloc, answer)?;
        *asked = VecDeque::from(events_by(alloc, event, commands)?);
        return Ok(false);
    }
    let command = command_named(command.decoded()).ok_or(FaultKind::BadLine)?;
    let request = request_of(alloc, command, arguments)?;
    ask_for(event, request);
    Ok(true)
}

// A function of its own, since a proof goes through what is dropped.
#[inline(always)]
fn ask_for(event: &mut Event, request: Request)
    ensures principal { event.new.principal ≡ event.old.principal }
    ensures host { event.new.host ≡ event.old.host }
    ensures request { event.new.request ≡ request }
{
    event.request = request;
}

/// What `clap` answers to a line's words: the options of `acl`. `None` if it refuses them, if they
/// are not UTF-8, or if the line does not ask by `acl`. The error is out of memory.
pub fn answer_to(alloc: Global, words: &[Word<'_>]) -> Result<Option<CliArgs>, AllocError>
    ensures answer { IfOk result (λ answer. IsAnswerTo words.now answer) }
    ensures texts { IfSome (after_acl words.now) (λ arguments. OnErr (each text_of arguments)
        (result ≡ Ok None)) }
{
    let Some(arguments) = after_acl(words) else {
        return Ok(None);
    };
    let texts = match texts_of(alloc, arguments) {
        Ok(texts) => texts,
        Err(LineError::Memory(error)) => return Err(error),
        Err(LineError::Fault(_)) => return Ok(None),
    };
    match read_line(alloc, &texts) {
        Ok(args) => Ok(Some(args)),
        Err(LineFault::Usage) => Ok(None),
        Err(LineFault::Memory(error)) => Err(error),
    }
}

/// Whether `clap` is asked about a line's words.
pub fn asks_clap(words: &[Word<'_>]) -> bool
    ensures { result ≡ asks_clap words.now }
{
    after_acl(words).is_some()
}

// The words after `acl`, if the line asks by it and is no setting.
fn after_acl<'w, 'l>(words: &'w [Word<'l>]) -> Option<&'w [Word<'l>]>
    ensures { option_map (λ arguments. arguments.now) result ≡ after_acl words.entry.now }
{
    match words {
        [first, _, command, arguments @ ..]
            if command.decoded() == b"acl".as_slice() && !is_setting(first) => { Some(arguments) }
        _ => None,
    }
}

/// The commands of `clap`'s answer to the words of a line, or the first fault of its options. The
/// fault is `Usage` for `None`.
#[tactic(auto, using(crate::proofs::LineFaults::fails_first_of))]
pub fn acl_commands(alloc: Global, answer: Option<&CliArgs>) -> Result<Vec<AclCommand>, LineError>
    ensures { GivesSeen (λ commands. commands.items) result
        (acl_commands (option_copied answer.entry)) }
{
    let Some(args) = answer else {
        return Err(LineError::Fault(FaultKind::Usage));
    };
    match commands_of(alloc, args) {
        Ok(commands) => Ok(commands),
        Err(fault) => Err(error_of(&fault)),
    }
}

fn error_of(fault: &CommandFault) -> LineError
    ensures { result ≡ error_of fault.now }
{
    match fault {
        CommandFault::NoAction => LineError::Fault(FaultKind::NoAction),
        CommandFault::BadName(_) => LineError::Fault(FaultKind::BadName),
        CommandFault::BadMix => LineError::Fault(FaultKind::BadMix),
        CommandFault::NoResource => LineError::Fault(FaultKind::NoResource),
        CommandFault::NoPrincipal => LineError::Fault(FaultKind::NoPrincipal),
        CommandFault::Memory(error) => LineError::Memory(*error),
    }
}

/// The events that ask for commands, one each, by the principal and the host of an event.
fn events_by(
    alloc: Global,
    asker: &Event,
    commands: Vec<AclCommand>,
) -> Result<Vec<Event>, AllocError>
    ensures { IfOk result (λ events. events.items
        ≡ events_by asker.now.principal asker.now.host (map acl_request commands.items)) }
{
    let mut events = Vec::new(alloc);
    for command in commands {
        events.push(Event {
            principal: asker.principal.copy(alloc)?,
            host: asker.host.copy(alloc)?,
            request: acl_request(command),
        })?;
    }
    Ok(events)
}

fn acl_request(command: AclCommand) -> Request
    ensures { result ≡ acl_request command }
{
    match command {
        AclCommand::Create(drafts) => Request::CreateAcls(CreateAcls { drafts }),
        AclCommand::Delete(filter) => Request::DeleteAcls(DeleteAcls { filter }),
        AclCommand::Describe(filter) => Request::DescribeAcls(DescribeAcls { filter }),
    }
}
