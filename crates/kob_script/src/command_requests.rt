//! The request that a command asks for by the words after it.

ghost use Rattle.std.specs.Prelude.{◌≡◌, None, Ok, Result, ok_or};
ghost use Rattle.kob_script.specs.CommandLines.{draft_of, filter_of, request_of, unless_dash};
ghost use Rattle.kob_script.specs.Words.{Gives};
ghost use Rattle.kob_script.specs.declared.command.Command.TheVariants as commands;
ghost use Rattle.kob_script.specs.declared.fault.FaultKind as kinds;
ghost use Rattle.kob_script.specs.declared.fault.FaultKind.TheVariants as kind;

use crate::command::Command;
use crate::fault::{FaultKind, LineError};
use crate::values::{
    before_of, filter_pattern_of, host_or_any, idem_of, known, named_host, named_principal,
    number_of, principal_or_any, records_of, text_of, text_or_any, which_of,
};
use crate::words::Word;
use kob_names::{Batch, BindingFilter, Draft, Items, Pattern};
use kob_rights::{
    CreateAcls, CreateTopics, DeleteAcls, DeleteGroups, DeleteRecords, DeleteTopics, DescribeAcls,
    Fetch, ListOffsets, Metadata, OffsetCommit, OffsetFetch, Produce, Request,
};
use kob_words::{operation_named, pattern_named, permission_named, resource_named};
use std::alloc::Global;

/// What a command asks for by the words after it.
#[tactic(auto, unfolding(crate::specs::CommandLines::request_of))]
#[inline(always)]
pub fn request_of(alloc: Global, command: Command, words: &[Word<'_>]) -> Result<Request, LineError>
    ensures { Gives result (request_of command words.now) }
{
    match command {
        Command::CreateTopic => create_topic(alloc, words),
        Command::DeleteTopic => delete_topic(alloc, words),
        Command::Metadata => metadata(alloc, words),
        Command::Produce => produce(alloc, words),
        Command::Fetch => fetch(alloc, words),
        Command::ListOffsets => list_offsets(alloc, words),
        Command::DeleteRecords => delete_records(alloc, words),
        Command::InitProducer => init_producer(words),
        Command::Commit => commit(alloc, words),
        Command::Committed => committed(alloc, words),
        Command::Groups => groups(words),
        Command::DeleteGroup => delete_group(alloc, words),
        Command::CreateAcl => create_acl(alloc, words),
        Command::DescribeAcls => {
            Ok(Request::DescribeAcls(DescribeAcls {
                filter: filter_of(alloc, words)?,
            }))
        }
        Command::DeleteAcls => {
            Ok(Request::DeleteAcls(DeleteAcls {
                filter: filter_of(alloc, words)?,
            }))
        }
    }
}

#[tactic(auto, unfolding(crate::specs::CommandLines::request_of))]
fn create_topic(alloc: Global, words: &[Word<'_>]) -> Result<Request, LineError>
    ensures { Gives result (request_of commands.CreateTopic words.now) }
{
    match words {
        [name, partitions] => Ok(Request::CreateTopics(CreateTopics {
            name: text_of(alloc, name)?,
            partitions: number_of(partitions)?,
        })),
        _ => Err(LineError::Fault(FaultKind::BadLine)),
    }
}

#[tactic(auto, unfolding(crate::specs::CommandLines::request_of))]
fn delete_topic(alloc: Global, words: &[Word<'_>]) -> Result<Request, LineError>
    ensures { Gives result (request_of commands.DeleteTopic words.now) }
{
    match words {
        [name] => Ok(Request::DeleteTopics(DeleteTopics {
            name: text_of(alloc, name)?,
        })),
        _ => Err(LineError::Fault(FaultKind::BadLine)),
    }
}

#[tactic(auto, unfolding(crate::specs::CommandLines::request_of))]
fn metadata(alloc: Global, words: &[Word<'_>]) -> Result<Request, LineError>
    ensures { Gives result (request_of commands.Metadata words.now) }
{
    match words {
        [] => Ok(Request::Metadata(Metadata { topic: None })),
        [name] => Ok(Request::Metadata(Metadata {
            topic: Some(text_of(alloc, name)?),
        })),
        _ => Err(LineError::Fault(FaultKind::BadLine)),
    }
}

#[tactic(auto, unfolding(crate::specs::CommandLines::request_of))]
#[inline(always)]
fn produce(alloc: Global, words: &[Word<'_>]) -> Result<Request, LineError>
    ensures { Gives result (request_of commands.Produce words.now) }
{
    match words {
        [topic, partition, idem, records @ ..] => Ok(Request::Produce(Produce {
            topic: text_of(alloc, topic)?,
            partition: number_of(partition)?,
            batch: Batch {
                idem: idem_of(idem)?,
                records: records_of(alloc, records)?,
            },
        })),
        _ => Err(LineError::Fault(FaultKind::BadLine)),
    }
}

#[tactic(auto, unfolding(crate::specs::CommandLines::request_of))]
#[inline(always)]
fn fetch(alloc: Global, words: &[Word<'_>]) -> Result<Request, LineError>
    ensures { Gives result (request_of commands.Fetch words.now) }
{
    match words {
        [topic, partition, offset, max] => Ok(Request::Fetch(Fetch {
            topic: text_of(alloc, topic)?,
            partition: number_of(partition)?,
            offset: number_of(offset)?,
            max: number_of(max)?,
        })),
        _ => Err(LineError::Fault(FaultKind::BadLine)),
    }
}

#[tactic(auto, unfolding(crate::specs::CommandLines::request_of))]
fn list_offsets(alloc: Global, words: &[Word<'_>]) -> Result<Request, LineError>
    ensures { Gives result (request_of commands.ListOffsets words.now) }
{
    match words {
        [topic, partition, end] => Ok(Request::ListOffsets(ListOffsets {
            topic: text_of(alloc, topic)?,
            partition: number_of(partition)?,
            which: which_of(end)?,
        })),
        _ => Err(LineError::Fault(FaultKind::BadLine)),
    }
}

#[tactic(auto, unfolding(crate::specs::CommandLines::request_of))]
fn delete_records(alloc: Global, words: &[Word<'_>]) -> Result<Request, LineError>
    ensures { Gives result (request_of commands.DeleteRecords words.now) }
{
    match words {
        [topic, partition, before] => Ok(Request::DeleteRecords(DeleteRecords {
            topic: text_of(alloc, topic)?,
            partition: number_of(partition)?,
            before: before_of(before)?,
        })),
        _ => Err(LineError::Fault(FaultKind::BadLine)),
    }
}

#[tactic(auto, unfolding(crate::specs::CommandLines::request_of))]
fn init_producer(words: &[Word<'_>]) -> Result<Request, LineError>
    ensures { Gives result (request_of commands.InitProducer words.now) }
{
    match words {
        [] => Ok(Request::InitProducerId),
        _ => Err(LineError::Fault(FaultKind::BadLine)),
    }
}

#[tactic(auto, unfolding(crate::specs::CommandLines::request_of))]
fn commit(alloc: Global, words: &[Word<'_>]) -> Result<Request, LineError>
    ensures { Gives result (request_of commands.Commit words.now) }
{
    match words {
        [group, topic, partition, offset] => Ok(Request::OffsetCommit(OffsetCommit {
            group: text_of(alloc, group)?,
            topic: text_of(alloc, topic)?,
            partition: number_of(partition)?,
            offset: number_of(offset)?,
        })),
        _ => Err(LineError::Fault(FaultKind::BadLine)),
    }
}

#[tactic(auto, unfolding(crate::specs::CommandLines::request_of))]
fn committed(alloc: Global, words: &[Word<'_>]) -> Result<Request, LineError>
    ensures { Gives result (request_of commands.Committed words.now) }
{
    match words {
        [group, topic, partition] => Ok(Request::OffsetFetch(OffsetFetch {
            group: text_of(alloc, group)?,
            topic: text_of(alloc, topic)?,
            partition: number_of(partition)?,
        })),
        _ => Err(LineError::Fault(FaultKind::BadLine)),
    }
}

#[tactic(auto, unfolding(crate::specs::CommandLines::request_of))]
fn groups(words: &[Word<'_>]) -> Result<Request, LineError>
    ensures { Gives result (request_of commands.Groups words.now) }
{
    match words {
        [] => Ok(Request::ListGroups),
        _ => Err(LineError::Fault(FaultKind::BadLine)),
    }
}

#[tactic(auto, unfolding(crate::specs::CommandLines::request_of))]
fn delete_group(alloc: Global, words: &[Word<'_>]) -> Result<Request, LineError>
    ensures { Gives result (request_of commands.DeleteGroup words.now) }
{
    match words {
        [group] => Ok(Request::DeleteGroups(DeleteGroups {
            group: text_of(alloc, group)?,
        })),
        _ => Err(LineError::Fault(FaultKind::BadLine)),
    }
}

#[tactic(auto, unfolding(crate::specs::CommandLines::request_of))]
fn create_acl(alloc: Global, words: &[Word<'_>]) -> Result<Request, LineError>
    ensures { Gives result (request_of commands.CreateAcl words.now) }
{
    let draft = draft_of(alloc, words)?;
    let drafts = Items::from_vec(vec![in alloc; draft]?);
    Ok(Request::CreateAcls(CreateAcls { drafts }))
}

#[tactic(auto, using(crate::proofs::LineWords::seven), unfolding(crate::specs::CommandLines::draft_of))]
fn draft_of(alloc: Global, words: &[Word<'_>]) -> Result<Draft, LineError>
    ensures { Gives result (draft_of words.now) }
{
    let [permission, who, from, operation, resource, pattern, name] = words else {
        return Err(LineError::Fault(FaultKind::BadLine));
    };
    Ok(Draft {
        permission: known(permission_named(permission.decoded()))?,
        operation: known(operation_named(operation.decoded()))?,
        resource: known(resource_named(resource.decoded()))?,
        pattern: Pattern {
            kind: known(pattern_named(pattern.decoded()))?,
            name: text_of(alloc, name)?,
        },
        principal: named_principal(alloc, who)?,
        host: named_host(alloc, from)?,
    })
}

#[tactic(auto, using(crate::proofs::LineWords::seven), unfolding(crate::specs::CommandLines::filter_of))]
fn filter_of(alloc: Global, words: &[Word<'_>]) -> Result<BindingFilter, LineError>
    ensures { Gives result (filter_of words.now) }
{
    let [resource, name, pattern, who, from, operation, permission] = words else {
        return Err(LineError::Fault(FaultKind::BadLine));
    };
    Ok(BindingFilter {
        resource: unless_dash(resource, named(resource_named(resource.decoded())))?,
        pattern: filter_pattern_of(pattern)?,
        operation: unless_dash(operation, named(operation_named(operation.decoded())))?,
        permission: unless_dash(permission, named(permission_named(permission.decoded())))?,
        name: text_or_any(alloc, name)?,
        principal: principal_or_any(alloc, who)?,
        host: host_or_any(alloc, from)?,
    })
}

// What a table has for a word, as part of a line.
fn named<T: Copy>(found: Option<T>) -> Result<T, LineError>
    ensures { Gives result (ok_or found kind.BadWord) }
{
    Ok(known(found)?)
}

// What was read of a word, or nothing if it is `-`.
fn unless_dash<T: Drop>(word: &Word<'_>, read: Result<T, LineError>) -> Result<Option<T>, LineError>
    ensures { (told : Result T kinds.FaultKind) → Gives read told
        → Gives result (unless_dash told word.now) }
{
    if word.is_dash() {
        return Ok(None);
    }
    Ok(Some(read?))
}
