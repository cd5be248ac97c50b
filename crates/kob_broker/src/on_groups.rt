//! What is done about groups and their commits.

ghost use Rattle.std.specs.Prelude.{◌≡◌, IfOk, OnErr, is_some};
ghost use Rattle.kob_broker.specs.Step.{MakesFor, NeedsMemory, state_of, Makes, effect};
ghost use Rattle.kob_broker.specs.Groups.{groups_shown};
ghost use Rattle.kob_names.specs.TextRules.{group_fault};
ghost use Rattle.kob_partition.specs.Retained.{retained_meaning};
ghost use Rattle.kob_rights.specs.declared.request.Request.TheVariants as requests;

use crate::broker::Broker;
use crate::describing::{describes_cluster, describes_group};
use crate::prepared::{Change, Prepared};
use kob_authorizer::Authorizer;
use kob_groups::CommitFault;
use kob_names::{Items, NAME_LIMIT, PlainValue, Text};
use kob_partition::OFFSET_LIMIT;
use kob_rights::{Body, DeleteGroups, Event, OffsetCommit, OffsetFetch, Reason};
use std::alloc::{AllocError, Global};

impl Broker {
    pub(crate) fn prepare_offset_commit(
        &mut self,
        alloc: Global,
        commit: &OffsetCommit,
    ) -> Result<Prepared, AllocError>
        ensures state { state_of self.new ≡ state_of self.old }
        ensures ok { IfOk result (MakesFor (requests.OffsetCommit commit.now) self.new) }
        ensures memory { OnErr result (NeedsMemory retained_meaning (state_of self.old)
            (requests.OffsetCommit commit.now)) }
    {
        if is_bad_group_name(&commit.group) {
            return Ok(Prepared::refused(Reason::BadGroupName));
        }
        if let Err(reason) = self.named(&commit.topic, commit.partition) {
            return Ok(Prepared::refused(reason));
        }
        if commit.offset > OFFSET_LIMIT {
            return Ok(Prepared::refused(Reason::BadOffset));
        }
        match self.groups.prepare_commit(
            alloc,
            &commit.group,
            &commit.topic,
            commit.partition,
            commit.offset,
        ) {
            Ok(made) => Ok(Prepared::done(Body::Committed, Change::Commit(made))),
            Err(CommitFault::TooMany) => Ok(Prepared::refused(Reason::TooManyGroups)),
            Err(CommitFault::Memory(refused)) => Err(refused),
        }
    }

    pub(crate) fn prepare_offset_fetch(&self, asked: &OffsetFetch) -> Prepared
        ensures { MakesFor (requests.OffsetFetch asked.now) self.now result }
    {
        if is_bad_group_name(&asked.group) {
            return Prepared::refused(Reason::BadGroupName);
        }
        let committed = self
            .groups
            .fetch(&asked.group, &asked.topic, asked.partition);
        Prepared::done(Body::Commit(committed), Change::Unchanged)
    }

    pub(crate) fn prepare_list_groups(
        &self,
        alloc: Global,
        event: &Event,
    ) -> Result<Prepared, AllocError>
        ensures { IfOk result
            (Makes (effect retained_meaning
            (state_of self.now) event.now requests.ListGroups) self.now) }
    {
        let names = self.groups.names(alloc)?.into_vec();
        let shown = shown_of(&self.authorizer, event, names);
        Ok(Prepared::done(Body::Groups(Items::from_vec(shown)), Change::Unchanged))
    }

    pub(crate) fn prepare_delete_groups(
        &self,
        alloc: Global,
        delete: &DeleteGroups,
    ) -> Result<Prepared, AllocError>
        ensures ok { IfOk result (MakesFor (requests.DeleteGroups delete.now) self.now) }
        ensures memory { OnErr result (NeedsMemory retained_meaning (state_of self.now)
            (requests.DeleteGroups delete.now)) }
    {
        if is_bad_group_name(&delete.group) {
            return Ok(Prepared::refused(Reason::BadGroupName));
        }
        if !self.groups.contains(&delete.group) {
            return Ok(Prepared::refused(Reason::GroupNotFound));
        }
        let group = delete.group.copy(alloc)?;
        Ok(Prepared::done(Body::Deleted, Change::RemoveGroup(group)))
    }
}

/// Whether the text is not a valid group name.
pub(crate) fn is_bad_group_name(group: &Text) -> bool
    ensures { result ≡ is_some (group_fault group.now) }
{
    group.len() == 0 || group.len() > NAME_LIMIT
}

/// Those of the names that a reply lists.
fn shown_of(authorizer: &Authorizer, event: &Event, mut names: Vec<Text>) -> Vec<Text>
    ensures { result.items ≡ groups_shown authorizer.now.contents event.now names.items }
{
    if !describes_cluster(authorizer, event) {
        names.retain(|name| describes_group(authorizer, event, name));
    }
    names
}
