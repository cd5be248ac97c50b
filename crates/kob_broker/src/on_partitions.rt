//! What is done about the records of a partition, except for a batch.

ghost use Rattle.std.specs.Prelude.{◌≡◌, ◌≢◌, IfErr, IfOk, None, OnErr, OnOk, Some, true};
ghost use Rattle.kob_broker.specs.Step.{IsLent, MakesFor, NeedsMemory, state_of};
ghost use Rattle.kob_broker.specs.Denial.{IsUnnamed, denial_of};
ghost use Rattle.kob_catalog.specs.Kept.{topics_of};
ghost use Rattle.kob_catalog.specs.Topics.{has_topic, partition_of};
ghost use Rattle.kob_partition.specs.Retained.{retained_meaning};
ghost use Rattle.kob_rights.specs.declared.request.Request.TheVariants as requests;

use crate::broker::Broker;
use crate::denial::denial_of;
use crate::prepared::{Change, Prepared};
use kob_catalog::PartitionFault;
use kob_names::{PlainValue, Text};
use kob_partition::{AdvanceFault, FetchFault, LentRecords, PartitionLog};
use kob_rights::{Before, Body, DeleteRecords, Event, Fetch, ListOffsets, Reason, Request, Which};
use std::alloc::{AllocError, Global};

impl Broker {
    /// The partition of that number of the topic of that name, or the reason to refuse a request
    /// that names it.
    pub(crate) fn named(&self, topic: &Text, partition: u64) -> Result<&PartitionLog, Reason>
        ensures log { IfOk result
            (λ log. partition_of topic.now partition self.now.catalog.logs ≡ Some log.now) }
        ensures found { IfOk result (λ log.
            partition_of topic.now partition (topics_of self.now.catalog) ≡ Some log.now.kept) }
        ensures topic { OnOk result (has_topic topic.now (topics_of self.now.catalog) ≡ true) }
        ensures refused { IfErr result (IsUnnamed topic.now (topics_of self.now.catalog)
            (partition_of topic.now partition (topics_of self.now.catalog))) }
    {
        match self.catalog.partition(topic, partition as usize) {
            Ok(log) => Ok(log),
            Err(PartitionFault::UnknownTopic) => Err(Reason::UnknownTopic),
            Err(PartitionFault::UnknownPartition) => Err(Reason::UnknownPartition),
        }
    }

    pub(crate) fn prepare_fetch(&self, alloc: Global, fetch: &Fetch) -> Result<Prepared, AllocError>
        ensures ok { IfOk result (MakesFor (requests.Fetch fetch.now) self.now) }
        ensures memory { OnErr result (NeedsMemory retained_meaning (state_of self.now)
            (requests.Fetch fetch.now)) }
    {
        let log = match self.named(&fetch.topic, fetch.partition) {
            Ok(log) => log,
            Err(reason) => return Ok(Prepared::refused(reason)),
        };
        match log.fetch(alloc, fetch.offset, fetch.max) {
            Ok(records) => Ok(Prepared::done(Body::Records(records), Change::Unchanged)),
            Err(FetchFault::OutOfRange) => Ok(Prepared::refused(Reason::OutOfRange)),
            Err(FetchFault::Memory(refused)) => Err(refused),
        }
    }

    /// The records of the reply to a FETCH that is done, lent from the log, where `serve` copies them.
    /// Nothing is lent if the FETCH is denied or refused, or for any other request. The error is out
    /// of memory, which only a denial can meet.
    pub fn lend_records(
        &self,
        alloc: Global,
        event: &Event,
    ) -> Result<Option<LentRecords<'_>>, AllocError>
        ensures lent { IfOk result (IsLent (state_of self.now) event.now) }
        ensures memory { OnErr result (denial_of (state_of self.now).access event.now ≢ None) }
    {
        let Request::Fetch(fetch) = &event.request else {
            return Ok(None);
        };
        if denial_of(alloc, &self.authorizer, event)?.is_some() {
            return Ok(None);
        }
        match self.named(&fetch.topic, fetch.partition) {
            Ok(log) => Ok(log.lend(fetch.offset, fetch.max)),
            Err(_) => Ok(None),
        }
    }

    pub(crate) fn prepare_list_offsets(&self, asked: &ListOffsets) -> Prepared
        ensures { MakesFor (requests.ListOffsets asked.now) self.now result }
    {
        let log = match self.named(&asked.topic, asked.partition) {
            Ok(log) => log,
            Err(reason) => return Prepared::refused(reason),
        };
        let offset = match asked.which {
            Which::Start => log.start(),
            Which::End => log.end(),
        };
        Prepared::done(Body::Offset(offset), Change::Unchanged)
    }

    pub(crate) fn prepare_delete_records(
        &self,
        alloc: Global,
        delete: &DeleteRecords,
    ) -> Result<Prepared, AllocError>
        ensures ok { IfOk result (MakesFor (requests.DeleteRecords delete.now) self.now) }
        ensures memory { OnErr result (NeedsMemory retained_meaning (state_of self.now)
            (requests.DeleteRecords delete.now)) }
    {
        let log = match self.named(&delete.topic, delete.partition) {
            Ok(log) => log,
            Err(reason) => return Ok(Prepared::refused(reason)),
        };
        let offset = match delete.before {
            Before::Offset(offset) => offset,
            Before::End => log.end(),
        };
        match log.prepare_advance(offset) {
            Ok(start) => {
                let topic = delete.topic.copy(alloc)?;
                let change = Change::AdvanceStart(topic, delete.partition as usize, offset);
                Ok(Prepared::done(Body::Start(start), change))
            }
            Err(AdvanceFault::OutOfRange) => Ok(Prepared::refused(Reason::OutOfRange)),
        }
    }
}
