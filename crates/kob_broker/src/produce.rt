//! A batch appended to a partition, and the ids of producers.

ghost use Rattle.std.specs.Prelude.{◌≡◌, IfOk, None, OnErr, OnOk};
ghost use Rattle.kob_broker.specs.Step.{MakesFor, NeedsMemory, request_left, state_of};
ghost use Rattle.kob_broker.specs.Batches.{IsBatchOutcome, left_by, prepared_for};
ghost use Rattle.kob_broker.specs.Batches.{TakesBatch, refusal_by};
ghost use Rattle.kob_broker.specs.Records.{batch_reasons};
ghost use Rattle.kob_broker.specs.Denial.{first_reason};
ghost use Rattle.kob_partition.specs.Retained.{retained_meaning};
ghost use Rattle.kob_rights.specs.declared.request.Request.TheVariants as requests;

use crate::batch_outcome::BatchOutcome;
use crate::batch_size::room_after_records;
use crate::broker::Broker;
use crate::limits::{BATCH_BYTE_LIMIT, EPOCH_LIMIT, PRODUCER_LIMIT, RECORD_LIMIT, SEQUENCE_LIMIT};
use crate::prepared::{Change, Prepared};
use kob_catalog::PartitionFault;
use kob_names::{Batch, Items, PlainValue, Text};
use kob_partition::{AppendFault, PartitionLog, Placement};
use kob_rights::{Body, Produce, Reason};
use std::alloc::{AllocError, Global};
use std::mem;

impl Broker {
    pub(crate) fn prepare_produce(
        &mut self,
        alloc: Global,
        produce: &Produce,
    ) -> Result<Prepared, AllocError>
        ensures state { state_of self.new ≡ state_of self.old }
        ensures ok { IfOk result (MakesFor (requests.Produce produce.now) self.new) }
        ensures memory { OnErr result (NeedsMemory retained_meaning (state_of self.old)
            (requests.Produce produce.now)) }
    {
        match self.outcome(produce)? {
            BatchOutcome::Refused(reason) => Ok(Prepared::refused(reason)),
            BatchOutcome::Repeated(offset) => {
                Ok(Prepared::done(Body::Offset(offset), Change::Unchanged))
            }
            BatchOutcome::Appended(offset) => {
                let copy = produce.copy(alloc)?;
                Ok(Prepared::done(Body::Offset(offset), Change::Append(copy)))
            }
        }
    }

    /// The same, but a batch that is appended is moved out of the request.
    pub(crate) fn prepare_produce_taking(
        &mut self,
        alloc: Global,
        produce: &mut Produce,
    ) -> Result<Prepared, AllocError>
        ensures state { state_of self.new ≡ state_of self.old }
        ensures ok { IfOk result (MakesFor (requests.Produce produce.old) self.new) }
        ensures memory { OnErr result (NeedsMemory retained_meaning (state_of self.old)
            (requests.Produce produce.old)) }
        ensures left { OnOk result (requests.Produce produce.new
            ≡ request_left retained_meaning (state_of self.old) (requests.Produce produce.old)) }
        ensures same { OnErr result (produce.new ≡ produce.old) }
    {
        match self.outcome(produce)? {
            BatchOutcome::Refused(reason) => Ok(Prepared::refused(reason)),
            BatchOutcome::Repeated(offset) => {
                Ok(Prepared::done(Body::Offset(offset), Change::Unchanged))
            }
            BatchOutcome::Appended(offset) => {
                let empty = Produce {
                    topic: Text::from_string(String::new(alloc)),
                    partition: 0,
                    batch: Batch {
                        idem: None,
                        records: Items::from_vec(Vec::new(alloc)),
                    },
                };
                let taken = mem::replace(produce, empty);
                Ok(Prepared::done(Body::Offset(offset), Change::Append(taken)))
            }
        }
    }

    /// What becomes of the batch. Nothing is copied, and the topic is looked up once.
    fn outcome(&mut self, produce: &Produce) -> Result<BatchOutcome, AllocError>
        ensures state { state_of self.new ≡ state_of self.old }
        ensures ok { IfOk result (λ outcome. MakesFor (requests.Produce produce.now) self.new
            (prepared_for produce.now outcome)) }
        ensures memory { OnErr result (NeedsMemory retained_meaning (state_of self.old)
            (requests.Produce produce.now)) }
        ensures taken { IfOk result (λ outcome. TakesBatch outcome
            → NeedsMemory retained_meaning (state_of self.old) (requests.Produce produce.now)) }
        ensures left { IfOk result (λ outcome. requests.Produce (left_by outcome produce.now)
            ≡ request_left retained_meaning (state_of self.old) (requests.Produce produce.now)) }
    {
        let next_producer = self.next_producer;
        match self
            .catalog
            .partition_mut(&produce.topic, produce.partition as usize)
        {
            Ok(log) => outcome_in(log, &produce.batch, next_producer),
            Err(PartitionFault::UnknownTopic) => Ok(BatchOutcome::Refused(Reason::UnknownTopic)),
            Err(PartitionFault::UnknownPartition) => Ok(BatchOutcome::Refused(
                Reason::UnknownPartition,
            )),
        }
    }

    pub(crate) fn prepare_init_producer_id(&self) -> Prepared
        ensures { MakesFor requests.InitProducerId self.now result }
    {
        let id = self.next_producer;
        if id >= PRODUCER_LIMIT {
            return Prepared::refused(Reason::ProducerIdsSpent);
        }
        Prepared::done(Body::Producer { id, epoch: 0 }, Change::GiveProducer)
    }
}

/// What becomes of a batch in a partition. If it is appended, capacity is reserved for it.
#[tactic(auto, using(crate::proofs::BatchOutcomes::bad_is, crate::proofs::BatchOutcomes::told_is, crate::proofs::BatchOutcomes::memory_told))]
fn outcome_in(
    log: &mut PartitionLog,
    batch: &Batch,
    next_producer: u64,
) -> Result<BatchOutcome, AllocError>
    ensures kept { log.new.kept ≡ log.old.kept }
    ensures ok { IfOk result (IsBatchOutcome next_producer log.new batch.now) }
    ensures memory { OnErr result (refusal_by next_producer log.new batch.now ≡ None) }
{
    if let Some(reason) = against_batch(batch, next_producer) {
        return Ok(BatchOutcome::Refused(reason));
    }
    match log.prepare_append(batch) {
        Ok(Placement::New(offset)) => Ok(BatchOutcome::Appended(offset)),
        Ok(Placement::Repeated(offset)) => Ok(BatchOutcome::Repeated(offset)),
        Err(AppendFault::OldEpoch) => Ok(BatchOutcome::Refused(Reason::OldEpoch)),
        Err(AppendFault::OutOfOrder) => Ok(BatchOutcome::Refused(Reason::OutOfOrder)),
        Err(AppendFault::OffsetsSpent) => Ok(BatchOutcome::Refused(Reason::OffsetsSpent)),
        Err(AppendFault::Memory(refused)) => Err(refused),
    }
}

/// The first reason to refuse a batch, whatever its partition.
fn against_batch(batch: &Batch, next_producer: u64) -> Option<Reason>
    ensures { result ≡ first_reason (batch_reasons next_producer batch.now) }
{
    let count = batch.records.len();
    if count == 0 {
        return Some(Reason::NoRecords);
    }
    if count > RECORD_LIMIT {
        return Some(Reason::TooManyRecords);
    }
    if room_after_records(batch.records.as_slice(), BATCH_BYTE_LIMIT).is_none() {
        return Some(Reason::TooLarge);
    }
    if let Some(idem) = &batch.idem {
        if idem.epoch > EPOCH_LIMIT || idem.base > SEQUENCE_LIMIT {
            return Some(Reason::BadSequence);
        }
        if idem.id >= next_producer {
            return Some(Reason::UnknownProducer);
        }
    }
    None
}
