//! The producers of one partition, of which there are often none.

ghost use Rattle.std.specs.Prelude.{◌≡◌, List, ℕ, OnOk, []};
ghost use Rattle.kob_producers.specs.Judge.{judge};

use crate::judge::{Judgement, judge_first};
use crate::rings::Rings;
use kob_names::Idem;
use std::alloc::{AllocError, Global};
use std::marker::Model;

/// The last five accepted batches of each producer on one partition.
///
/// It does not allocate before capacity is reserved, so that partitions without idempotent batches
/// are small. Contracts see the batches by producer, and whether a batch of a producer that has
/// none can be accepted.
#[derive(Drop)]
pub struct ProducerTable {
    alloc: Global,
    rings: Option<Box<Rings>>,
}

impl Model for ProducerTable {
    ghost use Rattle.std.specs.Prelude.{option_map};
    ghost use Rattle.kob_producers.specs.Recent.{TableKept, table_code, table_of};

    ghost Value = { TableKept };

    ghost coded = { table_code };

    ghost view = { λ t. table_of (option_map (λ rings. rings.value) t.rings) };
}

impl ProducerTable {
    ghost use Rattle.std.specs.FinMap as map;
    ghost use Rattle.kob_producers.specs.declared.sent.Sent.{Sent};
    ghost use Rattle.kob_producers.specs.Recent.{sent_by, recent_after, Keeps, with_sent};
    ghost use Rattle.kob_producers.specs.Recent.{CanAccept};

    /// A table with no batches. Does not allocate.
    pub fn new(alloc: Global) -> Self
        ensures recent { result.recent ≡ map.empty }
        ensures plain { Keeps (λ _. []) result.recent }
    {
        ProducerTable { alloc, rings: None }
    }

    /// How a batch of `count` records relates to those that its producer sent before.
    pub fn judge(&self, idem: &Idem, count: u64) -> Judgement
        ensures kept { result ≡ judge (sent_by self.now.recent idem.now.id) idem.now count }
        // It is the judgement by all batches ever accepted, whatever they were.
        ensures plain { (histories : ℕ → List Sent) → Keeps histories self.now.recent
            → result ≡ judge (histories idem.now.id) idem.now count }
    {
        match &self.rings {
            Some(rings) => rings.judge(idem, count),
            None => judge_first(idem.base),
        }
    }

    /// Reserves capacity for one batch of the producer.
    pub fn reserve(&mut self, idem: &Idem) -> Result<(), AllocError>
        ensures recent { self.new.recent ≡ self.old.recent }
        ensures room { OnOk result (CanAccept self.new idem.now.id) }
    {
        if let Some(rings) = &mut self.rings {
            return rings.reserve(idem);
        }
        let mut rings = Rings::new(self.alloc);
        rings.reserve(idem)?;
        self.rings = Some(Box::new(self.alloc, rings)?);
        Ok(())
    }

    /// Appends a batch of `count` records, whose first one has the offset, to those of its
    /// producer. Does not allocate.
    pub fn accept(&mut self, idem: &Idem, count: u64, offset: u64)
        requires { CanAccept self.old idem.now.id }
        ensures recent { self.new.recent ≡ recent_after self.old.recent idem.now count offset }
        ensures plain { (histories : ℕ → List Sent) → Keeps histories self.old.recent
            → Keeps (with_sent histories idem.now count offset) self.new.recent }
    {
        if let Some(rings) = &mut self.rings {
            rings.accept(idem, count, offset);
        }
    }
}
