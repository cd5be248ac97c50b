//! The last batches of each producer that sent any.

ghost use Rattle.std.specs.Prelude.{◌≡◌, ◌<◌, OnOk, IfSome, IsSome, Some, nat_eq};
ghost use Rattle.std.specs.HashMap.{spare, Updates};
ghost use Rattle.kob_producers.specs.Judge.{judge};
ghost use Rattle.kob_producers.specs.Recent.{IsFresh};

use crate::judge::{Judgement, judge_first, judge_ring};
use crate::sent::Sent;
use circular_buffer::HeapCircularBuffer;
use kob_names::Idem;
use std::alloc::{AllocError, Global};
use std::collections::HashMap;
use std::marker::Model;

/// The number of batches that are kept of a producer.
const REMEMBERED: usize = 5;

type Ring = HeapCircularBuffer<Sent>;

/// A ring of the last five accepted batches of each producer, and a spare ring for a producer that
/// has none.
#[derive(Drop)]
pub(crate) struct Rings {
    alloc: Global,
    kept: HashMap<u64, Ring>,
    fresh: Option<Ring>,
}

impl Model for Rings {
    ghost use Rattle.std.specs.Prelude.{◌&&◌, nat_lt, is_some, IfSome};
    ghost use Rattle.std.specs.HashMap.{spare};
    ghost use Rattle.kob_producers.specs.Recent.{recent_in, HasRings, IsFresh, TableKept};
    ghost use Rattle.kob_producers.specs.Recent.{table_code};

    ghost Value = { TableKept };

    ghost coded = { table_code };

    ghost view = { λ r. record {
      recent = recent_in r.kept.entries;
      ready = is_some r.fresh && nat_lt 0 (spare r.kept);
    } };

    ghost invariant = { λ r. HasRings r.kept × IfSome r.fresh IsFresh };
}

impl Rings {
    ghost use Rattle.std.specs.FinMap as map;
    ghost use Rattle.kob_producers.specs.Recent.{sent_by, recent_after, CanAccept};

    /// No rings. Does not allocate.
    pub(crate) fn new(alloc: Global) -> Self
        ensures { result.recent ≡ map.empty }
    {
        Rings {
            alloc,
            kept: HashMap::new(alloc),
            fresh: None,
        }
    }

    /// How a batch of `count` records relates to those that its producer sent before.
    pub(crate) fn judge(&self, idem: &Idem, count: u64) -> Judgement
        ensures { result ≡ judge (sent_by self.now.recent idem.now.id) idem.now count }
    {
        match self.kept.get(&idem.id) {
            Some(ring) => judge_ring(ring, idem, count),
            None => judge_first(idem.base),
        }
    }

    /// Reserves capacity for one batch of the producer.
    pub(crate) fn reserve(&mut self, idem: &Idem) -> Result<(), AllocError>
        ensures recent { self.new.recent ≡ self.old.recent }
        ensures room { OnOk result (CanAccept self.new idem.now.id) }
    {
        if self.kept.contains_key(&idem.id) {
            return Ok(());
        }
        fill(&mut self.fresh, self.alloc)?;
        self.kept.reserve(1)
    }

    /// Appends a batch of `count` records, whose first one has the offset, to those of its
    /// producer. Does not allocate.
    pub(crate) fn accept(&mut self, idem: &Idem, count: u64, offset: u64)
        requires { CanAccept self.old idem.now.id }
        ensures { self.new.recent ≡ recent_after self.old.recent idem.now count offset }
    {
        let sent = Sent::new(idem, count, offset);
        if let Some(ring) = self.kept.get_mut(&idem.id) {
            ring.push_back(sent);
            return;
        }
        if let Some(mut ring) = self.fresh.take() {
            ring.push_back(sent);
            insert_reserved(&mut self.kept, idem.id, ring);
        }
    }
}

/// Makes the spare ring, if there is none.
fn fill(fresh: &mut Option<Ring>, alloc: Global) -> Result<(), AllocError>
    requires { IfSome fresh.old IsFresh }
    ensures fresh { IfSome fresh.new IsFresh }
    ensures ok { OnOk result (IsSome fresh.new) }
{
    if fresh.is_none() {
        *fresh = Some(HeapCircularBuffer::with_capacity(alloc, REMEMBERED)?);
    }
    Ok(())
}

/// Inserts a ring, for which capacity is reserved.
fn insert_reserved(rings: &mut HashMap<u64, Ring>, producer: u64, ring: Ring)
    requires { 0 < spare rings.old }
    ensures { Updates nat_eq rings.old rings.new producer (Some ring) }
{
    let _ = rings.insert(producer, ring);
}
