//! The next sequence on each partition.

ghost use Rattle.std.specs.Prelude.{◌≡◌, [], OnErr, OnOk, true};
ghost use Rattle.kob_router.specs.Run.{has_place, with_sequence_for, sequence_of, after_use};

use crate::place::{Place, is_same_place};
use kob_names::PlainValue;
use kob_producers::next_sequence;
use std::alloc::{AllocError, Global};
use std::marker::Model;

/// The next sequence on a partition.
#[derive(Debug, Drop)]
pub struct Sequence {
    pub place: Place,
    pub next: u64,
}

/// The next sequence on each partition that was sent to.
#[derive(Debug, Drop)]
pub struct Sequences {
    items: Vec<Sequence>,
}

impl Model for Sequences {
    ghost use Rattle.std.specs.Prelude.{List};
    ghost use Rattle.kob_router.specs.declared.sequences.Sequence.{Sequence};

    ghost Value = { List Sequence };

    ghost view = { λ sequences. sequences.items.items };
}

impl Sequences {
    /// No partition has a sequence yet. Does not allocate.
    pub fn new(alloc: Global) -> Sequences
        ensures { result ≡ [] }
    {
        Sequences {
            items: Vec::new(alloc),
        }
    }

    /// The next sequence of a place, 0 if none was used.
    pub fn next(&self, place: &Place) -> u64
        ensures { result ≡ sequence_of self.now place.now }
    {
        sequence_of(&self.items, place)
    }

    /// Uses one sequence of a place that has one. Does not allocate.
    pub fn use_one(&mut self, place: &Place)
        requires { has_place self.old place.now ≡ true }
        ensures { self.new ≡ after_use self.old place.now }
    {
        use_one(&mut self.items, place)
    }

    /// Reserves capacity for a place, if it has none. The error is out of memory.
    pub fn prepare(&mut self, alloc: Global, place: &Place) -> Result<(), AllocError>
        ensures ok { OnOk result (self.new ≡ with_sequence_for self.old place.now) }
        ensures err { OnErr result (self.new ≡ self.old) }
    {
        if has_place(&self.items, place) {
            return Ok(());
        }
        let place = place.copy(alloc)?;
        self.items.push(Sequence { place, next: 0 })?;
        Ok(())
    }

    /// Forgets all. Does not allocate.
    pub fn clear(&mut self)
        ensures { self.new ≡ [] }
    {
        self.items.clear();
    }
}

fn sequence_of(sequences: &[Sequence], place: &Place) -> u64
    ensures { result ≡ sequence_of sequences.now place.now }
{
    for sequence in sequences {
        if is_same_place(&sequence.place, place) {
            return sequence.next;
        }
    }
    0
}

fn use_one(sequences: &mut [Sequence], place: &Place)
    requires { has_place sequences.old place.now ≡ true }
    ensures { sequences.new ≡ after_use sequences.old place.now }
{
    for i in 0..sequences.len() {
        let sequence = &mut sequences[i];
        if is_same_place(&sequence.place, place) {
            sequence.next = next_sequence(sequence.next);
            return;
        }
    }
}

fn has_place(sequences: &[Sequence], place: &Place) -> bool
    ensures { result ≡ has_place sequences.now place.now }
{
    sequences
        .iter()
        .any(|sequence| is_same_place(&sequence.place, place))
}
