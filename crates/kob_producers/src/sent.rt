//! What is kept of a batch that was accepted.

ghost use Rattle.std.specs.Prelude.{◌≡◌};

use kob_names::Idem;

/// An accepted batch of a producer: its epoch, the sequence of its first record, how many records
/// it has, and the offset of the first one.
#[derive(Clone, Copy, Debug, PartialEq, Eq)]
pub struct Sent {
    pub epoch: u64,
    pub base: u64,
    pub count: u64,
    pub offset: u64,
}

impl Sent {
    ghost use Rattle.kob_producers.specs.Recent.{sent_batch};

    /// What is kept of a batch of `count` records that was accepted at an offset.
    pub(crate) fn new(idem: &Idem, count: u64, offset: u64) -> Self
        ensures { result ≡ sent_batch idem.now count offset }
    {
        Sent {
            epoch: idem.epoch,
            base: idem.base,
            count,
            offset,
        }
    }
}
