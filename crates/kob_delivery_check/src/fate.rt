//! Where an event is.

ghost use Rattle.std.specs.Prelude.{◌≡◌, ◌==◌, nat_eq};
ghost use Rattle.std.specs.HashSet.{contains};
ghost use Rattle.std.specs.List.{find};
ghost use Rattle.std.specs.Option.{option_copied};
ghost use Rattle.kob_delivery_check.specs.Fates.{fate_by, is_delivered, is_lost, is_waiting};

use crate::reach::Stored;
use std::collections::HashSet;

/// Where an event is.
#[derive(Clone, Copy, Debug)]
pub enum Fate {
    /// In the inbox, with its key and value.
    Delivered,
    /// In a partition of the consumer, at or after the consumer's position: the number of the
    /// partition in the assignment, and the record's offset.
    Ahead { assigned: usize, offset: u64 },
    /// In the outbox, after the mark.
    Outbox,
    /// In none of these: no tick of the service and of the consumer takes it in.
    Lost,
}

/// Where the event with this id is.
pub(crate) fn fate_by(
    taken: &HashSet<u128>,
    ahead: &[Stored],
    waiting: &HashSet<u128>,
    event: u128,
) -> Fate
    ensures { result ≡ fate_by (contains nat_eq taken.now event) ahead.now
        (contains nat_eq waiting.now event) event }
{
    if taken.contains(&event) {
        return Fate::Delivered;
    }
    match first_of(ahead, event) {
        Some(stored) => Fate::Ahead {
            assigned: stored.assigned,
            offset: stored.offset,
        },
        None if waiting.contains(&event) => Fate::Outbox,
        None => Fate::Lost,
    }
}

/// The first record of an event.
fn first_of(stored: &[Stored], event: u128) -> Option<&Stored>
    ensures { option_copied result ≡ find (λ s. s.event == event) stored.now }
{
    stored.iter().find(|stored| stored.event == event)
}

impl Fate {
    /// Whether the event is in the inbox.
    pub fn is_delivered(self) -> bool
        ensures { result ≡ is_delivered self }
    {
        match self {
            Fate::Delivered => true,
            _ => false,
        }
    }

    pub(crate) fn is_waiting(self) -> bool
        ensures { result ≡ is_waiting self }
    {
        match self {
            Fate::Ahead { .. } | Fate::Outbox => true,
            _ => false,
        }
    }

    /// Whether no tick takes the event in.
    pub fn is_lost(self) -> bool
        ensures { result ≡ is_lost self }
    {
        match self {
            Fate::Lost => true,
            _ => false,
        }
    }
}
