//! The slots of a map.

ghost use Rattle.std.specs.Prelude.{◌≡◌, true};
ghost use Rattle.std.specs.Borrow.{Lends, sem};
ghost use Rattle.kob_ordered.specs.declared.slot.Slot.TheVariants.{Entry};
ghost use Rattle.kob_ordered.specs.Slots.{is_entry, name_in, with_value_in};

use kob_names::Text;

/// What is at one place of the order: an entry, or a hole where one was removed.
#[derive(Drop)]
pub(crate) enum Slot<V> {
    Hole,
    Entry(Text, V),
}

impl<V> Slot<V> {
    ghost use Rattle.kob_ordered.specs.contracts.slot.Slot.{the_row};

    /// Whether an entry is here.
    pub(crate) fn is_entry(&self) -> bool
        ensures { result ≡ is_entry self.now }
    {
        match self {
            Slot::Entry(_, _) => true,
            Slot::Hole => false,
        }
    }

    /// The value of the entry that is here.
    pub(crate) fn value_mut(&mut self) -> &mut V
        requires { is_entry self.old ≡ true }
        ensures* lends { sem 𝓛 (Lends (the_row V.row) V.row self.entry result
            (with_value_in self.entry.now)) }
        ensures value { self.old ≡ Entry (name_in self.old) result.now }
    {
        match self {
            Slot::Entry(_, value) => value,
            Slot::Hole => unreachable!(),
        }
    }
}
