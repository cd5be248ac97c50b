//! What follows for every legal journal. These functions do nothing: their contracts are the laws.

ghost use Rattle.std.specs.Prelude.{List, ◌++◌};
ghost use Rattle.kob_broker.specs.State.{State};
ghost use Rattle.kob_names.specs.declared.settings.Settings.{Settings};
ghost use Rattle.kob_partition.specs.Retained.{Retained};
ghost use Rattle.kob_shared.specs.Journals.{EachEntryIsJust, EachEntryIsOneStep, IsLegal};
ghost use Rattle.kob_shared.specs.Journals.{opened_by};
ghost use Rattle.kob_shared.specs.declared.journal.Entry.{Entry};

/// Each entry of a legal journal is served exactly if the bindings in force after the entries
/// before it grant every right. Any workers may have made those. So once a change of bindings is
/// done, every later entry is decided with it.
pub fn each_entry_is_just()
    ensures { (opening : Settings) (journal : List Entry) (now : State Retained)
        → IsLegal (opened_by opening) journal now → EachEntryIsJust opening journal }
{
    // The contract is the law.
}

/// Each entry of a legal journal has the reply of one step from the state after the entries before
/// it, whichever workers made those. So a worker reads its own writes.
pub fn each_entry_is_one_step()
    ensures { (opening : Settings) (journal : List Entry) (now : State Retained)
        → IsLegal (opened_by opening) journal now → EachEntryIsOneStep opening journal }
{
    // The contract is the law.
}

/// A journal that begins where a legal one ends continues it: the two together are legal, from
/// where the first begins.
pub fn journals_in_turn_are_legal()
    ensures { (begins : State Retained) (first : List Entry) (between : State Retained)
        (second : List Entry) (now : State Retained)
        → IsLegal begins first between → IsLegal between second now
        → IsLegal begins (first ++ second) now }
{
    // The contract is the law.
}
