//! What follows for every legal journal. This function does nothing: its contract is the law.

ghost use Rattle.std.specs.Prelude.{List};
ghost use Rattle.kob_broker.specs.State.{State};
ghost use Rattle.kob_names.specs.declared.settings.Settings.{Settings};
ghost use Rattle.kob_partition.specs.Retained.{Retained};
ghost use Rattle.kob_delivery.specs.View.{view_after, IsHistory, opening_view};
ghost use Rattle.kob_shared.specs.Journals.{IsLegal, opened_by};
ghost use Rattle.kob_shared.specs.declared.journal.Entry.{Entry};

/// A legal journal is a history of what the laws of delivery see: of each partition all batches
/// that it ever accepted, of each group its commits, and the producer ids that were given.
pub fn a_legal_journal_is_a_history()
    ensures { (opening : Settings) (journal : List Entry) (now : State Retained)
        → IsLegal (opened_by opening) journal now
        → IsHistory opening_view journal (view_after opening journal) }
{
    // The contract is the law.
}
