//! How often a row stands on a partition. This function does nothing: its contract is the law.

ghost use Rattle.std.specs.Prelude.{◌+◌, ◌≤◌, List, ℕ};
ghost use Rattle.kob_partition.specs.Retained.{records_of};
ghost use Rattle.kob_router.specs.Run.{Move as RouterMove, State as RouterState};
ghost use Rattle.kob_router.specs.declared.dispatch.Target.{Target};
ghost use Rattle.kob_router.specs.declared.place.Place.{Place};
ghost use Rattle.kob_shared.specs.declared.journal.Entry.{Entry};
ghost use Rattle.kob_delivery.specs.Repeats.{copies_of, restarts_of};
ghost use Rattle.kob_delivery.specs.Served.{IsServicePart};
ghost use Rattle.kob_delivery.specs.View.{IsHistory, IsNeverDeleted, IsSoleProducer};
ghost use Rattle.kob_delivery.specs.View.{View, opening_view};

/// Take a partition of a topic to which only the service sends, and that nobody deletes. No event
/// id is there in more records than the router was started: in one, and in one more for each
/// restart. So lost calls and repeated batches alone put no record there twice: the broker answers
/// a repeat and does not append it.
pub fn a_row_is_appended_once_a_start()
    ensures { (target : Target) (worker : ℕ) (journal : List Entry) (view : View)
        (moves : List RouterMove) (now : RouterState) (place : Place) (id : List ℕ)
        → IsHistory opening_view journal view
        → IsServicePart target worker journal moves now
        → IsSoleProducer worker place.topic journal
        → IsNeverDeleted place.topic journal
        → copies_of id (records_of (view.log place)) ≤ 1 + restarts_of moves }
{
    // The contract is the law.
}
