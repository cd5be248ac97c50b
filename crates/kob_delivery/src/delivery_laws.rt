//! The laws of delivery: what a journal says of a service's outbox, of topics and of inboxes.

ghost use Rattle.std.specs.Prelude.{List, ℕ};
ghost use Rattle.std.specs.List.{AllByRecursion};
ghost use Rattle.kob_inbox.specs.Run.{taken_of, Move as ConsumerMove, State as ConsumerState};
ghost use Rattle.kob_inbox.specs.declared.fetcher.Subscription.{Subscription};
ghost use Rattle.kob_partition.specs.Retained.{records_of};
ghost use Rattle.kob_router.specs.Run.{dispatch_of, Move as RouterMove, State as RouterState};
ghost use Rattle.kob_router.specs.declared.dispatch.Target.{Target};
ghost use Rattle.kob_router.specs.declared.place.Place.{Place};
ghost use Rattle.kob_shared.specs.declared.journal.Entry.{Entry};
ghost use Rattle.kob_delivery.specs.Delivered.{IsTakenInOrder, IsDelivered, rows_of, ReachesInOrder};
ghost use Rattle.kob_delivery.specs.Delivered.{IsWaitingOrSent};
ghost use Rattle.kob_delivery.specs.Served.{IsConsumerPart, IsServicePart};
ghost use Rattle.kob_delivery.specs.View.{ArePrivate, IsNeverDeleted, IsSoleCommitter};
ghost use Rattle.kob_delivery.specs.View.{IsSoleProducer, IsHistory, View, opening_view};

/// Take a partition of a topic to which only the service sends, and that nobody deletes. Its event
/// ids, each at its first offset, are a prefix of those of the recorded rows that are routed there.
/// Each record is what the route makes of a row. So lost replies, repeats and restarts put no row
/// before an earlier one, and leave none out.
pub fn a_partition_holds_what_was_routed()
    ensures { (target : Target) (worker : ℕ) (journal : List Entry) (view : View)
        (moves : List RouterMove) (now : RouterState) (place : Place)
        → IsHistory opening_view journal view
        → IsServicePart target worker journal moves now
        → IsSoleProducer worker place.topic journal
        → IsNeverDeleted place.topic journal
        → IsDelivered (dispatch_of target) place (rows_of moves) (records_of (view.log place)) }
{
    // By the definitions.
}

/// Take a partition of a topic on which only the consumer commits for its group, and that nobody
/// deletes. The consumer takes in the offsets there up to some bound, each for the first time after
/// all lower ones, with their records.
pub fn a_consumer_takes_each_offset_in_order()
    ensures { (t : Subscription) (worker : ℕ) (journal : List Entry) (view : View)
        (moves : List ConsumerMove) (now : ConsumerState) (place : Place)
        → IsHistory opening_view journal view
        → IsConsumerPart t worker journal moves now
        → IsSoleCommitter worker t.group place.topic journal
        → IsNeverDeleted place.topic journal
        → IsTakenInOrder place (records_of (view.log place)) (taken_of moves) }
{
    // By the definitions.
}

/// The premises: only the service sends to the topics of the consumer's assignment, only the
/// consumer commits for its group on them, and nobody deletes them. Then the inbox holds of each
/// aggregate a prefix of its recorded events. They are in their order, each once, with its row's
/// key and value.
pub fn an_inbox_holds_a_prefix_of_each_aggregate()
    ensures { (target : Target) (t : Subscription) (sender taker : ℕ) (journal : List Entry)
        (view : View) (sends : List RouterMove) (service : RouterState)
        (takes : List ConsumerMove) (consumer : ConsumerState) (kind id : List ℕ)
        → IsHistory opening_view journal view
        → IsServicePart target sender journal sends service
        → IsConsumerPart t taker journal takes consumer
        → ArePrivate sender taker t.group t.assignment journal
        → ReachesInOrder (rows_of sends) consumer.inbox kind id }
{
    // By the definitions.
}

/// Each recorded row is in the outbox past the mark, or the journal has a PRODUCE of this row's
/// record that is done. It is from the service, to the place where the row is routed. There is no
/// premise on the journal, whatever others do.
pub fn a_row_waits_or_was_sent()
    ensures { (target : Target) (worker : ℕ) (journal : List Entry)
        (moves : List RouterMove) (now : RouterState)
        → IsServicePart target worker journal moves now
        → AllByRecursion (IsWaitingOrSent (dispatch_of target) worker journal now.outbox)
        (rows_of moves) }
{
    // By the definitions.
}
