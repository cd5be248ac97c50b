//! What reaches an inbox among several services. This function does nothing: its contract is the
//! law.

ghost use Rattle.std.specs.Prelude.{List, ℕ};
ghost use Rattle.kob_inbox.specs.Run.{Move as ConsumerMove, State as ConsumerState};
ghost use Rattle.kob_inbox.specs.declared.fetcher.Subscription.{Subscription};
ghost use Rattle.kob_router.specs.Run.{dispatch_of, Move as RouterMove, State as RouterState};
ghost use Rattle.kob_router.specs.declared.dispatch.Target.{Target};
ghost use Rattle.kob_shared.specs.declared.journal.Entry.{Entry};
ghost use Rattle.kob_delivery.specs.Delivered.{ReachesInOrder, rows_of, rows_of_aggregate};
ghost use Rattle.kob_delivery.specs.Served.{IsConsumerPart, IsServicePart};
ghost use Rattle.kob_delivery.specs.Several.{AreSharedTopics};
ghost use Rattle.kob_delivery.specs.View.{IsHistory, View, opening_view};

/// Take an aggregate of a service, and a consumer whose assignment has topics of other services
/// too. The premises: to an assigned topic where one of the aggregate's rows is routed only the
/// service sends. To the other assigned topics others may send, but no record of theirs carries the
/// event id of one of the aggregate's rows. Only the consumer commits for its group on the assigned
/// topics, and nobody deletes them. Then the inbox holds a prefix of the aggregate's recorded
/// events. They are in their order, each once, with its row's key and value.
pub fn an_inbox_among_services_holds_a_prefix()
    ensures { (target : Target) (t : Subscription) (sender taker : ℕ) (journal : List Entry)
        (view : View) (sends : List RouterMove) (service : RouterState)
        (takes : List ConsumerMove) (consumer : ConsumerState) (kind id : List ℕ)
        → IsHistory opening_view journal view
        → IsServicePart target sender journal sends service
        → IsConsumerPart t taker journal takes consumer
        → AreSharedTopics (dispatch_of target) (rows_of_aggregate (rows_of sends) kind id)
        sender taker t.group t.assignment journal
        → ReachesInOrder (rows_of sends) consumer.inbox kind id }
{
    // The contract is the law.
}
