//! What follows from the definitions.

ghost use Rattle.std.specs.Prelude.{◌≡◌, ◌<◌, ℕ, Bool, List, Option, Some, length};
ghost use Rattle.std.specs.List.{All, AllByRecursion};
ghost use Rattle.uuid.specs.Text.{parsed};
ghost use Rattle.kob_outbox.specs.Contents.{Event, stored_event};
ghost use Rattle.kob_outbox.specs.declared.event.OutboxEvent.{OutboxEvent};
ghost use Rattle.kob_rights.specs.declared.on_partitions.Produce.{Produce as ProduceRequest};
ghost use Rattle.kob_rights.specs.declared.reply.Reply.{Reply};
ghost use Rattle.kob_rights.specs.declared.request.Request.{Request};
ghost use Rattle.kob_rights.specs.declared.request.Request.TheVariants.{Produce};
ghost use Rattle.kob_router.specs.Run.{Dispatching, dispatch_of, place_of};
ghost use Rattle.kob_router.specs.Route.{event_id, key_of, message_of};
ghost use Rattle.kob_router.specs.Run.{IsRouterRun, IsSending, KeepsRow, MayCall, Move, State};
ghost use Rattle.kob_router.specs.declared.dispatch.Dispatch.{Dispatch};
ghost use Rattle.kob_router.specs.declared.dispatch.Target.{Target};
ghost use Rattle.kob_router.specs.declared.settings.Routing.{Routing};

/// The record of a row has the row's event id, whatever columns are placed in further headers. The
/// id that is read from the header `id` is the id under which the event was recorded, which has 16
/// bytes.
pub fn a_record_tells_its_event_id()
    ensures text { (routing : Routing) (event : Event)
        → event_id (message_of routing event) ≡ parsed event.id }
    ensures id { (routing : Routing) (seq : ℕ) (event : OutboxEvent)
        → length event.id ≡ 16 → All (λ byte. byte < 256) event.id
        → event_id (message_of routing (stored_event seq event)) ≡ Some event.id }
{
    // By the definitions.
}

/// Until a row is acknowledged or the router restarts, each call makes the same request: the same
/// batch, with the same producer id and sequence, to the same partition.
pub fn a_batch_is_repeated_as_it_was()
    ensures { (route : Dispatching) (old new : State) (moves : List Move)
        (sent : ProduceRequest) (request : Request) (heard : Option Reply) (marks : Bool)
        → IsSending route old sent → IsRouterRun route old moves new
        → AllByRecursion KeepsRow moves → MayCall route new request heard marks
        → request ≡ Produce sent }
{
    // The contract is the law.
}

/// Rows of one aggregate go to one topic and one partition, and with one key.
#[tactic(auto, using(crate::proofs::Lawful::one_place))]
pub fn an_aggregate_has_one_partition()
    ensures place { (target : Target) (one two : Event)
        → one.aggregate_type ≡ two.aggregate_type → one.aggregate_id ≡ two.aggregate_id
        → place_of (dispatch_of target one) ≡ place_of (dispatch_of target two) }
    ensures key { (target : Target) (event : Event) (dispatch : Dispatch)
        → dispatch_of target event ≡ Some dispatch → dispatch.message.key ≡ Some (key_of event) }
{
    // By the definitions.
}
