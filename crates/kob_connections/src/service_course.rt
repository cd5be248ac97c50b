//! How a service's run continues. This function does nothing: its contract is the law.

ghost use Rattle.std.specs.Prelude.{◌++◌, ◌∷◌, [], List};
ghost use Rattle.kob_outbox.specs.Contents.{Event, stored_event, next_seq};
ghost use Rattle.kob_outbox.specs.declared.change.Change.{Change};
ghost use Rattle.kob_outbox.specs.declared.event.OutboxEvent.{OutboxEvent};
ghost use Rattle.kob_connections.specs.Relayed.{HasServiceRun};
ghost use Rattle.kob_router.specs.Run.{Dispatching};
ghost use Rattle.kob_router.specs.Run.Move.{Recorded, Restarted, Swept};
ghost use Rattle.kob_router.specs.Run.{IsRecordable, IsRouterRun, Move, State, after, start};
ghost use Rattle.kob_router.specs.Tick.{IsOneTick, Point, Ticks};
ghost use Rattle.kob_router.specs.declared.line.Call.{Call};
ghost use Rattle.kob_router.specs.declared.tick.Tick.{Tick};

/// Each tick, each recorded event, each sweep and each restart continues a run. Its calls are all
/// those that the line reports, and its rows all that were recorded. Two runs of which one begins
/// where the other ends are one.
pub fn a_service_run_goes_on()
    ensures begins { (route : Dispatching) → HasServiceRun route start [] [] }
    ensures ticks { (route : Dispatching) (old new : Point) (tick : Tick) (rows : List Event)
        → HasServiceRun route old.state old.calls rows → Ticks IsOneTick route old new tick
        → HasServiceRun route new.state new.calls rows }
    ensures records { (route : Dispatching) (old : State) (calls : List Call) (rows : List Event)
        (change : Change) (event : OutboxEvent)
        → HasServiceRun route old calls rows → IsRecordable old.outbox change event
        → HasServiceRun route (after old (Recorded change event)) calls
        (rows ++ stored_event (next_seq old.outbox) event ∷ []) }
    ensures sweeps { (route : Dispatching) (old : State) (calls : List Call) (rows : List Event)
        → HasServiceRun route old calls rows → HasServiceRun route (after old Swept) calls rows }
    ensures restarts { (route : Dispatching) (old : State) (calls : List Call) (rows : List Event)
        → HasServiceRun route old calls rows → HasServiceRun route (after old Restarted) calls rows }
    ensures joined { (route : Dispatching) (one two : List Move) (old middle new : State)
        → IsRouterRun route old one middle → IsRouterRun route middle two new
        → IsRouterRun route old (one ++ two) new }
{
    // The contract is the law.
}
