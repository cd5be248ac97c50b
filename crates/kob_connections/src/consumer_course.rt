//! How a consumer's run continues. This function does nothing: its contract is the law.

ghost use Rattle.std.specs.Prelude.{◌++◌, [], List};
ghost use Rattle.kob_connections.specs.Relayed.{HasConsumerRun};
ghost use Rattle.kob_inbox.specs.Run.Move.{Restarted};
ghost use Rattle.kob_inbox.specs.Run.{IsConsumerRun, Move, State, after, start};
ghost use Rattle.kob_inbox.specs.Tick.{Point, Ticks};
ghost use Rattle.kob_inbox.specs.declared.fetcher.Subscription.{Subscription};
ghost use Rattle.kob_inbox.specs.declared.tick.Tick.{Tick};
ghost use Rattle.kob_router.specs.declared.line.Call.{Call};

/// Each tick and each restart continues a run, whose calls are all those that the line reports. Two
/// runs of which one begins where the other ends are one.
pub fn a_consumer_run_goes_on()
    ensures begins { (t : Subscription) → HasConsumerRun t start [] }
    ensures ticks { (t : Subscription) (old new : Point) (tick : Tick)
        → HasConsumerRun t old.state old.calls → Ticks t old new tick → HasConsumerRun t new.state new.calls }
    ensures restarts { (t : Subscription) (old : State) (calls : List Call)
        → HasConsumerRun t old calls → HasConsumerRun t (after t old Restarted) calls }
    ensures joined { (t : Subscription) (one two : List Move) (old middle new : State)
        → IsConsumerRun t old one middle → IsConsumerRun t middle two new
        → IsConsumerRun t old (one ++ two) new }
{
    // The contract is the law.
}
