//! What follows from the definitions.

ghost use Rattle.std.specs.Prelude.{◌≡◌, List};
ghost use Rattle.kob_inbox.specs.Contents.{taken_in};
ghost use Rattle.kob_inbox.specs.Run.{IsConsumerRun, Move, State, taken_of};
ghost use Rattle.kob_inbox.specs.declared.fetcher.Subscription.{Subscription};

/// Whatever a consumer does, its inbox is made of the records that its calls took in, one after
/// another in that order.
#[tactic(auto, using(crate::proofs::Ticking::run_takes_in))]
pub fn an_inbox_is_what_was_taken_in()
    ensures { (t : Subscription) (moves : List Move) (old new : State)
        → IsConsumerRun t old moves new → new.inbox ≡ taken_in old.inbox (taken_of moves) }
{
    // By the definitions.
}
