//! What follows from the rules.

ghost use Rattle.std.specs.Prelude.{◌≡◌, ℕ, List, [], ◌∷◌, ◌++◌, None, find};
ghost use Rattle.circular_buffer.specs.Buffer.{keep_last};
ghost use Rattle.kob_names.specs.declared.batch.Idem.{Idem};
ghost use Rattle.kob_producers.specs.declared.sent.Sent.{Sent};
ghost use Rattle.kob_producers.specs.declared.judge.Judgement.TheVariants.{Repeat};
ghost use Rattle.kob_producers.specs.Judge.{judge, is_same, memory_length};
ghost use Rattle.kob_producers.specs.Recent.{sent_batch};

/// The judgement by the last five batches is the judgement by all batches.
#[tactic(auto, using(crate::proofs::Histories::judge_kept))]
pub fn the_last_batches_are_enough()
    ensures { (history : List Sent) (idem : Idem) (count : ℕ)
        → judge (keep_last memory_length history) idem count ≡ judge history idem count }
{}

/// A batch that was accepted, and that repeated none of the last five then, is recognised when it
/// is sent again: the judgement has its offset.
#[tactic(auto, using(crate::proofs::Histories::accepted_repeats))]
pub fn an_accepted_batch_is_known_again()
    ensures { (history : List Sent) (idem : Idem) (count offset : ℕ)
        → find (is_same idem count) (keep_last memory_length history) ≡ None
        → judge (history ++ sent_batch idem count offset ∷ []) idem count ≡ Repeat offset }
{}
