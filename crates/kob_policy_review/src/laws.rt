//! Laws on the answers of rules.

ghost use Rattle.kob_authorizer.specs.Decide.{Contents};
ghost use Rattle.kob_policy_review.specs.Alike.{AlikeAtRepresentatives, AnswerAlike};

/// Finitely many questions decide: two sets of rules that answer alike at the representatives of
/// both answer alike at every question whatever.
#[tactic(auto, using(crate::proofs::Deciders::decide_all))]
pub fn representatives_decide()
    ensures { (one other : Contents) → AlikeAtRepresentatives one other → AnswerAlike one other }
{
    // The contract is the law.
}
