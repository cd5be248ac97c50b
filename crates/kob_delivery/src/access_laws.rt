//! Access rules from which premises of the laws of delivery follow.

ghost use Rattle.std.specs.Prelude.{List, ℕ};
ghost use Rattle.kob_names.specs.declared.kinds.Operation.TheVariants.{Read, Write};
ghost use Rattle.kob_names.specs.declared.kinds.ResourceKind.TheVariants.{Group, Topic};
ghost use Rattle.kob_names.specs.declared.settings.Settings.{Settings};
ghost use Rattle.kob_broker.specs.State.{State};
ghost use Rattle.kob_partition.specs.Retained.{Retained};
ghost use Rattle.kob_shared.specs.Journals.{IsLegal, opened_by};
ghost use Rattle.kob_shared.specs.declared.journal.Entry.{Entry};
ghost use Rattle.kob_delivery.specs.View.{Commits, IsSoleCommitter, IsSoleProducer, Produces};
ghost use Rattle.kob_delivery.specs.View.{ActsAlone, IsReserved, NoSuperUser};

/// A worker is the only producer of a topic under three conditions. At each place of a legal
/// journal the bindings in force let only one principal write to the topic. Only this worker acts
/// as that principal. No super user writes to the topic.
#[tactic(auto, using(crate::proofs::Reserving::sole_producer))]
pub fn bindings_leave_one_producer()
    ensures { (opening : Settings) (journal : List Entry) (now : State Retained) (worker : ℕ)
        (principal topic : List ℕ)
        → IsLegal (opened_by opening) journal now
        → IsReserved opening journal principal Write Topic topic
        → ActsAlone worker principal journal
        → NoSuperUser opening.supers (Produces topic) journal
        → IsSoleProducer worker topic journal }
{
    // The contract is the law.
}

/// A worker is the only one that commits for a group on a topic under three conditions. At each
/// place of a legal journal the bindings in force let only one principal read the group. Only this
/// worker acts as that principal. No super user commits for the group on the topic.
#[tactic(auto, using(crate::proofs::Reserving::sole_committer))]
pub fn bindings_leave_one_committer()
    ensures { (opening : Settings) (journal : List Entry) (now : State Retained) (worker : ℕ)
        (principal group topic : List ℕ)
        → IsLegal (opened_by opening) journal now
        → IsReserved opening journal principal Read Group group
        → ActsAlone worker principal journal
        → NoSuperUser opening.supers (Commits group topic) journal
        → IsSoleCommitter worker group topic journal }
{
    // The contract is the law.
}
