//! The laws of a pipeline: what its journal says of its outboxes, topics and inboxes.

ghost use Rattle.std.specs.Prelude.{◌≡◌, List, ℕ, Some, slice_get};
ghost use Rattle.kob_router.specs.Run.{dispatch_of};
ghost use Rattle.kob_router.specs.declared.place.Place.{Place as PlaceValue};
ghost use Rattle.kob_delivery.specs.Delivered.{IsDelivered, ReachesInOrder};
ghost use Rattle.kob_pipeline.specs.Plans.{rows_of_service};
ghost use Rattle.kob_pipeline.specs.Pipelines.{HasLeft, IsPipeline, consumer_number};
ghost use Rattle.kob_pipeline.specs.Pipelines.{consumer_place, service_number, IsNoneLost};
ghost use Rattle.kob_pipeline.specs.Pipelines.{TakesInOrder, inbox_in, records_at};
ghost use Rattle.kob_delivery.specs.View.{ArePrivate, IsNeverDeleted, IsSoleCommitter};
ghost use Rattle.kob_delivery.specs.View.{IsSoleProducer};
ghost use Rattle.kob_pipeline.specs.declared.end.InboxEnd.{InboxEnd as InboxLeft};
ghost use Rattle.kob_pipeline.specs.declared.end.WorkerEnd.TheVariants.{Inbox};
ghost use Rattle.kob_pipeline.specs.declared.plan.ConsumerPlan.{ConsumerPlan as Consumer};
ghost use Rattle.kob_pipeline.specs.declared.plan.Service.{Service as ServicePlan};

use crate::end::PipelineEnd;
use crate::plan::Plan;

/// The law of each service's router. Take a partition of a topic to which only this service sends,
/// and that nobody deletes. Its event ids, each at its first offset, are a prefix of those of the
/// rows that the service recorded and that are routed there. Each record is what the route makes of
/// a row.
///
/// No recorded row is lost, whatever others do: it is in the outbox past the mark, or the PRODUCE
/// of its record was done.
///
/// It makes no call and does not allocate. The condition is what `pipeline` returns.
#[tactic(auto, using(crate::proofs::PlanLaws::is_none_lost))]
pub fn router_law(plan: &Plan, end: &PipelineEnd)
    requires { IsPipeline plan.now end.now }
    ensures delivered { (k : ℕ) (service : ServicePlan) (place : PlaceValue)
        → slice_get plan.now.services.items k ≡ Some service
        → IsSoleProducer (service_number plan.now k) place.topic end.now.journal
        → IsNeverDeleted place.topic end.now.journal
        → IsDelivered (dispatch_of service.target) place (rows_of_service service)
        (records_at plan.now end.now place) }
    ensures none_lost { IsNoneLost plan.now end.now }
{
    // By the definitions.
}

/// The law of each consumer. Take a partition of a topic on which only this consumer commits for
/// its group, and that nobody deletes. The consumer takes in the offsets there below some bound,
/// each for the first time after all lower ones, with their records.
///
/// It makes no call and does not allocate. The condition is what `pipeline` returns.
#[tactic(auto, using(crate::proofs::PlanLaws::takes_its_records))]
pub fn consumer_law(plan: &Plan, end: &PipelineEnd)
    requires { IsPipeline plan.now end.now }
    ensures { (k : ℕ) (consumer : Consumer) (place : PlaceValue)
        → slice_get plan.now.consumers.items k ≡ Some consumer
        → IsSoleCommitter (consumer_number plan.now k) consumer.subscription.group place.topic
        end.now.journal
        → IsNeverDeleted place.topic end.now.journal
        → TakesInOrder plan.now end.now k consumer place }
{
    // By the definitions.
}

/// The law of a pipeline. The premises: only this service sends to the topics of the consumer's
/// assignment, only this consumer commits for its group on them, and nobody deletes them. Then the
/// inbox holds of each aggregate a prefix of the events that the service recorded, without gaps.
/// They are in their order, each once, with its row's key and value.
///
/// No recorded row is lost, as `router_law` says.
///
/// It makes no call and does not allocate. The condition is what `pipeline` returns.
#[tactic(auto, using(crate::proofs::PlanLaws::is_none_lost))]
pub fn pipeline_law(plan: &Plan, end: &PipelineEnd)
    requires { IsPipeline plan.now end.now }
    ensures reached { (i k : ℕ) (service : ServicePlan) (consumer : Consumer) (left : InboxLeft)
        → slice_get plan.now.services.items i ≡ Some service
        → slice_get plan.now.consumers.items k ≡ Some consumer
        → HasLeft end.now (consumer_place plan.now k) (Inbox left)
        → ArePrivate (service_number plan.now i) (consumer_number plan.now k)
        consumer.subscription.group consumer.subscription.assignment end.now.journal
        → (kind id : List ℕ)
        → ReachesInOrder (rows_of_service service) (inbox_in left) kind id }
    ensures none_lost { IsNoneLost plan.now end.now }
{
    // By the definitions.
}
