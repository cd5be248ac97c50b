//! Laws on the answers.

ghost use Rattle.kob_policy_text.specs.Access.{IsAsKafkaSince28};
ghost use Rattle.kob_policy_text.specs.Policy.{Policy};

/// An idempotent producer is answered as by brokers since Kafka 2.8 (KIP-679), which take Write on
/// any topic in place of IdempotentWrite on the cluster.
#[tactic(auto, using(crate::proofs::Idempotence::as_kafka))]
pub fn idempotence_is_kafkas()
    ensures { (policy : Policy) → IsAsKafkaSince28 policy }
{
    // The contract is the law.
}
