//! Which names a principal may describe.

ghost use Rattle.std.specs.Prelude.{◌≡◌, ℕ, List, true};
ghost use Rattle.kob_authorizer.specs.Decide.{decide, question_of};
ghost use Rattle.kob_names.specs.Binding.{is_granted};
ghost use Rattle.kob_broker.specs.Denial.{describes_cluster, describes_group, describes_topic, verdict};
ghost use Rattle.kob_names.specs.declared.kinds.Operation.TheVariants.{Describe};
ghost use Rattle.kob_rights.specs.Table.{on_cluster};

use kob_authorizer::Authorizer;
use kob_catalog::Decider;
use kob_names::{Operation, ResourceKind, Text, Verdict};
use kob_rights::Event;

/// Decides by the bindings in force which topics the event's principal may describe.
#[derive(Drop)]
pub struct TopicDescriber<'a> {
    authorizer: &'a Authorizer,
    event: &'a Event,
    /// Whether the principal is a super user, who may describe them all.
    all: bool,
    ghost described: { all ≡ true
        → (name : List ℕ) → describes_topic authorizer.now.contents event.now name ≡ true },
}

impl<'a> TopicDescriber<'a> {
    #[tactic(auto, using(crate::proofs::SuperUsers::super_describes))]
    pub(crate) fn new(authorizer: &'a Authorizer, event: &'a Event) -> TopicDescriber<'a>
        ensures authorizer { result.authorizer.now ≡ authorizer.now }
        ensures event { result.event.now ≡ event.now }
    {
        match cluster_verdict(authorizer, event) {
            Verdict::Super => TopicDescriber {
                authorizer,
                event,
                all: true,
            },
            _ => TopicDescriber {
                authorizer,
                event,
                all: false,
            },
        }
    }
}

impl<'a> Decider for TopicDescriber<'a> {
    ghost granted = { λ asked name. describes_topic asked.authorizer.now.contents asked.event.now name };

    fn grants(&self, name: &Text) -> bool {
        if self.all {
            return true;
        }
        describes(
            self.authorizer,
            self.event,
            ResourceKind::Topic,
            name.as_str(),
        )
    }
}

/// The decision whether the event's principal may describe the cluster.
fn cluster_verdict(authorizer: &Authorizer, event: &Event) -> Verdict
    ensures { result ≡ verdict authorizer.now.contents event.now (on_cluster Describe) }
{
    authorizer.authorize(
        &event.principal,
        &event.host,
        Operation::Describe,
        ResourceKind::Cluster,
        "kafka-cluster",
    )
}

/// Whether the event's principal may describe the group of that name.
pub(crate) fn describes_group(authorizer: &Authorizer, event: &Event, name: &Text) -> bool
    ensures { result ≡ describes_group authorizer.now.contents event.now name.now }
{
    describes(authorizer, event, ResourceKind::Group, name.as_str())
}

/// Whether the event's principal may describe the cluster.
pub(crate) fn describes_cluster(authorizer: &Authorizer, event: &Event) -> bool
    ensures { result ≡ describes_cluster authorizer.now.contents event.now }
{
    cluster_verdict(authorizer, event).is_granted()
}

/// Whether the event's principal may describe the resource of that name.
fn describes(authorizer: &Authorizer, event: &Event, resource: ResourceKind, name: &str) -> bool
    ensures { result ≡ is_granted (decide authorizer.now.contents
        (question_of event.now.principal event.now.host Operation.Describe resource name.now)) }
{
    let verdict = authorizer.authorize(
        &event.principal,
        &event.host,
        Operation::Describe,
        resource,
        name,
    );
    verdict.is_granted()
}
