//! Plans: who takes part in a pipeline, and what each does.

ghost use Rattle.std.specs.Prelude.{◌↔◌, IsTrue};
ghost use Rattle.kob_pipeline.specs.Plans.{IsRunnable};

use kob_broker::Settings;
use kob_connections::Loss;
use kob_inbox::Subscription;
use kob_names::{Host, Items, Principal};
use kob_outbox::{Change, OutboxEvent};
use kob_rights::Event;
use kob_router::Target;
use kob_shared::Script;

/// What a service does next.
#[derive(Drop)]
pub enum ServiceStep {
    /// Records an event together with the change that it reports.
    Record(Change, OutboxEvent),
    /// Its router makes one step.
    Tick(Loss),
    /// Its router restarts; the database stays.
    Restart,
    /// Deletes the rows up to the mark.
    Sweep,
}

/// A service with its outbox and its router.
#[derive(Drop)]
pub struct Service {
    pub principal: Principal,
    pub host: Host,
    /// Its route, and how many partitions each routed topic has: 1 to 1,000.
    pub target: Target,
    pub steps: Vec<ServiceStep>,
}

/// What a consumer does next.
#[derive(Clone, Copy)]
pub enum ConsumerStep {
    /// Makes one step.
    Tick(Loss),
    /// Restarts; the inbox stays.
    Restart,
}

/// A consumer with its inbox.
#[derive(Drop)]
pub struct ConsumerPlan {
    pub principal: Principal,
    pub host: Host,
    /// Its group, the partitions that it reads, and how many records it asks for at once.
    pub subscription: Subscription,
    pub steps: Vec<ConsumerStep>,
}

/// Who takes part. Workers have numbers from 1 on: services first, then consumers, then
/// administrators, each in the order of its list.
#[derive(Drop)]
pub struct Plan {
    /// The settings of the broker, with at most 100,000 opening bindings.
    pub settings: Settings,
    /// The events that are served before any worker begins, as worker 0.
    pub first: Items<Event>,
    pub services: Vec<Service>,
    pub consumers: Vec<ConsumerPlan>,
    pub administrators: Vec<Script>,
}

impl Plan {
    /// Whether `pipeline` may be called with the plan.
    pub fn is_runnable(&self) -> bool
        ensures { IsTrue result ↔ IsRunnable self.now }
    {
        for service in &self.services {
            if service.target.partitions < 1 || service.target.partitions > 1_000 {
                return false;
            }
        }
        self.settings.opening.len() <= 100_000
    }
}
