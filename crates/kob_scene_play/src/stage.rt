//! What a scene is played on.

ghost use Rattle.std.specs.Prelude.{◌≡◌, ◌++◌, ◌∷◌, [], IfErr, IfOk, OnOk, map};
ghost use Rattle.kob_scene_play.specs.Expectations.{all_met};
ghost use Rattle.std.specs.Option.{option_copied};
ghost use Rattle.kob_scene_play.specs.Stages.{IsOpened, declared_consumer, declared_service};
ghost use Rattle.kob_scene_play.specs.Stages.{consumer_numbered, service_numbered};
ghost use Rattle.kob_scene_play.specs.Stages.{named_consumer, named_service, worker_name};
ghost use Rattle.kob_scene_play.specs.Stops.{IsMemoryOrStore, MayNotOpen};

use crate::consumer_worker::ConsumerWorker;
use crate::fault::PlayFault;
use crate::service_worker::ServiceWorker;
use kob_broker::{Broker, OpenFault};
use kob_names::{Settings, Text};
use kob_scene_text::{Consumer, Service};
use kob_shared::{ENTRY_LIMIT, Recorded};
use std::alloc::Global;

/// A service of a scene, with its name.
#[derive(Drop)]
pub struct PlayedService<'s> {
    pub name: Text,
    pub service: ServiceWorker<'s>,
}

/// A consumer of a scene, with its name.
#[derive(Drop)]
pub struct PlayedConsumer {
    pub name: Text,
    pub consumer: ConsumerWorker,
}

/// The broker with its journal, and the workers of a scene, each with tables of its own.
#[derive(Drop)]
pub struct Stage<'s> {
    pub recorded: Recorded,
    pub services: Vec<PlayedService<'s>>,
    pub consumers: Vec<PlayedConsumer>,
    pub unmet: Unmet,
}

/// How many things were expected that are not so, and the line of the first of them.
#[derive(Clone, Copy, Debug, PartialEq, Eq)]
pub struct Unmet {
    /// 0 if all is as expected; counted up to 18,446,744,073,709,551,615.
    pub count: u64,
    /// From 1 on; 0 if all is as expected.
    pub line: u64,
}

impl Unmet {
    ghost use Rattle.kob_scene_play.specs.Expectations.{unmet_after};

    /// Counts one thing more, which is expected on this line.
    pub(crate) fn after(self, is_met: bool, line: u64) -> Unmet
        ensures { result ≡ unmet_after self is_met line }
    {
        if is_met {
            return self;
        }
        Unmet {
            count: self.count.saturating_add(1),
            line: if self.count == 0 { line } else { self.line },
        }
    }
}

impl<'s> Stage<'s> {
    /// A broker as it is opened, and workers that have made no step.
    pub fn open(
        alloc: Global,
        settings: Settings,
        services: Vec<Service>,
        consumers: Vec<Consumer>,
    ) -> Result<Stage<'s>, PlayFault>
        ensures broker { IfOk result (IsOpened settings) }
        ensures services { IfOk result (λ stage. map named_service stage.services.items
            ≡ map declared_service services.items) }
        ensures consumers { IfOk result (λ stage. map named_consumer stage.consumers.items
            ≡ map declared_consumer consumers.items) }
        ensures met { IfOk result (λ stage. stage.unmet ≡ all_met) }
        ensures stopped { IfErr result (MayNotOpen settings) }
    {
        let services = all_services(alloc, services)?;
        let consumers = all_consumers(alloc, consumers)?;
        // A scene opens no bindings, so that it has never too many.
        let broker = match Broker::open(alloc, settings) {
            Ok(broker) => broker,
            Err(OpenFault::Memory(refused)) => return Err(PlayFault::Memory(refused)),
            Err(OpenFault::TooMany) => return Err(PlayFault::TooMany),
        };
        let recorded = Recorded::open(alloc, broker, ENTRY_LIMIT)?;
        Ok(Stage {
            recorded,
            services,
            consumers,
            unmet: Unmet { count: 0, line: 0 },
        })
    }

    /// The name of a worker; `-` for worker 0, which has none.
    pub fn name_of(&self, worker: usize) -> &str
        ensures { result.now ≡ worker_name self.now worker }
    {
        match service_numbered(&self.services, worker) {
            Some(played) => played.name.as_str(),
            None => match consumer_numbered(&self.consumers, worker) {
                Some(played) => played.name.as_str(),
                None => "-",
            },
        }
    }
}

/// The first service with this number.
fn service_numbered<'p, 's>(
    services: &'p [PlayedService<'s>],
    worker: usize,
) -> Option<&'p PlayedService<'s>>
    ensures { option_copied result ≡ service_numbered worker services.now }
{
    services
        .iter()
        .find(|played| played.service.number() == worker)
}

/// The first consumer with this number.
fn consumer_numbered(consumers: &[PlayedConsumer], worker: usize) -> Option<&PlayedConsumer>
    ensures { option_copied result ≡ consumer_numbered worker consumers.now }
{
    consumers
        .iter()
        .find(|played| played.consumer.number() == worker)
}

fn all_services<'s>(
    alloc: Global,
    services: Vec<Service>,
) -> Result<Vec<PlayedService<'s>>, PlayFault>
    ensures opened { IfOk result (λ all. map named_service all.items
        ≡ map declared_service services.items) }
    ensures stopped { IfErr result IsMemoryOrStore }
{
    let mut all = Vec::new(alloc);
    for service in services {
        add_service(alloc, &mut all, service)?;
    }
    Ok(all)
}

/// Adds a service that has made no step.
#[tactic(auto, using(crate::proofs::Stopping::outbox_stops))]
fn add_service<'s>(
    alloc: Global,
    all: &mut Vec<PlayedService<'s>>,
    service: Service,
) -> Result<(), PlayFault>
    ensures added { OnOk result (map named_service all.new.items
        ≡ map named_service all.old.items ++ declared_service service ∷ []) }
    ensures stopped { IfErr result IsMemoryOrStore }
{
    if let Err(refused) = all.reserve(1) {
        return Err(PlayFault::Memory(refused));
    }
    let Service {
        name,
        worker,
        principal,
        host,
        routed,
        sending,
        settings: _,
    } = service;
    let target = routed.into_target();
    match ServiceWorker::open(alloc, worker, principal, host, sending, target) {
        Ok(service) => {
            all.push_reserved(PlayedService { name, service });
            Ok(())
        }
        Err(fault) => Err(PlayFault::from(fault)),
    }
}

fn all_consumers(alloc: Global, consumers: Vec<Consumer>) -> Result<Vec<PlayedConsumer>, PlayFault>
    ensures opened { IfOk result (λ all. map named_consumer all.items
        ≡ map declared_consumer consumers.items) }
    ensures stopped { IfErr result IsMemoryOrStore }
{
    let mut all = Vec::new(alloc);
    for consumer in consumers {
        add_consumer(alloc, &mut all, consumer)?;
    }
    Ok(all)
}

/// Adds a consumer that has made no step.
#[tactic(auto, using(crate::proofs::Stopping::inbox_stops))]
fn add_consumer(
    alloc: Global,
    all: &mut Vec<PlayedConsumer>,
    consumer: Consumer,
) -> Result<(), PlayFault>
    ensures added { OnOk result (map named_consumer all.new.items
        ≡ map named_consumer all.old.items ++ declared_consumer consumer ∷ []) }
    ensures stopped { IfErr result IsMemoryOrStore }
{
    if let Err(refused) = all.reserve(1) {
        return Err(PlayFault::Memory(refused));
    }
    let Consumer {
        name,
        worker,
        principal,
        host,
        subscription,
        start,
        taking,
    } = consumer;
    match ConsumerWorker::open(alloc, worker, principal, host, start, taking, subscription) {
        Ok(consumer) => {
            all.push_reserved(PlayedConsumer { name, consumer });
            Ok(())
        }
        Err(fault) => Err(PlayFault::from(fault)),
    }
}
