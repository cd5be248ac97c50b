//! The broker after the requests of a scene, and the topics that exist then.

ghost use Rattle.std.specs.Prelude.{◌≡◌, filter, IfOk, OnOk};
ghost use Rattle.std.specs.List.{fold};
ghost use Rattle.kob_broker.specs.Step.{state_of};
ghost use Rattle.kob_broker.specs.State.{open_state};
ghost use Rattle.kob.specs.Standing.{after_event, after_step, end_of, is_other, seen};
ghost use Rattle.kob.specs.Standing.{topics_done};
ghost use Rattle.kob_rights.specs.declared.request.Request.TheVariants as requests;

use kob_broker::{Broker, OpenFault};
use kob_names::{PlainValue, Settings, Text};
use kob_rights::{CreateTopics, Event, Reply, Request};
use kob_scene_text::{Scene, Step};
use std::alloc::{AllocError, Global};

/// A topic, with its number of partitions.
#[derive(Drop)]
pub struct Topic {
    pub name: Text,
    pub partitions: u64,
}

/// A broker after requests, and the topics that exist then.
pub struct End {
    pub broker: Broker,
    pub topics: Vec<Topic>,
}

/// Written out, so that a function that drops an end does not go through what a broker drops.
impl Drop for End {
    fn drop(self) {
        let End {
            broker: _,
            topics: _,
        } = self;
    }
}

/// Serves the requests of a scene, on a broker with the settings of the scene.
pub fn end_of(alloc: Global, scene: &Scene) -> Result<End, OpenFault>
    ensures { IfOk result (λ end. seen end ≡ end_of scene.now) }
{
    let settings = scene.settings.copy(alloc).map_err(OpenFault::Memory)?;
    let mut end = End {
        broker: Broker::open(alloc, settings)?,
        topics: Vec::new(alloc),
    };
    take_steps(alloc, &mut end, &scene.steps).map_err(OpenFault::Memory)?;
    Ok(end)
}

#[tactic(auto, using(std::proofs::lemmas::List::Sums::fold_more))]
fn take_steps(alloc: Global, end: &mut End, steps: &[Step]) -> Result<(), AllocError>
    ensures { OnOk result (seen end.new ≡ fold after_step (seen end.old) steps.now) }
{
    for step in steps {
        if let Step::Request(event) = step {
            serve(alloc, end, event)?;
        }
    }
    Ok(())
}

/// Serves a request, and notes what it did to the topics that exist.
fn serve(alloc: Global, end: &mut End, event: &Event) -> Result<(), AllocError>
    ensures { OnOk result (seen end.new ≡ after_event (seen end.old) event.now) }
{
    let reply = end.broker.serve(alloc, event)?;
    match &reply {
        Reply::Done(_) => match &event.request {
            Request::CreateTopics(asked) => push_topic(alloc, &mut end.topics, asked),
            Request::DeleteTopics(asked) => {
                remove_topic(&mut end.topics, &asked.name);
                Ok(())
            }
            _ => Ok(()),
        },
        Reply::Denied { .. } => Ok(()),
        Reply::Refused { .. } => Ok(()),
    }
}

fn push_topic(
    alloc: Global,
    topics: &mut Vec<Topic>,
    asked: &CreateTopics,
) -> Result<(), AllocError>
    ensures { OnOk result (topics.new.items
        ≡ topics_done (requests.CreateTopics asked.now) topics.old.items) }
{
    let name = asked.name.copy(alloc)?;
    topics.push(Topic {
        name,
        partitions: asked.partitions,
    })?;
    Ok(())
}

fn remove_topic(topics: &mut Vec<Topic>, name: &Text)
    ensures { topics.new.items ≡ filter (is_other name.now) topics.old.items }
{
    topics.retain(|topic| topic.name != *name);
}
