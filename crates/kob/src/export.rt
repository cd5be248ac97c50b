//! The state at the end of a scene, in the forms of Kafka and Debezium.

ghost use Rattle.std.specs.Prelude.{◌≡◌, ◌++◌, bytes_eq, find, flat_map, option_copied, IfOk, OnOk};
ghost use Rattle.kob_scene_export.specs.Topics.{metric_name};
ghost use Rattle.kob.specs.Export.{commands_mark, commands_part, export_text, exported};
ghost use Rattle.kob.specs.Export.{properties_mark, service_text, settings_part, topic_line};
ghost use Rattle.kob.specs.Standing.{seen};
ghost use Rattle.kob_scene_export.specs.Bindings.{binding_line};

use crate::standing::{End, Topic, end_of};
use kob_broker::OpenFault;
use kob_names::{Binding, Settings};
use kob_scene_export::{
    export_binding, export_connector, export_head, export_settings, export_topic, metric_name,
};
use kob_scene_text::{Scene, Service};
use std::alloc::{AllocError, Global};

/// Adds the settings of a scene, the topics and the bindings at its end, and its
/// services. Topics and bindings are those that its requests leave: no step of a service or a
/// consumer asks for a change of them. The error is out of memory, or that the settings have more
/// bindings than can be in force, which those of a scene never have.
pub fn export_scene(alloc: Global, out: &mut Vec<u8>, scene: &Scene) -> Result<(), OpenFault>
    ensures { OnOk result (out.new.items ≡ out.old.items ++ export_text scene.now) }
{
    let end = end_of(alloc, scene)?;
    let made = push_end(alloc, out, &end, &scene.services);
    drop(end);
    match made {
        Ok(()) => Ok(()),
        Err(refused) => Err(OpenFault::Memory(refused)),
    }
}

fn push_end(
    alloc: Global,
    out: &mut Vec<u8>,
    end: &End,
    services: &[Service],
) -> Result<(), AllocError>
    ensures { OnOk result (out.new.items ≡ out.old.items ++ exported (seen end.now) services.now) }
{
    let settings = end.broker.opening(alloc)?;
    push_all(alloc, out, &settings, &end.topics, services)
}

#[tactic(auto, using(kob_words::proofs::Appending::appending))]
fn push_all(
    alloc: Global,
    out: &mut Vec<u8>,
    settings: &Settings,
    topics: &[Topic],
    services: &[Service],
) -> Result<(), AllocError>
    ensures { OnOk result (out.new.items ≡ out.old.items ++ (settings_part settings.now
        ++ commands_part settings.now topics.now ++ flat_map service_text services.now)) }
{
    push_settings(out, settings)?;
    push_commands(alloc, out, settings, topics)?;
    push_services(out, services)
}

#[tactic(auto, using(kob_words::proofs::Appending::appending))]
fn push_settings(out: &mut Vec<u8>, ended: &Settings) -> Result<(), AllocError>
    ensures { OnOk result (out.new.items ≡ out.old.items ++ settings_part ended.now) }
{
    export_head(out)?;
    out.extend_from_slice(properties_mark().as_bytes())?;
    export_settings(out, ended)
}

#[tactic(auto, unfolding(crate::specs::Export::properties_mark))]
fn properties_mark() -> &'static str
    ensures { result.now ≡ properties_mark }
{
    "# server.properties\n"
}

#[tactic(auto, using(kob_words::proofs::Appending::appending))]
fn push_commands(
    alloc: Global,
    out: &mut Vec<u8>,
    ended: &Settings,
    topics: &[Topic],
) -> Result<(), AllocError>
    ensures { OnOk result (out.new.items ≡ out.old.items ++ commands_part ended.now topics.now) }
{
    out.extend_from_slice(commands_mark().as_bytes())?;
    push_topics(alloc, out, topics)?;
    push_bindings(out, ended.opening.as_slice())
}

#[tactic(auto, unfolding(crate::specs::Export::commands_mark))]
fn commands_mark() -> &'static str
    ensures { result.now ≡ commands_mark }
{
    "# commands\n"
}

#[tactic(auto, using(kob_words::proofs::Appending::appending))]
fn push_topics(alloc: Global, out: &mut Vec<u8>, topics: &[Topic]) -> Result<(), AllocError>
    ensures { OnOk result (out.new.items
        ≡ out.old.items ++ flat_map (topic_line topics.now) topics.now) }
{
    for topic in topics {
        push_topic(alloc, out, topics, topic)?;
    }
    Ok(())
}

fn push_topic(
    alloc: Global,
    out: &mut Vec<u8>,
    topics: &[Topic],
    topic: &Topic,
) -> Result<(), AllocError>
    ensures { OnOk result (out.new.items ≡ out.old.items ++ topic_line topics.now topic.now) }
{
    let name = metric_name(alloc, topic.name.as_str())?;
    let first = first_alike(alloc, topics, &name)?;
    let is_first = first.is_none_or(|first| first.name == topic.name);
    export_topic(out, is_first, topic.name.as_str(), topic.partitions)
}

/// The first of the topics that Kafka's metrics call so.
fn first_alike<'t>(
    alloc: Global,
    topics: &'t [Topic],
    name: &[u8],
) -> Result<Option<&'t Topic>, AllocError>
    ensures { IfOk result (λ topic. option_copied topic
        ≡ find (λ other. bytes_eq (metric_name other.name) name.now) topics.entry.now) }
{
    for topic in topics {
        if metric_name(alloc, topic.name.as_str())?.as_slice() == name {
            return Ok(Some(topic));
        }
    }
    Ok(None)
}

#[tactic(auto, using(kob_words::proofs::Appending::appending))]
fn push_bindings(out: &mut Vec<u8>, bindings: &[Binding]) -> Result<(), AllocError>
    ensures { OnOk result (out.new.items ≡ out.old.items ++ flat_map binding_line bindings.now) }
{
    for binding in bindings {
        export_binding(out, binding.parts())?;
    }
    Ok(())
}

#[tactic(auto, using(kob_words::proofs::Appending::appending))]
fn push_services(out: &mut Vec<u8>, services: &[Service]) -> Result<(), AllocError>
    ensures { OnOk result (out.new.items ≡ out.old.items ++ flat_map service_text services.now) }
{
    for service in services {
        export_connector(out, &service.name, &service.settings)?;
    }
    Ok(())
}
