//! Names of workers, the words that cannot be names, and who works under a name.

ghost use Rattle.std.specs.Prelude.{◌≡◌};
ghost use Rattle.kob_script.specs.Words.{Gives as ScriptGives};
ghost use Rattle.kob_scene_text.specs.Workers.{consumer_named, is_keyword, is_name, is_name_byte};
ghost use Rattle.kob_scene_text.specs.Workers.{new_name, service_named, who_of, worker_named};
ghost use Rattle.kob_scene_text.specs.Reading.{Gives};
ghost use Rattle.std.specs.List.{list_all};

use crate::fault::{SceneFaultKind, StepError};
use crate::scene::{Consumer, Service};
use kob_names::{Host, Principal, Text};
use kob_script::{LineError, Word, named_host, named_principal, text_of};
use std::alloc::Global;

/// A worker by the place of its service or consumer in the list, from 0.
#[derive(Clone, Copy)]
pub(crate) enum Worker {
    Service(usize),
    Consumer(usize),
}

/// Who a worker is, and where.
#[derive(Drop)]
pub(crate) struct Who {
    pub(crate) principal: Principal,
    pub(crate) host: Host,
}

/// The worker of that name.
pub(crate) fn worker_named(
    services: &[Service],
    consumers: &[Consumer],
    name: &[u8],
) -> Option<Worker>
    ensures { result ≡ worker_named services.now consumers.now name.now }
{
    match service_named(services, name) {
        Some(place) => Some(Worker::Service(place)),
        None => consumer_named(consumers, name).map(Worker::Consumer),
    }
}

/// The place of the service of that name.
pub(crate) fn service_named(services: &[Service], name: &[u8]) -> Option<usize>
    ensures { result ≡ service_named services.now name.now }
{
    services
        .iter()
        .position(|service| service.name.as_str().as_bytes() == name)
}

/// The place of the consumer of that name.
pub(crate) fn consumer_named(consumers: &[Consumer], name: &[u8]) -> Option<usize>
    ensures { result ≡ consumer_named consumers.now name.now }
{
    consumers
        .iter()
        .position(|consumer| consumer.name.as_str().as_bytes() == name)
}

/// Whether a line with this first word is not a step.
fn is_keyword(name: &[u8]) -> bool
    ensures { result ≡ is_keyword name.now }
{
    name == b"super".as_slice()
        || name == b"everyone".as_slice()
        || name == b"service".as_slice()
        || name == b"consumer".as_slice()
        || name == b"journal".as_slice()
        || name == b"law".as_slice()
        || name == b"check".as_slice()
        || name == b"expect".as_slice()
}

fn has_name_bytes(name: &[u8]) -> bool
    ensures { result ≡ list_all is_name_byte name.now }
{
    name.iter().all(|byte| byte.is_ascii_alphanumeric() || *byte == b'-' || *byte == b'_')
}

/// The journal names by `-` whom a scene's own requests are from, so that no worker has that name.
pub(crate) fn is_name(name: &[u8]) -> bool
    ensures { result ≡ is_name name.now }
{
    !name.is_empty()
        && name.len() <= 64
        && !is_keyword(name)
        && name != b"-".as_slice()
        && has_name_bytes(name)
}

/// A name that is declared now. `BadWorkerName` comes before `NameTaken`.
pub(crate) fn new_name(
    alloc: Global,
    services: &[Service],
    consumers: &[Consumer],
    word: &Word<'_>,
) -> Result<Text, StepError>
    ensures { Gives result (new_name services.now consumers.now word.now) }
{
    if !is_name(word.decoded()) {
        return Err(StepError::Fault(SceneFaultKind::BadWorkerName));
    }
    if worker_named(services, consumers, word.decoded()).is_some() {
        return Err(StepError::Fault(SceneFaultKind::NameTaken));
    }
    Ok(text_of(alloc, word)?)
}

/// Who a worker is, by the words for it.
pub(crate) fn who_of(alloc: Global, principal: &Word<'_>, host: &Word<'_>) -> Result<Who, LineError>
    ensures { ScriptGives result (who_of principal.now host.now) }
{
    let principal = named_principal(alloc, principal)?;
    let host = named_host(alloc, host)?;
    Ok(Who { principal, host })
}
