//! The export of a scene: its final state, the connector of one of its services, or a table.

ghost use Rattle.std.specs.Option.{option_map};
ghost use Rattle.std.specs.Prelude.{◌≡◌, ◌≢◌, ◌++◌, OnOk, true};
ghost use Rattle.kob.specs.Ending.{IsFailure};
ghost use Rattle.kob.specs.Exporting.{IsExportable, chosen, export_by, has_export, is_exported};
ghost use Rattle.kob.specs.Exporting.{refusal, service_named, variant_words};

use crate::connect::{push_connector, table_of};
use crate::ending::Ending;
use crate::export::export_scene;
use crate::options::ExportForm;
use crate::play::say_fault;
use crate::report::{FileReport, Report, tell, tell_file, write};
use kob_broker::OpenFault;
use kob_scene_text::{
    Scene, SceneError, SceneFault, Sending, Service, print_scene_fault, read_scene,
};
use std::alloc::{AllocError, Global};

/// Why a scene is not exported.
#[derive(Clone, Copy)]
pub enum ExportFault {
    Memory(AllocError),
    /// Its settings have more bindings than can be in force.
    TooMany,
    /// It has no service, or several where one has to be named, or none of that name.
    NoService,
    SeveralServices,
    UnknownService,
}

/// Exports a text in this form; of several services, the connector of the one with this name.
pub fn export<R: AllocGlobal + Print + Eprint>(
    rt: &R,
    form: ExportForm,
    service: Option<&str>,
    name: &str,
    text: &[u8],
) -> Ending
    ensures differs { result ≢ Ending.Differs }
    ensures whole { result ≡ Ending.Whole
        → IsExportable form (option_map (λ name. name.now) service.entry) text.now }
{
    match read_scene(rt.alloc(), text) {
        Ok(scene) => export_read(rt, form, service, name, &scene),
        Err(SceneError::Fault(fault)) => export_fault(rt, name, text, fault),
        Err(SceneError::Memory(refused)) => tell(rt, Report::OutOfMemory(name, refused)),
    }
}

fn export_read<R: AllocGlobal + Print + Eprint>(
    rt: &R,
    form: ExportForm,
    service: Option<&str>,
    name: &str,
    scene: &Scene,
) -> Ending
    ensures differs { result ≢ Ending.Differs }
    ensures whole { result ≡ Ending.Whole → has_export form
        (option_map (λ name. name.now) service.entry) scene.now.services.items ≡ true }
{
    let mut out = Vec::new(rt.alloc());
    match push_export(rt.alloc(), &mut out, form, service, scene) {
        Ok(()) => {
            say_variants(rt, form, service, name, &scene.services);
            write(rt, name, &out)
        }
        Err(why) => tell(rt, refusal_of(why, name, service.unwrap_or(""))),
    }
}

/// Prints the fault of a scene in the same form as playing.
fn export_fault<R: AllocGlobal + Print + Eprint>(
    rt: &R,
    name: &str,
    text: &[u8],
    fault: SceneFault,
) -> Ending
    ensures { IsFailure result }
{
    let mut out = Vec::new(rt.alloc());
    match print_scene_fault(&mut out, fault) {
        Ok(()) => say_fault(rt, name, text, fault).worse(write(rt, name, &out)),
        Err(refused) => tell(rt, Report::OutOfMemory(name, refused)),
    }
}

/// What is reported of a scene that is not exported.
fn refusal_of<'a>(why: ExportFault, name: &'a str, service: &'a str) -> Report<'a>
    ensures { result ≡ refusal why name.entry service.entry }
{
    match why {
        ExportFault::Memory(refused) => Report::OutOfMemory(name, refused),
        ExportFault::TooMany => Report::TooMany,
        ExportFault::NoService => Report::File(FileReport::NoService(name)),
        ExportFault::SeveralServices => Report::File(FileReport::SeveralServices(name)),
        ExportFault::UnknownService => Report::File(FileReport::UnknownService { name, service }),
    }
}

/// What an export prints.
fn push_export(
    alloc: Global,
    out: &mut Vec<u8>,
    form: ExportForm,
    service: Option<&str>,
    scene: &Scene,
) -> Result<(), ExportFault>
    ensures printed { OnOk result (out.new.items ≡ out.old.items
        ++ export_by form (option_map (λ name. name.now) service.entry) scene.now) }
    ensures chosen { OnOk result (has_export form
        (option_map (λ name. name.now) service.entry) scene.now.services.items ≡ true) }
{
    match form {
        ExportForm::Commands => match export_scene(alloc, out, scene) {
            Ok(()) => Ok(()),
            Err(OpenFault::Memory(refused)) => Err(ExportFault::Memory(refused)),
            Err(OpenFault::TooMany) => Err(ExportFault::TooMany),
        },
        ExportForm::Connect(database) => {
            let place = chosen(service, &scene.services)?;
            push_connector(out, database, &scene.services, place).map_err(ExportFault::Memory)
        }
        ExportForm::Table(database) => out
            .extend_from_slice(table_of(database).as_bytes())
            .map_err(ExportFault::Memory),
    }
}

/// The place of the service of this name, or of the only one.
fn chosen(named: Option<&str>, services: &[Service]) -> Result<usize, ExportFault>
    ensures { result ≡ chosen (option_map (λ name. name.now) named.entry) services.now }
{
    match (named, services) {
        (Some(name), _) => match service_named(services, name) {
            Some(place) => Ok(place),
            None => Err(ExportFault::UnknownService),
        },
        (None, []) => Err(ExportFault::NoService),
        (None, [_]) => Ok(0),
        (None, _) => Err(ExportFault::SeveralServices),
    }
}

fn service_named(services: &[Service], name: &str) -> Option<usize>
    ensures { result ≡ service_named services.now name.now }
{
    services
        .iter()
        .position(|service| service.name.as_str() == name)
}

/// Says which services are exported without their variants.
fn say_variants<R: Eprint>(
    rt: &R,
    form: ExportForm,
    named: Option<&str>,
    name: &str,
    services: &[Service],
) {
    for service in services {
        if is_exported(form, named, service) {
            if let Some(words) = variant_words(service.sending) {
                let service = service.name.as_str();
                tell_file(
                    rt,
                    FileReport::Variant {
                        name,
                        service,
                        words,
                    },
                );
            }
        }
    }
}

/// Whether the route of a service is exported: of several, a connector is of the one that is named.
fn is_exported(form: ExportForm, named: Option<&str>, service: &Service) -> bool
    ensures { result ≡ is_exported form (option_map (λ name. name.now) named.entry) service.now }
{
    match (form, named) {
        (ExportForm::Commands, _) | (ExportForm::Connect(_), None) => true,
        (ExportForm::Connect(_), Some(name)) => service.name.as_str() == name,
        (ExportForm::Table(_), _) => false,
    }
}

/// The words of a scene that declare a variant.
fn variant_words(sending: Sending) -> Option<&'static str>
    ensures { option_map (λ words. words.now) result ≡ variant_words sending }
{
    match sending {
        Sending::Proved => None,
        Sending::RetriesNew => Some("retries new"),
        Sending::DeletesFirst => Some("deletes first"),
        Sending::NotIdempotent => Some("not idempotent"),
        Sending::Separate => Some("separate"),
        Sending::VisibleLate => Some("visible late"),
    }
}
