//! The words among which a misspelt word is looked for.

ghost use Rattle.std.specs.Prelude.{◌≡◌, ◌++◌, OnOk, map};
ghost use Rattle.kob_mistakes.specs.Forms.{consumer_forms, line_forms, request_forms, service_forms};
ghost use Rattle.kob_mistakes.specs.Names.{binding_words, line_names, names_at, names_of, part_words};
ghost use Rattle.kob_mistakes.specs.Names.{request_names};

use crate::forms::{CONSUMER_STEPS, LINES, REQUESTS, SERVICE_STEPS};
use crate::words::word_at;
use crate::worker::WorkerKind;
use std::alloc::AllocError;

/// The words of bindings and of options of `acl`.
static WORDS: [&str; 50] = [
    "allow",
    "deny",
    "literal",
    "prefixed",
    "any",
    "match",
    "Topic",
    "Group",
    "Cluster",
    "TransactionalId",
    "All",
    "Read",
    "Write",
    "Create",
    "Delete",
    "Alter",
    "Describe",
    "ClusterAction",
    "DescribeConfigs",
    "AlterConfigs",
    "IdempotentWrite",
    "--add",
    "--remove",
    "--list",
    "--allow-principal",
    "--deny-principal",
    "--allow-host",
    "--deny-host",
    "--principal",
    "--operation",
    "--topic",
    "--group",
    "--cluster",
    "--transactional-id",
    "--resource-pattern-type",
    "--producer",
    "--consumer",
    "--idempotent",
    "--force",
    "--bootstrap-server",
    "--command-config",
    "create-topic",
    "delete-topic",
    "metadata",
    "produce",
    "fetch",
    "commit",
    "committed",
    "groups",
    "acl",
];

/// The words of declarations and steps behind their first two.
static PARTS: [&str; 29] = [
    "partitions",
    "retries",
    "new",
    "deletes",
    "first",
    "not",
    "idempotent",
    "separate",
    "visible",
    "late",
    "crash",
    "by",
    "replacement",
    "placement",
    "group",
    "max",
    "start",
    "latest",
    "commits",
    "before",
    "no",
    "dedup",
    "reads",
    "lose-request",
    "lose-reply",
    "aggregatetype",
    "aggregateid",
    "on",
    "off",
];

/// Appends the words that may stand at a place of a line: those among which a misspelt word is
/// looked for.
pub(crate) fn push_names<'a>(
    names: &mut Vec<&'a str>,
    words: &[&[u8]],
    place: usize,
    stepping: Option<WorkerKind>,
) -> Result<(), AllocError>
    ensures { OnOk result (map (λ name. name.now) names.new.items
        ≡ map (λ name. name.now) names.old.items
        ++ names_at stepping (map (λ word. word.now) words.now) place) }
{
    match stepping {
        Some(WorkerKind::Service) => push_service_names(names),
        Some(WorkerKind::Consumer) => push_consumer_names(names),
        None if word_at(words, 0).contains(&b':') => push_request_names(names, place),
        None => push_line_names(names, place),
    }
}

fn push_request_names<'a>(names: &mut Vec<&'a str>, place: usize) -> Result<(), AllocError>
    ensures { OnOk result (map (λ name. name.now) names.new.items
        ≡ map (λ name. name.now) names.old.items ++ request_names place) }
{
    if place == 2 {
        push_command_names(names)
    } else {
        push_words(names)
    }
}

#[tactic(auto, using(kob_words::proofs::Appending::appending))]
fn push_line_names<'a>(names: &mut Vec<&'a str>, place: usize) -> Result<(), AllocError>
    ensures { OnOk result (map (λ name. name.now) names.new.items
        ≡ map (λ name. name.now) names.old.items ++ line_names place) }
{
    match place {
        0 => push_keywords(names),
        1 => {
            push_service_names(names)?;
            push_consumer_names(names)
        }
        _ => push_parts(names),
    }
}

#[tactic(auto, unfolding(crate::specs::Forms::service_forms, crate::specs::Names::names_of))]
fn push_service_names<'a>(names: &mut Vec<&'a str>) -> Result<(), AllocError>
    ensures { OnOk result (map (λ name. name.now) names.new.items
        ≡ map (λ name. name.now) names.old.items ++ names_of service_forms) }
{
    push_names_of(names, &SERVICE_STEPS)
}

#[tactic(auto, unfolding(crate::specs::Forms::consumer_forms, crate::specs::Names::names_of))]
fn push_consumer_names<'a>(names: &mut Vec<&'a str>) -> Result<(), AllocError>
    ensures { OnOk result (map (λ name. name.now) names.new.items
        ≡ map (λ name. name.now) names.old.items ++ names_of consumer_forms) }
{
    push_names_of(names, &CONSUMER_STEPS)
}

#[tactic(auto, unfolding(crate::specs::Forms::request_forms, crate::specs::Names::names_of))]
fn push_command_names<'a>(names: &mut Vec<&'a str>) -> Result<(), AllocError>
    ensures { OnOk result (map (λ name. name.now) names.new.items
        ≡ map (λ name. name.now) names.old.items ++ names_of request_forms) }
{
    push_names_of(names, &REQUESTS)
}

#[tactic(auto, unfolding(crate::specs::Forms::line_forms, crate::specs::Names::names_of))]
fn push_keywords<'a>(names: &mut Vec<&'a str>) -> Result<(), AllocError>
    ensures { OnOk result (map (λ name. name.now) names.new.items
        ≡ map (λ name. name.now) names.old.items ++ names_of line_forms) }
{
    push_names_of(names, &LINES)
}

#[tactic(auto, unfolding(crate::specs::Names::binding_words))]
fn push_words<'a>(names: &mut Vec<&'a str>) -> Result<(), AllocError>
    ensures { OnOk result (map (λ name. name.now) names.new.items
        ≡ map (λ name. name.now) names.old.items ++ binding_words) }
{
    push_each(names, &WORDS)
}

#[tactic(auto, unfolding(crate::specs::Names::part_words))]
fn push_parts<'a>(names: &mut Vec<&'a str>) -> Result<(), AllocError>
    ensures { OnOk result (map (λ name. name.now) names.new.items
        ≡ map (λ name. name.now) names.old.items ++ part_words) }
{
    push_each(names, &PARTS)
}

#[tactic(auto, using(crate::proofs::Walking::lent_more))]
fn push_each<'a>(names: &mut Vec<&'a str>, more: &[&'a str]) -> Result<(), AllocError>
    ensures { OnOk result (map (λ name. name.now) names.new.items
        ≡ map (λ name. name.now) names.old.items ++ map (λ name. name.now) more.now) }
{
    names.extend_from_slice(more)
}

/// Appends the names of forms.
fn push_names_of<'a>(
    names: &mut Vec<&'a str>,
    forms: &'static [(&'static str, &'static str)],
) -> Result<(), AllocError>
    ensures { OnOk result (map (λ name. name.now) names.new.items
        ≡ map (λ name. name.now) names.old.items ++ map (λ form. form.0.now) forms.now) }
{
    for form in forms {
        names.push(form.0)?;
    }
    Ok(())
}
