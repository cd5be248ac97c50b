//! How the bindings of a creation and the filters of bindings are printed.

ghost use Rattle.std.specs.Prelude.{◌≡◌, ◌++◌, OnOk, flat_map};
ghost use Rattle.kob_words.specs.Words.{spaced};
ghost use Rattle.kob_scene_text.specs.PrintedRequest.{asked_text, draft_text, filter_text};
ghost use Rattle.kob_scene_text.specs.PrintedRequest.{operation_text, or_dash, pattern_text};
ghost use Rattle.kob_scene_text.specs.PrintedRequest.{permission_text, resource_text, worded};

use kob_names::{
    BindingFilter, Draft, FilterPattern, Host, Operation, Permission, Principal, ResourceKind, Text,
};
use kob_words::{operation_name, pattern_name, permission_name, push_spaced, resource_name};
use std::alloc::AllocError;

/// A word that needs no escape, after a space.
#[tactic(auto, using(kob_words::proofs::Appending::appending))]
fn push_word(out: &mut Vec<u8>, word: &str) -> Result<(), AllocError>
    ensures { OnOk result (out.new.items ≡ out.old.items ++ worded word.now) }
{
    out.extend_from_slice(b" ")?;
    out.extend_from_slice(word.as_bytes())
}

#[tactic(auto, using(kob_words::proofs::Appending::appending))]
pub(crate) fn push_drafts(out: &mut Vec<u8>, drafts: &[Draft]) -> Result<(), AllocError>
    ensures { OnOk result (out.new.items ≡ out.old.items ++ flat_map draft_text drafts.now) }
{
    for draft in drafts {
        push_draft(out, draft)?;
    }
    Ok(())
}

#[tactic(auto, using(kob_words::proofs::Appending::appending))]
fn push_draft(out: &mut Vec<u8>, draft: &Draft) -> Result<(), AllocError>
    ensures { OnOk result (out.new.items ≡ out.old.items ++ draft_text draft.now) }
{
    push_word(out, permission_name(draft.permission))?;
    push_spaced(out, draft.principal.as_str().as_bytes())?;
    push_spaced(out, draft.host.as_str().as_bytes())?;
    push_word(out, operation_name(draft.operation))?;
    push_word(out, resource_name(draft.resource))?;
    push_word(out, pattern_name(draft.pattern.kind))?;
    push_spaced(out, draft.pattern.name.as_str().as_bytes())
}

#[tactic(auto, using(kob_words::proofs::Appending::appending))]
pub(crate) fn push_filtered(
    out: &mut Vec<u8>,
    command: &[u8],
    filter: &BindingFilter,
) -> Result<(), AllocError>
    ensures { OnOk result (out.new.items
        ≡ out.old.items ++ (command.now ++ filter_text filter.now)) }
{
    out.extend_from_slice(command)?;
    push_resource(out, filter.resource)?;
    push_text(out, &filter.name)?;
    out.extend_from_slice(pattern_text(filter.pattern).as_bytes())?;
    push_principal(out, &filter.principal)?;
    push_host(out, &filter.host)?;
    push_operation(out, filter.operation)?;
    push_permission(out, filter.permission)
}

#[tactic(auto, using(kob_words::proofs::Appending::appending))]
fn push_text(out: &mut Vec<u8>, text: &Option<Text>) -> Result<(), AllocError>
    ensures { OnOk result (out.new.items ≡ out.old.items ++ or_dash asked_text text.now) }
{
    match text {
        None => out.extend_from_slice(b" -"),
        Some(text) => push_asked_text(out, text.as_str()),
    }
}

/// A text of a filter after a space. The text `-` is printed with an escape, since the word `-`
/// stands for any.
#[tactic(auto, using(kob_words::proofs::Appending::appending))]
fn push_asked_text(out: &mut Vec<u8>, text: &str) -> Result<(), AllocError>
    ensures { OnOk result (out.new.items ≡ out.old.items ++ asked_text text.now) }
{
    if text == "-" {
        out.extend_from_slice(b" %2d")
    } else {
        push_spaced(out, text.as_bytes())
    }
}

#[tactic(auto, using(kob_words::proofs::Appending::appending))]
fn push_principal(out: &mut Vec<u8>, principal: &Option<Principal>) -> Result<(), AllocError>
    ensures { OnOk result (out.new.items ≡ out.old.items ++ or_dash spaced principal.now) }
{
    match principal {
        None => out.extend_from_slice(b" -"),
        Some(principal) => push_spaced(out, principal.as_str().as_bytes()),
    }
}

#[tactic(auto, using(kob_words::proofs::Appending::appending))]
fn push_host(out: &mut Vec<u8>, host: &Option<Host>) -> Result<(), AllocError>
    ensures { OnOk result (out.new.items ≡ out.old.items ++ or_dash asked_text host.now) }
{
    match host {
        None => out.extend_from_slice(b" -"),
        Some(host) => push_asked_text(out, host.as_str()),
    }
}

#[tactic(auto, using(kob_words::proofs::Appending::appending))]
fn push_resource(out: &mut Vec<u8>, resource: Option<ResourceKind>) -> Result<(), AllocError>
    ensures { OnOk result (out.new.items ≡ out.old.items ++ resource_text resource) }
{
    match resource {
        None => out.extend_from_slice(b" -"),
        Some(resource) => push_word(out, resource_name(resource)),
    }
}

#[tactic(auto, using(kob_words::proofs::Appending::appending))]
fn push_operation(out: &mut Vec<u8>, operation: Option<Operation>) -> Result<(), AllocError>
    ensures { OnOk result (out.new.items ≡ out.old.items ++ operation_text operation) }
{
    match operation {
        None => out.extend_from_slice(b" -"),
        Some(operation) => push_word(out, operation_name(operation)),
    }
}

#[tactic(auto, using(kob_words::proofs::Appending::appending))]
fn push_permission(out: &mut Vec<u8>, permission: Option<Permission>) -> Result<(), AllocError>
    ensures { OnOk result (out.new.items ≡ out.old.items ++ permission_text permission) }
{
    match permission {
        None => out.extend_from_slice(b" -"),
        Some(permission) => push_word(out, permission_name(permission)),
    }
}

fn pattern_text(pattern: FilterPattern) -> &'static str
    ensures { result.now ≡ pattern_text pattern }
{
    match pattern {
        FilterPattern::Any => " any",
        FilterPattern::Matching => " match",
        FilterPattern::Literal => " LITERAL",
        FilterPattern::Prefixed => " PREFIXED",
    }
}
