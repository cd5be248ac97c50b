//! The bindings in force on one name, as creations and deletions change them.

ghost use Rattle.std.specs.Prelude.{◌≡◌, false, IfOk, OnOk};
ghost use Rattle.std.specs.List.{fold, list_any};
ghost use Rattle.kob_authorizer.specs.Creation.{is_among};
ghost use Rattle.kob_delivery.specs.Reserved.{after_reply, allows_others, is_on};
ghost use Rattle.kob_delivery.specs.Reserved.{is_open_to_others, with_created, without_deleted};

use kob_names::{
    Binding, BindingFilter, Draft, Operation, Permission, PlainValue, Principal, ResourceKind, Text,
};
use kob_rights::{Reply, Request};
use std::alloc::{AllocError, Global};

/// Makes of the bindings on a name those after a request with this reply. Returns false only if
/// they are as before.
pub(crate) fn follow(
    alloc: Global,
    bindings: &mut Vec<Draft>,
    request: &Request,
    reply: &Reply,
    resource: ResourceKind,
    name: &Text,
) -> Result<bool, AllocError>
    ensures after { OnOk result (bindings.new.items
        ≡ after_reply resource name.now reply.now request.now bindings.old.items) }
    ensures same { IfOk result (λ changed. changed ≡ false
        → bindings.new.items ≡ bindings.old.items) }
{
    match (request, reply) {
        (Request::CreateAcls(asked), Reply::Done(_)) => {
            create_all(alloc, bindings, asked.drafts.as_slice(), resource, name)?;
            Ok(true)
        }
        (Request::DeleteAcls(asked), Reply::Done(_)) => {
            delete_taken(bindings, &asked.filter);
            Ok(true)
        }
        _ => Ok(false),
    }
}

/// Creates the bindings of a list of settings.
#[tactic(auto, using(std::proofs::lemmas::List::Sums::fold_more))]
pub(crate) fn create_opening(
    alloc: Global,
    bindings: &mut Vec<Draft>,
    opening: &[Binding],
    resource: ResourceKind,
    name: &Text,
) -> Result<(), AllocError>
    ensures { OnOk result (bindings.new.items
        ≡ fold (with_created resource name.now) bindings.old.items opening.now) }
{
    for binding in opening {
        create_one(alloc, bindings, binding.parts(), resource, name)?;
    }
    Ok(())
}

#[tactic(auto, using(std::proofs::lemmas::List::Sums::fold_more))]
fn create_all(
    alloc: Global,
    bindings: &mut Vec<Draft>,
    drafts: &[Draft],
    resource: ResourceKind,
    name: &Text,
) -> Result<(), AllocError>
    ensures { OnOk result (bindings.new.items
        ≡ fold (with_created resource name.now) bindings.old.items drafts.now) }
{
    for draft in drafts {
        create_one(alloc, bindings, draft, resource, name)?;
    }
    Ok(())
}

fn create_one(
    alloc: Global,
    bindings: &mut Vec<Draft>,
    draft: &Draft,
    resource: ResourceKind,
    name: &Text,
) -> Result<(), AllocError>
    ensures { OnOk result (bindings.new.items
        ≡ with_created resource name.now bindings.old.items draft.now) }
{
    if is_on(draft, resource, name) && !is_among(bindings.as_slice(), draft) {
        bindings.push(draft.copy(alloc)?)?;
    }
    Ok(())
}

/// Whether an equal binding is in the list.
fn is_among(bindings: &[Draft], draft: &Draft) -> bool
    ensures { result ≡ is_among bindings.now draft.now }
{
    bindings.iter().any(|other| other.equals(draft))
}

fn delete_taken(bindings: &mut Vec<Draft>, filter: &BindingFilter)
    ensures { bindings.new.items ≡ without_deleted filter.now bindings.old.items }
{
    bindings.retain(|binding| !filter.takes_draft(binding));
}

/// Whether the binding is on the kind of resource, and its pattern matches the name.
pub(crate) fn is_on(binding: &Draft, resource: ResourceKind, name: &Text) -> bool
    ensures { result ≡ is_on resource name.now binding.now }
{
    binding.resource == resource && binding.pattern.matches(name.as_str())
}

/// Whether the bindings on a name leave it open to others than the principal.
pub(crate) fn is_open_to_others(
    bindings: &[Draft],
    everyone: bool,
    principal: &Principal,
    operation: Operation,
) -> bool
    ensures { result ≡ is_open_to_others principal.now operation everyone bindings.now }
{
    allow_others(bindings, principal, operation) || everyone && bindings.is_empty()
}

/// Whether one of the bindings allows the operation to others.
fn allow_others(bindings: &[Draft], principal: &Principal, operation: Operation) -> bool
    ensures { result ≡ list_any (allows_others principal.now operation) bindings.now }
{
    bindings
        .iter()
        .any(|binding| allows_others(binding, principal, operation))
}

/// Whether the binding allows the operation to everyone, or to another principal.
pub(crate) fn allows_others(binding: &Draft, principal: &Principal, operation: Operation) -> bool
    ensures { result ≡ allows_others principal.now operation binding.now }
{
    binding.permission == Permission::Allow
        && Permission::Allow.reaches(binding.operation, operation)
        && (binding.principal.as_str() == "User:*" || binding.principal != *principal)
}
