//! The bindings that lines say, and what closes the pattern of one that is left out.

ghost use Rattle.std.specs.Prelude.{◌≡◌, IfOk, codes};
ghost use Rattle.kob_policy_text.specs.Policy.{binding_of, closing_of, draft_under, has_bad_heading};
ghost use Rattle.kob_script.specs.Words.{Gives};

use crate::item::{Grant, Target};
use kob_names::{
    Binding, BindingFault, Draft, Host, HostFault, Operation, Permission, PlainValue, Principal,
    PrincipalFault, ResourceKind,
};
use kob_script::{FaultKind, LineError};
use std::alloc::{AllocError, Global};

/// The binding. The fault is `BadName`.
pub fn binding_of(alloc: Global, draft: &Draft) -> Result<Binding, LineError>
    ensures { Gives result (binding_of draft.now) }
{
    match Binding::new(alloc, draft) {
        Ok(binding) => Ok(binding),
        Err(BindingFault::Memory(refused)) => Err(LineError::Memory(refused)),
        Err(_) => Err(LineError::Fault(FaultKind::BadName)),
    }
}

/// A binding that covers nobody, on the pattern of what is left out. The fault is `BadName`.
pub fn closing_binding(alloc: Global, draft: &Draft) -> Result<Binding, LineError>
    ensures { Gives result (binding_of (closing_of draft.now)) }
{
    let closing = Draft {
        permission: Permission::Deny,
        principal: nobody(alloc)?,
        host: nowhere(alloc)?,
        operation: Operation::ClusterAction,
        resource: draft.resource,
        pattern: draft.pattern.copy(alloc)?,
    };
    binding_of(alloc, &closing)
}

fn nobody(alloc: Global) -> Result<Principal, AllocError>
    ensures { IfOk result (λ made. made ≡ codes "User:(left out)") }
{
    match Principal::parse(alloc, "User:(left out)") {
        Ok(principal) => Ok(principal),
        Err(PrincipalFault::Memory(refused)) => Err(refused),
        Err(_) => unreachable!(),
    }
}

fn nowhere(alloc: Global) -> Result<Host, AllocError>
    ensures { IfOk result (λ made. made ≡ codes "(left out)") }
{
    match Host::parse(alloc, "(left out)") {
        Ok(host) => Ok(host),
        Err(HostFault::Memory(refused)) => Err(refused),
        Err(_) => unreachable!(),
    }
}

pub fn has_bad_heading(target: &Option<Target>) -> bool
    ensures { result ≡ has_bad_heading target.now }
{
    match target {
        None => false,
        Some(target) => {
            let name = target.pattern.name.as_str();
            name.is_empty()
                || target.resource == ResourceKind::Cluster && name != "kafka-cluster"
                || name.len() > 255
        }
    }
}

pub fn draft_under(alloc: Global, target: &Target, grant: Grant) -> Result<Draft, AllocError>
    ensures { IfOk result (λ draft. draft ≡ draft_under target.now grant) }
{
    let pattern = target.pattern.copy(alloc)?;
    Ok(Draft {
        permission: grant.permission,
        principal: grant.principal,
        host: grant.host,
        operation: grant.operation,
        resource: target.resource,
        pattern,
    })
}
