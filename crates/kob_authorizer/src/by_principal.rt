//! The serials of the bindings of one principal.

ghost use Rattle.std.specs.Prelude.{◌≡◌, ℕ, Contains, IfOk, IfSome, OnOk};
ghost use Rattle.kob_names.specs.declared.kinds.ResourceKind.{ResourceKind};
ghost use Rattle.kob_authorizer.specs.Index.{IsIndex, key_place};
ghost use Rattle.kob_authorizer.specs.Leading.{LeadToTaken, StandsUnder, key_start};

use crate::key::{SEPARATOR, kind_byte};
use crate::patterns::in_order;
use kob_names::{BindingFilter, Host, Principal, ResourceKind};
use kob_prefix_tree::PrefixTree;
use std::alloc::{AllocError, Global};

/// Serials of entries, in order, among which are those of all entries that a filter selects, if it
/// names a principal: those of its bindings on the kind of resource and from the host that the
/// filter names, or on each kind and from all hosts. Otherwise `None`.
#[tactic(auto, using(crate::proofs::Leading::principal_lead))]
pub fn leading_by_principal(
    alloc: Global,
    keys: &PrefixTree,
    filter: &BindingFilter,
) -> Result<Option<Vec<u64>>, AllocError>
    ensures { IfOk result (λ made. IfSome made (λ serials.
        LeadToTaken (IsIndex key_place keys.now) filter.now serials.items)) }
{
    let Some(principal) = &filter.principal else {
        return Ok(None);
    };
    let host = &filter.host;
    let keys = PrincipalKeys {
        keys,
        principal,
        host,
    };
    let serials = match filter.resource {
        Some(resource) => keys.serials_on(alloc, resource)?,
        None => keys.serials(alloc)?,
    };
    Ok(Some(in_order(serials)))
}

/// The keys of a principal's bindings, from one host or from all.
#[derive(Clone, Copy, Drop)]
struct PrincipalKeys<'a> {
    keys: &'a PrefixTree,
    principal: &'a Principal,
    host: &'a Option<Host>,
}

impl<'a> PrincipalKeys<'a> {
    /// The serials on every kind of resource.
    fn serials(self, alloc: Global) -> Result<Vec<u64>, AllocError>
        ensures { IfOk result (λ made. (resource : ResourceKind) (serial : ℕ)
            → StandsUnder self.entry.keys.now
            (key_start resource self.entry.principal.now self.entry.host.now) serial
            → Contains made.items serial) }
    {
        let mut serials = self.serials_on(alloc, ResourceKind::Topic)?;
        self.push_on(alloc, ResourceKind::Group, &mut serials)?;
        self.push_on(alloc, ResourceKind::Cluster, &mut serials)?;
        self.push_on(alloc, ResourceKind::TransactionalId, &mut serials)?;
        Ok(serials)
    }

    /// The serials on one kind of resource.
    fn serials_on(self, alloc: Global, resource: ResourceKind) -> Result<Vec<u64>, AllocError>
        ensures { IfOk result (λ made. (serial : ℕ)
            → StandsUnder self.entry.keys.now
            (key_start resource self.entry.principal.now self.entry.host.now) serial
            → Contains made.items serial) }
    {
        let start = self.start(alloc, resource)?;
        let serials = self.keys.below(alloc, start.as_slice())?;
        Ok(serials)
    }

    /// Appends the serials on one kind of resource.
    fn push_on(
        self,
        alloc: Global,
        resource: ResourceKind,
        serials: &mut Vec<u64>,
    ) -> Result<(), AllocError>
        ensures kept { OnOk result ((serial : ℕ)
            → Contains serials.old.items serial → Contains serials.new.items serial) }
        ensures added { OnOk result ((serial : ℕ)
            → StandsUnder self.entry.keys.now
            (key_start resource self.entry.principal.now self.entry.host.now) serial
            → Contains serials.new.items serial) }
    {
        let more = self.serials_on(alloc, resource)?;
        serials.extend_from_slice(more.as_slice())?;
        Ok(())
    }

    /// The text with which the keys on one kind of resource begin.
    fn start(self, alloc: Global, resource: ResourceKind) -> Result<Vec<u8>, AllocError>
        ensures { IfOk result (λ made. made.items
            ≡ key_start resource self.entry.principal.now self.entry.host.now) }
    {
        let mut start = Vec::new(alloc);
        start.push(kind_byte(resource))?;
        start.extend_from_slice(self.principal.as_str().as_bytes())?;
        start.push(SEPARATOR)?;
        if let Some(host) = self.host {
            start.extend_from_slice(host.as_str().as_bytes())?;
            start.push(SEPARATOR)?;
        }
        Ok(start)
    }
}
