//! What is done about bindings.

ghost use Rattle.std.specs.List.{flat_map};
ghost use Rattle.std.specs.Prelude.{◌≡◌, ◌++◌, ◌∷◌, [], IfOk, OnErr, OnOk, None};
ghost use Rattle.kob_broker.specs.Step.{MakesFor, NeedsMemory, state_of};
ghost use Rattle.kob_broker.specs.Bindings.{draft_reasons};
ghost use Rattle.kob_broker.specs.Denial.{first_reason};
ghost use Rattle.kob_partition.specs.Retained.{retained_meaning};
ghost use Rattle.kob_rights.specs.declared.request.Request.TheVariants as requests;

use crate::broker::Broker;
use crate::prepared::{Change, Prepared};
use kob_authorizer::CreateFault;
use kob_names::{Binding, BindingFault, Draft, Items};
use kob_rights::{Body, CreateAcls, DeleteAcls, DescribeAcls, Reason};
use std::alloc::{AllocError, Global};

impl Broker {
    #[tactic(auto, using(crate::proofs::Decisions::first_some, crate::proofs::Decisions::first_none))]
    pub(crate) fn prepare_create_acls(
        &mut self,
        alloc: Global,
        create: &CreateAcls,
    ) -> Result<Prepared, AllocError>
        ensures state { state_of self.new ≡ state_of self.old }
        ensures ok { IfOk result (MakesFor (requests.CreateAcls create.now) self.new) }
        ensures memory { OnErr result (NeedsMemory retained_meaning (state_of self.old)
            (requests.CreateAcls create.now)) }
    {
        let drafts = create.drafts.as_slice();
        if let Some(reason) = against_drafts(drafts) {
            return Ok(Prepared::refused(reason));
        }
        let bindings = bindings_of(alloc, drafts)?;
        let made = match self.authorizer.prepare_create(alloc, bindings) {
            Ok(made) => made,
            Err(CreateFault::TooMany) => return Ok(Prepared::refused(Reason::TooManyBindings)),
            Err(CreateFault::SerialsSpent) => return Ok(Prepared::refused(Reason::SerialsSpent)),
            Err(CreateFault::Memory(refused)) => return Err(refused),
        };
        let serials = Items::copied(alloc, made.serials())?;
        Ok(Prepared::done(Body::Serials(serials), Change::AddBindings(made)))
    }

    pub(crate) fn prepare_delete_acls(
        &self,
        alloc: Global,
        delete: &DeleteAcls,
    ) -> Result<Prepared, AllocError>
        ensures { IfOk result (MakesFor (requests.DeleteAcls delete.now) self.now) }
    {
        let made = Box::new(
            alloc,
            self.authorizer.prepare_delete(alloc, &delete.filter)?,
        )?;
        let taken = Items::copied(alloc, made.taken())?;
        Ok(Prepared::done(Body::Bindings(taken), Change::RemoveBindings(made)))
    }

    pub(crate) fn prepare_describe_acls(
        &self,
        alloc: Global,
        asked: &DescribeAcls,
    ) -> Result<Prepared, AllocError>
        ensures { IfOk result (MakesFor (requests.DescribeAcls asked.now) self.now) }
    {
        let taken = self.authorizer.describe(alloc, &asked.filter)?;
        Ok(Prepared::done(Body::Bindings(Items::from_vec(taken)), Change::Unchanged))
    }
}

/// The reason to refuse a draft that breaks a rule for bindings, by the first that it breaks. Does
/// not allocate.
fn against_draft(draft: &Draft) -> Option<Reason>
    ensures { result ≡ first_reason (draft_reasons draft.now) }
{
    match draft.fault() {
        None | Some(BindingFault::Memory(_)) => None,
        Some(BindingFault::EmptyName) => Some(Reason::EmptyName),
        Some(BindingFault::BadCluster) => Some(Reason::BadCluster),
        Some(BindingFault::TooLong) => Some(Reason::NameTooLong),
    }
}

/// The first reason to refuse one of the drafts. Does not allocate.
fn against_drafts(drafts: &[Draft]) -> Option<Reason>
    ensures { result ≡ first_reason (flat_map draft_reasons drafts.now) }
{
    for draft in drafts {
        if let Some(reason) = against_draft(draft) {
            return Some(reason);
        }
    }
    None
}

/// The bindings of drafts that break no rule.
fn bindings_of(alloc: Global, drafts: &[Draft]) -> Result<Vec<Binding>, AllocError>
    requires { first_reason (flat_map draft_reasons drafts.now) ≡ None }
    ensures { IfOk result (λ made. made.items ≡ drafts.now) }
{
    let mut bindings = Vec::with_capacity(alloc, drafts.len())?;
    for draft in drafts {
        put_binding(alloc, &mut bindings, draft)?;
    }
    Ok(bindings)
}

/// Appends the binding of a draft that breaks no rule.
fn put_binding(alloc: Global, bindings: &mut Vec<Binding>, draft: &Draft) -> Result<(), AllocError>
    requires { first_reason (draft_reasons draft.now) ≡ None }
    ensures { OnOk result (bindings.new.items ≡ bindings.old.items ++ draft.now ∷ []) }
{
    match Binding::new(alloc, draft) {
        Ok(binding) => Ok(bindings.push(binding)?),
        Err(BindingFault::Memory(refused)) => Err(refused),
        Err(_) => unreachable!(),
    }
}
