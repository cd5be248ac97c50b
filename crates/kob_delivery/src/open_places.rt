//! The first place of a journal at which the bindings in force let others do an operation on a name.

ghost use Rattle.std.specs.Prelude.{◌≡◌, ◌↔◌, ◌∷◌, [], List, ℕ, false, true, IfOk, IsTrue, MatchOption};
ghost use Rattle.kob_authorizer.specs.Decide.{Contents};
ghost use Rattle.kob_names.specs.declared.kinds.Operation.{Operation};
ghost use Rattle.kob_names.specs.declared.kinds.ResourceKind.{ResourceKind};
ghost use Rattle.kob_names.specs.declared.settings.Settings.{Settings};
ghost use Rattle.kob_shared.specs.Journals.{bindings_after};
ghost use Rattle.kob_shared.specs.declared.journal.Entry.{Entry};
ghost use Rattle.kob_delivery.specs.InTurn.{entries_of};
ghost use Rattle.kob_delivery.specs.Reserved.{IsFirstUnreserved, LeaveReserved, bindings_on};
ghost use Rattle.kob_delivery.specs.Reserved.{is_open_to_others};
ghost use Rattle.kob_delivery.specs.View.{IsReserved, IsReservedFor};

use crate::asked::sum;
use crate::bindings_on::{create_opening, follow, is_open_to_others};
use kob_names::{Draft, Operation, Principal, ResourceKind, Settings, Text};
use kob_shared::Journal;
use std::alloc::{AllocError, Global};

/// Bindings let only one principal do an operation on a name exactly if none of those on the name
/// allows it to everyone or to another principal, and the name is not everyone's for want of a
/// binding on it. So a finite test decides what is asked of all principals and hosts.
#[tactic(auto, using(crate::proofs::OnNames::decided))]
pub fn the_bindings_on_a_name_decide()
    ensures { (principal : List ℕ) (operation : Operation) (resource : ResourceKind)
        (name : List ℕ) (access : Contents)
        → IsReservedFor principal operation resource name access
        ↔ (is_open_to_others principal operation access.everyone
        (bindings_on resource name access) ≡ false) }
{
    // The contract is the law.
}

/// A name that the opening bindings reserve for a principal stays reserved until a CREATE_ACLS that
/// was done has a binding on the name that allows others. If a name without bindings is everyone's,
/// it stays so until a DELETE_ACLS was done, too.
#[tactic(auto, using(crate::proofs::Lasting::stays_reserved))]
pub fn a_reservation_lasts()
    ensures { (opening : Settings) (journal : List Entry) (principal : List ℕ)
        (operation : Operation) (resource : ResourceKind) (name : List ℕ)
        → IsReservedFor principal operation resource name (bindings_after opening [])
        → LeaveReserved principal operation resource name opening.everyone journal
        → IsReserved opening journal principal operation resource name }
{
    // The contract is the law.
}

/// Whether the opening bindings of these settings let only the principal do the operation on the
/// name. `Broker::opening` gives the settings with the bindings that are in force now. The error is
/// out of memory.
#[tactic(auto, using(crate::proofs::Following::opening_decides))]
pub fn is_reserved(
    alloc: Global,
    opening: &Settings,
    principal: &Principal,
    operation: Operation,
    resource: ResourceKind,
    name: &Text,
) -> Result<bool, AllocError>
    ensures { IfOk result (λ reserved. IsTrue reserved ↔ IsReservedFor
        principal.now operation resource name.now (bindings_after opening.now [])) }
{
    let mut bindings = Vec::new(alloc);
    opening_on(alloc, &mut bindings, opening, resource, name)?;
    let others = is_open_to_others(bindings.as_slice(), opening.everyone, principal, operation);
    Ok(!others)
}

/// The first place of the journal at which the bindings in force let others than the principal do
/// the operation on the name. None means that the name is reserved throughout the journal, as
/// `bindings_leave_one_producer` requires. The journal begins with these settings.
///
/// One pass over the journal. The bindings on the name are copied, and examined again after each
/// CREATE_ACLS or DELETE_ACLS that was done. The error is out of memory.
#[tactic(auto, using(crate::proofs::InTurn::one_journal))]
pub fn first_unreserved(
    alloc: Global,
    opening: &Settings,
    journal: &Journal,
    principal: &Principal,
    operation: Operation,
    resource: ResourceKind,
    name: &Text,
) -> Result<Option<usize>, AllocError>
    ensures { IfOk result (λ found. MatchOption found
        (IsReserved opening.now journal.now principal.now operation resource name.now)
        (IsFirstUnreserved opening.now journal.now principal.now operation resource name.now)) }
{
    unreserved_in_turn(
        alloc,
        opening,
        &[journal],
        principal,
        operation,
        resource,
        name,
    )
}

/// The same of journals that follow one another, the oldest first, of which the first begins with
/// these settings. The place counts the entries of all of them. The error is out of memory, or says
/// that a number does not count the entries: memory holds fewer.
pub fn unreserved_in_turn(
    alloc: Global,
    opening: &Settings,
    journals: &[&Journal],
    principal: &Principal,
    operation: Operation,
    resource: ResourceKind,
    name: &Text,
) -> Result<Option<usize>, AllocError>
    ensures { IfOk result (λ found. MatchOption found
        (IsReserved opening.now (entries_of journals.now) principal.now operation resource
        name.now)
        (IsFirstUnreserved opening.now (entries_of journals.now) principal.now operation
        resource name.now)) }
{
    let mut bindings = Vec::new(alloc);
    opening_on(alloc, &mut bindings, opening, resource, name)?;
    first_open(
        alloc,
        &mut bindings,
        opening,
        journals,
        principal,
        operation,
        resource,
        name,
    )
}

/// Puts the bindings on the name that are in force at first into an empty list.
#[tactic(auto, using(crate::proofs::Following::on_opening))]
fn opening_on(
    alloc: Global,
    bindings: &mut Vec<Draft>,
    opening: &Settings,
    resource: ResourceKind,
    name: &Text,
) -> Result<(), AllocError>
    requires { bindings.old.items ≡ [] }
    ensures { IfOk result (λ done. bindings.new.items
        ≡ bindings_on resource name.now (bindings_after opening.now [])) }
{
    create_opening(alloc, bindings, opening.opening.as_slice(), resource, name)
}

/// Follows the journals, with the bindings on the name that are in force at first.
fn first_open(
    alloc: Global,
    bindings: &mut Vec<Draft>,
    opening: &Settings,
    journals: &[&Journal],
    principal: &Principal,
    operation: Operation,
    resource: ResourceKind,
    name: &Text,
) -> Result<Option<usize>, AllocError>
    requires { bindings.old.items ≡ bindings_on resource name.now (bindings_after opening.now []) }
    ensures { IfOk result (λ found. MatchOption found
        (IsReserved opening.now (entries_of journals.now) principal.now operation resource
        name.now)
        (IsFirstUnreserved opening.now (entries_of journals.now) principal.now operation
        resource name.now)) }
{
    let everyone = opening.everyone;
    let mut others = is_open_to_others(bindings.as_slice(), everyone, principal, operation);
    let mut before: usize = 0;
    for journal in journals {
        for place in 0..journal.len() {
            if others {
                return Ok(Some(sum(before, place)?));
            }
            let entry = journal.entry_at(place);
            let request = &entry.event.request;
            if follow(alloc, bindings, request, &entry.reply, resource, name)? {
                others = is_open_to_others(bindings.as_slice(), everyone, principal, operation);
            }
        }
        before = sum(before, journal.len())?;
    }
    Ok(None)
}
