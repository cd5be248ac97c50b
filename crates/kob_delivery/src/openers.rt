//! The first entry of a journal that opens a name to others than the principal for whom it is
//! reserved.

ghost use Rattle.std.specs.Prelude.{◌≡◌, ◌&&◌, IfOk, MatchOption};
ghost use Rattle.std.specs.List.{list_any};
ghost use Rattle.kob_delivery.specs.InTurn.{entries_of};
ghost use Rattle.kob_delivery.specs.Reserved.{IsReservedBy, LeaveReserved, allows_others, is_on};
ghost use Rattle.kob_delivery.specs.View.{IsFirstBreach};

use crate::asked::{Asked, first_in, first_in_turn};
use crate::bindings_on::{allows_others, is_on};
use kob_names::{Draft, Operation, Principal, ResourceKind, Text};
use kob_rights::{Reply, Request};
use kob_shared::{Entry, Journal};
use std::alloc::AllocError;

/// An entry leaves a name reserved for the principal.
#[derive(Drop)]
struct LeavesReserved<'a> {
    principal: &'a Principal,
    operation: Operation,
    resource: ResourceKind,
    name: &'a Text,
    everyone: bool,
}

impl<'a> Asked for LeavesReserved<'a> {
    ghost use Rattle.kob_delivery.specs.Reserved.{IsReservedBy};

    ghost holds = { λ asked. IsReservedBy asked.principal.now asked.operation asked.resource
        asked.name.now asked.everyone };

    fn holds(&self, entry: &Entry) -> bool {
        match (&entry.event.request, &entry.reply) {
            (Request::CreateAcls(asked), Reply::Done(_)) => !opens(
                asked.drafts.as_slice(),
                self.principal,
                self.operation,
                self.resource,
                self.name,
            ),
            (Request::DeleteAcls(_), Reply::Done(_)) => !self.everyone,
            _ => true,
        }
    }
}

/// Whether one of the bindings is on the name and allows the operation to others.
fn opens(
    drafts: &[Draft],
    principal: &Principal,
    operation: Operation,
    resource: ResourceKind,
    name: &Text,
) -> bool
    ensures { result ≡ list_any (λ draft. is_on resource name.now draft
        && allows_others principal.now operation draft) drafts.now }
{
    drafts.iter().any(|draft| {
        is_on(draft, resource, name) && allows_others(draft, principal, operation)
    })
}

/// The place of the first entry that opens a name to others than the principal: a CREATE_ACLS that
/// was done with a binding on the name that allows others the operation, or a DELETE_ACLS that was
/// done if a name without bindings is everyone's. None means that the name stays reserved if it is
/// so at first, by `a_reservation_lasts`. Does not allocate.
pub fn first_opener(
    journal: &Journal,
    principal: &Principal,
    operation: Operation,
    resource: ResourceKind,
    name: &Text,
    everyone: bool,
) -> Option<usize>
    ensures { MatchOption result
        (LeaveReserved principal.now operation resource name.now everyone journal.now)
        (IsFirstBreach (IsReservedBy principal.now operation resource name.now everyone)
        journal.now) }
{
    first_in(
        journal,
        &LeavesReserved {
            principal,
            operation,
            resource,
            name,
            everyone,
        },
    )
}

/// The same of journals that follow one another, the oldest first. The place counts the entries of
/// all of them. The error says that a number does not count the entries: memory holds fewer.
pub fn opener_in_turn(
    journals: &[&Journal],
    principal: &Principal,
    operation: Operation,
    resource: ResourceKind,
    name: &Text,
    everyone: bool,
) -> Result<Option<usize>, AllocError>
    ensures { IfOk result (λ found. MatchOption found
        (LeaveReserved principal.now operation resource name.now everyone
        (entries_of journals.now))
        (IsFirstBreach (IsReservedBy principal.now operation resource name.now everyone)
        (entries_of journals.now))) }
{
    first_in_turn(
        journals,
        &LeavesReserved {
            principal,
            operation,
            resource,
            name,
            everyone,
        },
    )
}
