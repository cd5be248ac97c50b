//! Whether access rules leave a topic one producer, and a group one that commits, over a journal.

ghost use Rattle.std.specs.Prelude.{◌≡◌, IfErr, OnOk};
ghost use Rattle.kob_names.specs.declared.kinds.Operation.TheVariants.{Read, Write};
ghost use Rattle.kob_names.specs.declared.kinds.ResourceKind.TheVariants.{Group, Topic};
ghost use Rattle.kob_broker.specs.State.{State};
ghost use Rattle.kob_partition.specs.Retained.{Retained};
ghost use Rattle.kob_shared.specs.Journals.{IsLegal, opened_by};
ghost use Rattle.kob_delivery.specs.InTurn.{entries_of};
ghost use Rattle.kob_delivery.specs.Reserved.{IsRuleFault, IsRuleFaultInTurn};
ghost use Rattle.kob_delivery.specs.Reserved.{sole_reader, sole_writer};
ghost use Rattle.kob_delivery.specs.View.{ActsAlone, Commits, IsReserved};
ghost use Rattle.kob_delivery.specs.View.{IsSoleCommitter, IsSoleProducer, NoSuperUser, Produces};
ghost use Rattle.kob_delivery.specs.declared.access_rules.RuleFault.TheVariants.{Memory};

use crate::actors::{
    first_other_actor, first_super_committer, first_super_producer, other_actor_in_turn,
    super_committer_in_turn, super_producer_in_turn,
};
use crate::open_places::{first_unreserved, unreserved_in_turn};
use kob_names::{Operation, Principal, ResourceKind, Settings, Text};
use kob_shared::Journal;
use std::alloc::{AllocError, Global};

/// Why access rules do not leave a topic one producer, or a group one that commits: the premise of
/// the access laws that a journal breaks, with the place of the first entry that does. Those before it
/// hold.
#[derive(Clone, Copy, Debug)]
pub enum RuleFault {
    /// Another worker acts as the principal.
    OtherActor(usize),
    /// The entry was done and is a super user's.
    SuperUser(usize),
    /// The bindings in force before the entry let others do it.
    NotReserved(usize),
    /// Out of memory. The first two premises hold of one journal; nothing is known of journals in
    /// turn, of which a number may not count the entries.
    Memory(AllocError),
}

impl From<AllocError> for RuleFault {
    ghost from_gives = { λ refused fault. fault ≡ Memory refused };

    fn from(refused: AllocError) -> RuleFault {
        RuleFault::Memory(refused)
    }
}

/// Whether the premises of `bindings_leave_one_producer` hold of a journal that begins with these
/// settings. Then the worker is the only producer of the topic. They are examined in the order of
/// the faults.
#[tactic(auto, using(crate::proofs::Reserving::sole_producer))]
pub fn only_producer_by_rules(
    alloc: Global,
    opening: &Settings,
    journal: &Journal,
    worker: usize,
    principal: &Principal,
    topic: &Text,
) -> Result<(), RuleFault>
    ensures sole { OnOk result ((now : State Retained)
        → IsLegal (opened_by opening.now) journal.now now
        → IsSoleProducer worker topic.now journal.now) }
    ensures reserved { OnOk result
        (IsReserved opening.now journal.now principal.now Write Topic topic.now) }
    ensures alone { OnOk result (ActsAlone worker principal.now journal.now) }
    ensures common { OnOk result
        (NoSuperUser opening.now.supers (Produces topic.now) journal.now) }
    ensures fault { IfErr result (IsRuleFault opening.now journal.now
        (sole_writer worker principal.now topic.now) (Produces topic.now)) }
{
    if let Some(place) = first_other_actor(journal, worker, principal) {
        return Err(RuleFault::OtherActor(place));
    }
    if let Some(place) = first_super_producer(journal, &opening.supers, topic) {
        return Err(RuleFault::SuperUser(place));
    }
    match first_unreserved(
        alloc,
        opening,
        journal,
        principal,
        Operation::Write,
        ResourceKind::Topic,
        topic,
    ) {
        Ok(None) => Ok(()),
        Ok(Some(place)) => Err(RuleFault::NotReserved(place)),
        Err(refused) => Err(RuleFault::Memory(refused)),
    }
}

/// Whether the premises of `bindings_leave_one_committer` hold of a journal that begins with these
/// settings. Then the worker is the only one that commits for the group on the topic. They are
/// examined in the order of the faults.
#[tactic(auto, using(crate::proofs::Reserving::sole_committer))]
pub fn only_committer_by_rules(
    alloc: Global,
    opening: &Settings,
    journal: &Journal,
    worker: usize,
    principal: &Principal,
    group: &Text,
    topic: &Text,
) -> Result<(), RuleFault>
    ensures sole { OnOk result ((now : State Retained)
        → IsLegal (opened_by opening.now) journal.now now
        → IsSoleCommitter worker group.now topic.now journal.now) }
    ensures reserved { OnOk result
        (IsReserved opening.now journal.now principal.now Read Group group.now) }
    ensures alone { OnOk result (ActsAlone worker principal.now journal.now) }
    ensures common { OnOk result
        (NoSuperUser opening.now.supers (Commits group.now topic.now) journal.now) }
    ensures fault { IfErr result (IsRuleFault opening.now journal.now
        (sole_reader worker principal.now group.now) (Commits group.now topic.now)) }
{
    if let Some(place) = first_other_actor(journal, worker, principal) {
        return Err(RuleFault::OtherActor(place));
    }
    if let Some(place) = first_super_committer(journal, &opening.supers, group, topic) {
        return Err(RuleFault::SuperUser(place));
    }
    match first_unreserved(
        alloc,
        opening,
        journal,
        principal,
        Operation::Read,
        ResourceKind::Group,
        group,
    ) {
        Ok(None) => Ok(()),
        Ok(Some(place)) => Err(RuleFault::NotReserved(place)),
        Err(refused) => Err(RuleFault::Memory(refused)),
    }
}

/// What [`only_producer_by_rules`] says of a journal, of journals that follow one another, the
/// oldest first, of which the first begins with these settings. Places count the entries of all of
/// them.
#[tactic(auto, using(crate::proofs::Reserving::sole_producer))]
pub fn only_producer_in_turn(
    alloc: Global,
    opening: &Settings,
    journals: &[&Journal],
    worker: usize,
    principal: &Principal,
    topic: &Text,
) -> Result<(), RuleFault>
    ensures sole { OnOk result ((now : State Retained)
        → IsLegal (opened_by opening.now) (entries_of journals.now) now
        → IsSoleProducer worker topic.now (entries_of journals.now)) }
    ensures reserved { OnOk result
        (IsReserved opening.now (entries_of journals.now) principal.now Write Topic topic.now) }
    ensures alone { OnOk result (ActsAlone worker principal.now (entries_of journals.now)) }
    ensures common { OnOk result
        (NoSuperUser opening.now.supers (Produces topic.now) (entries_of journals.now)) }
    ensures fault { IfErr result (IsRuleFaultInTurn opening.now (entries_of journals.now)
        (sole_writer worker principal.now topic.now) (Produces topic.now)) }
{
    if let Some(place) = other_actor_in_turn(journals, worker, principal)? {
        return Err(RuleFault::OtherActor(place));
    }
    if let Some(place) = super_producer_in_turn(journals, &opening.supers, topic)? {
        return Err(RuleFault::SuperUser(place));
    }
    let (right, kind) = (Operation::Write, ResourceKind::Topic);
    match unreserved_in_turn(alloc, opening, journals, principal, right, kind, topic)? {
        None => Ok(()),
        Some(place) => Err(RuleFault::NotReserved(place)),
    }
}

/// What [`only_committer_by_rules`] says of a journal, of journals that follow one another, the
/// oldest first, of which the first begins with these settings. Places count the entries of all of
/// them.
#[tactic(auto, using(crate::proofs::Reserving::sole_committer))]
pub fn only_committer_in_turn(
    alloc: Global,
    opening: &Settings,
    journals: &[&Journal],
    worker: usize,
    principal: &Principal,
    group: &Text,
    topic: &Text,
) -> Result<(), RuleFault>
    ensures sole { OnOk result ((now : State Retained)
        → IsLegal (opened_by opening.now) (entries_of journals.now) now
        → IsSoleCommitter worker group.now topic.now (entries_of journals.now)) }
    ensures reserved { OnOk result
        (IsReserved opening.now (entries_of journals.now) principal.now Read Group group.now) }
    ensures alone { OnOk result (ActsAlone worker principal.now (entries_of journals.now)) }
    ensures common { OnOk result
        (NoSuperUser opening.now.supers (Commits group.now topic.now)
        (entries_of journals.now)) }
    ensures fault { IfErr result (IsRuleFaultInTurn opening.now (entries_of journals.now)
        (sole_reader worker principal.now group.now) (Commits group.now topic.now)) }
{
    if let Some(place) = other_actor_in_turn(journals, worker, principal)? {
        return Err(RuleFault::OtherActor(place));
    }
    if let Some(place) = super_committer_in_turn(journals, &opening.supers, group, topic)? {
        return Err(RuleFault::SuperUser(place));
    }
    let (right, kind) = (Operation::Read, ResourceKind::Group);
    match unreserved_in_turn(alloc, opening, journals, principal, right, kind, group)? {
        None => Ok(()),
        Some(place) => Err(RuleFault::NotReserved(place)),
    }
}
