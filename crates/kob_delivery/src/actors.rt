//! Who acts in a journal: as a principal, and as a super user.

ghost use Rattle.std.specs.Prelude.{◌≡◌, IfOk, MatchOption};
ghost use Rattle.kob_authorizer.specs.Decide.{is_super};
ghost use Rattle.kob_delivery.specs.InTurn.{entries_of};
ghost use Rattle.kob_delivery.specs.Reserved.{IsNoSuperUsers, IsOwnAct};
ghost use Rattle.kob_delivery.specs.View.{ActsAlone, Commits, IsFirstBreach};
ghost use Rattle.kob_delivery.specs.View.{NoSuperUser, Produces};

use crate::asked::{Asked, first_in, first_in_turn};
use crate::premises::{commits, produces};
use kob_names::{Items, PlainValue, Principal, Text};
use kob_shared::{Entry, Journal};
use std::alloc::AllocError;

/// An entry that acts as the principal is the worker's.
#[derive(Drop)]
struct OwnAct<'a> {
    worker: usize,
    principal: &'a Principal,
}

impl<'a> Asked for OwnAct<'a> {
    ghost use Rattle.kob_delivery.specs.Reserved.{IsOwnAct};

    ghost holds = { λ asked. IsOwnAct asked.worker asked.principal.now };

    fn holds(&self, entry: &Entry) -> bool {
        !entry.event.principal.same(self.principal) || entry.worker == self.worker
    }
}

/// A PRODUCE to the topic that was done is no super user's.
#[derive(Drop)]
struct NoSuperProduce<'a> {
    supers: &'a Items<Principal>,
    topic: &'a Text,
}

impl<'a> Asked for NoSuperProduce<'a> {
    ghost use Rattle.kob_delivery.specs.Reserved.{IsNoSuperUsers};
    ghost use Rattle.kob_delivery.specs.View.{Produces};

    ghost holds = { λ asked. IsNoSuperUsers asked.supers.now (Produces asked.topic.now) };

    fn holds(&self, entry: &Entry) -> bool {
        !produces(entry, self.topic) || !is_super_users(entry, self.supers)
    }
}

/// An OFFSET_COMMIT of the group on the topic that was done is no super user's.
#[derive(Drop)]
struct NoSuperCommit<'a> {
    supers: &'a Items<Principal>,
    group: &'a Text,
    topic: &'a Text,
}

impl<'a> Asked for NoSuperCommit<'a> {
    ghost use Rattle.kob_delivery.specs.Reserved.{IsNoSuperUsers};
    ghost use Rattle.kob_delivery.specs.View.{Commits};

    ghost holds = { λ asked.
        IsNoSuperUsers asked.supers.now (Commits asked.group.now asked.topic.now) };

    fn holds(&self, entry: &Entry) -> bool {
        !commits(entry, self.group, self.topic) || !is_super_users(entry, self.supers)
    }
}

/// The place of the first entry of another worker that acts as the principal. None means that the
/// worker acts alone, as `bindings_leave_one_producer` requires. Does not allocate.
pub fn first_other_actor(journal: &Journal, worker: usize, principal: &Principal) -> Option<usize>
    ensures { MatchOption result (ActsAlone worker principal.now journal.now)
        (IsFirstBreach (IsOwnAct worker principal.now) journal.now) }
{
    first_in(journal, &OwnAct { worker, principal })
}

/// The same of journals that follow one another, the oldest first. The place counts the entries of
/// all of them. The error says that a number does not count the entries: memory holds fewer.
pub fn other_actor_in_turn(
    journals: &[&Journal],
    worker: usize,
    principal: &Principal,
) -> Result<Option<usize>, AllocError>
    ensures { IfOk result (λ found. MatchOption found
        (ActsAlone worker principal.now (entries_of journals.now))
        (IsFirstBreach (IsOwnAct worker principal.now) (entries_of journals.now))) }
{
    first_in_turn(journals, &OwnAct { worker, principal })
}

/// The place of the first PRODUCE to the topic that was done and is a super user's. None means that
/// no super user writes to the topic, as `bindings_leave_one_producer` requires. Does not allocate.
pub fn first_super_producer(
    journal: &Journal,
    supers: &Items<Principal>,
    topic: &Text,
) -> Option<usize>
    ensures { MatchOption result (NoSuperUser supers.now (Produces topic.now) journal.now)
        (IsFirstBreach (IsNoSuperUsers supers.now (Produces topic.now)) journal.now) }
{
    first_in(journal, &NoSuperProduce { supers, topic })
}

/// The same of journals that follow one another, as [`other_actor_in_turn`] takes them.
pub fn super_producer_in_turn(
    journals: &[&Journal],
    supers: &Items<Principal>,
    topic: &Text,
) -> Result<Option<usize>, AllocError>
    ensures { IfOk result (λ found. MatchOption found
        (NoSuperUser supers.now (Produces topic.now) (entries_of journals.now))
        (IsFirstBreach (IsNoSuperUsers supers.now (Produces topic.now))
        (entries_of journals.now))) }
{
    first_in_turn(journals, &NoSuperProduce { supers, topic })
}

/// The place of the first OFFSET_COMMIT of the group on the topic that was done and is a super
/// user's. None means that no super user commits for the group on the topic, as
/// `bindings_leave_one_committer` requires. Does not allocate.
pub fn first_super_committer(
    journal: &Journal,
    supers: &Items<Principal>,
    group: &Text,
    topic: &Text,
) -> Option<usize>
    ensures { MatchOption result
        (NoSuperUser supers.now (Commits group.now topic.now) journal.now)
        (IsFirstBreach (IsNoSuperUsers supers.now (Commits group.now topic.now)) journal.now) }
{
    first_in(
        journal,
        &NoSuperCommit {
            supers,
            group,
            topic,
        },
    )
}

/// The same of journals that follow one another, as [`other_actor_in_turn`] takes them.
pub fn super_committer_in_turn(
    journals: &[&Journal],
    supers: &Items<Principal>,
    group: &Text,
    topic: &Text,
) -> Result<Option<usize>, AllocError>
    ensures { IfOk result (λ found. MatchOption found
        (NoSuperUser supers.now (Commits group.now topic.now) (entries_of journals.now))
        (IsFirstBreach (IsNoSuperUsers supers.now (Commits group.now topic.now))
        (entries_of journals.now))) }
{
    first_in_turn(
        journals,
        &NoSuperCommit {
            supers,
            group,
            topic,
        },
    )
}

/// Whether an entry's principal is a super user.
fn is_super_users(entry: &Entry, supers: &Items<Principal>) -> bool
    ensures { result ≡ is_super supers.now entry.now.event.principal }
{
    let who = &entry.event.principal;
    supers.as_slice().iter().any(|user| who == user)
}
