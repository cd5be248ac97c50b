//! The authorizer: a list of bindings, and the trees that index it.

ghost use Rattle.std.specs.Prelude.{◌≡◌, ◌≢◌, ◌≤◌, IfErr, IfOk, None, OnErr, OnOk, Some, length};
ghost use Rattle.std.specs.Prelude.{alloc_error};
ghost use Rattle.kob_authorizer.specs.Decide.{IsRising, fresh_contents};
ghost use Rattle.kob_authorizer.specs.Creation.{CanCreate, Creates, addition, with_creation};
ghost use Rattle.kob_authorizer.specs.Decide.{decide, has_match, question_of, IsTrueVerdict};
ghost use Rattle.kob_authorizer.specs.Deletion.{CanDelete, bindings_left, bindings_taken};
ghost use Rattle.kob_authorizer.specs.Deletion.{without_taken};
ghost use Rattle.kob_authorizer.specs.Creation.{binding_limit, create_fault};

use crate::creation::PreparedCreate;
use crate::deletion::{PreparedDelete, copies_taken, remove_taken};
use crate::entry_list::EntryList;
use crate::fault::CreateFault;
use crate::index::{Index, put_all};
use crate::look_up::{is_unmatched, verdict};
use crate::question::Question;
use crate::super_users::SuperUsers;
use kob_names::{Binding, BindingFilter, Host, Items, Operation, Principal, ResourceKind, Verdict};
use std::alloc::{AllocError, Global};
use std::marker::Model;

/// The bindings in force, each with its serial, the super users, and whether a resource that no
/// binding matches is open to everyone.
///
/// Contracts see the contents: the bindings by ascending serial, the super users, the setting
/// `everyone`, and the serial that the next new binding gets. They also see for how many more
/// bindings capacity is reserved. The rules are those of Kafka's documentation, "Authorization and
/// ACLs", and of KIP-290.
#[derive(Drop)]
pub struct Authorizer {
    entries: EntryList,
    index: Index,
    supers: SuperUsers,
    everyone: bool,
    next: u64,
}

impl Model for Authorizer {
    ghost use Rattle.std.specs.Prelude.{◌≤◌, length};
    ghost use Rattle.kob_authorizer.specs.Decide.{IsRising, State};
    ghost use Rattle.kob_authorizer.specs.Index.{Indexes};
    ghost use Rattle.kob_authorizer.specs.Creation.{binding_limit};

    ghost Value = { State };

    ghost view = { λ authorizer. record {
      contents = record {
        entries = authorizer.entries.entries;
        supers = authorizer.supers;
        everyone = authorizer.everyone;
        next = authorizer.next;
      };
      room = authorizer.entries.room;
    } };

    ghost invariant = { λ authorizer. (length authorizer.entries.entries ≤ binding_limit)
        × IsRising 1 authorizer.entries.entries authorizer.next
        × Indexes authorizer.index authorizer.entries.entries };
}

impl Authorizer {
    /// An authorizer without bindings, whose first new binding gets the serial 1. With `everyone` a
    /// resource that no binding matches is open to everyone (Kafka's
    /// `allow.everyone.if.no.acl.found`). Does not allocate: super users are looked up in the list
    /// until the first creation makes a tree of them.
    pub fn open(alloc: Global, supers: Vec<Principal>, everyone: bool) -> Authorizer
        ensures { result.contents ≡ fresh_contents supers.items everyone }
    {
        Authorizer {
            entries: EntryList::new(alloc),
            index: Index::new(),
            supers: SuperUsers::new(supers),
            everyone,
            next: 1,
        }
    }

    /// The super users, in the order in which they were given. Does not allocate.
    pub fn supers(&self) -> &[Principal]
        ensures { result.now ≡ self.now.contents.supers }
    {
        self.supers.as_slice()
    }

    /// Whether a resource that no binding matches is open to everyone. Does not allocate.
    pub fn everyone(&self) -> bool
        ensures { result ≡ self.now.contents.everyone }
    {
        self.everyone
    }

    /// The bindings in force with their serials, by ascending serial. Does not allocate.
    pub fn entries(&self) -> &[(u64, Binding)]
        ensures entries { result.now ≡ self.now.contents.entries }
        ensures rising { IsRising 1 result.now self.now.contents.next }
        ensures count { length result.now ≤ binding_limit }
    {
        self.entries.as_slice()
    }

    /// The serial that the next new binding gets. Does not allocate.
    pub fn next_serial(&self) -> u64
        ensures { result ≡ self.now.contents.next }
    {
        self.next
    }

    /// Whether `who` may do `operation` from `host` on the resource called `name`, and by which
    /// binding. Does not allocate.
    ///
    /// The principal and the host that ask are plain texts: `User:*` and `*` mean all only in
    /// bindings. A super user is found by equality. The name is not checked and may be any text.
    /// Patterns are compared with it as KIP-290 says.
    pub fn authorize(
        &self,
        who: &Principal,
        host: &Host,
        operation: Operation,
        resource: ResourceKind,
        name: &str,
    ) -> Verdict
        ensures verdict { result ≡ decide self.now.contents
            (question_of who.now host.now operation resource name.now) }
        ensures meaning { IsTrueVerdict self.now.contents
            (question_of who.now host.now operation resource name.now) result }
    {
        let question = Question {
            principal: who,
            host,
            operation,
            resource,
            name,
        };
        if self.supers.contains(who) {
            Verdict::Super
        } else {
            verdict(
                self.entries.as_slice(),
                &self.index,
                self.everyone,
                &question,
            )
        }
    }

    /// Whether the pattern of a binding in force takes the name, for whomever and whatever the binding
    /// is. No binding is examined.
    pub fn has_match(&self, resource: ResourceKind, name: &str) -> bool
        ensures { result ≡ has_match self.now.contents.entries resource name.now }
    {
        !is_unmatched(&self.index, resource, name)
    }

    /// Puts bindings in force, all or none, and returns their serials in the order of the bindings.
    ///
    /// A binding equal to one in force, or to an earlier one of the same call, gets that one's
    /// serial. `TooMany` is returned before `SerialsSpent`, and counts each different new binding
    /// once.
    pub fn create(&mut self, alloc: Global, bindings: &[Binding]) -> Result<Vec<u64>, CreateFault>
        ensures added { IfOk result (λ serials.
            addition self.old.contents.entries self.old.contents.next bindings.now ≡ record {
              entries = self.new.contents.entries;
              next = self.new.contents.next;
              serials = serials.items;
            }) }
        ensures supers { self.new.contents.supers ≡ self.old.contents.supers }
        ensures everyone { self.new.contents.everyone ≡ self.old.contents.everyone }
        ensures allowed { OnOk result (create_fault
            self.old.contents.entries self.old.contents.next bindings.now ≡ None) }
        ensures fault { IfErr result (λ fault. fault ≢ CreateFault.Memory alloc_error
            → create_fault
            self.old.contents.entries self.old.contents.next bindings.now ≡ Some fault) }
        ensures kept { OnErr result (self.new.contents ≡ self.old.contents) }
    {
        let prepared = self.prepare_create(alloc, Items::copied(alloc, bindings)?.into_vec())?;
        Ok(self.commit_create(prepared))
    }

    /// The first step of [`create`](Authorizer::create): makes all allocations, and returns the
    /// serials with the prepared bindings. The contents are unchanged, also after an error.
    #[tactic(auto, using(crate::proofs::Entries::are_rising))]
    pub fn prepare_create(
        &mut self,
        alloc: Global,
        bindings: Vec<Binding>,
    ) -> Result<PreparedCreate, CreateFault>
        ensures kept { self.new.contents ≡ self.old.contents }
        ensures ok { IfOk result
            (Creates self.old.contents.entries self.old.contents.next bindings.items) }
        ensures ready { IfOk result (λ made. CanCreate made self.new) }
        ensures allowed { OnOk result (create_fault
            self.old.contents.entries self.old.contents.next bindings.items ≡ None) }
        ensures fault { IfErr result (λ fault. fault ≢ CreateFault.Memory alloc_error
            → create_fault
            self.old.contents.entries self.old.contents.next bindings.items ≡ Some fault) }
    {
        let made = PreparedCreate::make(
            alloc,
            self.entries.as_slice(),
            &self.index,
            self.next,
            bindings,
        )?;
        self.entries.reserve(made.count())?;
        self.supers.index(alloc)?;
        Ok(made)
    }

    /// The second step of [`create`](Authorizer::create): puts the prepared bindings in force and
    /// returns the serials. Does not allocate.
    #[tactic(auto, using(crate::proofs::Entries::put_rises))]
    pub fn commit_create(&mut self, prepared: PreparedCreate) -> Vec<u64>
        requires { CanCreate prepared self.old }
        ensures contents { self.new.contents ≡ with_creation self.old.contents prepared }
        ensures serials { result.items ≡ prepared.serials }
    {
        let (fresh, leaves, serials) = prepared.into_parts();
        self.next += fresh.len() as u64;
        put_all(&mut self.index, leaves);
        self.entries.append(fresh);
        serials
    }

    /// Copies of the bindings that the filter selects, with their serials, by ascending serial.
    #[tactic(auto, using(crate::proofs::Entries::rising_filter, crate::proofs::Entries::are_rising))]
    pub fn describe(
        &self,
        alloc: Global,
        filter: &BindingFilter,
    ) -> Result<Vec<(u64, Binding)>, AllocError>
        ensures taken { IfOk result (λ entries.
            entries.items ≡ bindings_taken filter.now self.now.contents.entries) }
        ensures rising { IfOk result (λ entries. IsRising 1 entries.items self.now.contents.next) }
    {
        copies_taken(alloc, self.entries.as_slice(), &self.index, filter)
    }

    /// Deletes the bindings that the filter selects, and returns them by ascending serial. The
    /// serial of a deleted binding is never used again.
    pub fn delete(
        &mut self,
        alloc: Global,
        filter: &BindingFilter,
    ) -> Result<Vec<(u64, Binding)>, AllocError>
        ensures taken { IfOk result (λ entries.
            entries.items ≡ bindings_taken filter.now self.old.contents.entries) }
        ensures rising { IfOk result (λ entries. IsRising 1 entries.items self.old.contents.next) }
        ensures contents { OnOk result
            (self.new.contents ≡ without_taken filter.now self.old.contents) }
        ensures kept { OnErr result (self.new.contents ≡ self.old.contents) }
    {
        let prepared = self.prepare_delete(alloc, filter)?;
        Ok(self.commit_delete(prepared))
    }

    /// The first step of [`delete`](Authorizer::delete): makes all allocations, and returns the
    /// bindings that will be deleted.
    #[tactic(auto, using(crate::proofs::Entries::rising_filter, crate::proofs::Entries::are_rising))]
    pub fn prepare_delete(
        &self,
        alloc: Global,
        filter: &BindingFilter,
    ) -> Result<PreparedDelete, AllocError>
        ensures filter { IfOk result (λ made. made.filter ≡ filter.now) }
        ensures taken { IfOk result
            (λ made. made.taken ≡ bindings_taken filter.now self.now.contents.entries) }
        ensures rising { IfOk result (λ made. IsRising 1 made.taken self.now.contents.next) }
        ensures ready { IfOk result (λ made. CanDelete made self.now) }
    {
        PreparedDelete::make(alloc, self.entries.as_slice(), &self.index, filter)
    }

    /// The second step of [`delete`](Authorizer::delete): deletes the prepared entries and returns
    /// them. Does not allocate.
    #[tactic(auto, using(crate::proofs::Entries::rising_filter, crate::proofs::Entries::are_rising))]
    pub fn commit_delete(&mut self, prepared: PreparedDelete) -> Vec<(u64, Binding)>
        requires { CanDelete prepared self.old }
        ensures contents { self.new.contents ≡ without_taken prepared.filter self.old.contents }
        ensures taken { result.items ≡ prepared.taken }
    {
        let (filter, taken, removals) = prepared.into_parts();
        self.index.remove(taken.as_slice(), removals);
        remove_taken(&mut self.entries, &filter, taken.as_slice());
        taken
    }
}
