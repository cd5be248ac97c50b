//! The broker.

use crate::denial::denial_of;
use crate::open_fault::OpenFault;
use crate::prepared::{Change, Prepared};
use crate::stopped::Stopped;
use kob_authorizer::{Authorizer, CreateFault};
use kob_catalog::Catalog;
use kob_groups::Groups;
use kob_names::{Binding, Items, PlainValue, Settings};
use kob_rights::{Event, Produce, Reply, Request};
use std::alloc::{AllocError, Global};

/// The broker: topics, groups, bindings in force and super users. The rights of each event are
/// decided by the bindings in force at its place. Contracts see its state (`state_of`), and the
/// capacity reserved for changes.
pub struct Broker {
    pub(crate) catalog: Catalog,
    pub(crate) groups: Groups,
    pub(crate) authorizer: Authorizer,
    pub(crate) next_producer: u64,
}

// A function of its own, so that no proof of a caller goes through the parts.
impl Drop for Broker {
    fn drop(self) {
        let Broker {
            catalog: _,
            groups: _,
            authorizer: _,
            next_producer: _,
        } = self;
    }
}

impl Broker {
    ghost use Rattle.std.specs.Prelude.{◌≡◌, ◌⊎◌, ◌<◌, alloc_error, length, take, []};
    ghost use Rattle.std.specs.Prelude.{IfOk, IfErr, IsErrOf, OnOk, OnErr, Some, None};
    ghost use Rattle.kob_authorizer.specs.Creation.{create_fault};
    ghost use Rattle.kob_authorizer.specs.declared.fault.CreateFault.TheVariants as limits;
    ghost use Rattle.kob_broker.specs.Step.{IsReady, Makes, reply_of, state_of, state_with};
    ghost use Rattle.kob_broker.specs.Step.{MayRunOut, NeedsMemory, event_left, request_left};
    ghost use Rattle.kob_broker.specs.Step.{effect, step, replies_of, state_after};
    ghost use Rattle.kob_broker.specs.State.{open_state, settings_of};
    ghost use Rattle.kob_partition.specs.Retained.{retained_meaning};

    /// A broker with no topics and no groups, with the opening bindings in force under serials from
    /// 1 on. `TooMany` is returned only if the opening list holds more than 100,000 different
    /// bindings, and then nothing else is but out of memory.
    #[tactic(auto, using(crate::proofs::Decisions::serials_left))]
    pub fn open(alloc: Global, settings: Settings) -> Result<Broker, OpenFault>
        ensures ok { IfOk result (λ broker. state_of broker ≡ open_state settings) }
        ensures few { OnOk result (create_fault [] 1 settings.opening ≡ None) }
        ensures many { IsErrOf result OpenFault.TooMany → create_fault [] 1 settings.opening
            ≡ Some limits.TooMany }
        ensures told { create_fault [] 1 settings.opening ≡ Some limits.TooMany
            → IsErrOf result OpenFault.TooMany
            ⊎ IsErrOf result (OpenFault.Memory alloc_error) }
    {
        let Settings {
            supers,
            opening,
            everyone,
        } = settings;
        let mut authorizer = Authorizer::open(alloc, supers.into_vec(), everyone);
        match authorizer.create(alloc, opening.as_slice()) {
            Ok(_) => Ok(Broker {
                catalog: Catalog::new(alloc),
                groups: Groups::new(alloc),
                authorizer,
                next_producer: 0,
            }),
            Err(CreateFault::TooMany) => Err(OpenFault::TooMany),
            Err(CreateFault::SerialsSpent) => unreachable!(),
            Err(CreateFault::Memory(refused)) => Err(OpenFault::Memory(refused)),
        }
    }

    /// The super users, the setting `everyone`, and the bindings in force now as the opening list,
    /// by ascending serial. A broker that is opened with these has new serials from 1 on. The error
    /// is out of memory.
    pub fn opening(&self, alloc: Global) -> Result<Settings, AllocError>
        ensures { IfOk result (λ settings. settings ≡ settings_of (state_of self.now)) }
    {
        let supers = Items::copied(alloc, self.authorizer.supers())?;
        let opening = bindings_of(alloc, self.authorizer.entries())?;
        Ok(Settings {
            supers,
            opening,
            everyone: self.authorizer.everyone(),
        })
    }

    /// Decides on the request of an event whose rights are granted.
    #[tactic(auto, using(crate::proofs::Decisions::made_for_ok, crate::proofs::Decisions::needed_for))]
    fn prepare_effect(&mut self, alloc: Global, event: &Event) -> Result<Prepared, AllocError>
        ensures state { state_of self.new ≡ state_of self.old }
        ensures ok { IfOk result (Makes
            (effect retained_meaning (state_of self.new) event.now event.now.request) self.new) }
        ensures memory { OnErr result
            (NeedsMemory retained_meaning (state_of self.old) event.now.request) }
    {
        match &event.request {
            Request::Produce(asked) => self.prepare_produce(alloc, asked),
            Request::Fetch(asked) => self.prepare_fetch(alloc, asked),
            Request::ListOffsets(asked) => Ok(self.prepare_list_offsets(asked)),
            Request::Metadata(asked) => self.prepare_metadata(alloc, event, asked),
            Request::OffsetCommit(asked) => self.prepare_offset_commit(alloc, asked),
            Request::OffsetFetch(asked) => Ok(self.prepare_offset_fetch(asked)),
            Request::ListGroups => self.prepare_list_groups(alloc, event),
            Request::DeleteGroups(asked) => self.prepare_delete_groups(alloc, asked),
            Request::CreateTopics(asked) => self.prepare_create_topics(alloc, asked),
            Request::DeleteTopics(asked) => self.prepare_delete_topics(alloc, asked),
            Request::DeleteRecords(asked) => self.prepare_delete_records(alloc, asked),
            Request::InitProducerId => Ok(self.prepare_init_producer_id()),
            Request::DescribeAcls(asked) => self.prepare_describe_acls(alloc, asked),
            Request::CreateAcls(asked) => self.prepare_create_acls(alloc, asked),
            Request::DeleteAcls(asked) => self.prepare_delete_acls(alloc, asked),
        }
    }

    /// The first step of serving an event: all allocations and the reply. The contents are
    /// unchanged, also after an error, which is out of memory.
    pub fn prepare(&mut self, alloc: Global, event: &Event) -> Result<Prepared, AllocError>
        ensures state { state_of self.new ≡ state_of self.old }
        ensures ok { IfOk result
            (Makes (step retained_meaning (state_of self.new) event.now) self.new) }
        ensures memory { OnErr result
            (MayRunOut retained_meaning (state_of self.old) event.now) }
    {
        match denial_of(alloc, &self.authorizer, event)? {
            Some(denial) => Ok(Prepared::new(denial, Change::Unchanged)),
            None => self.prepare_effect(alloc, event),
        }
    }

    /// The first step for an event that is not served again: as [`prepare`](Broker::prepare), but a
    /// batch that is appended is moved out of it and not copied. A PRODUCE without a topic or records
    /// is left then; any other event stays as it was.
    #[tactic(auto, using(crate::proofs::Decisions::left_denied, crate::proofs::Decisions::left_granted))]
    pub fn prepare_taking(
        &mut self,
        alloc: Global,
        event: &mut Event,
    ) -> Result<Prepared, AllocError>
        ensures state { state_of self.new ≡ state_of self.old }
        ensures ok { IfOk result
            (Makes (step retained_meaning (state_of self.new) event.old) self.new) }
        ensures memory { OnErr result
            (MayRunOut retained_meaning (state_of self.old) event.old) }
        ensures left { OnOk result
            (event.new ≡ event_left retained_meaning (state_of self.old) event.old) }
        ensures principal { event.new.principal ≡ event.old.principal }
        ensures host { event.new.host ≡ event.old.host }
        ensures same { OnErr result (event.new ≡ event.old) }
    {
        match denial_of(alloc, &self.authorizer, event)? {
            Some(denied) => Ok(Prepared::new(denied, Change::Unchanged)),
            None => self.prepare_effect_taking(alloc, event),
        }
    }

    /// Decides on the request of an event whose rights are granted. A batch that is appended is
    /// moved out of it.
    #[tactic(auto, using(crate::proofs::Decisions::made_for_ok, crate::proofs::Decisions::needed_for, crate::proofs::Decisions::left_for))]
    fn prepare_effect_taking(
        &mut self,
        alloc: Global,
        event: &mut Event,
    ) -> Result<Prepared, AllocError>
        ensures state { state_of self.new ≡ state_of self.old }
        ensures ok { IfOk result (Makes
            (effect retained_meaning (state_of self.new) event.old event.old.request) self.new) }
        ensures memory { OnErr result
            (NeedsMemory retained_meaning (state_of self.old) event.old.request) }
        ensures left { OnOk result (event.new.request
            ≡ request_left retained_meaning (state_of self.old) event.old.request) }
        ensures principal { event.new.principal ≡ event.old.principal }
        ensures host { event.new.host ≡ event.old.host }
        ensures same { OnErr result (event.new ≡ event.old) }
    {
        match &mut event.request {
            Request::Produce(asked) => self.prepare_produce_taking(alloc, asked),
            _ => self.prepare_effect(alloc, event),
        }
    }

    /// The second step, if nothing has changed since the first: makes the change, and returns the
    /// reply. Does not allocate.
    #[tactic(auto, using(kob_catalog::proofs::Topics::unknown_stays))]
    pub fn commit(&mut self, prepared: Prepared) -> Reply
        requires { IsReady prepared self.old }
        ensures reply { result ≡ reply_of prepared }
        ensures state { state_of self.new ≡ state_with prepared self.old }
    {
        let Prepared { reply, change } = prepared;
        match change {
            Change::Unchanged => {}
            Change::AddTopic(made) => self.catalog.commit_create(made),
            Change::RemoveTopic(name) => {
                let _ = self.catalog.remove(&name);
                self.groups.forget_topic(&name);
            }
            Change::AddBindings(made) => {
                self.authorizer.commit_create(made);
            }
            Change::RemoveBindings(made) => {
                self.authorizer.commit_delete(Box::into_inner(made));
            }
            Change::Append(
                Produce {
                    topic,
                    partition,
                    batch,
                },
            ) => {
                self.catalog
                    .commit_append(&topic, partition as usize, batch);
            }
            Change::AdvanceStart(topic, partition, offset) => {
                self.catalog.commit_advance(&topic, partition, offset);
            }
            Change::Commit(made) => self.groups.commit_commit(made),
            Change::RemoveGroup(name) => {
                let _ = self.groups.remove(&name);
            }
            Change::GiveProducer => self.next_producer += 1,
        }
        reply
    }

    /// Serves one event. The error is out of memory, and the contents are then as before.
    pub fn serve(&mut self, alloc: Global, event: &Event) -> Result<Reply, AllocError>
        ensures reply { IfOk result (λ reply. reply
            ≡ (step retained_meaning (state_of self.old) event.now).reply) }
        ensures state { OnOk result (state_of self.new
            ≡ (step retained_meaning (state_of self.old) event.now).state) }
        ensures memory { OnErr result
            (MayRunOut retained_meaning (state_of self.old) event.now) }
        ensures kept { OnErr result (state_of self.new ≡ state_of self.old) }
    {
        let prepared = self.prepare(alloc, event)?;
        Ok(self.commit(prepared))
    }

    /// Serves one event that is not served again: as [`serve`](Broker::serve), but the batch of a
    /// PRODUCE that is appended is moved out of it into the log and not copied. A PRODUCE without a
    /// topic or records is left then; any other event stays as it was.
    pub fn serve_taking(&mut self, alloc: Global, event: &mut Event) -> Result<Reply, AllocError>
        ensures reply { IfOk result (λ reply. reply
            ≡ (step retained_meaning (state_of self.old) event.old).reply) }
        ensures state { OnOk result (state_of self.new
            ≡ (step retained_meaning (state_of self.old) event.old).state) }
        ensures memory { OnErr result
            (MayRunOut retained_meaning (state_of self.old) event.old) }
        ensures kept { OnErr result (state_of self.new ≡ state_of self.old) }
        ensures left { OnOk result
            (event.new ≡ event_left retained_meaning (state_of self.old) event.old) }
        ensures principal { event.new.principal ≡ event.old.principal }
        ensures host { event.new.host ≡ event.old.host }
        ensures same { OnErr result (event.new ≡ event.old) }
    {
        let prepared = self.prepare_taking(alloc, event)?;
        Ok(self.commit(prepared))
    }

    /// Serves events in order, until one runs out of memory. The broker is then as it is after the
    /// events that are done.
    pub fn run(&mut self, alloc: Global, events: &[Event]) -> Result<Vec<Reply>, Stopped>
        ensures replies { IfOk result (λ replies. replies.items
            ≡ replies_of retained_meaning events.now (state_of self.old)) }
        ensures state { OnOk result (state_of self.new
            ≡ state_after retained_meaning events.now (state_of self.old)) }
        ensures stopped { IfErr result (λ s. s.done < length events.now) }
        ensures stopped_count { IfErr result (λ s. length s.replies.items ≡ s.done) }
        ensures stopped_replies { IfErr result (λ s. s.replies.items
            ≡ replies_of retained_meaning (take s.done events.now) (state_of self.old)) }
        ensures stopped_state { IfErr result (λ s. state_of self.new
            ≡ state_after retained_meaning (take s.done events.now) (state_of self.old)) }
    {
        let mut replies = Vec::new(alloc);
        for (done, event) in events.iter().enumerate() {
            if let Err(refused) = replies.reserve(1) {
                return Err(Stopped {
                    done,
                    replies,
                    refused,
                });
            }
            match self.serve(alloc, event) {
                Ok(reply) => replies.push_reserved(reply),
                Err(refused) => {
                    return Err(Stopped {
                        done,
                        replies,
                        refused,
                    });
                }
            }
        }
        Ok(replies)
    }
}

ghost use Rattle.std.specs.Prelude.{◌≡◌, IfOk, map};

/// Copies of the bindings, without their serials.
fn bindings_of(alloc: Global, entries: &[(u64, Binding)]) -> Result<Items<Binding>, AllocError>
    ensures { IfOk result (λ made. made ≡ map (λ entry. entry.1) entries.now) }
{
    let mut bindings = Vec::new(alloc);
    for entry in entries {
        bindings.push(entry.1.copy(alloc)?)?;
    }
    Ok(Items::from_vec(bindings))
}
