//! What is done about topics.

ghost use Rattle.std.specs.Prelude.{◌≡◌, IfOk, OnErr};
ghost use Rattle.kob_broker.specs.Step.{AreLentTopics, MakesFor, NeedsMemory, state_of, Makes, effect};
ghost use Rattle.kob_partition.specs.Retained.{retained_meaning};
ghost use Rattle.kob_rights.specs.declared.request.Request.TheVariants as requests;

use crate::broker::Broker;
use crate::describing::TopicDescriber;
use crate::prepared::{Change, Prepared};
use kob_catalog::{CreateFault, GrantedTopics};
use kob_names::{Items, PlainValue, TopicNameFault};
use kob_rights::{Body, CreateTopics, DeleteTopics, Event, Metadata, Reason, Request};
use std::alloc::{AllocError, Global};

impl Broker {
    pub(crate) fn prepare_create_topics(
        &mut self,
        alloc: Global,
        create: &CreateTopics,
    ) -> Result<Prepared, AllocError>
        ensures state { state_of self.new ≡ state_of self.old }
        ensures ok { IfOk result (MakesFor (requests.CreateTopics create.now) self.new) }
        ensures memory { OnErr result (NeedsMemory retained_meaning (state_of self.old)
            (requests.CreateTopics create.now)) }
    {
        if TopicNameFault::of(create.name.as_str()).is_some() {
            return Ok(Prepared::refused(Reason::BadTopicName));
        }
        match self
            .catalog
            .prepare_create(alloc, &create.name, create.partitions)
        {
            Ok(made) => Ok(Prepared::done(Body::Created, Change::AddTopic(made))),
            Err(CreateFault::Exists) => Ok(Prepared::refused(Reason::TopicExists)),
            Err(CreateFault::BadPartitions) => Ok(Prepared::refused(Reason::BadPartitions)),
            Err(CreateFault::TooMany) => Ok(Prepared::refused(Reason::TooManyTopics)),
            Err(CreateFault::Memory(refused)) => Err(refused),
        }
    }

    pub(crate) fn prepare_delete_topics(
        &self,
        alloc: Global,
        delete: &DeleteTopics,
    ) -> Result<Prepared, AllocError>
        ensures ok { IfOk result (MakesFor (requests.DeleteTopics delete.now) self.now) }
        ensures memory { OnErr result (NeedsMemory retained_meaning (state_of self.now)
            (requests.DeleteTopics delete.now)) }
    {
        if !self.catalog.contains(&delete.name) {
            return Ok(Prepared::refused(Reason::UnknownTopic));
        }
        let name = delete.name.copy(alloc)?;
        Ok(Prepared::done(Body::Deleted, Change::RemoveTopic(name)))
    }

    pub(crate) fn prepare_metadata(
        &self,
        alloc: Global,
        event: &Event,
        asked: &Metadata,
    ) -> Result<Prepared, AllocError>
        ensures ok { IfOk result
            (Makes (effect retained_meaning (state_of self.now) event.now
            (requests.Metadata asked.now)) self.now) }
        ensures memory { OnErr result (NeedsMemory retained_meaning (state_of self.now)
            (requests.Metadata asked.now)) }
    {
        match &asked.topic {
            None => {
                let describer = TopicDescriber::new(&self.authorizer, event);
                let topics = self.catalog.describable(alloc, describer)?;
                Ok(Prepared::done(Body::Topics(topics), Change::Unchanged))
            }
            Some(topic) => {
                let Some(partitions) = self.catalog.partitions(topic) else {
                    return Ok(Prepared::refused(Reason::UnknownTopic));
                };
                let mut topics = Vec::new(alloc);
                topics.push((topic.copy(alloc)?, partitions as u64))?;
                Ok(Prepared::done(Body::Topics(Items::from_vec(topics)), Change::Unchanged))
            }
        }
    }

    /// The topics of the reply to a METADATA of all topics, lent one by one, where `serve` copies their
    /// names. Nothing is lent for any other request. Does not allocate.
    #[tactic(auto, using(crate::proofs::Decisions::topics_told))]
    pub fn lend_topics<'a>(
        &'a self,
        event: &'a Event,
    ) -> Option<GrantedTopics<'a, TopicDescriber<'a>>>
        ensures { AreLentTopics (state_of self.now) event.now result }
    {
        match &event.request {
            Request::Metadata(Metadata { topic: None }) => {
                let describer = TopicDescriber::new(&self.authorizer, event);
                Some(self.catalog.granted(describer))
            }
            _ => None,
        }
    }
}
