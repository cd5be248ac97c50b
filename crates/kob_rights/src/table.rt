//! The operation table: the rights of each kind of request, and the code of a denial.

ghost use Rattle.std.specs.Prelude.{◌≡◌, ◌<◌, length};
ghost use Rattle.kob_rights.specs.Table.{clause_view, rights_view, code_on, code_on_last};
ghost use Rattle.kob_rights.specs.Table.{denial_code, metadata_rights, rights};
ghost use Rattle.kob_rights.specs.declared.code.Code.TheVariants as Code;
ghost use Rattle.kob_rights.specs.declared.request.Request.TheVariants as requests;

use crate::check::{Check, Clause, Rights};
use crate::code::Code;
use crate::on_partitions::Produce;
use crate::on_topics::{CreateTopics, Metadata};
use crate::request::Request;
use kob_names::{Operation, ResourceKind};

impl Request {
    /// The rights that are needed, on the names as they were sent, before the request is examined.
    /// The source is Kafka's documentation, "Authorization and ACLs", the table of operations and
    /// resources. Does not allocate.
    pub fn rights(&self) -> Rights<'_>
        ensures { rights_view result ≡ rights self.now }
    {
        match self {
            Request::Produce(asked) => asked.rights(),
            Request::Fetch(asked) => Rights::on_topic(Operation::Read, &asked.topic),
            Request::ListOffsets(asked) => Rights::on_topic(Operation::Describe, &asked.topic),
            Request::Metadata(asked) => asked.rights(),
            Request::OffsetCommit(asked) => {
                Rights::on_group_and_topic(Operation::Read, &asked.group, &asked.topic)
            }
            Request::OffsetFetch(asked) => {
                Rights::on_group_and_topic(Operation::Describe, &asked.group, &asked.topic)
            }
            Request::ListGroups => Rights::Free,
            Request::DeleteGroups(asked) => Rights::on_group(Operation::Delete, &asked.group),
            Request::CreateTopics(asked) => asked.rights(),
            Request::DeleteTopics(asked) => Rights::on_topic(Operation::Delete, &asked.name),
            Request::DeleteRecords(asked) => Rights::on_topic(Operation::Delete, &asked.topic),
            Request::InitProducerId => Rights::on_cluster(Operation::IdempotentWrite),
            Request::DescribeAcls(_) => Rights::on_cluster(Operation::Describe),
            Request::CreateAcls(_) => Rights::on_cluster(Operation::Alter),
            Request::DeleteAcls(_) => Rights::on_cluster(Operation::Alter),
        }
    }

    /// The code of a denial by the clause at a place among the rights, from 0: that of the resource
    /// of its last alternative.
    pub fn denial_code(&self, clause: usize) -> Code
        requires { clause < length (rights self.now) }
        ensures { result ≡ denial_code self.now clause }
    {
        match self.rights() {
            Rights::Free => Code::TopicAuthorizationFailed,
            Rights::One(only) => only.denial_code(),
            Rights::Both(first, _) if clause == 0 => first.denial_code(),
            Rights::Both(_, second) => second.denial_code(),
        }
    }
}

impl Clause<'_> {
    fn denial_code(&self) -> Code
        ensures { result ≡ code_on_last Code.TopicAuthorizationFailed (clause_view self.now) }
    {
        match self {
            Clause::Only(check) => code_on(check.resource),
            Clause::Either(_, last) => code_on(last.resource),
        }
    }
}

/// The code of a denial on a kind of resource.
fn code_on(resource: ResourceKind) -> Code
    ensures { result ≡ code_on resource }
{
    match resource {
        ResourceKind::Topic | ResourceKind::TransactionalId => Code::TopicAuthorizationFailed,
        ResourceKind::Group => Code::GroupAuthorizationFailed,
        ResourceKind::Cluster => Code::ClusterAuthorizationFailed,
    }
}

impl Produce {
    /// Write on the topic, and for an idempotent producer IdempotentWrite on the cluster before it.
    fn rights(&self) -> Rights<'_>
        ensures { rights_view result ≡ rights (requests.Produce self.now) }
    {
        if self.batch.idem.is_none() {
            return Rights::on_topic(Operation::Write, &self.topic);
        }
        Rights::Both(
            Clause::Only(Check::on_cluster(Operation::IdempotentWrite)),
            Clause::Only(Check::on_topic(Operation::Write, &self.topic)),
        )
    }
}

impl Metadata {
    /// Describe on the one topic; the listing of all topics needs no right, and is filtered.
    fn rights(&self) -> Rights<'_>
        ensures { rights_view result ≡ metadata_rights self.now.topic }
    {
        match &self.topic {
            None => Rights::Free,
            Some(topic) => Rights::on_topic(Operation::Describe, topic),
        }
    }
}

impl CreateTopics {
    /// Create on the cluster, or Create on the topic.
    fn rights(&self) -> Rights<'_>
        ensures { rights_view result ≡ rights (requests.CreateTopics self.now) }
    {
        Rights::One(Clause::Either(
            Check::on_cluster(Operation::Create),
            Check::on_topic(Operation::Create, &self.name),
        ))
    }
}
