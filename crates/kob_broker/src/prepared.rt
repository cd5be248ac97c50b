//! What a broker has decided and not yet done.

ghost use Rattle.std.specs.Prelude.{◌≡◌};
ghost use Rattle.kob_rights.specs.Reason.{code_of};
ghost use Rattle.kob_broker.specs.Step.{reply_of};

use kob_authorizer::{PreparedCreate, PreparedDelete};
use kob_catalog::PreparedTopic;
use kob_groups::PreparedCommit;
use kob_names::Text;
use kob_rights::{Body, Produce, Reason, Reply};

/// A change of the contents that needs no more allocations.
#[derive(Drop)]
pub(crate) enum Change {
    Unchanged,
    /// A topic to append.
    AddTopic(PreparedTopic),
    /// The topic of that name is removed, and the commits on it.
    RemoveTopic(Text),
    /// Bindings to put in force.
    AddBindings(PreparedCreate),
    /// Bindings to delete.
    RemoveBindings(Box<PreparedDelete>),
    /// A batch to append to the partition that its request names.
    Append(Produce),
    /// The start of the partition of that number of the topic of that name moves up to an offset.
    AdvanceStart(Text, usize, u64),
    /// An offset to commit.
    Commit(PreparedCommit),
    /// The group of that name is removed, and its commits.
    RemoveGroup(Text),
    /// The next producer id is used.
    GiveProducer,
}

/// A reply, and the change that goes with it: what a broker's first step returns.
#[derive(Drop)]
pub struct Prepared {
    pub(crate) reply: Reply,
    pub(crate) change: Change,
}

impl Prepared {
    pub(crate) fn new(reply: Reply, change: Change) -> Prepared
        ensures reply { result.reply ≡ reply }
        ensures change { result.change ≡ change }
    {
        Prepared { reply, change }
    }

    /// The request is done, with this change.
    pub(crate) fn done(body: Body, change: Change) -> Prepared
        ensures reply { result.reply ≡ Reply.Done body }
        ensures change { result.change ≡ change }
    {
        Prepared::new(Reply::Done(body), change)
    }

    /// The request is refused, and nothing changes.
    pub(crate) fn refused(reason: Reason) -> Prepared
        ensures reply { result.reply ≡ Reply.Refused (code_of reason) reason }
        ensures change { result.change ≡ Change.Unchanged }
    {
        let code = reason.code();
        Prepared::new(Reply::Refused { code, reason }, Change::Unchanged)
    }

    /// The reply that the second step will return. Does not allocate.
    pub fn reply(&self) -> &Reply
        ensures { result.now ≡ reply_of self.now }
    {
        &self.reply
    }
}
