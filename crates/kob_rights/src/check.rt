//! The rights of a request: clauses of alternatives, which borrow the request's names.

ghost use Rattle.std.specs.Prelude.{◌≡◌, [], ◌∷◌};
ghost use Rattle.kob_rights.specs.Table.{on_topic, on_group, on_cluster, check_view, rights_view};

use kob_names::{Operation, ResourceKind, Text};

/// One alternative of a clause: an operation on a resource, by the name as it was sent.
#[derive(Clone, Copy)]
pub struct Check<'a> {
    pub operation: Operation,
    pub resource: ResourceKind,
    pub name: &'a str,
}

/// Alternatives, tried in order; one of them has to be granted.
#[derive(Clone, Copy)]
pub enum Clause<'a> {
    Only(Check<'a>),
    Either(Check<'a>, Check<'a>),
}

/// Clauses, tried in order; each of them has to be granted.
#[derive(Clone, Copy)]
pub enum Rights<'a> {
    /// No right is needed.
    Free,
    One(Clause<'a>),
    Both(Clause<'a>, Clause<'a>),
}

impl<'a> Check<'a> {
    /// The operation on the topic of that name.
    pub(crate) fn on_topic(operation: Operation, name: &'a Text) -> Check<'a>
        ensures { check_view result ≡ on_topic operation name.now }
    {
        Check {
            operation,
            resource: ResourceKind::Topic,
            name: name.as_str(),
        }
    }

    /// The operation on the group of that name.
    pub(crate) fn on_group(operation: Operation, name: &'a Text) -> Check<'a>
        ensures { check_view result ≡ on_group operation name.now }
    {
        Check {
            operation,
            resource: ResourceKind::Group,
            name: name.as_str(),
        }
    }

    /// The operation on the cluster.
    pub(crate) fn on_cluster(operation: Operation) -> Check<'a>
        ensures { check_view result ≡ on_cluster operation }
    {
        Check {
            operation,
            resource: ResourceKind::Cluster,
            name: "kafka-cluster",
        }
    }
}

impl<'a> Rights<'a> {
    /// One right, on the topic of that name.
    pub(crate) fn on_topic(operation: Operation, name: &'a Text) -> Rights<'a>
        ensures { rights_view result ≡ (on_topic operation name.now ∷ []) ∷ [] }
    {
        Rights::One(Clause::Only(Check::on_topic(operation, name)))
    }

    /// One right, on the group of that name.
    pub(crate) fn on_group(operation: Operation, name: &'a Text) -> Rights<'a>
        ensures { rights_view result ≡ (on_group operation name.now ∷ []) ∷ [] }
    {
        Rights::One(Clause::Only(Check::on_group(operation, name)))
    }

    /// One right, on the cluster.
    pub(crate) fn on_cluster(operation: Operation) -> Rights<'a>
        ensures { rights_view result ≡ (on_cluster operation ∷ []) ∷ [] }
    {
        Rights::One(Clause::Only(Check::on_cluster(operation)))
    }

    /// Two rights for the same operation, on a group and then on a topic.
    pub(crate) fn on_group_and_topic(
        operation: Operation,
        group: &'a Text,
        topic: &'a Text,
    ) -> Rights<'a>
        ensures { rights_view result ≡ (on_group operation group.now ∷ [])
            ∷ (on_topic operation topic.now ∷ []) ∷ [] }
    {
        Rights::Both(
            Clause::Only(Check::on_group(operation, group)),
            Clause::Only(Check::on_topic(operation, topic)),
        )
    }
}
