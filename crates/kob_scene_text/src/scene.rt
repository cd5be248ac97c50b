//! What a scene plays: settings, workers that are declared, and steps in the order of the text.

ghost use Rattle.std.specs.Prelude.{◌≡◌, ◌≤◌};

use kob_inbox::Subscription;
use kob_names::{Host, Principal, Settings, Text};
use kob_outbox::{Change, OutboxEvent};
use kob_rights::Event;
use kob_router::{Loss, Route, RouteSettings, Target};
use std::marker::Model;
use uuid::Uuid;

/// A scene: the settings of its broker, which open no bindings, its workers, its steps, and the line
/// of the text that each step is of, from 1 on. A line `acl` can have several steps.
///
/// Workers have numbers from 1 on in the order of their declaration, services and consumers counted
/// together; requests of a principal are worker 0's.
#[derive(Drop)]
pub struct Scene {
    pub settings: Settings,
    pub services: Vec<Service>,
    pub consumers: Vec<Consumer>,
    pub steps: Vec<Step>,
    pub lines: Vec<u64>,
}

/// How a service's rows are routed: 1 to 1,000 partitions for every topic.
#[derive(Drop)]
pub struct Routed {
    target: Target,
}

impl Model for Routed {
    ghost use Rattle.std.specs.Prelude.{◌≤◌};
    ghost use Rattle.kob_router.specs.declared.dispatch.Target.{Target};

    ghost Value = { Target };

    ghost view = { λ routed. routed.target };

    ghost invariant = { λ routed. (1 ≤ routed.target.partitions)
        × (routed.target.partitions ≤ 1000) };
}

impl Routed {
    /// Rows by this route, to this number of partitions. Does not allocate.
    pub fn new(route: Route, partitions: u32) -> Routed
        requires some { 1 ≤ partitions }
        requires most { partitions ≤ 1000 }
        ensures { result ≡ record { route = route; partitions = partitions } }
    {
        Routed {
            target: Target { route, partitions },
        }
    }

    /// The target that a router takes. Does not allocate.
    pub fn into_target(self) -> Target
        ensures value { result ≡ self }
        ensures some { 1 ≤ result.partitions }
        ensures most { result.partitions ≤ 1000 }
    {
        self.target
    }

    /// The target, borrowed.
    pub fn as_target(&self) -> &Target
        ensures { result.now ≡ self.now }
    {
        &self.target
    }
}

/// How a service sends its rows.
#[derive(Clone, Copy, Debug, PartialEq, Eq)]
pub enum Sending {
    /// By the router as it is proved. The others are variants, of which the laws of delivery do not
    /// speak.
    Proved,
    /// With a new router after each tick whose call was lost.
    RetriesNew,
    /// Each row once, acknowledged or not.
    DeletesFirst,
    /// In batches without a producer id.
    NotIdempotent,
    /// By the router as it is proved. The business row and the event are in two transactions, so
    /// that a crash between them leaves no event.
    Separate,
    /// By the router as it is proved, which sees visible rows alone. A row can become visible after
    /// rows of greater numbers.
    VisibleLate,
}

impl Sending {
    ghost use Rattle.kob_scene_text.specs.Scenes.{is_variant_sending};
    ghost use Rattle.kob_scene_text.specs.Steps.{hides_rows};

    pub fn is_variant(self) -> bool
        ensures { result ≡ is_variant_sending self }
    {
        match self {
            Sending::Proved => false,
            Sending::RetriesNew => true,
            Sending::DeletesFirst => true,
            Sending::NotIdempotent => true,
            Sending::Separate => true,
            Sending::VisibleLate => true,
        }
    }

    /// Whether rows can become visible after they were recorded.
    pub(crate) fn hides_rows(self) -> bool
        ensures { result ≡ hides_rows self }
    {
        match self {
            Sending::Proved
            | Sending::RetriesNew
            | Sending::DeletesFirst
            | Sending::NotIdempotent
            | Sending::Separate => false,
            Sending::VisibleLate => true,
        }
    }
}

/// A service: its name in the text, its worker number, who it is, how its rows are routed, as it is
/// set and as it is read, and how it sends them.
#[derive(Drop)]
pub struct Service {
    pub name: Text,
    pub worker: usize,
    pub principal: Principal,
    pub host: Host,
    pub settings: RouteSettings,
    pub routed: Routed,
    pub sending: Sending,
}

/// Where a consumer begins on a partition without a commit of its group.
#[derive(Clone, Copy, Debug, PartialEq, Eq)]
pub enum Start {
    /// At offset 0.
    Earliest,
    /// At the end: a variant, of which the laws of delivery do not speak.
    Latest,
}

impl Start {
    ghost use Rattle.kob_scene_text.specs.Scenes.{is_latest};

    pub fn is_latest(self) -> bool
        ensures { result ≡ is_latest self }
    {
        match self {
            Start::Earliest => false,
            Start::Latest => true,
        }
    }
}

/// How a consumer takes records in.
#[derive(Clone, Copy, Debug, PartialEq, Eq)]
pub enum Taking {
    /// As the proved consumer: each event id once, and a commit after that. The others are
    /// variants, of which the laws of delivery do not speak.
    Proved,
    /// After the commit of the position behind them.
    CommitsBefore,
    /// Each record, whether its event id was taken in before or not.
    NoDedup,
}

impl Taking {
    ghost use Rattle.kob_scene_text.specs.Scenes.{is_variant_taking};

    pub fn is_variant(self) -> bool
        ensures { result ≡ is_variant_taking self }
    {
        match self {
            Taking::Proved => false,
            Taking::CommitsBefore => true,
            Taking::NoDedup => true,
        }
    }
}

/// A consumer: its name in the text, its worker number, who it is, what it reads, where it begins,
/// and how it takes records in.
#[derive(Drop)]
pub struct Consumer {
    pub name: Text,
    pub worker: usize,
    pub principal: Principal,
    pub host: Host,
    pub subscription: Subscription,
    pub start: Start,
    pub taking: Taking,
}

/// A step, by the place of its service or consumer in the scene's list, from 0.
#[derive(Drop)]
pub enum Step {
    /// A request of a principal, which is worker 0's.
    Request(Event),
    Service(usize, ServiceStep),
    Consumer(usize, ConsumerStep),
    /// Prints every entry of the journal.
    Journal,
    /// Asks whether the laws of delivery apply to a service and a consumer, by their places.
    Law {
        service: usize,
        consumer: usize,
    },
    /// Asks where each event of a service is, on its way to a consumer, by their places.
    Check {
        service: usize,
        consumer: usize,
    },
    /// Asks whether the events of a service are where they are expected to be.
    Expect {
        service: usize,
        consumer: usize,
        what: Expected,
    },
}

/// What is expected of the events of a service, on their way to a consumer.
#[derive(Clone, Copy)]
pub enum Expected {
    /// All of them are in the consumer's inbox.
    Delivered,
    /// The one with this id is lost.
    Lost(Uuid),
    /// The inbox has of each aggregate the first events that the service recorded, in their order.
    Order,
}

/// How an event is recorded.
#[derive(Clone, Copy, Debug, PartialEq, Eq)]
pub enum Recording {
    /// With its business row, in one transaction, after which it is visible.
    Whole,
    /// Not at all: the service crashes after the transaction of the business row.
    Crash,
    /// As `Whole`, but its row is hidden until a step `visible`.
    Late,
}

/// A step of a service.
#[derive(Drop)]
pub enum ServiceStep {
    /// Records a business row together with an outbox row, or as a variant does.
    Record(Change, OutboxEvent, Recording),
    /// One step of the router; a message of its first call may be lost.
    Tick(Loss),
    /// Makes ticks until one neither moves nor repeats.
    Run,
    Restart,
    Sweep,
    /// Prints the mark and the rows that wait.
    Outbox,
    /// Prints the state of a business row.
    Business { kind: Text, key: Text },
    /// Makes all hidden rows visible.
    Visible,
}

/// A step of a consumer.
#[derive(Drop)]
pub enum ConsumerStep {
    /// One step of the consumer; a message of its first call may be lost.
    Tick(Loss),
    /// Makes ticks until a whole round of its partitions is idle, or until it stops.
    Run,
    Restart,
    /// Prints the rows of the inbox.
    Inbox,
}
