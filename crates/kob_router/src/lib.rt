//! The router from a service's outbox to the topics of a broker, modelled on Debezium's outbox
//! event router.
#![tactic(auto)]

mod dispatch;
mod fault;
mod header_id;
mod laws;
mod line;
mod partitioner;
mod place;
mod placement;
mod route;
mod routed;
mod router;
mod sender;
mod sequences;
mod settings;
mod template;
mod tick;

pub use dispatch::{Dispatch, Target};
pub use fault::{RecordFault, RouteFault};
pub use header_id::event_id;
pub use laws::{
    a_batch_is_repeated_as_it_was, a_record_tells_its_event_id, an_aggregate_has_one_partition,
};
pub use line::{Call, Delivery, Line, Loss};
pub use partitioner::partition_of;
pub use place::{Place, is_same_place};
pub use placement::{Placed, PlacedColumn};
pub use route::Route;
pub use routed::{Routed, record_of};
pub use router::Router;
pub use sender::{HeldRow, Producer, Sender};
pub use sequences::{Sequence, Sequences};
pub use settings::{RouteBy, RouteSettings, Routing};
pub use tick::{StopReason, Tick};
