//! For programs that run routers and consumers without a plan. The types of services and consumers
//! keep what they did. The laws say what the journal of a broker, and the calls of their lines,
//! mean for an inbox.
#![tactic(auto)]

mod consumer_end;
mod history;
mod opening;
mod own_worker;
mod part;
mod past_calls;
mod reaching;
mod running_consumer;
mod running_service;
mod seen;
mod seen_commits;
mod seen_log;
mod service_end;
mod sessions;
mod shared_service;

pub use consumer_end::ConsumerEnd;
pub use history::{JudgeFault, first_stranger, judged_in_turn};
pub use opening::opened;
pub use part::{Part, is_served, is_served_in_turn};
pub use reaching::{DeliveryFault, reaches_in_order, reaches_in_turn};
pub use running_consumer::RunningConsumer;
pub use running_service::RunningService;
pub use service_end::ServiceEnd;
pub use sessions::{rotating_session_of, session_of};
pub use shared_service::SharedService;
