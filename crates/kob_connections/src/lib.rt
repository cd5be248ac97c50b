//! Lines to a broker: connections over a borrowed broker, over one with a journal, over a session,
//! over a server of one's own, and over a line whose calls are lost on purpose. A router with its
//! outbox, a consumer with its inbox, laws of runs, and one fault for programs that use all these.
#![tactic(auto)]

mod broker_line;
mod calls;
mod connection;
mod consumer_course;
mod into_calls;
mod lossy;
mod program_fault;
mod receiver;
mod recorded_line;
mod relay;
mod service_course;
mod session_line;
mod worker;

pub use broker_line::{BrokerLine, BrokerServer};
pub use calls::Calls;
pub use connection::{Connection, Serve};
pub use consumer_course::a_consumer_run_goes_on;
pub use into_calls::IntoCalls;
pub use kob_router::Loss;
pub use lossy::{Lossy, LossyServer};
pub use program_fault::ProgramFault;
pub use receiver::Receiver;
pub use recorded_line::{RecordedLine, RecordedServer};
pub use relay::Relay;
pub use service_course::a_service_run_goes_on;
pub use session_line::{SessionLine, SessionServer};
pub use worker::AsWorker;
