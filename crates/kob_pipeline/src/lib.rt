//! Services, consumers and administrators that run at once over one broker, and what then reaches
//! an inbox.
#![tactic(auto)]

mod consumer_worker;
mod consuming;
mod desk;
mod end;
mod fault;
mod laws;
mod line;
mod pipelines;
mod plan;
mod posting;
mod room;
mod service_worker;
mod step_fault;
mod worker;
mod workers;

pub use end::{InboxEnd, OutboxEnd, PipelineEnd, WorkerEnd};
pub use fault::PipelineFault;
pub use kob_connections::Loss;
pub use laws::{consumer_law, pipeline_law, router_law};
pub use pipelines::pipeline;
pub use plan::{ConsumerPlan, ConsumerStep, Plan, Service, ServiceStep};
