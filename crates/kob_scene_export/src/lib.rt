//! The state at the end of a scene, as commands and properties of Kafka and Debezium.
#![tactic(auto)]

mod bindings;
mod connector;
mod plain;
mod server;
mod topics;

pub use bindings::{export_binding, export_removal};
pub use connector::export_connector;
pub use server::{export_head, export_settings};
pub use topics::{export_topic, metric_name};
