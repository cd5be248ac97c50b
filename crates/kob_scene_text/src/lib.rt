//! The language of scenes: scripts with services, consumers and their steps, read and printed.
#![tactic(auto)]

mod consumer_forms;
mod consumer_lines;
mod fault;
mod forms;
mod laws;
mod line;
mod misuse;
mod name;
mod place;
mod printed_bindings;
mod printed_fault;
mod printed_request;
mod printed_rows;
mod printed_tick;
mod reading;
mod scene;
mod service_forms;
mod service_lines;
mod step_forms;
mod step_lines;
mod step_names;
mod variants;
mod word_faults;
mod workers_before;

pub use fault::{SceneError, SceneFault, SceneFaultKind};
pub use laws::{
    bindings_read_back, entries_read_back, entries_read_back_in_scenes, scripts_are_scenes,
};
pub use misuse::{Misuse, misuse_at};
pub use place::fault_place;
pub use printed_fault::print_scene_fault;
pub use printed_request::print_entry;
pub use printed_rows::{print_inbox, print_outbox, print_state};
pub use printed_tick::{
    print_consumer_tick, print_crashed, print_recorded, print_restarted, print_service_tick,
    print_swept, print_visible,
};
pub use reading::read_scene;
pub use scene::{
    Consumer, ConsumerStep, Expected, Recording, Routed, Scene, Sending, Service, ServiceStep,
    Start, Step, Taking,
};
