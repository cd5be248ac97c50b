//! The player of scenes: each service and consumer of a scene runs over one broker with its
//! journal, in the order of the scene.
#![tactic(auto)]

mod ask;
mod check;
mod commits_before;
mod consumer_steps;
mod consumer_turn;
mod consumer_worker;
mod every;
mod expect;
mod fault;
mod form;
mod holding;
mod journal;
mod json;
mod law;
mod line;
mod needs;
mod output;
mod page;
mod playing;
mod poll;
mod sent_line;
mod service_steps;
mod service_turn;
mod service_worker;
mod skip;
mod stage;
mod text;
mod variants;

pub use consumer_worker::ConsumerWorker;
pub use fault::{PlayFault, TickFault};
pub use form::{Form, Shown};
pub use json::push_json_string;
pub use playing::play;
pub use service_worker::ServiceWorker;
pub use stage::{PlayedConsumer, PlayedService, Stage, Unmet};
pub use text::{Ended, play_text};
