//! A broker that threads share: the broker and the journal of its events are under one lock.
#![tactic(auto)]

mod beginning;
mod compare;
mod desk;
mod entries;
mod event;
mod faults;
mod fitting;
mod fleet;
mod fleet_fault;
mod fleet_stop;
mod journal;
mod kept;
mod laws;
mod notes;
mod recorded;
mod replay;
mod rotated_broker;
mod script;
mod scripts;
mod session;
mod work;
mod worker;

pub use compare::Difference;
pub use desk::Desk;
pub use entries::EntriesFault;
pub use event::event_of;
pub use faults::{CallFault, PlacesUsedUp, RotateFault};
pub use fitting::{fits, has_offsets_within};
pub use fleet::{Ran, find_tear, run_fleet};
pub use fleet_fault::FleetFault;
pub use fleet_stop::FleetStop;
pub use journal::{Entry, Journal, PastJournal, Receipt};
pub use laws::{each_entry_is_just, each_entry_is_one_step, journals_in_turn_are_legal};
pub use notes::Notes;
pub use recorded::{ENTRY_LIMIT, Recorded};
pub use replay::ReplayFault;
pub use rotated_broker::RotatedBroker;
pub use script::{Script, Transcript};
pub use scripts::{FleetEnd, WORKER_LIMIT, run_scripts};
pub use session::{RotatingBroker, Session, SharedBroker};
pub use work::{Done, Gate, Work};
