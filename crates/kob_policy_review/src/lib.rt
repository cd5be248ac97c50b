//! Answers about sets of access rules that hold for every principal, host, operation and name.
#![tactic(auto)]

mod askers;
mod below;
mod class;
mod difference;
mod finder;
mod gone;
mod granting;
mod holding;
mod laws;
mod matching;
mod named_below;
mod needed;
mod parties;
mod redundant;
mod removal;
mod shadows;
mod sides;
mod sites;
mod supers;
mod targets;

pub use below::{Reach, Share, who_below};
pub use class::{Class, Names, Target};
pub use difference::{Change, Outcome, changes, names_all};
pub use granting::{Answer, who};
pub use holding::{Holding, rights};
pub use laws::representatives_decide;
pub use parties::is_held;
pub use redundant::{Reason, Unneeded, unused};
pub use removal::removable;
pub use shadows::shadowed;
pub use supers::{gained_supers, is_super};
