//! The value types that every crate of the broker shares.
#![tactic(auto)]

mod batch;
mod binding;
mod bytes;
mod draft;
mod filter;
mod group_name;
mod host;
mod items;
mod kinds;
mod limits;
mod pattern;
mod plain_value;
mod principal;
mod record;
mod settings;
mod short_text;
mod size;
mod text;
mod topic_name;
mod verdict;

pub use batch::{Batch, Idem};
pub use binding::Binding;
pub use bytes::Bytes;
pub use draft::{BindingFault, Draft};
pub use filter::{BindingFilter, FilterPattern};
pub use group_name::{GroupName, GroupNameFault};
pub use host::{Host, HostFault};
pub use items::Items;
pub use kinds::{Operation, PatternKind, Permission, ResourceKind};
pub use limits::{NAME_LIMIT, SHORT_TEXT_LIMIT, TOPIC_NAME_LIMIT};
pub use pattern::Pattern;
pub use plain_value::PlainValue;
pub use principal::{Principal, PrincipalFault};
pub use record::{Header, Record};
pub use settings::Settings;
pub use size::sum_of;
pub use text::Text;
pub use topic_name::{TopicName, TopicNameFault};
pub use verdict::Verdict;
