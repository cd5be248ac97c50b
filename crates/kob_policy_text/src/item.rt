//! What the lines of a policy say.

use crate::release::Release;
use kob_names::{Draft, Host, Operation, Pattern, Permission, Principal, ResourceKind};

/// What a listed binding is on.
#[derive(Drop)]
pub struct Target {
    pub resource: ResourceKind,
    pub pattern: Pattern,
}

/// A listed binding, without what it is on, which its heading names.
#[derive(Drop)]
pub struct Grant {
    pub permission: Permission,
    pub principal: Principal,
    pub host: Host,
    pub operation: Operation,
}

/// Why a binding is left out: it speaks of a kind of resource, of principal or of operation that
/// this product does not support.
#[derive(Clone, Copy)]
pub enum LeftOut {
    Resource,
    Principal,
    Operation,
}

/// One thing that a line says.
#[derive(Drop)]
pub enum Item {
    Super(Principal),
    Everyone(bool),
    /// The release of the brokers.
    Brokers(Release),
    Rule(Draft),
    /// The bindings that are listed below are on this, or are left out.
    Resource(Option<Target>),
    Grant(Grant),
    /// A binding with what it is on, which is left out or named.
    Row(Option<Target>, Grant),
    /// The line says nothing of rules.
    Skipped,
    /// A super user is left out.
    LeftOut(LeftOut),
}
