//! Where a row is sent, and as which record.

ghost use Rattle.std.specs.Prelude.{◌≡◌, IfOk};

use crate::place::Place;
use crate::route::Route;
use kob_names::Record;
use std::alloc::{AllocError, Global};

/// How rows are routed, and how many partitions every routed topic has.
#[derive(Debug, Drop)]
pub struct Target {
    pub route: Route,
    pub partitions: u32,
}

/// What is sent for a row, and where.
#[derive(Debug, Drop)]
pub struct Dispatch {
    pub place: Place,
    pub message: Record,
}

impl Target {
    /// An equal target. The error is out of memory.
    pub fn copy(&self, alloc: Global) -> Result<Target, AllocError>
        ensures { IfOk result (λ made. made ≡ self.now) }
    {
        let route = self.route.copy(alloc)?;
        Ok(Target {
            route,
            partitions: self.partitions,
        })
    }
}
