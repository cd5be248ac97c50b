//! How rows are routed: the settings, and what is read from them.

ghost use Rattle.std.specs.Prelude.{◌≡◌, [], codes, IfOk};
ghost use Rattle.kob_router.specs.declared.settings.RouteBy.TheVariants.{AggregateType};

use crate::placement::Placed;
use kob_names::{Items, PlainValue, Text};
use std::alloc::{AllocError, Global};

/// The column by which rows are routed: Debezium's `route.by.field`.
#[derive(Clone, Copy, Debug, PartialEq, Eq)]
pub enum RouteBy {
    /// `aggregatetype`, the default.
    AggregateType,
    /// `aggregateid`.
    AggregateId,
}

/// The settings of a route.
#[derive(Debug, Drop)]
pub struct RouteSettings {
    /// Debezium's `route.by.field`.
    pub by: RouteBy,
    /// Debezium's `route.topic.replacement`: the topic's name, in which each `${routedByValue}` is
    /// replaced by the value of the column `by`.
    pub replacement: Text,
    /// Debezium's `table.fields.additional.placement`: nothing, or up to 16 entries with commas
    /// between them, each `column:header` or `column:header:alias`. A column is `aggregatetype`,
    /// `aggregateid` or `type`; an alias has 1 to 255 bytes.
    pub placement: Text,
}

impl RouteSettings {
    /// Debezium's defaults: rows are sent by their aggregate's type to the topic
    /// `outbox.event.${routedByValue}`, and no column is placed in a header. The error is out of
    /// memory.
    pub fn by_default(alloc: Global) -> Result<RouteSettings, AllocError>
        ensures by { IfOk result (λ settings. settings.by ≡ AggregateType) }
        ensures replacement { IfOk result (λ settings.
            settings.replacement ≡ codes "outbox.event.${routedByValue}") }
        ensures placement { IfOk result (λ settings. settings.placement ≡ []) }
    {
        Ok(RouteSettings {
            by: RouteBy::AggregateType,
            replacement: Text::copied(alloc, "outbox.event.${routedByValue}")?,
            placement: Text::copied(alloc, "")?,
        })
    }

    /// Equal settings. The error is out of memory.
    pub fn copy(&self, alloc: Global) -> Result<RouteSettings, AllocError>
        ensures { IfOk result (λ made. made ≡ self.now) }
    {
        let replacement = self.replacement.copy(alloc)?;
        let placement = self.placement.copy(alloc)?;
        Ok(RouteSettings {
            by: self.by,
            replacement,
            placement,
        })
    }
}

/// How rows are routed, as read from the settings.
#[derive(Debug, Drop)]
pub struct Routing {
    pub by: RouteBy,
    pub template: Text,
    pub placement: Items<Placed>,
}
