//! A script without a fault.

ghost use Rattle.std.specs.Prelude.{◌≡◌, []};

use crate::requests::Requests;
use kob_names::Settings;

/// A script without a fault: its settings, which open no bindings, and its requests, in order.
#[derive(Debug, Drop)]
pub struct CheckedScript {
    pub settings: Settings,
    pub requests: Requests,
    ghost no_bindings: { settings.opening ≡ [] },
}
