//! Routes.

ghost use Rattle.std.specs.Prelude.{◌≡◌, ◌↔◌, Some, None, false, IfOk, IsErrOf};
ghost use Rattle.kob_router.specs.Route.{entries_of, is_template};

use crate::fault::RouteFault;
use crate::placement::entries_of;
use crate::settings::{RouteSettings, Routing};
use crate::template::is_template;
use kob_names::PlainValue;
use std::alloc::{AllocError, Global};
use std::marker::Model;

/// How a row is sent: by which column it is routed, to a topic of which name, and with which
/// headers.
#[derive(Debug, Drop)]
pub struct Route {
    routing: Routing,
}

impl Model for Route {
    ghost use Rattle.kob_router.specs.declared.settings.Routing.{Routing};

    ghost Value = { Routing };

    ghost view = { λ route. route.routing };
}

impl Route {
    /// Reads the settings. `BadTemplate` is returned if the replacement is empty or has a `$` that
    /// does not begin `${routedByValue}`. `BadPlacement` is returned if the placement is neither
    /// empty nor made of up to 16 entries.
    pub fn new(alloc: Global, settings: &RouteSettings) -> Result<Route, RouteFault>
        ensures by { IfOk result (λ route. route.by ≡ settings.now.by) }
        ensures template { IfOk result (λ route. route.template ≡ settings.now.replacement) }
        ensures placement { IfOk result (λ route.
            entries_of settings.now.placement ≡ Some route.placement) }
        ensures bad_template { IsErrOf result RouteFault.BadTemplate
            ↔ (is_template settings.now.replacement ≡ false) }
        ensures bad_placement { IsErrOf result RouteFault.BadPlacement
            → entries_of settings.now.placement ≡ None }
    {
        if !is_template(settings.replacement.as_str().as_bytes()) {
            return Err(RouteFault::BadTemplate);
        }
        let placement = entries_of(alloc, settings.placement.as_str())?;
        let template = settings.replacement.copy(alloc)?;
        Ok(Route {
            routing: Routing {
                by: settings.by,
                template,
                placement,
            },
        })
    }

    /// An equal route. The error is out of memory.
    pub fn copy(&self, alloc: Global) -> Result<Route, AllocError>
        ensures { IfOk result (λ made. made ≡ self.now) }
    {
        let template = self.routing.template.copy(alloc)?;
        let placement = self.routing.placement.copy(alloc)?;
        Ok(Route {
            routing: Routing {
                by: self.routing.by,
                template,
                placement,
            },
        })
    }

    pub(crate) fn as_routing(&self) -> &Routing
        ensures { result.now ≡ self.now }
    {
        &self.routing
    }
}
