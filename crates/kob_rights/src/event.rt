//! Events: requests with the principal and the host that ask.

ghost use Rattle.std.specs.Prelude.{◌≡◌};

use crate::request::Request;
use kob_names::{Host, PlainValue, Principal};
use std::alloc::{AllocError, Global};
use std::mem;

/// One request, with the principal and the host that ask.
#[derive(Debug)]
pub struct Event {
    pub principal: Principal,
    pub host: Host,
    pub request: Request,
}

/// Written out, so that a function that drops an event does not prove again how each kind of request is dropped.
impl Drop for Event {
    fn drop(self) {
        let Event {
            principal: _,
            host: _,
            request: _,
        } = self;
    }
}

impl Event {
    /// The request, taken out of the event.
    pub fn into_request(mut self) -> Request
        ensures { result ≡ self.request }
    {
        mem::replace(&mut self.request, Request::ListGroups)
    }
}

impl PlainValue for Event {
    fn copy(&self, alloc: Global) -> Result<Self, AllocError> {
        let principal = self.principal.copy(alloc)?;
        let host = self.host.copy(alloc)?;
        let request = self.request.copy(alloc)?;
        Ok(Event {
            principal,
            host,
            request,
        })
    }

    fn same(&self, other: &Self) -> bool {
        self.principal.same(&other.principal)
            && self.host.same(&other.host)
            && self.request.same(&other.request)
    }
}
