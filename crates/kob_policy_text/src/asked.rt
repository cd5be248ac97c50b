//! What is asked of a policy.

use kob_names::{Host, Operation, Principal, ResourceKind};
use std::marker::Model;

/// Who asks from where for which operation on what. Contracts see the question that an authorizer
/// is asked.
#[derive(Drop)]
pub struct Asked<'a> {
    pub principal: &'a Principal,
    pub host: &'a Host,
    pub operation: Operation,
    pub resource: ResourceKind,
    pub name: &'a str,
}

impl<'a> Model for Asked<'a> {
    ghost use Rattle.kob_authorizer.specs.Decide as authorizer;

    ghost Value = { authorizer.Question };

    ghost view = { λ asked. record {
      principal = asked.principal.now;
      host = asked.host.now;
      operation = asked.operation;
      resource = asked.resource;
      name = asked.name.now;
    } };
}
