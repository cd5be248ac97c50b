//! The product of principals, hosts and operations on resources.

ghost use Rattle.std.specs.Prelude.{◌≡◌, ◌++◌, OnOk, IfOk};
ghost use Rattle.kob_acl_cli.specs.Commands as rules;

use crate::access::Access;
use crate::parts::Holders;
use crate::target::Target;
use kob_names::{
    BindingFilter, Draft, FilterPattern, Host, Operation, Pattern, PatternKind, Permission,
    PlainValue, Principal,
};
use std::alloc::{AllocError, Global};

/// A principal on a host that is allowed or denied an operation on what an option names.
#[derive(Drop)]
pub struct Rule {
    pub permission: Permission,
    pub principal: Principal,
    pub host: Host,
    pub operation: Operation,
    pub target: Target,
}

impl Rule {
    /// The rule as a binding whose name is not checked.
    pub fn into_draft(self) -> Draft
        ensures { result ≡ rules.draft_of self }
    {
        Draft {
            permission: self.permission,
            principal: self.principal,
            host: self.host,
            operation: self.operation,
            resource: self.target.kind,
            pattern: Pattern {
                kind: match self.target.pattern {
                    FilterPattern::Prefixed => PatternKind::Prefixed,
                    FilterPattern::Literal | FilterPattern::Any | FilterPattern::Matching => {
                        PatternKind::Literal
                    }
                },
                name: self.target.name,
            },
        }
    }

    /// The rule as a filter with every part set.
    pub fn into_filter(self) -> BindingFilter
        ensures { result ≡ rules.filter_of self }
    {
        BindingFilter {
            resource: Some(self.target.kind),
            name: Some(self.target.name),
            pattern: self.target.pattern,
            principal: Some(self.principal),
            host: Some(self.host),
            operation: Some(self.operation),
            permission: Some(self.permission),
        }
    }
}

/// For each resource the rules that allow, and then the rules that deny.
pub fn product(
    alloc: Global,
    allowed: &Holders,
    denied: &Holders,
    accesses: &[Access],
) -> Result<Vec<Rule>, AllocError>
    ensures { IfOk result (λ made. made.items ≡ rules.product allowed.now denied.now accesses.now) }
{
    let mut made = Vec::new(alloc);
    for access in accesses {
        push_rules(alloc, &mut made, allowed, access)?;
        push_rules(alloc, &mut made, denied, access)?;
    }
    Ok(made)
}

fn push_rules(
    alloc: Global,
    made: &mut Vec<Rule>,
    holders: &Holders,
    access: &Access,
) -> Result<(), AllocError>
    ensures { OnOk result
        (made.new.items ≡ made.old.items ++ rules.rules_of holders.now access.now) }
{
    for principal in holders.principals.as_slice() {
        push_of_principal(alloc, made, holders, access, principal)?;
    }
    Ok(())
}

fn push_of_principal(
    alloc: Global,
    made: &mut Vec<Rule>,
    holders: &Holders,
    access: &Access,
    principal: &Principal,
) -> Result<(), AllocError>
    ensures { OnOk result (made.new.items ≡ made.old.items
        ++ rules.rules_of_principal holders.now.permission holders.now.hosts access.now
        principal.now) }
{
    for host in holders.hosts.as_slice() {
        push_on_host(alloc, made, holders.permission, access, principal, host)?;
    }
    Ok(())
}

fn push_on_host(
    alloc: Global,
    made: &mut Vec<Rule>,
    permission: Permission,
    access: &Access,
    principal: &Principal,
    host: &Host,
) -> Result<(), AllocError>
    ensures { OnOk result (made.new.items ≡ made.old.items
        ++ rules.rules_on_host permission principal.now access.now host.now) }
{
    for operation in access.operations.as_slice() {
        let principal = principal.copy(alloc)?;
        let host = host.copy(alloc)?;
        let target = access.target.copy(alloc)?;
        made.push(Rule {
            permission,
            principal,
            host,
            operation: *operation,
            target,
        })?;
    }
    Ok(())
}
