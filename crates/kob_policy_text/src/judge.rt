//! How a policy decides.

ghost use Rattle.std.specs.Prelude.{◌≡◌, ◌≢◌, [], IfErr, IfOk, OnOk, Some, alloc_error};
ghost use Rattle.kob_policy_text.specs.AtHand.{principals_named};
ghost use Rattle.kob_policy_text.specs.Hints.{is_name_taken, is_named, is_taken};
ghost use Rattle.kob_policy_text.specs.Policy.{added, closed, contents_of, deciding, is_yes, may};
ghost use Rattle.kob_policy_text.specs.Policy.{open_fault, place_of, serials_of};

use crate::asked::Asked;
use crate::at_hand::principals_named;
use crate::policy::Policy;
use crate::serials::Serials;
use crate::texts::Texts;
use kob_authorizer::{Authorizer, CreateFault};
use kob_names::{Items, Principal, ResourceKind, Verdict};
use std::alloc::Global;
use std::marker::Model;

/// A policy, and the authorizer that decides by it. Contracts see the policy.
#[derive(Drop)]
pub struct Judge {
    policy: Policy,
    authorizer: Authorizer,
    serials: Serials,
    users: Texts,
}

impl Model for Judge {
    ghost use Rattle.std.specs.Prelude.{◌≡◌};
    ghost use Rattle.kob_policy_text.specs.AtHand.{principals_named};
    ghost use Rattle.kob_policy_text.specs.Policy.{contents_of, serials_of};
    ghost use Rattle.kob_policy_text.specs.Policy as seen;

    ghost Value = { seen.Policy };

    ghost view = { λ judge. judge.policy };

    ghost invariant = { λ judge. (judge.authorizer.contents ≡ contents_of judge.policy)
        × ((judge.serials ≡ serials_of judge.policy)
        × (judge.users ≡ principals_named judge.policy.bindings)) };
}

impl Judge {
    /// The policy in force: its bindings get serials from 1 in their order, and equal ones one
    /// serial. `TooMany` is more than 100,000 different bindings, `SerialsSpent` is never returned.
    pub fn open(alloc: Global, policy: Policy) -> Result<Judge, CreateFault>
        ensures policy { IfOk result (λ judge. judge ≡ policy) }
        ensures fault { IfErr result (λ fault. fault ≢ CreateFault.Memory alloc_error
            → open_fault policy ≡ Some fault) }
    {
        let users = principals_named(alloc, policy.bindings())?;
        let (authorizer, serials) = in_force(alloc, &policy)?;
        Ok(Judge {
            policy,
            authorizer,
            serials,
            users,
        })
    }

    /// The policy that decides.
    pub fn policy(&self) -> &Policy
        ensures { result.now ≡ self.now }
    {
        &self.policy
    }

    /// The authorizer that decides, with the bindings in force.
    pub fn authorizer(&self) -> &Authorizer
        ensures { result.now.contents ≡ contents_of self.now }
    {
        &self.authorizer
    }

    /// Who may do what: the decision of the authorizer's contract on the bindings in their order.
    pub fn verdict(&self, asked: &Asked<'_>) -> Verdict
        ensures { result ≡ may self.now asked.now }
    {
        self.authorizer.authorize(
            asked.principal,
            asked.host,
            asked.operation,
            asked.resource,
            asked.name,
        )
    }

    /// Whether the answer is yes.
    pub fn is_yes(&self, asked: &Asked<'_>) -> bool
        ensures { result ≡ is_yes self.now asked.now }
    {
        self.verdict(asked).is_granted()
    }

    /// Where the first binding with a serial is among the bindings.
    pub fn place_of(&self, serial: u64) -> Option<usize>
        ensures { result ≡ place_of self.now serial }
    {
        self.serials.place_of(serial)
    }

    /// Whether a binding names the principal.
    pub fn is_named(&self, principal: &Principal) -> bool
        ensures { result ≡ is_named self.now principal.now }
    {
        self.users.knows(principal.as_str())
    }

    /// Whether the pattern of a binding takes the name that is asked for. That of a binding that is
    /// left out counts.
    pub fn is_taken(&self, asked: &Asked<'_>) -> bool
        ensures { result ≡ is_taken self.now asked.now }
    {
        self.is_name_taken(asked.resource, asked.name)
    }

    /// Whether the pattern of a binding takes a name. That of a binding that is left out counts.
    pub fn is_name_taken(&self, resource: ResourceKind, name: &str) -> bool
        ensures { result ≡ is_name_taken self.now resource name.now }
    {
        self.authorizer.has_match(resource, name)
    }

    /// The serials of the bindings, in their order.
    pub fn serials(&self) -> &[u64]
        ensures { result.now ≡ serials_of self.now }
    {
        self.serials.as_slice()
    }
}

/// The authorizer with the bindings of a policy, and their serials.
#[tactic(auto, unfolding(crate::specs::Policy::contents_of, crate::specs::Policy::serials_of))]
fn in_force(alloc: Global, policy: &Policy) -> Result<(Authorizer, Serials), CreateFault>
    ensures made { IfOk result (λ made. (made.0.contents ≡ contents_of policy.now)
        × (made.1 ≡ serials_of policy.now)) }
    ensures fault { IfErr result (λ fault. fault ≢ CreateFault.Memory alloc_error
        → open_fault policy.now ≡ Some fault) }
{
    let supers = Items::copied(alloc, policy.supers())?.into_vec();
    let mut authorizer = Authorizer::open(alloc, supers, policy.everyone());
    match create_all(alloc, &mut authorizer, policy) {
        Ok(serials) => Ok((authorizer, serials)),
        Err(fault) => {
            drop(authorizer);
            Err(fault)
        }
    }
}

/// Puts the bindings of a policy in force, and then those that close what was left out.
#[tactic(auto, unfolding(crate::specs::Policy::open_fault))]
fn create_all(
    alloc: Global,
    authorizer: &mut Authorizer,
    policy: &Policy,
) -> Result<Serials, CreateFault>
    requires entries { authorizer.old.contents.entries ≡ [] }
    requires next { authorizer.old.contents.next ≡ 1 }
    ensures entries { OnOk result (authorizer.new.contents.entries ≡ (closed policy.now).entries) }
    ensures next { OnOk result (authorizer.new.contents.next ≡ (closed policy.now).next) }
    ensures serials { IfOk result (λ serials. serials ≡ (added policy.now).serials) }
    ensures supers { authorizer.new.contents.supers ≡ authorizer.old.contents.supers }
    ensures everyone { authorizer.new.contents.everyone ≡ authorizer.old.contents.everyone }
    ensures fault { IfErr result (λ fault. fault ≢ CreateFault.Memory alloc_error
        → open_fault policy.now ≡ Some fault) }
{
    let serials = authorizer.create(alloc, policy.bindings())?;
    authorizer.create(alloc, policy.closings())?;
    Ok(Serials::of(alloc, serials)?)
}

/// The serial that decides, if one does.
pub fn deciding(verdict: Verdict) -> Option<u64>
    ensures { result ≡ deciding verdict }
{
    match verdict {
        Verdict::DeniedBy(serial) | Verdict::AllowedBy(serial) => Some(serial),
        Verdict::Super | Verdict::NoAllow | Verdict::NoAclFound => None,
    }
}
