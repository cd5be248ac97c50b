//! The bindings that count before and after on some names, and what they answer.

ghost use Rattle.std.specs.Prelude.{◌≡◌, IfOk, not};
ghost use Rattle.std.specs.List.{list_any};
ghost use Rattle.kob_authorizer.specs.Index.{AreRising};
ghost use Rattle.kob_policy_review.specs.Classes.{is_met};
ghost use Rattle.kob_policy_review.specs.Difference.{asked_by, hosts_in, outcome_to};
ghost use Rattle.kob_policy_review.specs.Difference.{principals_in, sides_on, some_in, yes_to};

use crate::askers::Askers;
use crate::class::{Target, is_met};
use crate::difference::Outcome;
use crate::finder::Finder;
use crate::matching::{add_hosts, hosts_of};
use crate::parties::principals_of_both;
use kob_names::{Binding, Operation, Permission, Text};
use std::alloc::{AllocError, Global};
use std::marker::Model;

/// The bindings that count before and after, and whether what none matches is open there.
#[derive(Drop)]
pub struct Sides {
    before: Vec<(u64, Binding)>,
    after: Vec<(u64, Binding)>,
    open_before: bool,
    open_after: bool,
}

impl Model for Sides {
    ghost use Rattle.kob_policy_review.specs.Difference as seen;

    ghost Value = { seen.Sides };

    ghost view = { λ sides. record {
      before = sides.before.items;
      after = sides.after.items;
      open_before = sides.open_before;
      open_after = sides.open_after;
    } };
}

/// The bindings whose patterns match the names.
pub fn sides_on(
    alloc: Global,
    before: &Finder<'_>,
    after: &Finder<'_>,
    target: &Target,
) -> Result<Sides, AllocError>
    ensures on { IfOk result (λ sides. sides ≡ sides_on before.now after.now target.now) }
    ensures before { IfOk result (λ sides. AreRising sides.before) }
    ensures after { IfOk result (λ sides. AreRising sides.after) }
{
    let on_before = before.matching(alloc, target)?;
    let on_after = after.matching(alloc, target)?;
    let open_before = before.rules().everyone() && is_nothing(on_before.as_slice());
    let open_after = after.rules().everyone() && is_nothing(on_after.as_slice());
    Ok(Sides {
        before: on_before,
        after: on_after,
        open_before,
        open_after,
    })
}

/// Whether there is no entry.
pub fn is_nothing(entries: &[(u64, Binding)]) -> bool
    ensures { result ≡ not (some_in entries.now) }
{
    entries.is_empty()
}

impl Sides {
    /// The hosts that they name, after all others.
    #[tactic(auto, unfolding(crate::specs::Difference::hosts_in))]
    pub fn hosts(&self, alloc: Global) -> Result<Vec<Option<Text>>, AllocError>
        ensures { IfOk result (λ made. made.items ≡ hosts_in self.now) }
    {
        let mut made = hosts_of(alloc, self.before.as_slice())?;
        add_hosts(alloc, &mut made, self.after.as_slice())?;
        Ok(made)
    }

    /// The principals that they name, after all others.
    #[tactic(auto, unfolding(crate::specs::Difference::principals_in))]
    pub fn principals(&self, alloc: Global) -> Result<Vec<Option<Text>>, AllocError>
        ensures { IfOk result (λ made. made.items ≡ principals_in self.now) }
    {
        principals_of_both(alloc, self.before.as_slice(), self.after.as_slice())
    }

    /// What becomes of the answer to one who is no super user.
    pub fn outcome_to(&self, host: &Option<Text>, operation: Operation) -> Outcome
        ensures { result ≡ outcome_to self.now host.now operation }
    {
        let before = yes_to(self.open_before, self.before.as_slice(), host, operation);
        let after = yes_to(self.open_after, self.after.as_slice(), host, operation);
        match (before, after) {
            (false, true) => Outcome::Gained,
            (true, false) => Outcome::Lost,
            _ => Outcome::Same,
        }
    }
}

/// The bindings that count before and after, looked up by the principals that they name.
#[derive(Drop)]
pub struct Asked<'a> {
    before: Askers<'a>,
    after: Askers<'a>,
    open_before: bool,
    open_after: bool,
}

impl<'a> Model for Asked<'a> {
    ghost use Rattle.kob_policy_review.specs.Difference as seen;

    ghost Value = { seen.Sides };

    ghost view = { λ asked. record {
      before = asked.before;
      after = asked.after;
      open_before = asked.open_before;
      open_after = asked.open_after;
    } };
}

impl<'a> Asked<'a> {
    /// The same bindings.
    pub fn of(alloc: Global, sides: &'a Sides) -> Result<Asked<'a>, AllocError>
        requires before { AreRising sides.now.before }
        requires after { AreRising sides.now.after }
        ensures { IfOk result (λ asked. asked ≡ sides.entry.now) }
    {
        let before = Askers::of(alloc, sides.before.as_slice())?;
        let after = Askers::of(alloc, sides.after.as_slice())?;
        Ok(Asked {
            before,
            after,
            open_before: sides.open_before,
            open_after: sides.open_after,
        })
    }

    /// Those that cover the principal.
    pub fn by(&self, alloc: Global, principal: &Option<Text>) -> Result<Sides, AllocError>
        ensures { IfOk result (λ sides. sides ≡ asked_by principal.now self.now) }
    {
        let before = self.before.asking(alloc, principal)?;
        let after = self.after.asking(alloc, principal)?;
        Ok(Sides {
            before,
            after,
            open_before: self.open_before,
            open_after: self.open_after,
        })
    }
}

/// Whether one of the entries is met.
pub fn some_met(
    asking: &[(u64, Binding)],
    permission: Permission,
    host: &Option<Text>,
    operation: Operation,
) -> bool
    ensures { result ≡ list_any (is_met permission host.now operation) asking.now }
{
    asking
        .iter()
        .any(|entry| is_met(permission, host, operation, entry))
}

/// The answer to one who is no super user.
pub fn yes_to(
    opened: bool,
    asking: &[(u64, Binding)],
    host: &Option<Text>,
    operation: Operation,
) -> bool
    ensures { result ≡ yes_to opened asking.now host.now operation }
{
    !some_met(asking, Permission::Deny, host, operation)
        && (some_met(asking, Permission::Allow, host, operation) || opened)
}
