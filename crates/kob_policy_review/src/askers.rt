//! Bindings that are looked up by the principals that they name.

ghost use Rattle.std.specs.Prelude.{◌≡◌, IfOk, filter};
ghost use Rattle.kob_authorizer.specs.Index.{AreRising, IsIndex};
ghost use Rattle.kob_prefix_tree.specs.Held.{held};
ghost use Rattle.kob_policy_review.specs.Classes.{is_for};
ghost use Rattle.kob_policy_review.specs.Finding.{askers_in, asking_serials, principal_place};

use crate::finder::{in_order, picked};
use crate::matching::asking;
use kob_names::{Binding, Text};
use kob_prefix_tree::{PatternKind, PrefixTree};
use std::alloc::{AllocError, Global};
use std::marker::Model;

/// Bindings, and a tree of the principals that they name. Contracts see the bindings.
#[derive(Drop)]
pub struct Askers<'a> {
    entries: &'a [(u64, Binding)],
    principals: PrefixTree,
}

impl<'a> Model for Askers<'a> {
    ghost use Rattle.std.specs.Prelude.{List, ℕ};
    ghost use Rattle.kob_authorizer.specs.Index.{AreRising, IsIndex};
    ghost use Rattle.kob_names.specs.Binding as seen;
    ghost use Rattle.kob_policy_review.specs.Finding.{principal_place};

    ghost Value = { List (ℕ × seen.Binding) };

    ghost view = { λ askers. askers.entries.now };

    ghost invariant = { λ askers. AreRising askers.entries.now
        × IsIndex principal_place askers.principals askers.entries.now };
}

impl<'a> Askers<'a> {
    /// Those of these bindings.
    #[tactic(auto, using(crate::proofs::Asking::askers_lead))]
    pub fn of(alloc: Global, entries: &'a [(u64, Binding)]) -> Result<Askers<'a>, AllocError>
        requires { AreRising entries.now }
        ensures { IfOk result (λ made. made ≡ entries.entry.now) }
    {
        let principals = askers_in(alloc, entries)?;
        Ok(Askers {
            entries,
            principals,
        })
    }

    /// The bindings.
    pub fn entries(&self) -> &[(u64, Binding)]
        ensures { result.now ≡ self.now }
    {
        self.entries
    }

    /// Copies of the bindings that cover the principal. Of the others none is looked at.
    pub fn asking(
        &self,
        alloc: Global,
        principal: &Option<Text>,
    ) -> Result<Vec<(u64, Binding)>, AllocError>
        ensures { IfOk result (λ made. made.items ≡ filter (is_for principal.now) self.now) }
    {
        let named = named(alloc, &self.principals, principal)?;
        let serials = in_order(named);
        let near = picked(alloc, self.entries, serials.as_slice())?;
        asking(alloc, near.as_slice(), principal)
    }
}

/// A tree of the principals that the entries name.
#[tactic(auto, using(std::proofs::lemmas::List::Sums::fold_more))]
fn askers_in(alloc: Global, entries: &[(u64, Binding)]) -> Result<PrefixTree, AllocError>
    ensures { IfOk result (λ made. made ≡ askers_in entries.now) }
{
    let mut principals = PrefixTree::new();
    for entry in entries {
        let principal = entry.1.parts().principal.as_str().as_bytes();
        principals.add(alloc, principal, PatternKind::Literal, entry.0)?;
    }
    Ok(principals)
}

/// The serials of the bindings for the principal, and of those for all.
fn named(
    alloc: Global,
    principals: &PrefixTree,
    principal: &Option<Text>,
) -> Result<Vec<u64>, AllocError>
    ensures { IfOk result (λ made. made.items
        ≡ asking_serials (held principals.now) principal.now) }
{
    let mut serials: Vec<u64> = principals.literal("User:*".as_bytes()).collect(alloc)?;
    match principal {
        None => Ok(serials),
        Some(principal) => {
            let own: Vec<u64> = principals
                .literal(principal.as_str().as_bytes())
                .collect(alloc)?;
            serials.extend_from_slice(own.as_slice())?;
            Ok(serials)
        }
    }
}
