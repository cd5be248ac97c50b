//! The names that a set of rules distinguishes, and for each binding those that it is on.

ghost use Rattle.std.specs.Prelude.{◌≡◌, Contains, IfOk, OnOk, fold, map, slice_get};
ghost use Rattle.std.specs.List.{list_any};
ghost use Rattle.kob_names.specs.Binding.{Binding};
ghost use Rattle.kob_policy_review.specs.Classes.{targets_named};
ghost use Rattle.kob_policy_review.specs.Redundancy.{is_needed};
ghost use Rattle.kob_policy_review.specs.Removal.{is_among, without_all};
ghost use Rattle.kob_policy_review.specs.Sites.{LeadsToRows, places_in, row_on, rows_of};
ghost use Rattle.kob_policy_review.specs.Sites.{is_needed_of, with_place};

use crate::class::Target;
use crate::finder::Finder;
use crate::gone::Gone;
use crate::removal::is_needed_among;
use crate::targets::targets_of;
use kob_authorizer::Authorizer;
use kob_names::Binding;
use kob_prefix_tree::{PatternKind, PrefixTree};
use std::alloc::{AllocError, Global};
use std::marker::Model;

/// The bindings on each target of rules, and a tree that leads from the serial of a binding to the
/// places of the targets that it is on. Contracts see what the rules hold.
#[derive(Drop)]
pub struct Sites<'a> {
    finder: Finder<'a>,
    near: Vec<Vec<(u64, Binding)>>,
    places: PrefixTree,
}

impl<'a> Model for Sites<'a> {
    ghost use Rattle.std.specs.Prelude.{◌≡◌, map};
    ghost use Rattle.kob_authorizer.specs.Decide.{Contents, IsRising};
    ghost use Rattle.kob_policy_review.specs.Classes.{targets_named};
    ghost use Rattle.kob_policy_review.specs.Sites.{LeadsToRows, row_on, rows_of};

    ghost Value = { Contents };

    ghost view = { λ sites. sites.finder };

    ghost invariant = { λ sites. IsRising 1 sites.finder.entries sites.finder.next
        × (rows_of sites.near.items
        ≡ map (row_on sites.finder.entries) (targets_named sites.finder.entries))
        × LeadsToRows (rows_of sites.near.items) sites.places };
}

impl<'a> Sites<'a> {
    /// The sites of these rules.
    pub fn of(alloc: Global, rules: &'a Authorizer) -> Result<Sites<'a>, AllocError>
        ensures { IfOk result (λ made. made ≡ rules.entry.now.contents) }
    {
        let finder = Finder::of(alloc, rules)?;
        let targets = targets_of(alloc, rules.entries())?;
        let near = near_of(alloc, &finder, targets.as_slice())?;
        let places = tree_of(alloc, near.as_slice())?;
        Ok(Sites {
            finder,
            near,
            places,
        })
    }

    /// Whether an answer changes without the entry, once those of the set are gone.
    pub fn is_needed(
        &self,
        alloc: Global,
        gone: &Gone,
        entry: &(u64, Binding),
    ) -> Result<bool, AllocError>
        requires { Contains self.now.entries entry.now }
        ensures { IfOk result (λ needed. needed
            ≡ is_needed (without_all gone.now self.now) entry.now.0) }
    {
        let places = places_of(alloc, &self.places, entry.0)?;
        let rules = self.finder.rules();
        is_needed_at_one(
            alloc,
            rules,
            self.near.as_slice(),
            gone,
            entry,
            places.as_slice(),
        )
    }
}

fn is_needed_at(
    alloc: Global,
    rules: &Authorizer,
    near: &[Vec<(u64, Binding)>],
    gone: &Gone,
    entry: &(u64, Binding),
    place: u64,
) -> Result<bool, AllocError>
    ensures { IfOk result (λ needed. needed ≡ is_needed_of rules.now.contents
        (is_among gone.now) entry.now (slice_get near.now place)) }
{
    match near.get(place as usize) {
        None => Ok(false),
        Some(matching) => is_needed_among(alloc, rules, matching.as_slice(), gone, entry),
    }
}

fn is_needed_at_one(
    alloc: Global,
    rules: &Authorizer,
    near: &[Vec<(u64, Binding)>],
    gone: &Gone,
    entry: &(u64, Binding),
    places: &[u64],
) -> Result<bool, AllocError>
    ensures { IfOk result (λ needed. needed ≡ list_any (λ place. is_needed_of rules.now.contents
        (is_among gone.now) entry.now (slice_get near.now place)) places.now) }
{
    for place in places {
        if is_needed_at(alloc, rules, near, gone, entry, *place)? {
            return Ok(true);
        }
    }
    Ok(false)
}

#[tactic(auto, using(std::proofs::lemmas::List::Sums::fold_more), unfolding(crate::specs::Sites::with_place))]
fn add_places(
    alloc: Global,
    places: &mut PrefixTree,
    place: u64,
    matching: &[(u64, Binding)],
) -> Result<(), AllocError>
    ensures { OnOk result (places.new ≡ fold (with_place place) places.old matching.now) }
{
    for entry in matching {
        let key = entry.0.to_be_bytes();
        places.add(alloc, key.as_slice(), PatternKind::Literal, place)?;
    }
    Ok(())
}

/// The places that the tree has for a serial.
fn places_of(alloc: Global, places: &PrefixTree, serial: u64) -> Result<Vec<u64>, AllocError>
    ensures { IfOk result (λ made. made.items ≡ places_in places.now serial) }
{
    let key = serial.to_be_bytes();
    places.literal(key.as_slice()).collect(alloc)
}

/// The bindings on each target.
fn near_of(
    alloc: Global,
    finder: &Finder<'_>,
    targets: &[Target],
) -> Result<Vec<Vec<(u64, Binding)>>, AllocError>
    ensures { IfOk result (λ near.
        rows_of near.items ≡ map (row_on finder.now.entries) targets.now) }
{
    let mut near = Vec::new(alloc);
    for target in targets {
        near.push(finder.matching(alloc, target)?)?;
    }
    Ok(near)
}

/// The tree that leads from each binding of the rows to the places of these.
fn tree_of(alloc: Global, near: &[Vec<(u64, Binding)>]) -> Result<PrefixTree, AllocError>
    ensures { IfOk result (LeadsToRows (rows_of near.now)) }
{
    let mut places = PrefixTree::new();
    for place in 0..near.len() {
        add_places(alloc, &mut places, place as u64, near[place].as_slice())?;
    }
    Ok(places)
}
