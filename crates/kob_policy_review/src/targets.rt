//! The names that a set of rules distinguishes, each once.

ghost use Rattle.std.specs.Prelude.{◌≡◌, ◌++◌, ◌∷◌, [], IfOk, OnOk, filter, fold, slice_get};
ghost use Rattle.std.specs.List.{list_any};
ghost use Rattle.kob_prefix_tree.specs.Held.{held};
ghost use Rattle.kob_policy_review.specs.Classes.{names_by, open_targets, others_on};
ghost use Rattle.kob_policy_review.specs.Classes.{same_target, target_of, targets_named};
ghost use Rattle.kob_policy_review.specs.Classes.{the_cluster, with_target, with_target_of};
ghost use Rattle.kob_policy_review.specs.Below.{at_prefix, is_below, targets_below};
ghost use Rattle.kob_policy_review.specs.Sites.{is_at};

use crate::class::{Names, Target, copied_target};
use crate::finder::text_of;
use kob_names::{Binding, Pattern, PatternKind, PlainValue, ResourceKind, Text};
use kob_prefix_tree::{PatternKind as KindInTree, PrefixTree};
use std::alloc::{AllocError, Global};
use std::marker::Model;

/// Targets in the order in which they came, and a tree that leads from the text of their names to
/// their places. Contracts see their list.
#[derive(Drop)]
pub struct Targets {
    made: Vec<Target>,
    places: PrefixTree,
}

impl Model for Targets {
    ghost use Rattle.std.specs.Prelude.{List};
    ghost use Rattle.kob_policy_review.specs.Sites.{ArePlaced};
    ghost use Rattle.kob_policy_review.specs.declared.class.Target as seen;

    ghost Value = { List seen.Target };

    ghost view = { λ targets. targets.made.items };

    ghost invariant = { λ targets. ArePlaced targets.made.items targets.places };
}

impl Targets {
    /// None. Does not allocate.
    fn new(alloc: Global) -> Targets
        ensures { result ≡ [] }
    {
        Targets {
            made: Vec::new(alloc),
            places: PrefixTree::new(),
        }
    }

    fn is_at(&self, target: &Target, place: u64) -> bool
        ensures { result ≡ is_at target.now (slice_get self.now place) }
    {
        match self.made.get(place as usize) {
            None => false,
            Some(other) => target == other,
        }
    }

    fn is_at_one(&self, target: &Target, places: &[u64]) -> bool
        ensures { result
            ≡ list_any (λ place. is_at target.now (slice_get self.now place)) places.now }
    {
        places.iter().any(|place| self.is_at(target, *place))
    }

    fn is_listed(&self, alloc: Global, target: &Target) -> Result<bool, AllocError>
        ensures { IfOk result (λ listed. listed ≡ list_any (same_target target.now) self.now) }
    {
        let places = places_at(alloc, &self.places, text_of(&target.names))?;
        Ok(self.is_at_one(target, places.as_slice()))
    }

    fn push(&mut self, alloc: Global, target: Target) -> Result<(), AllocError>
        ensures { OnOk result (self.new ≡ self.old ++ target ∷ []) }
    {
        let place = self.made.len() as u64;
        let key = text_of(&target.names).as_str().as_bytes();
        self.places.add(alloc, key, KindInTree::Literal, place)?;
        self.made.push(target)?;
        Ok(())
    }

    fn add(&mut self, alloc: Global, target: Target) -> Result<(), AllocError>
        ensures { OnOk result (self.new ≡ with_target self.old target) }
    {
        if self.is_listed(alloc, &target)? {
            return Ok(());
        }
        self.push(alloc, target)
    }

    /// Adds the names that the bindings' patterns take first.
    #[tactic(auto, using(std::proofs::lemmas::List::Sums::fold_more), unfolding(crate::specs::Classes::with_target_of))]
    pub fn add_all(&mut self, alloc: Global, entries: &[(u64, Binding)]) -> Result<(), AllocError>
        ensures { OnOk result (self.new ≡ fold with_target_of self.old entries.now) }
    {
        for entry in entries {
            self.add(alloc, target_of(alloc, entry)?)?;
        }
        Ok(())
    }

    /// Puts the names of a kind that no pattern takes.
    fn push_others(&mut self, alloc: Global, resource: ResourceKind) -> Result<(), AllocError>
        ensures { OnOk result (self.new ≡ self.old ++ others_on resource ∷ []) }
    {
        let names = Names::Below(Text::copied(alloc, "")?);
        self.push(alloc, Target { resource, names })
    }

    fn open(alloc: Global) -> Result<Targets, AllocError>
        ensures { IfOk result (λ made. made ≡ open_targets) }
    {
        let mut made = Targets::new(alloc);
        made.push_others(alloc, ResourceKind::Topic)?;
        made.push_others(alloc, ResourceKind::Group)?;
        made.push(alloc, the_cluster(alloc)?)?;
        made.push_others(alloc, ResourceKind::TransactionalId)?;
        Ok(made)
    }

    /// The names that a set of rules distinguishes, each once.
    pub fn of(alloc: Global, entries: &[(u64, Binding)]) -> Result<Targets, AllocError>
        ensures { IfOk result (λ made. made ≡ targets_named entries.now) }
    {
        let mut made = Targets::open(alloc)?;
        made.add_all(alloc, entries)?;
        Ok(made)
    }

    /// The targets. Does not allocate.
    pub fn into_vec(self) -> Vec<Target>
        ensures { result.items ≡ self }
    {
        self.made
    }
}

/// The places that the tree has for a text.
fn places_at(alloc: Global, places: &PrefixTree, text: &Text) -> Result<Vec<u64>, AllocError>
    ensures { IfOk result (λ made. made.items ≡ (held places.now text.now).0) }
{
    places.literal(text.as_str().as_bytes()).collect(alloc)
}

fn names_by(alloc: Global, pattern: &Pattern) -> Result<Names, AllocError>
    ensures { IfOk result (λ names. names ≡ names_by pattern.now.kind pattern.now.name) }
{
    match pattern.kind {
        PatternKind::Prefixed => Ok(Names::Below(pattern.name.copy(alloc)?)),
        PatternKind::Literal => {
            if pattern.name.as_str() == "*" {
                Ok(Names::Below(Text::copied(alloc, "")?))
            } else {
                Ok(Names::Exactly(pattern.name.copy(alloc)?))
            }
        }
    }
}

/// The cluster, by its one name.
fn the_cluster(alloc: Global) -> Result<Target, AllocError>
    ensures { IfOk result (λ made. made ≡ the_cluster) }
{
    let names = Names::Exactly(Text::copied(alloc, "kafka-cluster")?);
    Ok(Target {
        resource: ResourceKind::Cluster,
        names,
    })
}

/// The names that a binding's pattern takes first.
pub fn target_of(alloc: Global, entry: &(u64, Binding)) -> Result<Target, AllocError>
    ensures { IfOk result (λ made. made ≡ target_of entry.now) }
{
    let binding = entry.1.parts();
    match binding.resource {
        ResourceKind::Cluster => the_cluster(alloc),
        ResourceKind::Topic | ResourceKind::Group | ResourceKind::TransactionalId => {
            let names = names_by(alloc, &binding.pattern)?;
            Ok(Target {
                resource: binding.resource,
                names,
            })
        }
    }
}

/// The names that a set of rules distinguishes, each once.
pub fn targets_of(alloc: Global, entries: &[(u64, Binding)]) -> Result<Vec<Target>, AllocError>
    ensures { IfOk result (λ made. made.items ≡ targets_named entries.now) }
{
    Ok(Targets::of(alloc, entries)?.into_vec())
}

/// The names that a prefixed pattern takes first.
pub fn at_prefix(alloc: Global, resource: ResourceKind, prefix: &Text) -> Result<Target, AllocError>
    ensures { IfOk result (λ made. made ≡ at_prefix resource prefix.now) }
{
    match resource {
        ResourceKind::Cluster => the_cluster(alloc),
        ResourceKind::Topic | ResourceKind::Group | ResourceKind::TransactionalId => {
            let names = Names::Below(prefix.copy(alloc)?);
            Ok(Target { resource, names })
        }
    }
}

pub fn is_below(resource: ResourceKind, prefix: &Text, target: &Target) -> bool
    ensures { result ≡ is_below resource prefix.now target.now }
{
    let text = text_of(&target.names).as_str().as_bytes();
    target.resource == resource && text.starts_with(prefix.as_str().as_bytes())
}

/// Copies of the targets whose names begin with a prefix.
#[tactic(auto, using(std::proofs::lemmas::List::Elements::filter_more))]
fn only_below(
    alloc: Global,
    targets: &[Target],
    resource: ResourceKind,
    prefix: &Text,
) -> Result<Vec<Target>, AllocError>
    ensures { IfOk result (λ made. made.items ≡ filter (is_below resource prefix.now) targets.now) }
{
    let mut made = Vec::new(alloc);
    for target in targets {
        if is_below(resource, prefix, target) {
            made.push(copied_target(alloc, target)?)?;
        }
    }
    Ok(made)
}

/// The names that begin with a prefix, as a set of rules distinguishes them.
pub fn targets_below(
    alloc: Global,
    entries: &[(u64, Binding)],
    resource: ResourceKind,
    prefix: &Text,
) -> Result<Vec<Target>, AllocError>
    ensures { IfOk result (λ made. made.items ≡ targets_below entries.now resource prefix.now) }
{
    let mut made = Targets::open(alloc)?;
    made.add(alloc, at_prefix(alloc, resource, prefix)?)?;
    made.add_all(alloc, entries)?;
    let all = made.into_vec();
    only_below(alloc, all.as_slice(), resource, prefix)
}
