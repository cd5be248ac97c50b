//! The trees that map the names of patterns to the serials of bindings.

ghost use Rattle.std.specs.Prelude.{◌≡◌, ℕ, Contains, IfOk, IfSome, OnOk, vec_items};
ghost use Rattle.std.specs.List.{fold};
ghost use Rattle.std.specs.Option.{option_map};
ghost use Rattle.kob_prefix_tree.specs.Contents.{left_of};
ghost use Rattle.kob_authorizer.specs.Index.{ArePatternsOf, no_patterns, patterns_of, tree_of};
ghost use Rattle.kob_authorizer.specs.Index.{with_entry, with_pattern, listed_by};
ghost use Rattle.kob_authorizer.specs.Index.{serials_beside, without_removal};
ghost use Rattle.kob_authorizer.specs.Index.{matching_serials};
ghost use Rattle.kob_authorizer.specs.Leading.{LeadToTaken, RiseFrom};
ghost use Rattle.kob_prefix_tree.specs.Held.{held};

use crate::key::kind_in_tree;
use crate::removal::Removal;
use kob_names::{Binding, BindingFilter, FilterPattern, Pattern, ResourceKind};
use kob_prefix_tree::{PatternKind, PrefixTree, Prepared, Walk};
use std::alloc::{AllocError, Global};

/// One tree for the patterns on each kind of resource.
#[derive(Drop)]
pub struct Patterns {
    topics: PrefixTree,
    groups: PrefixTree,
    cluster: PrefixTree,
    transactional_ids: PrefixTree,
}

impl Patterns {
    /// The patterns of no entries. Does not allocate.
    pub fn new() -> Patterns
        ensures { result ≡ no_patterns }
    {
        Patterns {
            topics: PrefixTree::new(),
            groups: PrefixTree::new(),
            cluster: PrefixTree::new(),
            transactional_ids: PrefixTree::new(),
        }
    }

    /// The patterns of some entries alone.
    #[tactic(auto, using(std::proofs::lemmas::List::Sums::fold_more))]
    pub fn of(alloc: Global, entries: &[(u64, Binding)]) -> Result<Patterns, AllocError>
        ensures { IfOk result (λ made. made ≡ patterns_of entries.now) }
    {
        let mut patterns = Patterns::new();
        for entry in entries {
            if let Err(refused) = patterns.add(alloc, entry) {
                drop(patterns);
                return Err(refused);
            }
        }
        Ok(patterns)
    }

    /// The tree of the patterns on one kind of resource.
    pub fn tree(&self, resource: ResourceKind) -> &PrefixTree
        ensures { result.now ≡ tree_of self.now resource }
    {
        match resource {
            ResourceKind::Topic => &self.topics,
            ResourceKind::Group => &self.groups,
            ResourceKind::Cluster => &self.cluster,
            ResourceKind::TransactionalId => &self.transactional_ids,
        }
    }

    /// Serials of entries, in order, among which are those of all entries that a filter selects. If
    /// it names one kind of resource and one name, they are those at its pattern, or at the patterns
    /// that match the name. Otherwise `None`: each entry is to be examined.
    #[tactic(auto, using(crate::proofs::Deleting::listed_lead))]
    pub fn leading_by(
        &self,
        alloc: Global,
        filter: &BindingFilter,
    ) -> Result<Option<Vec<u64>>, AllocError>
        ensures { IfOk result (λ made. IfSome made (λ serials.
            LeadToTaken (ArePatternsOf self.now) filter.now serials.items)) }
    {
        match filter.pattern {
            FilterPattern::Matching => self.matching_by(alloc, filter),
            FilterPattern::Any | FilterPattern::Literal | FilterPattern::Prefixed => {
                self.listed_by(alloc, filter)
            }
        }
    }

    /// The serials at the patterns that match the name of a filter, in order, if it names one, and
    /// one kind of resource.
    #[tactic(auto, using(crate::proofs::Leading::matching_lead))]
    fn matching_by(
        &self,
        alloc: Global,
        filter: &BindingFilter,
    ) -> Result<Option<Vec<u64>>, AllocError>
        requires { filter.now.pattern ≡ FilterPattern.Matching }
        ensures { IfOk result (λ made. IfSome made (λ serials.
            LeadToTaken (ArePatternsOf self.now) filter.now serials.items)) }
    {
        match (filter.resource, &filter.name) {
            (Some(resource), Some(name)) => {
                let serials = serials_matching(
                    alloc,
                    self.tree(resource),
                    name.as_str().as_bytes(),
                )?;
                Ok(Some(serials))
            }
            _ => Ok(None),
        }
    }

    /// The serials at the pattern that a filter names, in order, if it names one on one kind of
    /// resource.
    fn listed_by(
        &self,
        alloc: Global,
        filter: &BindingFilter,
    ) -> Result<Option<Vec<u64>>, AllocError>
        ensures { IfOk result (λ made. option_map vec_items made ≡ listed_by self.now filter.now) }
    {
        let kind = match filter.pattern {
            FilterPattern::Literal => PatternKind::Literal,
            FilterPattern::Prefixed => PatternKind::Prefixed,
            FilterPattern::Any | FilterPattern::Matching => return Ok(None),
        };
        match (filter.resource, &filter.name) {
            (Some(resource), Some(name)) => {
                let listed = self.tree(resource).listed(name.as_str().as_bytes(), kind);
                Ok(Some(listed.collect(alloc)?))
            }
            _ => Ok(None),
        }
    }

    /// Inserts an entry.
    fn add(&mut self, alloc: Global, entry: &(u64, Binding)) -> Result<(), AllocError>
        ensures { OnOk result (self.new ≡ with_entry self.old entry.now) }
    {
        let binding = entry.1.parts();
        let name = binding.pattern.name.as_str().as_bytes();
        let kind = kind_in_tree(binding.pattern.kind);
        match binding.resource {
            ResourceKind::Topic => self.topics.add(alloc, name, kind, entry.0),
            ResourceKind::Group => self.groups.add(alloc, name, kind, entry.0),
            ResourceKind::Cluster => self.cluster.add(alloc, name, kind, entry.0),
            ResourceKind::TransactionalId => {
                self.transactional_ids.add(alloc, name, kind, entry.0)
            }
        }
    }

    /// The second step of an insertion. Does not allocate.
    pub fn put(&mut self, resource: ResourceKind, pattern: Prepared)
        ensures { self.new ≡ with_pattern self.old resource pattern }
    {
        match resource {
            ResourceKind::Topic => self.topics.commit_add(pattern),
            ResourceKind::Group => self.groups.commit_add(pattern),
            ResourceKind::Cluster => self.cluster.commit_add(pattern),
            ResourceKind::TransactionalId => self.transactional_ids.commit_add(pattern),
        }
    }

    /// The serials at the place of this entry's pattern, in order.
    pub fn serials_beside(&self, entry: &(u64, Binding)) -> Walk<'_>
        ensures { left_of result ≡ serials_beside self.now entry.now }
    {
        let binding = entry.1.parts();
        let name = binding.pattern.name.as_str().as_bytes();
        let kind = kind_in_tree(binding.pattern.kind);
        self.tree(binding.resource).listed(name, kind)
    }

    /// Removes the serials of one place, in one pass. Does not allocate.
    pub fn remove(&mut self, resource: ResourceKind, pattern: &Pattern, serials: &[u64])
        ensures { self.new ≡ without_removal self.old
            (record { resource = resource; pattern = pattern.now; serials = serials.now }) }
    {
        let name = pattern.name.as_str().as_bytes();
        let kind = kind_in_tree(pattern.kind);
        let _found = match resource {
            ResourceKind::Topic => self.topics.remove_all(name, kind, serials),
            ResourceKind::Group => self.groups.remove_all(name, kind, serials),
            ResourceKind::Cluster => self.cluster.remove_all(name, kind, serials),
            ResourceKind::TransactionalId => self.transactional_ids.remove_all(name, kind, serials),
        };
    }
}

/// The serials at the patterns that match a name, in order.
fn serials_matching(alloc: Global, tree: &PrefixTree, name: &[u8]) -> Result<Vec<u64>, AllocError>
    ensures rising { IfOk result (λ made. RiseFrom 0 made.items) }
    ensures all { IfOk result (λ made. (serial : ℕ)
        → Contains (matching_serials (held tree.now) name.now) serial
        → Contains made.items serial) }
{
    let walked = walked(alloc, tree, name)?;
    Ok(in_order(walked))
}

/// The serials at the patterns that match a name; those of the literal `*` are last.
fn walked(alloc: Global, tree: &PrefixTree, name: &[u8]) -> Result<Vec<u64>, AllocError>
    ensures { IfOk result (λ made. made.items ≡ matching_serials (held tree.now) name.now) }
{
    let mut serials: Vec<u64> = tree.walk(name).collect(alloc)?;
    let of_all: Vec<u64> = tree.literal("*".as_bytes()).collect(alloc)?;
    serials.extend_from_slice(of_all.as_slice())?;
    Ok(serials)
}

/// The serials in order, each once.
pub fn in_order(mut serials: Vec<u64>) -> Vec<u64>
    ensures rising { RiseFrom 0 result.items }
    ensures all { (serial : ℕ) → Contains serials.items serial → Contains result.items serial }
{
    serials.sort_unstable();
    serials.dedup();
    serials
}

/// Removes serials, one place after another. Does not allocate.
#[tactic(auto, using(std::proofs::lemmas::List::Sums::fold_push))]
pub fn remove_all(patterns: &mut Patterns, removals: Vec<Removal>)
    ensures { patterns.new ≡ fold without_removal patterns.old removals.items }
{
    for removal in removals {
        let (resource, pattern, serials) = removal.into_parts();
        patterns.remove(resource, &pattern, serials.as_slice());
    }
}
