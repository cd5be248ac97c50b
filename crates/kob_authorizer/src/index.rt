//! The trees that map names and keys to the serials of bindings.

ghost use Rattle.std.specs.Prelude.{◌≡◌, ◌∷◌, IfOk, [], map};
ghost use Rattle.std.specs.List.{fold};
ghost use Rattle.kob_authorizer.specs.Deletion.{Removes, without_entries};
ghost use Rattle.kob_authorizer.specs.Index.{binding_key, empty_index, leaf_of, with_leaf};
ghost use Rattle.kob_authorizer.specs.Index.{without_addition};

use crate::key::{kind_in_tree, write_key};
use crate::patterns::{Patterns, remove_all};
use crate::removal::{KeyRemoval, Removals};
use kob_names::{Binding, ResourceKind};
use kob_prefix_tree::{PrefixTree, Prepared};
use std::alloc::{AllocError, Global};

/// The trees of the patterns, and one tree for the keys of the bindings.
#[derive(Drop)]
pub struct Index {
    pub patterns: Patterns,
    pub keys: PrefixTree,
}

/// What an entry adds to the trees, allocated ahead.
#[derive(Drop)]
pub struct Leaf {
    resource: ResourceKind,
    pattern: Prepared,
    key: Prepared,
}

impl Index {
    /// The index of no entries. Does not allocate.
    pub fn new() -> Index
        ensures { result ≡ empty_index }
    {
        Index {
            patterns: Patterns::new(),
            keys: PrefixTree::new(),
        }
    }

    /// The first step of an insertion: all allocations. The key is written to `key`.
    fn prepare(
        &self,
        alloc: Global,
        key: &mut Vec<u8>,
        entry: &(u64, Binding),
    ) -> Result<Leaf, AllocError>
        ensures { IfOk result (λ leaf. leaf ≡ leaf_of entry.now) }
    {
        let binding = entry.1.parts();
        let tree = self.patterns.tree(binding.resource);
        let name = binding.pattern.name.as_str().as_bytes();
        let kind = kind_in_tree(binding.pattern.kind);
        let pattern = tree.prepare_add(alloc, name, kind, entry.0)?;
        write_key(key, &entry.1)?;
        let key = self.keys.prepare_add(alloc, key.as_slice(), kind, entry.0)?;
        Ok(Leaf {
            resource: binding.resource,
            pattern,
            key,
        })
    }

    /// The first step of insertions, one after another.
    #[tactic(auto, using(std::proofs::lemmas::List::map_more))]
    pub fn prepare_all(
        &self,
        alloc: Global,
        entries: &[(u64, Binding)],
    ) -> Result<Vec<Leaf>, AllocError>
        ensures { IfOk result (λ leaves. leaves.items ≡ map leaf_of entries.now) }
    {
        let mut leaves = Vec::with_capacity(alloc, entries.len())?;
        let mut key = Vec::new(alloc);
        for entry in entries {
            leaves.push(self.prepare(alloc, &mut key, entry)?)?;
        }
        Ok(leaves)
    }

    /// The second step of an insertion. Does not allocate.
    fn put(&mut self, leaf: Leaf)
        ensures { self.new ≡ with_leaf self.old leaf }
    {
        let Leaf {
            resource,
            pattern,
            key,
        } = leaf;
        self.keys.commit_add(key);
        self.patterns.put(resource, pattern);
    }

    /// Removes entries. Does not allocate.
    pub fn remove(&mut self, taken: &[(u64, Binding)], removals: Removals)
        requires { Removes removals taken.now }
        ensures { self.new ≡ without_entries self.old taken.now }
    {
        match removals {
            Removals::One(key) => self.remove_one(&taken[0], key.as_slice()),
            Removals::Several { keys, patterns } => {
                remove_keys(&mut self.keys, keys);
                remove_all(&mut self.patterns, patterns);
            }
        }
    }

    /// Removes one entry, which has this key.
    #[tactic(auto, using(crate::proofs::IndexSteps::removals_of_one))]
    fn remove_one(&mut self, entry: &(u64, Binding), key: &[u8])
        requires { key.now ≡ binding_key entry.now.1 }
        ensures { self.new ≡ without_entries self.old (entry.now ∷ []) }
    {
        let binding = entry.1.parts();
        let kind = kind_in_tree(binding.pattern.kind);
        self.keys.remove(key, kind, entry.0);
        self.patterns
            .remove(binding.resource, &binding.pattern, &[entry.0]);
    }
}

/// The second step of insertions, one after another. Does not allocate.
#[tactic(auto, using(std::proofs::lemmas::List::Sums::fold_push))]
pub fn put_all(index: &mut Index, leaves: Vec<Leaf>)
    ensures { index.new ≡ fold with_leaf index.old leaves.items }
{
    for leaf in leaves {
        index.put(leaf);
    }
}

/// Removes the serials of keys, one after another. Does not allocate.
#[tactic(auto, using(std::proofs::lemmas::List::Sums::fold_push))]
fn remove_keys(keys: &mut PrefixTree, removals: Vec<KeyRemoval>)
    ensures { keys.new ≡ fold without_addition keys.old removals.items }
{
    for removal in removals {
        let (key, kind, serial) = removal.into_parts();
        keys.remove(key.as_slice(), kind, serial);
    }
}
