//! What a deletion removes from the trees. From those of the patterns it removes all serials of a
//! place at once. From that of the keys it removes one serial at a time, since few bindings have
//! the same key.

ghost use Rattle.std.specs.Prelude.{◌≡◌, IfOk, OnOk, [], map};
ghost use Rattle.std.specs.List.{fold};
ghost use Rattle.kob_authorizer.specs.Deletion.{Removes};
ghost use Rattle.kob_authorizer.specs.Index.{addition, key_place};
ghost use Rattle.kob_authorizer.specs.Index.{is_first_there, removal_of, removals_of, with_removal};

use crate::key::{binding_key, kind_in_tree};
use crate::patterns::Patterns;
use kob_names::{Binding, Pattern, PlainValue, ResourceKind};
use kob_prefix_tree::PatternKind;
use std::alloc::{AllocError, Global};
use std::marker::Model;

/// What is removed from the trees with some entries, allocated ahead. Of one alone its key is enough:
/// all else is in the entry.
#[derive(Drop)]
pub enum Removals {
    One(Vec<u8>),
    Several {
        keys: Vec<KeyRemoval>,
        patterns: Vec<Removal>,
    },
}

impl Removals {
    /// What is removed with these entries.
    pub fn of(alloc: Global, taken: &[(u64, Binding)]) -> Result<Removals, AllocError>
        ensures { IfOk result (λ made. Removes made taken.now) }
    {
        if let [entry] = taken {
            let key = binding_key(alloc, &entry.1)?;
            return Ok(Removals::One(key));
        }
        let keys = key_removals(alloc, taken)?;
        let patterns = removals_of(alloc, taken)?;
        Ok(Removals::Several { keys, patterns })
    }
}

/// A pattern on a kind of resource, and the serials to remove from its place. Contracts see its
/// parts.
#[derive(Drop)]
pub struct Removal {
    resource: ResourceKind,
    pattern: Pattern,
    serials: Vec<u64>,
}

impl Model for Removal {
    ghost use Rattle.kob_authorizer.specs.Index as seen;

    ghost Value = { seen.Removal };

    ghost view = { λ removal. record {
      resource = removal.resource;
      pattern = removal.pattern;
      serials = removal.serials.items;
    } };
}

impl Removal {
    /// All entries at this entry's place among the patterns.
    fn of(alloc: Global, patterns: &Patterns, entry: &(u64, Binding)) -> Result<Removal, AllocError>
        ensures { IfOk result (λ made. made ≡ removal_of patterns.now entry.now) }
    {
        let serials = patterns.serials_beside(entry).collect(alloc)?;
        let binding = entry.1.parts();
        let pattern = binding.pattern.copy(alloc)?;
        Ok(Removal {
            resource: binding.resource,
            pattern,
            serials,
        })
    }

    /// The kind of resource, the pattern and the serials.
    pub fn into_parts(self) -> (ResourceKind, Pattern, Vec<u64>)
        ensures resource { result.0 ≡ self.resource }
        ensures pattern { result.1 ≡ self.pattern }
        ensures serials { result.2.items ≡ self.serials }
    {
        let Removal {
            resource,
            pattern,
            serials,
        } = self;
        (resource, pattern, serials)
    }
}

/// All that is removed from the trees of the patterns with these entries, each place once.
///
/// Their patterns are put into trees of their own, which have the serials of each place together.
fn removals_of(alloc: Global, taken: &[(u64, Binding)]) -> Result<Vec<Removal>, AllocError>
    ensures { IfOk result (λ made. made.items ≡ removals_of taken.now) }
{
    let patterns = Patterns::of(alloc, taken)?;
    let removals = removals_among(alloc, &patterns, taken);
    drop(patterns);
    removals
}

/// All entries at the places of these among the patterns, each place once.
#[tactic(auto, using(std::proofs::lemmas::List::Sums::fold_more))]
fn removals_among(
    alloc: Global,
    patterns: &Patterns,
    taken: &[(u64, Binding)],
) -> Result<Vec<Removal>, AllocError>
    ensures { IfOk result (λ made. made.items
        ≡ fold (with_removal patterns.now) [] taken.now) }
{
    let mut removals = Vec::new(alloc);
    for entry in taken {
        if let Err(refused) = put_removal(alloc, &mut removals, patterns, entry) {
            drop(removals);
            return Err(refused);
        }
    }
    Ok(removals)
}

/// Appends all entries at this entry's place, if no other entry is before it there.
fn put_removal(
    alloc: Global,
    removals: &mut Vec<Removal>,
    patterns: &Patterns,
    entry: &(u64, Binding),
) -> Result<(), AllocError>
    ensures { OnOk result (removals.new.items
        ≡ with_removal patterns.now removals.old.items entry.now) }
{
    if !is_first_there(patterns, entry) {
        return Ok(());
    }
    let removal = Removal::of(alloc, patterns, entry)?;
    removals.push(removal)?;
    Ok(())
}

/// Whether no other entry is before this one at its place.
fn is_first_there(patterns: &Patterns, entry: &(u64, Binding)) -> bool
    ensures { result ≡ is_first_there patterns.now entry.now }
{
    match patterns.serials_beside(entry).next() {
        None => false,
        Some(first) => first == entry.0,
    }
}

/// A key, and the serial to remove from its list of one kind. Contracts see what was added for it.
#[derive(Drop)]
pub struct KeyRemoval {
    key: Vec<u8>,
    kind: PatternKind,
    serial: u64,
}

impl Model for KeyRemoval {
    ghost use Rattle.kob_prefix_tree.specs.Held.{Addition};

    ghost Value = { Addition };

    ghost view = { λ removal. record {
      key = removal.key.items;
      kind = removal.kind;
      serial = removal.serial;
    } };
}

impl KeyRemoval {
    /// The key of an entry, the kind of its pattern, and its serial.
    fn of(alloc: Global, entry: &(u64, Binding)) -> Result<KeyRemoval, AllocError>
        ensures { IfOk result (λ made. made ≡ addition key_place entry.now) }
    {
        let key = binding_key(alloc, &entry.1)?;
        Ok(KeyRemoval {
            key,
            kind: kind_in_tree(entry.1.parts().pattern.kind),
            serial: entry.0,
        })
    }

    /// The key, the kind and the serial.
    pub fn into_parts(self) -> (Vec<u8>, PatternKind, u64)
        ensures key { result.0.items ≡ self.key }
        ensures kind { result.1 ≡ self.kind }
        ensures serial { result.2 ≡ self.serial }
    {
        let KeyRemoval { key, kind, serial } = self;
        (key, kind, serial)
    }
}

/// What is removed from the tree of the keys with these entries.
#[tactic(auto, using(std::proofs::lemmas::List::map_more))]
fn key_removals(alloc: Global, taken: &[(u64, Binding)]) -> Result<Vec<KeyRemoval>, AllocError>
    ensures { IfOk result (λ made. made.items ≡ map (addition key_place) taken.now) }
{
    let mut removals = Vec::with_capacity(alloc, taken.len())?;
    for entry in taken {
        removals.push(KeyRemoval::of(alloc, entry)?)?;
    }
    Ok(removals)
}
