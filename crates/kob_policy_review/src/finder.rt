//! Rules whose bindings are looked up by the names of their patterns.

ghost use Rattle.std.specs.Prelude.{◌≡◌, ℕ, Contains, IfOk, filter};
ghost use Rattle.kob_names.specs.Binding.{Binding};
ghost use Rattle.kob_authorizer.specs.Index.{AreRising, IsIndex};
ghost use Rattle.kob_authorizer.specs.Index.{matching_serials, pattern_place};
ghost use Rattle.kob_prefix_tree.specs.Held.{held};
ghost use Rattle.kob_policy_review.specs.Classes.{is_on};
ghost use Rattle.kob_policy_review.specs.Finding.{RiseFrom, names_in, picked, text_of};

use crate::class::{Names, Target};
use crate::matching::matching;
use kob_authorizer::{Authorizer, entry_of, kind_in_tree};
use kob_names::{Binding, PlainValue, Text};
use kob_prefix_tree::PrefixTree;
use std::alloc::{AllocError, Global};
use std::marker::Model;

/// Rules, and a tree of the names of their bindings' patterns. Contracts see what the rules hold.
#[derive(Drop)]
pub struct Finder<'a> {
    rules: &'a Authorizer,
    names: PrefixTree,
}

impl<'a> Model for Finder<'a> {
    ghost use Rattle.kob_authorizer.specs.Decide.{Contents};
    ghost use Rattle.kob_authorizer.specs.Index.{IsIndex, pattern_place};

    ghost Value = { Contents };

    ghost view = { λ finder. finder.rules.now.contents };

    ghost invariant = { λ finder.
        IsIndex pattern_place finder.names finder.rules.now.contents.entries };
}

impl<'a> Finder<'a> {
    /// A finder of the bindings of these rules.
    #[tactic(auto, using(crate::proofs::Finding::names_lead))]
    pub fn of(alloc: Global, rules: &'a Authorizer) -> Result<Finder<'a>, AllocError>
        ensures { IfOk result (λ made. made ≡ rules.entry.now.contents) }
    {
        let names = names_in(alloc, rules.entries())?;
        Ok(Finder { rules, names })
    }

    /// The rules.
    pub fn rules(&self) -> &Authorizer
        ensures { result.now.contents ≡ self.now }
    {
        self.rules
    }

    /// Copies of the bindings whose patterns match the names. Of the others only those are looked
    /// at that match the name, or the text that the names begin with. By rising serial.
    #[tactic(auto, using(kob_authorizer::proofs::Entries::are_rising))]
    pub fn matching(
        &self,
        alloc: Global,
        target: &Target,
    ) -> Result<Vec<(u64, Binding)>, AllocError>
        ensures on { IfOk result (λ made. made.items ≡ filter (is_on target.now) self.now.entries) }
        ensures rising { IfOk result (λ made. AreRising made.items) }
    {
        let walked = walked(alloc, &self.names, text_of(&target.names))?;
        let serials = in_order(walked);
        let near = picked(alloc, self.rules.entries(), serials.as_slice())?;
        matching(alloc, near.as_slice(), target)
    }
}

/// The name, or the text that the names begin with.
pub fn text_of(names: &Names) -> &Text
    ensures { result.now ≡ text_of names.entry.now }
{
    match names {
        Names::Exactly(name) => name,
        Names::Below(start) => start,
    }
}

/// A tree of the names of the entries' patterns.
#[tactic(auto, using(std::proofs::lemmas::List::Sums::fold_more))]
fn names_in(alloc: Global, entries: &[(u64, Binding)]) -> Result<PrefixTree, AllocError>
    ensures { IfOk result (λ made. made ≡ names_in entries.now) }
{
    let mut names = PrefixTree::new();
    for entry in entries {
        let pattern = &entry.1.parts().pattern;
        let kind = kind_in_tree(pattern.kind);
        names.add(alloc, pattern.name.as_str().as_bytes(), kind, entry.0)?;
    }
    Ok(names)
}

/// The serials of the patterns that match a name, on any kind of resource.
fn walked(alloc: Global, names: &PrefixTree, text: &Text) -> Result<Vec<u64>, AllocError>
    ensures { IfOk result (λ made. made.items ≡ matching_serials (held names.now) text.now) }
{
    let mut serials: Vec<u64> = names.walk(text.as_str().as_bytes()).collect(alloc)?;
    let of_all: Vec<u64> = names.literal("*".as_bytes()).collect(alloc)?;
    serials.extend_from_slice(of_all.as_slice())?;
    Ok(serials)
}

/// The serials in order, each once.
pub fn in_order(walked: Vec<u64>) -> Vec<u64>
    ensures rising { RiseFrom 0 result.items }
    ensures all { (serial : ℕ) → Contains walked.items serial → Contains result.items serial }
{
    let mut serials = walked;
    serials.sort_unstable();
    serials.dedup();
    serials
}

/// Copies of the entries with these serials.
pub fn picked(
    alloc: Global,
    entries: &[(u64, Binding)],
    serials: &[u64],
) -> Result<Vec<(u64, Binding)>, AllocError>
    requires { AreRising entries.now }
    ensures { IfOk result (λ made. made.items ≡ picked entries.now serials.now) }
{
    let mut made = Vec::new(alloc);
    for serial in serials {
        if let Some(entry) = entry_of(entries, *serial) {
            made.push(entry.copy(alloc)?)?;
        }
    }
    Ok(made)
}
