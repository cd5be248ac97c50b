//! A deletion of bindings between its first and its second step.

ghost use Rattle.std.specs.Prelude.{◌≡◌, ◌*◌, ◌≤◌, ◌++◌, ◌∷◌, [], IfOk, OnOk, length};
ghost use Rattle.std.specs.List.{filter_map};
ghost use Rattle.kob_authorizer.specs.Deletion.{Removes, bindings_taken, bindings_left};
ghost use Rattle.kob_authorizer.specs.Index.{AreRising, Indexes, entry_at};

use crate::by_principal::leading_by_principal;
use crate::entry_list::EntryList;
use crate::index::Index;
use crate::look_up::{entry_of, place_of};
use crate::removal::Removals;
use kob_names::{Binding, BindingFilter, PlainValue};
use std::alloc::{AllocError, Global};
use std::marker::Model;

/// A deletion that needs no more allocations: its filter, the entries that it deletes, and what is
/// removed from the trees with them.
#[derive(Drop)]
pub struct PreparedDelete {
    filter: BindingFilter,
    taken: Vec<(u64, Binding)>,
    removals: Removals,
}

impl Model for PreparedDelete {
    ghost use Rattle.kob_authorizer.specs.Deletion.{Deletion, Removes};

    ghost Value = { Deletion };

    ghost view = { λ prepared. record { filter = prepared.filter; taken = prepared.taken.items } };

    ghost invariant = { λ prepared. Removes prepared.removals prepared.taken.items };
}

impl PreparedDelete {
    /// The deletion of the entries in force that the filter selects.
    pub(crate) fn make(
        alloc: Global,
        entries: &[(u64, Binding)],
        index: &Index,
        filter: &BindingFilter,
    ) -> Result<PreparedDelete, AllocError>
        requires rising { AreRising entries.now }
        requires indexed { Indexes index.now entries.now }
        ensures filter { IfOk result (λ made. made.filter ≡ filter.now) }
        ensures taken { IfOk result (λ made. made.taken ≡ bindings_taken filter.now entries.now) }
    {
        let taken = copies_taken(alloc, entries, index, filter)?;
        let removals = Removals::of(alloc, taken.as_slice())?;
        let filter = filter.copy(alloc)?;
        Ok(PreparedDelete {
            filter,
            taken,
            removals,
        })
    }

    /// The entries that are deleted, by ascending serial. Does not allocate.
    pub fn taken(&self) -> &[(u64, Binding)]
        ensures { result.now ≡ self.now.taken }
    {
        self.taken.as_slice()
    }

    /// The filter, the entries, and what is removed from the trees with them.
    pub(crate) fn into_parts(self) -> (BindingFilter, Vec<(u64, Binding)>, Removals)
        ensures filter { result.0 ≡ self.filter }
        ensures taken { result.1.items ≡ self.taken }
        ensures removals { Removes result.2 self.taken }
    {
        let PreparedDelete {
            filter,
            taken,
            removals,
        } = self;
        (filter, taken, removals)
    }
}

/// Copies of the entries that the filter selects. If it names one kind of resource and one name,
/// and few entries are at its pattern, or at the patterns that match the name, only these are
/// examined. If it names a principal that has few, only its own are.
pub fn copies_taken(
    alloc: Global,
    entries: &[(u64, Binding)],
    index: &Index,
    filter: &BindingFilter,
) -> Result<Vec<(u64, Binding)>, AllocError>
    requires rising { AreRising entries.now }
    requires indexed { Indexes index.now entries.now }
    ensures { IfOk result (λ made. made.items ≡ bindings_taken filter.now entries.now) }
{
    let few = entries.len() / 8;
    if few == 0 {
        return copies_among(alloc, entries, filter);
    }
    match index.patterns.leading_by(alloc, filter)? {
        Some(serials) if serials.len() < few => {
            return copies_at(alloc, entries, serials.as_slice(), filter);
        }
        _ => {}
    }
    match leading_by_principal(alloc, &index.keys, filter)? {
        Some(serials) if serials.len() < few => {
            copies_at(alloc, entries, serials.as_slice(), filter)
        }
        _ => copies_among(alloc, entries, filter),
    }
}

/// Copies of the entries that the filter selects. Each entry is examined.
#[tactic(auto, using(std::proofs::lemmas::List::Elements::filter_more))]
fn copies_among(
    alloc: Global,
    entries: &[(u64, Binding)],
    filter: &BindingFilter,
) -> Result<Vec<(u64, Binding)>, AllocError>
    ensures { IfOk result (λ made. made.items ≡ bindings_taken filter.now entries.now) }
{
    let mut copies = Vec::new(alloc);
    for entry in entries {
        push_taken(alloc, &mut copies, entry, filter)?;
    }
    Ok(copies)
}

/// Copies of those of the entries with these serials that the filter selects.
fn copies_at(
    alloc: Global,
    entries: &[(u64, Binding)],
    serials: &[u64],
    filter: &BindingFilter,
) -> Result<Vec<(u64, Binding)>, AllocError>
    requires { AreRising entries.now }
    ensures { IfOk result (λ made. made.items
        ≡ bindings_taken filter.now (filter_map (entry_at entries.now) serials.now)) }
{
    let mut copies = Vec::new(alloc);
    for serial in serials {
        if let Some(entry) = entry_of(entries, *serial) {
            push_taken(alloc, &mut copies, entry, filter)?;
        }
    }
    Ok(copies)
}

/// Appends a copy of the entry, if the filter selects it.
fn push_taken(
    alloc: Global,
    copies: &mut Vec<(u64, Binding)>,
    entry: &(u64, Binding),
    filter: &BindingFilter,
) -> Result<(), AllocError>
    ensures { OnOk result (copies.new.items
        ≡ copies.old.items ++ bindings_taken filter.now (entry.now ∷ [])) }
{
    if filter.takes(&entry.1) {
        copies.push(entry.copy(alloc)?)?;
    }
    Ok(())
}

/// Removes the entries that the filter selects. One alone is found by its serial. Does not
/// allocate.
pub fn remove_taken(entries: &mut EntryList, filter: &BindingFilter, taken: &[(u64, Binding)])
    requires rising { AreRising entries.old.entries }
    requires taken { taken.now ≡ bindings_taken filter.now entries.old.entries }
    ensures entries { entries.new.entries ≡ bindings_left filter.now entries.old.entries }
    ensures bound { length entries.new.entries ≤ length entries.old.entries }
    ensures holes { entries.new.holes * 8 ≤ length entries.new.entries }
{
    if taken.len() == 1 {
        if let Some(place) = place_of(entries.as_slice(), taken[0].0) {
            entries.remove(place);
            return;
        }
    }
    entries.remove_taken(filter);
}
