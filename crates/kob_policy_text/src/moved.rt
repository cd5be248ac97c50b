//! The bindings that one policy has and another lacks.

ghost use Rattle.std.specs.Prelude.{◌≡◌, ◌++◌, IfOk, OnOk, flat_map, is_some};
ghost use Rattle.std.specs.Prelude.{slice_get};
ghost use Rattle.kob_policy_text.specs.Moved.{alone_text, is_equal, moved_line};
ghost use Rattle.kob_policy_text.specs.Moved.{moved_text};
ghost use Rattle.kob_policy_text.specs.Steps.{is_among};

use crate::commands::equals_of;
use crate::judge::Judge;
use crate::printed::push_line_by;
use kob_authorizer::Authorizer;
use kob_names::Binding;
use std::alloc::{AllocError, Global};

/// Whether an equal binding stands at a place.
fn stands_at(others: &[(u64, Binding)], place: usize, binding: &Binding) -> bool
    ensures { result ≡ is_equal binding.now (slice_get others.now place) }
{
    match others.get(place) {
        None => false,
        Some(entry) => binding.equals(&entry.1),
    }
}

/// The place of the first of the entries that were found, or 0.
fn place_of(others: &[(u64, Binding)], found: &[(u64, Binding)]) -> usize {
    let serial = found.first().map_or(0, |entry| entry.0);
    others
        .binary_search_by_key(&serial, |entry| entry.0)
        .unwrap_or(0)
}

/// Where an equal binding is among the others. It is looked for first at a place: lists that are
/// compared have most bindings in one order.
#[tactic(auto, using(crate::proofs::Standing::stands_among))]
fn place_among(
    alloc: Global,
    others: &Authorizer,
    first: usize,
    binding: &Binding,
) -> Result<Option<usize>, AllocError>
    ensures { IfOk result (λ at. is_some at ≡ is_among others.now.contents.entries binding.now) }
{
    if stands_at(others.entries(), first, binding) {
        return Ok(Some(first));
    }
    let found = equals_of(alloc, others, binding)?;
    if found.is_empty() {
        return Ok(None);
    }
    Ok(Some(place_of(others.entries(), found.as_slice())))
}

#[tactic(auto, unfolding(crate::specs::Moved::moved_line))]
fn push_lines(
    alloc: Global,
    out: &mut Vec<u8>,
    judge: &Judge,
    others: &Authorizer,
    entries: &[(u64, Binding)],
) -> Result<(), AllocError>
    ensures { OnOk result (out.new.items ≡ out.old.items
        ++ flat_map (moved_line judge.now others.now.contents.entries) entries.now) }
{
    let mut next = 0;
    for entry in entries {
        match place_among(alloc, others, next, &entry.1)? {
            Some(place) => next = place.saturating_add(1),
            None => push_line_by(out, judge, entry.0)?,
        }
    }
    Ok(())
}

/// The bindings of one policy that the others lack, below a word if there are any.
fn push_alone(
    alloc: Global,
    out: &mut Vec<u8>,
    what: &[u8],
    judge: &Judge,
    others: &Judge,
) -> Result<(), AllocError>
    ensures { OnOk result (out.new.items
        ≡ out.old.items ++ alone_text what.now judge.now others.now) }
{
    let mut lines = Vec::new(alloc);
    let entries = judge.authorizer().entries();
    push_lines(alloc, &mut lines, judge, others.authorizer(), entries)?;
    match lines.as_slice() {
        [] => Ok(()),
        [_, ..] => {
            out.extend_from_slice(what)?;
            out.extend_from_slice(lines.as_slice())
        }
    }
}

/// Prints the bindings that only the first policy has, below `removed`, and those that only the
/// second one has, below `added`. Bindings are equal whatever their serials are. The error is out
/// of memory; `out` has then grown by a part of the text.
pub fn print_moved(
    alloc: Global,
    out: &mut Vec<u8>,
    before: &Judge,
    after: &Judge,
) -> Result<(), AllocError>
    ensures { OnOk result (out.new.items ≡ out.old.items ++ moved_text before.now after.now) }
{
    push_alone(alloc, out, b"removed\n", before, after)?;
    push_alone(alloc, out, b"added\n", after, before)
}
