//! The steps of a creation: the new bindings are found, and the serials of all.

ghost use Rattle.std.specs.Prelude.{◌≡◌, ◌+◌, ◌≤◌, ◌++◌, IfOk, OnOk, Some, length};
ghost use Rattle.std.specs.List.{enumerate_from};
ghost use Rattle.kob_authorizer.specs.Creation.{serial_limit, serial_of};
ghost use Rattle.kob_authorizer.specs.Creation.{new_bindings, serials_in, with_new};
ghost use Rattle.kob_authorizer.specs.Index.{AreRising, IsIndex, key_place};

use crate::equals::serial_of;
use crate::fresh::Fresh;
use kob_names::Binding;
use kob_prefix_tree::PrefixTree;
use std::alloc::{AllocError, Global};

/// The bindings to which none in force is equal, each once, and the serials of all bindings in
/// their order. The new ones get the serials from `next` on. If there are not so many, the serials
/// mean nothing.
pub fn new_bindings(
    alloc: Global,
    entries: &[(u64, Binding)],
    keys: &PrefixTree,
    next: u64,
    bindings: Vec<Binding>,
) -> Result<(Fresh, Vec<u64>), AllocError>
    requires rising { AreRising entries.now }
    requires indexed { IsIndex key_place keys.now entries.now }
    ensures fresh { IfOk result (λ made. made.0 ≡ new_bindings entries.now bindings.items) }
    ensures serials { IfOk result (λ made. next + length made.0 ≤ serial_limit
        → made.1.items
        ≡ serials_in (entries.now ++ enumerate_from next made.0) bindings.items) }
{
    let mut fresh = Fresh::new(alloc);
    let mut serials = Vec::with_capacity(alloc, bindings.len())?;
    for binding in bindings {
        let serial = found_or_put(alloc, entries, keys, next, &mut fresh, binding)?;
        serials.push(serial)?;
    }
    Ok((fresh, serials))
}

/// The serial of the binding: that of an equal one in force, or otherwise that of the new one,
/// which is put among the others if it is not there yet.
#[tactic(auto, using(crate::proofs::Creating::finding))]
fn found_or_put(
    alloc: Global,
    entries: &[(u64, Binding)],
    keys: &PrefixTree,
    next: u64,
    fresh: &mut Fresh,
    binding: Binding,
) -> Result<u64, AllocError>
    requires rising { AreRising entries.now }
    requires indexed { IsIndex key_place keys.now entries.now }
    ensures fresh { OnOk result (fresh.new ≡ with_new entries.now fresh.old binding) }
    ensures serial { IfOk result (λ serial. next + length fresh.new ≤ serial_limit
        → Some serial ≡ serial_of (entries.now ++ enumerate_from next fresh.new) binding) }
{
    match serial_of(entries, keys, &binding) {
        Some(serial) => Ok(serial),
        None => {
            let place = fresh.put(alloc, binding)?;
            Ok(next.saturating_add(place))
        }
    }
}
