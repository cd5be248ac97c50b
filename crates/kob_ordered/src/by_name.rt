//! The search for a name among the slots, whose places are listed in order of their names.

ghost use Rattle.std.specs.Prelude.{◌≡◌, ◌+◌, ◌<◌, get_or, length, slice_get, IfErr, IfOk, IfSome, Some};
ghost use Rattle.std.specs.Prelude.{is_ok, is_some};
ghost use Rattle.std.specs.List.{remove};
ghost use Rattle.std.specs.VecDeque.{deque_capacity, deque_len};
ghost use Rattle.std.specs.Map.{lookup};
ghost use Rattle.kob_names.specs.Same.{same_text};
ghost use Rattle.kob_ordered.specs.Slots.{entries_in, names_in, order_of, IsGap, IsSound, Nth};

use crate::slot::Slot;
use kob_names::Text;
use std::cmp::Ordering;
use std::collections::VecDeque;

/// Where the place of that name is in the sorted list of places, or where it would be. The first
/// name and one that comes after all others are not searched for.
pub(crate) fn find<V>(
    slots: &[Slot<V>],
    by_name: &VecDeque<usize>,
    name: &Text,
) -> Result<usize, usize>
    requires { IsSound slots.now by_name.now.items }
    ensures found { IfOk result (Nth (names_in slots.now) by_name.now.items name.now) }
    ensures gap { IfErr result (IsGap (names_in slots.now) by_name.now.items name.now) }
    ensures known { is_ok result ≡ is_some (lookup (same_text name.now) (entries_in slots.now)) }
{
    if let Some(last) = by_name.back() {
        if let Ordering::Less = order_at(slots, *last, name) {
            return Err(by_name.len());
        }
    }
    if let Some(first) = by_name.front() {
        if let Ordering::Equal = order_at(slots, *first, name) {
            return Ok(0);
        }
    }
    by_name.binary_search_by(|place| order_at(slots, *place, name))
}

/// The place of the entry of that name.
pub(crate) fn place_of<V>(
    slots: &[Slot<V>],
    by_name: &VecDeque<usize>,
    name: &Text,
) -> Option<usize>
    requires { IsSound slots.now by_name.now.items }
    ensures stands { IfSome result (λ place.
        slice_get (names_in slots.now) place ≡ Some (Some name.now)) }
    ensures known { is_some result ≡ is_some (lookup (same_text name.now) (entries_in slots.now)) }
{
    match find(slots, by_name, name) {
        Ok(index) => Some(by_name[index]),
        Err(_) => None,
    }
}

/// The same, but two places are looked at before a search.
pub(crate) fn place_near<V>(
    slots: &[Slot<V>],
    by_name: &VecDeque<usize>,
    name: &Text,
    near: (usize, usize),
) -> Option<usize>
    requires { IsSound slots.now by_name.now.items }
    ensures stands { IfSome result (λ place.
        slice_get (names_in slots.now) place ≡ Some (Some name.now)) }
    ensures known { is_some result ≡ is_some (lookup (same_text name.now) (entries_in slots.now)) }
{
    if let Ordering::Equal = order_at(slots, near.0, name) {
        return Some(near.0);
    }
    if let Ordering::Equal = order_at(slots, near.1, name) {
        return Some(near.1);
    }
    place_of(slots, by_name, name)
}

/// Removes a place from the sorted list, by its index, and returns it.
pub(crate) fn take_at(by_name: &mut VecDeque<usize>, index: usize) -> usize
    requires { index < length by_name.old.items }
    ensures value { result ≡ get_or by_name.old.items index result }
    ensures items { by_name.new.items ≡ remove by_name.old.items index }
    ensures count { deque_len by_name.new + 1 ≡ deque_len by_name.old }
    ensures capacity { deque_capacity by_name.new ≡ deque_capacity by_name.old }
{
    by_name.remove(index).unwrap()
}

/// How the name at a place compares with a name.
fn order_at<V>(slots: &[Slot<V>], place: usize, name: &Text) -> Ordering
    ensures { result ≡ order_of name.now (slice_get slots.now place) }
{
    match slots.get(place) {
        Some(Slot::Entry(other, _)) => other.as_str().cmp(name.as_str()),
        _ => Ordering::Less,
    }
}
