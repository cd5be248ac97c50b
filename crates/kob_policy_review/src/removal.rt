//! Bindings that may go together: no answer at all changes without all of them.

ghost use Rattle.std.specs.Prelude.{◌≡◌, IfOk, filter};
ghost use Rattle.kob_policy_review.specs.Redundancy.{is_outside};
ghost use Rattle.kob_policy_review.specs.Removal.{ListsRemovable, concerned, is_among, is_needed_in, removable_in};

use crate::gone::Gone;
use crate::needed::push_needed_by;
use crate::parties::principals_of;
use crate::sites::Sites;
use kob_authorizer::Authorizer;
use kob_names::{Binding, PlainValue, Text};
use std::alloc::{AllocError, Global};

/// The principals to whom an answer may change without an entry.
fn concerned(
    alloc: Global,
    matching: &[(u64, Binding)],
    entry: &(u64, Binding),
) -> Result<Vec<Option<Text>>, AllocError>
    ensures { IfOk result (λ made. made.items ≡ concerned entry.now matching.now) }
{
    let principal = entry.1.parts().principal.as_str();
    if principal == "User:*" {
        return principals_of(alloc, matching);
    }
    let mut made = Vec::new(alloc);
    made.push(None)?;
    made.push(Some(Text::copied(alloc, principal)?))?;
    Ok(made)
}

/// Whether the entry is needed on some names, of the entries that match these.
fn is_needed_in(
    alloc: Global,
    rules: &Authorizer,
    matching: &[(u64, Binding)],
    entry: &(u64, Binding),
) -> Result<bool, AllocError>
    ensures { IfOk result (λ needed. needed ≡ is_needed_in rules.now.contents.supers
        rules.now.contents.everyone matching.now entry.now) }
{
    let mut out = Vec::new(alloc);
    let principals = concerned(alloc, matching, entry)?;
    for principal in principals.as_slice() {
        push_needed_by(alloc, &mut out, rules, matching, principal)?;
    }
    Ok(out.contains(&entry.0))
}

/// Whether the entry is needed on some names, of those that match these, once some are gone.
pub fn is_needed_among(
    alloc: Global,
    rules: &Authorizer,
    matching: &[(u64, Binding)],
    gone: &Gone,
    entry: &(u64, Binding),
) -> Result<bool, AllocError>
    ensures { IfOk result (λ needed. needed ≡ is_needed_in rules.now.contents.supers
        rules.now.contents.everyone (filter (is_outside (is_among gone.now)) matching.now)
        entry.now) }
{
    let left = gone.left(alloc, matching)?;
    is_needed_in(alloc, rules, left.as_slice(), entry)
}

/// The bindings that may go together, as they join.
#[tactic(auto, using(std::proofs::lemmas::List::Sums::fold_more), unfolding(crate::specs::Removal::with_removable))]
fn all_removable(
    alloc: Global,
    sites: &Sites<'_>,
    entries: &[(u64, Binding)],
) -> Result<Gone, AllocError>
    requires { entries.now ≡ sites.now.entries }
    ensures { IfOk result (λ gone. gone ≡ removable_in sites.now) }
{
    let mut gone = Gone::new(alloc);
    for entry in entries {
        if !sites.is_needed(alloc, &gone, entry)? {
            gone.push(entry.0)?;
        }
    }
    Ok(gone)
}

/// The serials of bindings that an administrator may delete together: no answer at all changes
/// without all of them. They are found in the order of the list: a binding joins if, without it and
/// those that joined before it, no answer changes, for no principal, no host, no operation and no
/// name. So of two that stand in for each other the first joins. By ascending serial.
///
/// A deny can become needless only when all allows that it beats have joined after its turn: then a
/// second call, on the rules without the first set, finds it.
#[tactic(auto, using(crate::proofs::Going::lists_all))]
pub fn removable(alloc: Global, rules: &Authorizer) -> Result<Vec<u64>, AllocError>
    ensures exact { IfOk result (λ gone. ListsRemovable rules.now.contents gone.items) }
    ensures listed { IfOk result (λ gone. gone.items ≡ removable_in rules.now.contents) }
{
    let sites = Sites::of(alloc, rules)?;
    let gone = all_removable(alloc, &sites, rules.entries())?;
    Ok(gone.into_vec())
}
