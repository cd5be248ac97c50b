//! The search for an equal binding, by its key; no other binding is examined.

ghost use Rattle.std.specs.Prelude.{◌≡◌};
ghost use Rattle.kob_prefix_tree.specs.Held.{serials_of, held};
ghost use Rattle.kob_authorizer.specs.Creation.{serial_of};
ghost use Rattle.kob_authorizer.specs.Index.{AreRising, is_equal, least_passing, passes_at};
ghost use Rattle.kob_authorizer.specs.Index.{IsIndex, key_place};

use crate::key::{SEPARATOR, keys_on, kind_in_tree};
use crate::look_up::entry_of;
use kob_names::Binding;
use kob_prefix_tree::PrefixTree;

/// The serial of the first entry with an equal binding.
pub fn serial_of(entries: &[(u64, Binding)], keys: &PrefixTree, binding: &Binding) -> Option<u64>
    requires rising { AreRising entries.now }
    requires indexed { IsIndex key_place keys.now entries.now }
    ensures { result ≡ serial_of entries.now binding.now }
{
    least_equal(entries, keys, binding)
}

/// The least serial in the tree at the binding's key, of those whose binding is equal.
#[tactic(auto, unfolding(crate::specs::Index::binding_key))]
fn least_equal(entries: &[(u64, Binding)], keys: &PrefixTree, binding: &Binding) -> Option<u64>
    requires { AreRising entries.now }
    ensures { result ≡ least_passing (is_equal binding.now) entries.now
        (serials_of (key_place binding.now).kind
        (held keys.now (key_place binding.now).key)) }
{
    let texts = binding.parts();
    let principal = texts.principal.as_str().as_bytes();
    let host = texts.host.as_str().as_bytes();
    let name = texts.pattern.name.as_str().as_bytes();
    let kind = kind_in_tree(texts.pattern.kind);
    keys_on(keys, texts.resource)
        .behind(principal, SEPARATOR)
        .behind(host, SEPARATOR)
        .listed(name, kind)
        .filter(|serial| is_equal_at(entries, *serial, binding))
        .min()
}

/// Whether the binding with this serial is equal.
#[tactic(auto, using(crate::proofs::Entries::passes_some, crate::proofs::Entries::passes_none))]
fn is_equal_at(entries: &[(u64, Binding)], serial: u64, binding: &Binding) -> bool
    requires { AreRising entries.now }
    ensures { result ≡ passes_at (is_equal binding.now) entries.now serial }
{
    match entry_of(entries, serial) {
        None => false,
        Some(entry) => entry.1.equals(binding),
    }
}
