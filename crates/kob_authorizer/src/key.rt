//! The keys of bindings, by which an equal one, and those of a principal at a host, are looked up.

ghost use Rattle.std.specs.Prelude.{◌≡◌, IfOk, OnOk};
ghost use Rattle.kob_prefix_tree.specs.Contents.{part_of};
ghost use Rattle.kob_prefix_tree.specs.Held.{held};
ghost use Rattle.kob_authorizer.specs.Index.{binding_key, kind_byte, kind_in_tree, keys_on};

use kob_names::{Binding, PatternKind, ResourceKind, sum_of};
use kob_prefix_tree::{Part, PrefixTree};
use std::alloc::{AllocError, Global};

/// The separator between the texts of a key, a byte that UTF-8 never has.
pub const SEPARATOR: u8 = 255;

/// The byte of the kind of resource, and principal, host and name, with the separator between them.
///
/// No other kind, principal, host and name make the same key. A binding is in the list of its
/// pattern's kind. So the bindings of one list differ in permission or operation, and there are at
/// most 22.
pub fn binding_key(alloc: Global, binding: &Binding) -> Result<Vec<u8>, AllocError>
    ensures { IfOk result (λ key. key.items ≡ binding_key binding.now) }
{
    let mut key = Vec::new(alloc);
    write_key(&mut key, binding)?;
    Ok(key)
}

/// Writes the key of the binding in place of what was there.
#[tactic(auto, unfolding(crate::specs::Index::binding_key), using(crate::proofs::IndexSteps::in_turn))]
pub fn write_key(key: &mut Vec<u8>, binding: &Binding) -> Result<(), AllocError>
    ensures { OnOk result (key.new.items ≡ binding_key binding.now) }
{
    let binding = binding.parts();
    let principal = binding.principal.as_str().as_bytes();
    let host = binding.host.as_str().as_bytes();
    let name = binding.pattern.name.as_str().as_bytes();
    let texts = sum_of(sum_of(principal.len(), host.len())?, name.len())?;
    key.clear();
    key.reserve(sum_of(texts, 3)?)?;
    key.push(kind_byte(binding.resource))?;
    key.extend_from_slice(principal)?;
    key.push(SEPARATOR)?;
    key.extend_from_slice(host)?;
    key.push(SEPARATOR)?;
    key.extend_from_slice(name)?;
    Ok(())
}

/// The byte of a kind of resource, with which the keys of the bindings on it begin.
pub fn kind_byte(resource: ResourceKind) -> u8
    ensures { result ≡ kind_byte resource }
{
    match resource {
        ResourceKind::Topic => 0,
        ResourceKind::Group => 1,
        ResourceKind::Cluster => 2,
        ResourceKind::TransactionalId => 3,
    }
}

/// The keys of the bindings on one kind of resource.
pub fn keys_on(keys: &PrefixTree, resource: ResourceKind) -> Part<'_>
    ensures { part_of result ≡ keys_on resource (held keys.now) }
{
    keys.behind("".as_bytes(), kind_byte(resource))
}

/// The list of a tree for this kind of pattern.
pub fn kind_in_tree(kind: PatternKind) -> kob_prefix_tree::PatternKind
    ensures { result ≡ kind_in_tree kind }
{
    match kind {
        PatternKind::Literal => kob_prefix_tree::PatternKind::Literal,
        PatternKind::Prefixed => kob_prefix_tree::PatternKind::Prefixed,
    }
}
