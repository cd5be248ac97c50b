//! The bindings and the hosts that count on some names.

ghost use Rattle.std.specs.Prelude.{◌≡◌, ◌++◌, ◌∷◌, [], IfOk, OnOk, filter, fold, if◌then◌else◌};
ghost use Rattle.kob_policy_review.specs.Classes.{hosts_named, with_host};
ghost use Rattle.kob_policy_review.specs.Classes.{is_for, is_on, is_party};
ghost use Rattle.std.specs.List.{list_any};

use crate::class::{Target, covers_party, is_on};
use kob_names::{Binding, Operation, PlainValue, Text};
use std::alloc::{AllocError, Global};

/// Each operation that a request may ask for.
pub static OPERATIONS: [Operation; 10] = [
    Operation::Read,
    Operation::Write,
    Operation::Create,
    Operation::Delete,
    Operation::Alter,
    Operation::Describe,
    Operation::ClusterAction,
    Operation::DescribeConfigs,
    Operation::AlterConfigs,
    Operation::IdempotentWrite,
];

/// Copies of the entries whose patterns match the names.
#[tactic(auto, using(std::proofs::lemmas::List::Elements::filter_more))]
pub fn matching(
    alloc: Global,
    entries: &[(u64, Binding)],
    target: &Target,
) -> Result<Vec<(u64, Binding)>, AllocError>
    ensures { IfOk result (λ made. made.items ≡ filter (is_on target.now) entries.now) }
{
    let mut made = Vec::new(alloc);
    for entry in entries {
        push_if(alloc, &mut made, entry, is_on(target, entry))?;
    }
    Ok(made)
}

/// A copy of the entry is put last, if it is wanted.
pub fn push_if(
    alloc: Global,
    made: &mut Vec<(u64, Binding)>,
    entry: &(u64, Binding),
    wanted: bool,
) -> Result<(), AllocError>
    ensures { OnOk result (made.new.items ≡ made.old.items
        ++ (if wanted then entry.now ∷ [] else [])) }
{
    if wanted {
        made.push(entry.copy(alloc)?)?;
    }
    Ok(())
}

/// Copies of the entries that cover the principal.
#[tactic(auto, using(std::proofs::lemmas::List::Elements::filter_more))]
pub fn asking(
    alloc: Global,
    entries: &[(u64, Binding)],
    principal: &Option<Text>,
) -> Result<Vec<(u64, Binding)>, AllocError>
    ensures { IfOk result (λ made. made.items ≡ filter (is_for principal.now) entries.now) }
{
    let mut made = Vec::new(alloc);
    for entry in entries {
        let wanted = covers_party("User:*", entry.1.parts().principal.as_str(), principal);
        push_if(alloc, &mut made, entry, wanted)?;
    }
    Ok(made)
}

fn is_among(parties: &[Option<Text>], text: &str) -> bool
    ensures { result ≡ list_any (is_party text.now) parties.now }
{
    parties.iter().any(|party| match party {
        Some(party) => text == party.as_str(),
        None => false,
    })
}

#[tactic(auto, unfolding(crate::specs::Classes::with_host))]
fn add_host(
    alloc: Global,
    made: &mut Vec<Option<Text>>,
    entry: &(u64, Binding),
) -> Result<(), AllocError>
    ensures { OnOk result (made.new.items ≡ with_host made.old.items entry.now) }
{
    let host = entry.1.parts().host.as_str();
    if !is_among(made, host) {
        made.push(Some(Text::copied(alloc, host)?))?;
    }
    Ok(())
}

/// The hosts that the bindings name, each once, after all others.
pub fn hosts_of(alloc: Global, entries: &[(u64, Binding)]) -> Result<Vec<Option<Text>>, AllocError>
    ensures { IfOk result (λ made. made.items ≡ hosts_named entries.now) }
{
    let mut made = Vec::new(alloc);
    made.push(None)?;
    add_hosts(alloc, &mut made, entries)?;
    Ok(made)
}

/// Adds the hosts that the bindings name.
#[tactic(auto, using(std::proofs::lemmas::List::Sums::fold_more))]
pub fn add_hosts(
    alloc: Global,
    made: &mut Vec<Option<Text>>,
    entries: &[(u64, Binding)],
) -> Result<(), AllocError>
    ensures { OnOk result (made.new.items ≡ fold with_host made.old.items entries.now) }
{
    for entry in entries {
        add_host(alloc, made, entry)?;
    }
    Ok(())
}
