//! The operations of options that are left out.

ghost use Rattle.std.specs.Prelude.{◌≡◌, IfOk, flat_map, map};
ghost use Rattle.kob_policy_text.specs.Options.{all_if_other, has_other_operation, has_others_alone};
ghost use Rattle.kob_policy_text.specs.Options.{left_out_principal, left_out_rule, own_alone};
ghost use Rattle.kob_script.specs.Words.{Gives};

use crate::item::Item;
use crate::listing::is_other_operation;
use crate::options::push_text;
use crate::users::OTHER_OPERATION;
use kob_acl_cli::CliArgs;
use kob_names::{Draft, Items, PlainValue, Principal, Text};
use kob_script::{LineError, principal_of};
use std::alloc::{AllocError, Global};

/// Whether some operation is left out.
pub fn has_other_operation(args: &CliArgs) -> bool
    ensures { result ≡ has_other_operation args.now }
{
    let words = args.operations.as_slice();
    words
        .iter()
        .any(|word| is_other_operation(word.as_str().as_bytes()))
}

/// Whether every operation is left out.
pub fn has_others_alone(args: &CliArgs) -> bool
    ensures { result ≡ has_others_alone args.now }
{
    let words = args.operations.as_slice();
    words
        .iter()
        .all(|word| is_other_operation(word.as_str().as_bytes()))
}

/// The operations that are not left out.
pub fn own_operations(alloc: Global, words: &Items<Text>) -> Result<Items<Text>, AllocError>
    ensures { IfOk result (λ own. own ≡ flat_map own_alone words.now) }
{
    let mut own = Vec::new(alloc);
    for word in words.as_slice() {
        if !is_other_operation(word.as_str().as_bytes()) {
            push_text(alloc, &mut own, word.as_str())?;
        }
    }
    Ok(Items::from_vec(own))
}

/// `All` for each operation that is left out.
pub fn others_as_all(alloc: Global, words: &Items<Text>) -> Result<Items<Text>, AllocError>
    ensures { IfOk result (λ others. others ≡ flat_map all_if_other words.now) }
{
    let mut others = Vec::new(alloc);
    for word in words.as_slice() {
        if is_other_operation(word.as_str().as_bytes()) {
            push_text(alloc, &mut others, "All")?;
        }
    }
    Ok(Items::from_vec(others))
}

/// The principal in place of one whose operation is left out.
#[tactic(auto, unfolding(crate::specs::Options::left_out_principal))]
pub fn left_out_principal(alloc: Global) -> Result<Principal, LineError>
    ensures { Gives result left_out_principal }
{
    principal_of(alloc, OTHER_OPERATION)
}

/// The bindings for the principal in place of their own.
pub fn left_out_rules(
    alloc: Global,
    principal: &Principal,
    drafts: Vec<Draft>,
) -> Result<Vec<Item>, AllocError>
    ensures { IfOk result (λ items. items.items
        ≡ map (left_out_rule principal.now) drafts.items) }
{
    let mut items = Vec::with_capacity(alloc, drafts.len())?;
    for mut draft in drafts {
        draft.principal = principal.copy(alloc)?;
        items.push(Item::Rule(draft))?;
    }
    Ok(items)
}
