//! The settings of a broker.

ghost use Rattle.std.specs.Prelude.{◌≡◌, ◌∷◌, [], IfOk, Ok, map};
ghost use Rattle.kob_policy_text.specs.Lines.{between_semicolons, has_key_bytes};
ghost use Rattle.kob_policy_text.specs.Lines.{is_other_property, is_property};
ghost use Rattle.kob_policy_text.specs.Lines.{property_items, super_item};
ghost use Rattle.kob_policy_text.specs.Listing.{first_parts, trimmed};
ghost use Rattle.kob_script.specs.Words.{Gives, GivesSeen, each};

use crate::item::{Item, LeftOut};
use crate::pieces::{around_first, first_parts, trimmed};
use crate::users::{OTHER_PRINCIPAL, user_in};
use kob_script::{FaultKind, LineError};
use std::alloc::{AllocError, Global};

pub fn one(alloc: Global, item: Item) -> Result<Vec<Item>, LineError>
    ensures { GivesSeen (λ items. items.items) result (Ok (item ∷ [])) }
{
    Ok(Vec::from_array(alloc, [item])?)
}

#[tactic(auto, unfolding(crate::specs::Lines::super_item))]
pub fn super_item(alloc: Global, bytes: &[u8]) -> Result<Item, LineError>
    ensures { Gives result (super_item bytes.now) }
{
    let user = user_in(alloc, bytes)?;
    if user.as_str() == OTHER_PRINCIPAL {
        return Ok(Item::LeftOut(LeftOut::Principal));
    }
    Ok(Item::Super(user))
}

fn between_semicolons(alloc: Global, value: &[u8]) -> Result<Vec<&[u8]>, AllocError>
    ensures { IfOk result (λ parts. map (λ part. part.now) parts.items
        ≡ between_semicolons value.now) }
{
    value
        .split(|byte| *byte == b';')
        .filter(|part| !part.is_empty())
        .collect(alloc)
}

/// The super users between semicolons.
fn super_items(alloc: Global, parts: &[&[u8]]) -> Result<Vec<Item>, LineError>
    ensures { GivesSeen (λ items. items.items) result
        (each (λ part. super_item (trimmed part)) (map (λ part. part.now) parts.now)) }
{
    let mut items = Vec::with_capacity(alloc, parts.len())?;
    for part in parts {
        let item = super_item(alloc, trimmed(part))?;
        items.push(item)?;
    }
    Ok(items)
}

#[tactic(auto, unfolding(crate::specs::Lines::property_items))]
pub fn property_items(alloc: Global, line: &[u8]) -> Result<Vec<Item>, LineError>
    ensures { GivesSeen (λ items. items.items) result (property_items line.now) }
{
    let (key, value) = around_first(line, b"=")?;
    let (key, value) = (trimmed(key), trimmed(value));
    if key == b"super.users".as_slice() {
        let parts = between_semicolons(alloc, value)?;
        super_items(alloc, &parts)
    } else if key != b"allow.everyone.if.no.acl.found".as_slice() {
        Err(LineError::Fault(FaultKind::BadLine))
    } else if value.eq_ignore_ascii_case(b"true") {
        one(alloc, Item::Everyone(true))
    } else if value.eq_ignore_ascii_case(b"false") {
        one(alloc, Item::Everyone(false))
    } else {
        Err(LineError::Fault(FaultKind::BadWord))
    }
}

pub fn is_property(line: &[u8]) -> bool
    ensures { result ≡ is_property line.now }
{
    line.starts_with(b"super.users") || line.starts_with(b"allow.everyone.if.no.acl.found")
}

fn has_key_bytes(key: &[u8]) -> bool
    ensures { result ≡ has_key_bytes key.now }
{
    key.iter().all(|byte| byte.is_ascii_alphanumeric()
        || *byte == b'.'
        || *byte == b'_'
        || *byte == b'-')
}

/// Whether the line is a setting of a broker that says nothing of rules.
pub fn is_other_property(line: &[u8]) -> bool
    ensures { result ≡ is_other_property line.now }
{
    if is_property(line) {
        return false;
    }
    match first_parts(line, b"=") {
        None => false,
        Some((key, _)) => {
            let key = trimmed(key);
            !key.is_empty() && has_key_bytes(key)
        }
    }
}
