//! Bindings in seven parts: rows of a table, and objects of JSON.

ghost use Rattle.std.specs.Prelude.{◌≡◌};
ghost use Rattle.json.specs.Find.{get};
ghost use Rattle.json.specs.Value.{value_view};
ghost use Rattle.kob_policy_text.specs.Rows.{grant_in, is_columns};
ghost use Rattle.kob_policy_text.specs.Rows.{is_row, is_tabular, member_in};
ghost use Rattle.kob_policy_text.specs.Rows.{object_item, row_item, row_of};
ghost use Rattle.kob_policy_text.specs.Rows.{tabular_item, target_in};
ghost use Rattle.kob_script.specs.Words.{Gives, GivesSeen};

use crate::cells::cells_in;
use crate::item::Item;
use crate::listing::{GrantWords, TargetWords, grant_of, target_of};
use crate::pieces::{first_parts, holds_mark};
use crate::users::text_in;
use json::{Error, Scratch, Value};
use kob_script::{FaultKind, LineError};
use std::alloc::{AllocError, Global};

/// Whether the line is the row above others.
fn is_columns(line: &[u8]) -> bool
    ensures { result ≡ is_columns line.now }
{
    line.eq_ignore_ascii_case(
        b"permission,principal,host,operation,resource_type,pattern_type,name",
    )
}

/// Whether the line begins with a permission and a comma.
fn is_row(line: &[u8]) -> bool
    ensures { result ≡ is_row line.now }
{
    match first_parts(line, b",") {
        None => false,
        Some((cell, _)) => {
            cell.eq_ignore_ascii_case(b"ALLOW")
                || cell.eq_ignore_ascii_case(b"DENY")
                || cell.eq_ignore_ascii_case(b"\"ALLOW\"")
                || cell.eq_ignore_ascii_case(b"\"DENY\"")
        }
    }
}

/// Whether the line is a row or an object.
pub fn is_tabular(line: &[u8]) -> bool
    ensures { result ≡ is_tabular line.now }
{
    is_columns(line)
        || is_row(line)
        || line.starts_with(b"{") && holds_mark(line, b"\"resource_type\"")
}

/// What a row or an object says; `None` is the row above others.
pub fn tabular_item(alloc: Global, line: &[u8]) -> Result<Option<Item>, LineError>
    ensures { Gives result (tabular_item line.now) }
{
    if is_columns(line) {
        Ok(None)
    } else if is_row(line) {
        Ok(Some(row_item(alloc, line)?))
    } else {
        Ok(Some(object_item(alloc, line)?))
    }
}

fn row_of(alloc: Global, on: &TargetWords<'_>, words: &GrantWords<'_>) -> Result<Item, LineError>
    ensures { Gives result (row_of on.now words.now) }
{
    let grant = grant_of(alloc, words)?;
    let target = target_of(alloc, on)?;
    Ok(Item::Row(target, grant))
}

/// `PERMISSION,PRINCIPAL,HOST,OPERATION,RESOURCE,PATTERN,NAME`
#[tactic(auto, unfolding(crate::specs::Rows::row_item))]
fn row_item(alloc: Global, line: &[u8]) -> Result<Item, LineError>
    ensures { Gives result (row_item line.now) }
{
    let cells = cells_in(alloc, line)?;
    let [
        permission,
        principal,
        host,
        operation,
        resource,
        pattern,
        name,
    ] = cells.as_slice()
    else {
        return Err(LineError::Fault(FaultKind::BadLine));
    };
    let on = TargetWords {
        resource: resource.as_slice(),
        pattern: pattern.as_slice(),
        name: name.as_slice(),
    };
    let words = GrantWords {
        principal: principal.as_slice(),
        host: host.as_slice(),
        operation: operation.as_slice(),
        permission: permission.as_slice(),
    };
    row_of(alloc, &on, &words)
}

/// The text of a member. The fault is `BadWord`.
fn member_in<'a>(object: &Value<'a>, name: &str) -> Result<&'a [u8], LineError>
    ensures { GivesSeen (λ text. text.now) result
        (member_in name.now (value_view object.now)) }
{
    match object.get(name).and_then(Value::as_str) {
        Some(text) => Ok(text.as_bytes()),
        None => Err(LineError::Fault(FaultKind::BadWord)),
    }
}

#[tactic(auto, unfolding(crate::specs::Rows::grant_in))]
fn grant_in<'a>(object: &Value<'a>) -> Result<GrantWords<'a>, LineError>
    ensures { Gives result (grant_in (value_view object.now)) }
{
    let permission = member_in(object, "permission")?;
    let principal = member_in(object, "principal")?;
    let host = match object.get("host") {
        Some(_) => member_in(object, "host")?,
        None => b"*",
    };
    let operation = member_in(object, "operation")?;
    Ok(GrantWords {
        principal,
        host,
        operation,
        permission,
    })
}

#[tactic(auto, unfolding(crate::specs::Rows::target_in))]
fn target_in<'a>(object: &Value<'a>) -> Result<TargetWords<'a>, LineError>
    ensures { Gives result (target_in (value_view object.now)) }
{
    let resource = member_in(object, "resource_type")?;
    let pattern = member_in(object, "pattern_type")?;
    let name = member_in(object, "resource_name")?;
    Ok(TargetWords {
        resource,
        pattern,
        name,
    })
}

/// An object of JSON whose members name the parts. Of members of one name the last counts.
#[tactic(auto, unfolding(crate::specs::Rows::object_by, crate::specs::Rows::object_item))]
fn object_item(alloc: Global, line: &[u8]) -> Result<Item, LineError>
    ensures { Gives result (object_item line.now) }
{
    let text = text_in(line)?;
    let mut scratch = Scratch::new(alloc);
    let object = match Value::parse(alloc, text, &mut scratch) {
        Ok(object) => object,
        Err(Error::OutOfMemory) => return Err(LineError::Memory(AllocError)),
        Err(Error::Invalid | Error::TooLong | Error::DuplicateKey) => {
            return Err(LineError::Fault(FaultKind::BadLine));
        }
    };
    let words = grant_in(&object)?;
    let on = target_in(&object)?;
    row_of(alloc, &on, &words)
}
