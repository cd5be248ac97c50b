//! The first record of each event.

ghost use Rattle.std.specs.HashMap.{get};
ghost use Rattle.std.specs.Prelude.{◌≡◌, ℕ, IfOk, nat_eq, option_and_then};
ghost use Rattle.kob_topic_check.specs.Findings.{first_of, has_row};
ghost use Rattle.std.specs.HashSet.{contains};

use crate::record::Record;
use crate::row::Row;
use std::alloc::{AllocError, Global};
use std::collections::{HashMap, HashSet};

/// The first record of each event, by the event's id.
pub(crate) fn firsts_of(
    alloc: Global,
    records: &[Record],
) -> Result<HashMap<u128, Record>, AllocError>
    ensures { IfOk result (λ firsts. (id : ℕ) → get nat_eq firsts id ≡ first_of id records.now) }
{
    let mut firsts = HashMap::new(alloc);
    for record in records {
        let id = record.id.as_u128();
        if !firsts.contains_key(&id) {
            firsts.insert(id, *record)?;
        }
    }
    Ok(firsts)
}

pub(crate) fn first_of(firsts: &HashMap<u128, Record>, id: u128) -> Option<Record>
    ensures { result ≡ get nat_eq firsts.now id }
{
    match firsts.get(&id) {
        Some(first) => Some(*first),
        None => None,
    }
}

pub(crate) fn record_at(firsts: &HashMap<u128, Record>, event: Option<u128>) -> Option<Record>
    ensures { result ≡ option_and_then (get nat_eq firsts.now) event }
{
    first_of(firsts, event?)
}

/// The ids of rows.
pub(crate) fn ids_of(alloc: Global, rows: &[Row]) -> Result<HashSet<u128>, AllocError>
    ensures { IfOk result (λ ids. (id : ℕ) → contains nat_eq ids id ≡ has_row id rows.now) }
{
    let mut ids = HashSet::new(alloc);
    for row in rows {
        ids.insert(row.id.as_u128())?;
    }
    Ok(ids)
}
