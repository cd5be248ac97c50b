//! Rows of the accesses that a broker recorded, and of the bindings that decide none.

ghost use Rattle.std.specs.Prelude.{◌≡◌, ◌++◌, OnOk, flat_map, nat_eq};
ghost use Rattle.std.specs.HashSet.{contains};
ghost use Rattle.kob_policy_rows.specs.Logs.{idle_in, idle_row, otherwise_rows};
ghost use Rattle.kob_policy_text.specs.Numbered.{numbered};
ghost use Rattle.kob_policy_text.specs.Policy.{serials_of};

use crate::bound::push_at;
use crate::cell::{Cell, push_flag, push_number, push_row, push_words};
use crate::granted::push_right;
use crate::verdict::push_verdict;
use kob_names::Items;
use kob_policy_text::{Entry, Judge, deciders, is_otherwise, verdict_on};
use std::alloc::{AllocError, Global};
use std::collections::HashSet;

/// The accesses that the rules decide otherwise than the broker did.
#[tactic(auto, using(kob_words::proofs::Appending::appending), unfolding(crate::specs::Logs::entry_row, crate::specs::Logs::recorded_cells))]
pub fn push_otherwise(
    alloc: Global,
    rows: &mut Vec<Items<Cell>>,
    judge: &Judge,
    accesses: &[Entry],
) -> Result<(), AllocError>
    ensures { OnOk result
        (rows.new.items ≡ rows.old.items ++ otherwise_rows judge.now accesses.now) }
{
    for entry in accesses {
        if !is_otherwise(judge, entry) {
            continue;
        }
        let mut row = Vec::new(alloc);
        let recorded = &entry.recorded;
        push_number(&mut row, entry.line)?;
        push_words(alloc, &mut row, recorded.asker.principal.as_str())?;
        push_words(alloc, &mut row, recorded.asker.host.as_str())?;
        push_right(alloc, &mut row, &recorded.right)?;
        push_flag(&mut row, recorded.allowed)?;
        push_verdict(alloc, &mut row, judge, verdict_on(judge, entry))?;
        push_row(rows, row)?;
    }
    Ok(())
}

fn push_idle_rows(
    alloc: Global,
    rows: &mut Vec<Items<Cell>>,
    judge: &Judge,
    set: &HashSet<u64>,
) -> Result<(), AllocError>
    ensures { OnOk result (rows.new.items ≡ rows.old.items
        ++ numbered (idle_row judge.now (contains nat_eq set.now)) 0 (serials_of judge.now)) }
{
    let serials = judge.serials();
    for (place, serial) in serials.iter().enumerate() {
        if set.contains(serial) {
            continue;
        }
        push_at(alloc, rows, judge, None, place)?;
    }
    Ok(())
}

/// The bindings that decide none of the accesses.
pub fn push_idle_in(
    alloc: Global,
    rows: &mut Vec<Items<Cell>>,
    judge: &Judge,
    accesses: &[Entry],
) -> Result<(), AllocError>
    ensures { OnOk result (rows.new.items ≡ rows.old.items ++ idle_in judge.now accesses.now) }
{
    let set = deciders(alloc, judge, accesses)?;
    push_idle_rows(alloc, rows, judge, &set)
}
