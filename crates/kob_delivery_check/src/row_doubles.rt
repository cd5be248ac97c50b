//! Rows of an inbox whose event has an earlier row.

ghost use Rattle.std.specs.Prelude.{◌≡◌, ◌==◌, ◌++◌, IfOk, OnOk};
ghost use Rattle.std.specs.List.{find};
ghost use Rattle.std.specs.Option.{option_copied};
ghost use Rattle.kob_delivery_check.specs.Doubles.{double_by, doubled_rows, doubles_in, first_of};

use crate::come::{Arrival, arrival_at, row_arrivals};
use kob_inbox::InboxRow;
use std::alloc::{AllocError, Global};
use std::collections::HashSet;

/// A row of an inbox whose event has an earlier row.
#[derive(Clone, Copy, Debug)]
pub struct DoubledRow {
    /// The place of the row.
    pub at: u64,
    pub event: u128,
    /// The place of the first row of the event.
    pub first: u64,
}

/// The rows of an inbox whose event has an earlier row, in their order. An inbox that takes each
/// event id in once has none. The error is out of memory.
pub fn doubled_rows(alloc: Global, rows: &[InboxRow]) -> Result<Vec<DoubledRow>, AllocError>
    ensures { IfOk result (λ doubled. doubled.items ≡ doubled_rows rows.now) }
{
    let arrivals = row_arrivals(alloc, rows)?;
    doubles_in(alloc, &arrivals)
}

/// The arrivals whose event came before.
fn doubles_in(alloc: Global, arrivals: &[Arrival]) -> Result<Vec<DoubledRow>, AllocError>
    ensures { IfOk result (λ doubled. doubled.items ≡ doubles_in arrivals.now) }
{
    let mut come = HashSet::new(alloc);
    let mut doubled = Vec::new(alloc);
    for place in 0..arrivals.len() {
        let arrival = arrival_at(arrivals, place);
        push_if(
            &mut doubled,
            come.contains(&arrival.event),
            arrival,
            arrivals,
        )?;
        come.insert(arrival.event)?;
    }
    Ok(doubled)
}

fn push_if(
    doubled: &mut Vec<DoubledRow>,
    has_come: bool,
    arrival: Arrival,
    arrivals: &[Arrival],
) -> Result<(), AllocError>
    ensures { OnOk result (doubled.new.items
        ≡ doubled.old.items ++ double_by has_come arrival (first_of arrival.event arrivals.now)) }
{
    if !has_come {
        return Ok(());
    }
    let Some(first) = first_of(arrivals, arrival.event) else {
        return Ok(());
    };
    doubled.push(DoubledRow {
        at: arrival.at,
        event: arrival.event,
        first: first.at,
    })?;
    Ok(())
}

/// The first arrival of an event.
fn first_of(arrivals: &[Arrival], event: u128) -> Option<&Arrival>
    ensures { option_copied result ≡ first_of event arrivals.now }
{
    arrivals.iter().find(|arrival| arrival.event == event)
}
