//! Events read back from the rows of a query.

ghost use Rattle.std.specs.Prelude.{◌≡◌, map, IfOk, IfErr, alloc_error};
ghost use Rattle.std.specs.List.{AllByRecursion};
ghost use Rattle.kob_outbox.specs.Contents.{first_after, stored_row};
ghost use Rattle.kob_outbox.specs.Database.{IsService, contents, database};
ghost use Rattle.kob_outbox.specs.Layout.{IsShown, shown_event};

use crate::event::{OutboxEvent, Row};
use crate::fault::OutboxFault;
use crate::numbers::number;
use crate::outbox_table::select_after;
use sqlite::{Connection, MemStore};
use std::alloc::Global;
use uuid::Uuid;

#[tactic(auto, using(crate::proofs::statements::Plain::readable_fails))]
fn row_of(row: &sqlite::Row) -> Result<Row, OutboxFault>
    requires { IsShown row.now }
    ensures row { IfOk result (λ r. shown_event (stored_row r) ≡ row.now) }
    ensures memory { IfErr result (λ f. f ≡ OutboxFault.Memory alloc_error) }
{
    let id: String = row.get(1)?;
    let payload: Vec<u8> = row.get(5)?;
    Ok(Row {
        seq: row.get(0)?,
        event: OutboxEvent {
            id: Uuid::parse_str(&id).map_err(|_| OutboxFault::Store)?,
            aggregate_type: row.get(2)?,
            aggregate_id: row.get(3)?,
            event_type: row.get(4)?,
            // (the bytes are those of a text that was recorded; a check reads each of them)
            payload: unsafe { String::from_utf8_unchecked(payload) },
        },
    })
}

/// The events in the rows, in their order.
fn rows_of(alloc: Global, rows: &[sqlite::Row]) -> Result<Vec<Row>, OutboxFault>
    requires { AllByRecursion IsShown rows.now }
    ensures rows { IfOk result (λ out. map (λ r. shown_event (stored_row r)) out.items ≡ rows.now) }
    ensures memory { IfErr result (λ f. f ≡ OutboxFault.Memory alloc_error) }
{
    let mut out = Vec::new(alloc);
    for row in rows {
        let row = row_of(row)?;
        out.push(row)
            .map_err(|failed| OutboxFault::Memory(failed.into()))?;
    }
    Ok(out)
}

/// The first events after this number.
pub(crate) fn rows_after(
    conn: &mut Connection<MemStore>,
    alloc: Global,
    seq: u64,
    limit: u32,
) -> Result<Vec<Row>, OutboxFault>
    requires { IsService (database conn.old) }
    ensures rows { IfOk result (λ rows.
        map stored_row rows.items ≡ first_after seq limit (contents conn.old).events) }
    ensures memory { IfErr result (λ f. f ≡ OutboxFault.Memory alloc_error) }
    ensures service { IsService (database conn.new) }
    ensures same { contents conn.new ≡ contents conn.old }
{
    // No event has a number that the database could not hold.
    let seq = number(seq.min(i64::MAX as u64));
    rows_of(alloc, &select_after(conn, &seq, &number(limit as u64))?)
}
