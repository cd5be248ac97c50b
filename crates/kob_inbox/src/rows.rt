//! Events read back from the rows of a query.

ghost use Rattle.std.specs.Prelude.{◌≡◌, map, IfOk, IfErr, alloc_error};
ghost use Rattle.std.specs.List.{AllByRecursion};
ghost use Rattle.kob_inbox.specs.Database.{IsShown, shown_intake};
ghost use Rattle.kob_inbox.specs.Contents.{placed_intake};

use crate::fault::InboxFault;
use crate::inbox_row::InboxRow;
use kob_names::{Bytes, Text};
use std::alloc::Global;
use uuid::Uuid;

fn row_of(row: &sqlite::Row) -> Result<InboxRow, InboxFault>
    requires { IsShown row.now }
    ensures row { IfOk result (λ r. shown_intake (placed_intake r) ≡ row.now) }
    ensures memory { IfErr result (λ f. f ≡ InboxFault.Memory alloc_error) }
{
    let place: u64 = row.get(0)?;
    let partition: u64 = row.get(3)?;
    let offset: u64 = row.get(4)?;
    let text: String = row.get(1)?;
    let parsed = Uuid::parse_str(&text);
    drop(text);
    let id = parsed.map_err(|_| InboxFault::Store)?;
    let topic: String = row.get(2)?;
    let key: Option<Vec<u8>> = match row.get(5) {
        Ok(key) => key,
        Err(error) => {
            drop(topic);
            return Err(InboxFault::from(error));
        }
    };
    let value: Vec<u8> = match row.get(6) {
        Ok(value) => value,
        Err(error) => {
            drop(topic);
            drop(key);
            return Err(InboxFault::from(error));
        }
    };
    Ok(InboxRow {
        place,
        id,
        topic: Text::from_string(topic),
        partition,
        offset,
        key: key.map(Bytes::from_vec),
        value: Bytes::from_vec(value),
    })
}

/// The events in the rows, in their order.
pub(crate) fn rows_of(alloc: Global, rows: &[sqlite::Row]) -> Result<Vec<InboxRow>, InboxFault>
    requires { AllByRecursion IsShown rows.now }
    ensures rows { IfOk result (λ out.
        map (λ r. shown_intake (placed_intake r)) out.items ≡ rows.now) }
    ensures memory { IfErr result (λ f. f ≡ InboxFault.Memory alloc_error) }
{
    let mut out = Vec::new(alloc);
    for row in rows {
        let row = row_of(row)?;
        out.push(row)
            .map_err(|failed| InboxFault::Memory(failed.into()))?;
    }
    Ok(out)
}
