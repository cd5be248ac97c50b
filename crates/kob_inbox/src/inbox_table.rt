//! The one table of an inbox: the SQL that reads and writes it.

ghost use Rattle.std.specs.Prelude.{◌≡◌, ◌≢◌, ◌<◌, ◌^◌, pos, map, false, IsTrue};
ghost use Rattle.std.specs.Prelude.{IfOk, IfErr, OnOk, OnErr};
ghost use Rattle.std.specs.List.{enumerate_from};
ghost use Rattle.sqlite.specs.declared.types.Value.TheVariants.{Int};
ghost use Rattle.kob_outbox.specs.Database.{database};
ghost use Rattle.kob_inbox.specs.Contents.{next_place, intake_of, is_there, with_intake};
ghost use Rattle.kob_inbox.specs.Contents.{arrival_from};
ghost use Rattle.kob_inbox.specs.Database.{IsInbox, contents, IsReadable, shown_intake};

use crate::origin::Origin;
use kob_names::Record;
use kob_outbox::number;
use sqlite::types::Value;
use sqlite::{Connection, Error, ErrorCode, MemStore, Row, params};

/// Adds an event at the next place. Returns 0 if its id is there already.
pub(crate) fn insert_intake<'a>(
    conn: &mut Connection<MemStore>,
    place: &'a Value,
    id: &'a str,
    origin: &'a Origin<'a>,
    message: &'a Record,
) -> Result<usize, Error>
    requires inbox { IsInbox (database conn.old) }
    requires place { place.now ≡ Int (pos (next_place (contents conn.old))) }
    requires room { next_place (contents conn.old) < 2 ^ 63 }
    requires readable { IsReadable (intake_of id.now (arrival_from origin.now message.now)) }
    ensures inbox { IsInbox (database conn.new) }
    ensures ok { OnOk result (contents conn.new ≡ with_intake (contents conn.old)
        (intake_of id.now (arrival_from origin.now message.now))) }
    ensures seen { IfOk result (λ count. count ≡ 0 → IsTrue (is_there (contents conn.old) id.now)) }
    ensures fresh { IfOk result (λ count. count ≢ 0 → is_there (contents conn.old) id.now ≡ false) }
    ensures err { OnErr result (contents conn.new ≡ contents conn.old) }
    ensures again { IfErr result (λ e. IsTrue (is_there (contents conn.old) id.now)
        → e ≡ Error.SqliteFailure ErrorCode.OutOfMemory) }
{
    let partition = number(origin.partition);
    let offset = number(origin.offset);
    let key = message.key.as_ref().map(|key| key.as_slice());
    let value = message.value.as_slice();
    conn.execute(
        "INSERT OR IGNORE INTO inbox (place, id, topic, part, off, rkey, rvalue) VALUES (?1, ?2, ?3, ?4, ?5, ?6, ?7)",
        params![place, id, origin.topic, &partition, &offset, key, value,],
    )
}

/// All events, in the order of their places.
pub(crate) fn select_taken(conn: &mut Connection<MemStore>) -> Result<Vec<Row>, Error>
    requires { IsInbox (database conn.old) }
    ensures rows { IfOk result (λ rows.
        rows.items ≡ map shown_intake (enumerate_from 1 (contents conn.old))) }
    ensures memory { IfErr result (λ e. e ≡ Error.SqliteFailure ErrorCode.OutOfMemory) }
    ensures inbox { IsInbox (database conn.new) }
    ensures same { contents conn.new ≡ contents conn.old }
{
    conn.query_all(
        "SELECT place, id, topic, part, off, rkey, rvalue FROM inbox ORDER BY place",
        &[],
    )
}
