//! The inbox.

ghost use Rattle.std.specs.Prelude.{◌≡◌, ◌⊎◌, ◌<◌, ◌≤◌, ◌^◌, None, Ok, [], map, IfErr, IfOk, OnErr};
ghost use Rattle.std.specs.Prelude.{alloc_error};
ghost use Rattle.std.specs.Prelude.{OnOk, IsErrOf};
ghost use Rattle.std.specs.List.{enumerate_from};
ghost use Rattle.kob_router.specs.Route.{event_id};
ghost use Rattle.kob_inbox.specs.Contents.{IsOnce, next_place, answer_to, with_record};
ghost use Rattle.kob_inbox.specs.Contents.{placed_intake};

use crate::fault::InboxFault;
use crate::inbox_row::InboxRow;
use crate::inbox_table::{insert_intake, select_taken};
use crate::origin::Origin;
use crate::rows::rows_of;
use kob_names::Record;
use kob_outbox::number;
use kob_router::event_id;
use sqlite::{Connection, MemStore};
use std::alloc::Global;
use std::marker::Model;
use uuid::Uuid;

/// The result of taking in a record.
#[derive(Clone, Copy, Debug, PartialEq, Eq)]
pub enum TakeIn {
    /// Its event id is new, and its event is the last in the inbox.
    Taken,
    /// Its event id is there already, in whatever form it was written. Nothing is written.
    Seen,
    /// Its first header named `id` is not a UUID, or it has none. Nothing is written.
    NoEventId,
}

/// A consumer's database in memory, which takes each event in once.
///
/// Contracts see the events in the order of their intake; the first is at place 1. Each call makes
/// all its changes or none. Calls that only read take `&mut self`, since the database reads through
/// a cache.
#[derive(Drop)]
pub struct Inbox {
    conn: Connection<MemStore>,
    alloc: Global,
    /// The last place that was used, or 0, as the table has it.
    last: u64,
}

impl Model for Inbox {
    ghost use Rattle.kob_inbox.specs.Contents.{Contents};
    ghost use Rattle.kob_inbox.specs.Database.{HasLast, contents};
    ghost use Rattle.kob_outbox.specs.Database.{database};

    ghost Value = { Contents };

    ghost view = { λ inbox. contents inbox.conn };

    ghost invariant = { λ inbox. HasLast inbox.last (database inbox.conn) };
}

impl Inbox {
    /// Makes the table, without rows.
    pub fn open_in_memory(alloc: Global) -> Result<Inbox, InboxFault>
        ensures { IfOk result (λ inbox. inbox ≡ []) }
    {
        let mut conn = Connection::open_in_memory(alloc).map_err(InboxFault::Memory)?;
        conn.execute(
            "CREATE TABLE inbox (place INTEGER PRIMARY KEY NOT NULL, id TEXT UNIQUE NOT NULL, topic TEXT NOT NULL, part INTEGER NOT NULL, off INTEGER NOT NULL, rkey BLOB, rvalue BLOB NOT NULL)",
            &[],
        )?;
        Ok(Inbox {
            conn,
            alloc,
            last: 0,
        })
    }

    /// Takes in the record at this offset of a partition.
    ///
    /// The event id is the value of the first header named `id`, in any form of a UUID. The table's
    /// unique id decides whether it is there already, so that the cost does not grow with the
    /// number of rows. If all 9,223,372,036,854,775,807 places are used, or the number of the
    /// partition is greater than that, the fault is `Store`.
    #[tactic(auto, using(crate::proofs::Intakes::stays, crate::proofs::Intakes::stays_seen, crate::proofs::Intakes::moves))]
    pub fn take_in(
        &mut self,
        topic: &str,
        partition: u64,
        offset: u64,
        message: &Record,
    ) -> Result<TakeIn, InboxFault>
        requires { offset < 2 ^ 63 }
        ensures answer { IfOk result (λ answer.
            answer ≡ answer_to self.old (event_id message.now)) }
        ensures ok { OnOk result (self.new ≡ with_record self.old (event_id message.now) (record {
          place = record { topic = topic.now; partition = partition };
          offset = offset;
          message = message.now;
        })) }
        ensures err { OnErr result (self.new ≡ self.old) }
        ensures without_id { event_id message.now ≡ None → result ≡ Ok TakeIn.NoEventId }
        ensures store { IsErrOf result InboxFault.Store
            → (answer_to self.old (event_id message.now) ≡ TakeIn.Taken)
            ⊎ ((next_place self.old ≡ 2 ^ 63) ⊎ (2 ^ 63 ≤ partition)) }
    {
        let Some(id) = event_id(message) else {
            return Ok(TakeIn::NoEventId);
        };
        if partition > i64::MAX as u64 {
            return Err(InboxFault::Store);
        }
        let mut buffer = Uuid::encode_buffer();
        let id = id.hyphenated().encode_lower(&mut buffer);
        if self.last >= i64::MAX as u64 {
            return Err(InboxFault::Store);
        }
        let next = self.last + 1;
        let origin = Origin {
            topic,
            partition,
            offset,
        };
        if insert_intake(&mut self.conn, &number(next), id, &origin, message)? == 0 {
            return Ok(TakeIn::Seen);
        }
        self.last = next;
        Ok(TakeIn::Taken)
    }

    /// All events, in the order of their intake. No event id comes twice.
    #[tactic(auto, using(crate::proofs::Reading::all_shown))]
    pub fn taken(&mut self) -> Result<Vec<InboxRow>, InboxFault>
        ensures rows { IfOk result (λ rows.
            map placed_intake rows.items ≡ enumerate_from 1 self.old) }
        ensures once { IsOnce self.old }
        ensures memory { IfErr result (λ f. f ≡ InboxFault.Memory alloc_error) }
        ensures same { self.new ≡ self.old }
    {
        rows_of(self.alloc, &select_taken(&mut self.conn)?)
    }
}
