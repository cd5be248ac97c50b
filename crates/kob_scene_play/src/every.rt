//! Events that are taken in as often as their records come.

ghost use Rattle.std.specs.Prelude.{◌≡◌, ◌++◌, [], IfOk, OnOk, flat_map, map};
ghost use Rattle.std.specs.List.{enumerate_from};
ghost use Rattle.kob_inbox.specs.Contents.{intake_of, placed_intake};
ghost use Rattle.kob_inbox.specs.Run.{place_at};
ghost use Rattle.kob_outbox.specs.Contents.{id_text};
ghost use Rattle.kob_scene_play.specs.Takings.{intake_at, intakes_by, intakes_heard};

use kob_inbox::InboxRow;
use kob_names::{PlainValue, Record};
use kob_rights::{Body, Fetch, Reply, Request};
use kob_router::{Call, event_id};
use std::alloc::{AllocError, Global};
use std::marker::Model;
use uuid::Uuid;

/// The events of records in the order in which they came, each as often as it came.
#[derive(Drop)]
pub(crate) struct Every {
    rows: Vec<InboxRow>,
}

impl Model for Every {
    ghost use Rattle.std.specs.Prelude.{◌≡◌, map};
    ghost use Rattle.std.specs.List.{enumerate_from};
    ghost use Rattle.kob_inbox.specs.Contents.{Contents, placed_intake};
    ghost use Rattle.kob_scene_play.specs.Takings.{row_intake};

    ghost Value = { Contents };

    ghost view = { λ every. map row_intake every.rows.items };

    ghost invariant = { λ every. map placed_intake every.rows.items
        ≡ enumerate_from 1 (map row_intake every.rows.items) };
}

impl Every {
    /// No events. Does not allocate.
    pub(crate) fn new(alloc: Global) -> Every
        ensures { result ≡ [] }
    {
        Every {
            rows: Vec::new(alloc),
        }
    }

    /// Equal rows, which are numbered from 1 on. The error is out of memory.
    pub(crate) fn rows(&self, alloc: Global) -> Result<Vec<InboxRow>, AllocError>
        ensures { IfOk result (λ rows. map placed_intake rows.items ≡ enumerate_from 1 self.now) }
    {
        copied(alloc, &self.rows)
    }

    /// Takes in each record with an event id that the calls brought.
    pub(crate) fn take_in(&mut self, alloc: Global, calls: &[Call]) -> Result<(), AllocError>
        ensures { OnOk result (self.new ≡ self.old ++ intakes_by calls.now) }
    {
        for call in calls {
            self.take_heard(alloc, &call.request, &call.heard)?;
        }
        Ok(())
    }

    fn take_heard(
        &mut self,
        alloc: Global,
        request: &Request,
        heard: &Option<Reply>,
    ) -> Result<(), AllocError>
        ensures { OnOk result (self.new ≡ self.old ++ intakes_heard request.now heard.now) }
    {
        match (request, heard) {
            (Request::Fetch(asked), Some(Reply::Done(Body::Records(records)))) => {
                self.take_records(alloc, asked, records.as_slice())
            }
            _ => Ok(()),
        }
    }

    fn take_records(
        &mut self,
        alloc: Global,
        asked: &Fetch,
        records: &[(u64, Record)],
    ) -> Result<(), AllocError>
        ensures { OnOk result (self.new ≡ self.old
            ++ flat_map (intake_at (place_at asked.now.topic asked.now.partition)) records.now) }
    {
        for (at, message) in records {
            self.push(alloc, asked, *at, message)?;
        }
        Ok(())
    }

    /// Takes in a record, if it has an event id.
    #[tactic(auto, using(crate::proofs::Taking::row_more, crate::proofs::Taking::event_more))]
    fn push(
        &mut self,
        alloc: Global,
        asked: &Fetch,
        at: u64,
        message: &Record,
    ) -> Result<(), AllocError>
        ensures { OnOk result (self.new ≡ self.old
            ++ intake_at (place_at asked.now.topic asked.now.partition) (at, message.now)) }
    {
        let Some(id) = event_id(message) else {
            return Ok(());
        };
        let place = self.rows.len() as u64 + 1;
        self.rows.reserve(1)?;
        let row = row_of(alloc, place, id, asked, at, message)?;
        self.rows.push_reserved(row);
        Ok(())
    }
}

/// The row of a record with this event id.
fn row_of(
    alloc: Global,
    place: u64,
    id: Uuid,
    asked: &Fetch,
    at: u64,
    message: &Record,
) -> Result<InboxRow, AllocError>
    ensures { IfOk result (λ row. placed_intake row ≡ (
      place,
      intake_of (id_text id) (record {
        place = place_at asked.now.topic asked.now.partition;
        offset = at;
        message = message.now;
      }),
    )) }
{
    let topic = asked.topic.copy(alloc)?;
    let key = message.key.copy(alloc)?;
    let value = message.value.copy(alloc)?;
    Ok(InboxRow {
        place,
        id,
        topic,
        partition: asked.partition,
        offset: at,
        key,
        value,
    })
}

fn copied(alloc: Global, rows: &[InboxRow]) -> Result<Vec<InboxRow>, AllocError>
    ensures { IfOk result (λ made. made.items ≡ rows.now) }
{
    let mut made = Vec::with_capacity(alloc, rows.len())?;
    for row in rows {
        made.push(row.copy(alloc)?)?;
    }
    Ok(made)
}
