//! Events of aggregates, and the rows that hold them.

ghost use Rattle.std.specs.Prelude.{◌≡◌, IfOk, string_bytes};
ghost use Rattle.kob_outbox.specs.Contents.{id_text, stored_event};

use crate::change::Change;
use std::alloc::{AllocError, Global};
use uuid::Uuid;

/// An event of an aggregate, with the columns that Debezium's outbox event router reads.
///
/// Each text has up to 255 bytes, the payload up to 1,048,576, and none has a zero byte. The
/// payload is opaque text.
#[derive(Debug, Drop)]
pub struct OutboxEvent {
    pub id: Uuid,
    pub aggregate_type: String,
    pub aggregate_id: String,
    pub event_type: String,
    pub payload: String,
}

/// A row of the outbox: an event with its number.
#[derive(Debug, Drop)]
pub struct Row {
    /// From 1 to 9,223,372,036,854,775,807.
    pub seq: u64,
    pub event: OutboxEvent,
}

impl OutboxEvent {
    /// The event of a change: its aggregate's type and id are the kind and the id of the business
    /// row, and its type is the row's new state. The error is out of memory.
    pub fn of(
        alloc: Global,
        id: Uuid,
        change: &Change,
        payload: &str,
    ) -> Result<OutboxEvent, AllocError>
        ensures { IfOk result (λ made. stored_event 0 made ≡ record {
          seq = 0;
          id = id_text id;
          aggregate_type = string_bytes change.now.kind;
          aggregate_id = string_bytes change.now.id;
          event_type = string_bytes change.now.state;
          payload = payload.now;
        }) }
    {
        let aggregate_type = String::from_str(alloc, change.kind.as_str())?;
        let aggregate_id = String::from_str(alloc, change.id.as_str())?;
        let event_type = String::from_str(alloc, change.state.as_str())?;
        let payload = String::from_str(alloc, payload)?;
        Ok(OutboxEvent {
            id,
            aggregate_type,
            aggregate_id,
            event_type,
            payload,
        })
    }

    /// An event with the same id and texts. The error is out of memory.
    pub fn copy(&self, alloc: Global) -> Result<OutboxEvent, AllocError>
        ensures id { IfOk result (λ made. made.id ≡ self.now.id) }
        ensures stored { IfOk result (λ made. stored_event 0 made ≡ stored_event 0 self.now) }
    {
        let aggregate_type = String::from_str(alloc, self.aggregate_type.as_str())?;
        let aggregate_id = String::from_str(alloc, self.aggregate_id.as_str())?;
        let event_type = String::from_str(alloc, self.event_type.as_str())?;
        let payload = String::from_str(alloc, self.payload.as_str())?;
        Ok(OutboxEvent {
            id: self.id,
            aggregate_type,
            aggregate_id,
            event_type,
            payload,
        })
    }
}

impl Row {
    /// A row with the same number and an equal event. The error is out of memory.
    pub fn copy(&self, alloc: Global) -> Result<Row, AllocError>
        ensures seq { IfOk result (λ made. made.seq ≡ self.now.seq) }
        ensures id { IfOk result (λ made. made.event.id ≡ self.now.event.id) }
        ensures event { IfOk result
            (λ made. stored_event 0 made.event ≡ stored_event 0 self.now.event) }
    {
        let event = self.event.copy(alloc)?;
        Ok(Row {
            seq: self.seq,
            event,
        })
    }
}
