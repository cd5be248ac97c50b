//! The record of a row, and the topic to which it goes.

ghost use Rattle.std.specs.Prelude.{◌≡◌, IfOk};
ghost use Rattle.kob_outbox.specs.Contents.{stored_row};
ghost use Rattle.kob_router.specs.Route.{OkIfSome, headers_of, id_header, message_of};
ghost use Rattle.kob_router.specs.Route.{routed_row, topic_named, topic_of};

use crate::fault::RecordFault;
use crate::placement::PlacedColumn;
use crate::route::Route;
use crate::settings::{RouteBy, Routing};
use crate::template::ROUTED_BY_VALUE;
use bstr::ByteSlice;
use kob_names::{Bytes, Header, Items, Record, Text, TopicName, TopicNameFault};
use kob_outbox::Row;
use std::alloc::{AllocError, Global};
use std::str::from_utf8;
use uuid::Uuid;

/// The record of a row, and the topic to which it goes.
#[derive(Debug, Drop)]
pub struct Routed {
    pub topic: TopicName,
    pub message: Record,
}

/// The record of a row and its topic, by the route. The aggregate's id is the key, and the
/// payload's bytes are the value. The headers are `id`, in lower-case hyphenated form, and the
/// placed columns in their order. `BadTopic` is returned if the template, filled with the row's
/// value, is not a valid topic name.
pub fn record_of(alloc: Global, route: &Route, row: &Row) -> Result<Routed, RecordFault>
    ensures { OkIfSome (routed_row route.now (stored_row row.now))
        RecordFault.BadTopic RecordFault.Memory result }
{
    let routing = route.as_routing();
    let topic = topic_for(alloc, routing, row)?;
    let message = message_of(alloc, routing, row)?;
    Ok(Routed { topic, message })
}

/// The topic of a row's record.
pub(crate) fn topic_for(
    alloc: Global,
    routing: &Routing,
    row: &Row,
) -> Result<TopicName, RecordFault>
    ensures { OkIfSome (topic_named (topic_of routing.now (stored_row row.now)))
        RecordFault.BadTopic RecordFault.Memory result }
{
    let value = match routing.by {
        RouteBy::AggregateType => row.event.aggregate_type.as_bytes(),
        RouteBy::AggregateId => row.event.aggregate_id.as_bytes(),
    };
    let template = routing.template.as_str().as_bytes();
    let text = template.replace(alloc, ROUTED_BY_VALUE.as_bytes(), value)?;
    topic_named(alloc, &text)
}

fn topic_named(alloc: Global, text: &[u8]) -> Result<TopicName, RecordFault>
    ensures { OkIfSome (topic_named text.now) RecordFault.BadTopic RecordFault.Memory result }
{
    let Ok(name) = from_utf8(text) else {
        return Err(RecordFault::BadTopic);
    };
    match TopicName::parse(alloc, name) {
        Ok(topic) => Ok(topic),
        Err(TopicNameFault::Memory(refused)) => Err(RecordFault::Memory(refused)),
        Err(_) => Err(RecordFault::BadTopic),
    }
}

pub(crate) fn message_of(alloc: Global, routing: &Routing, row: &Row) -> Result<Record, AllocError>
    ensures { IfOk result (λ message. message ≡ message_of routing.now (stored_row row.now)) }
{
    let key = Bytes::copied(alloc, row.event.aggregate_id.as_bytes())?;
    let value = Bytes::copied(alloc, row.event.payload.as_bytes())?;
    let headers = headers_of(alloc, routing, row)?;
    Ok(Record {
        key: Some(key),
        value,
        headers,
    })
}

fn headers_of(alloc: Global, routing: &Routing, row: &Row) -> Result<Items<Header>, AllocError>
    ensures { IfOk result (λ headers. headers ≡ headers_of routing.now (stored_row row.now)) }
{
    let mut headers = Vec::new(alloc);
    headers.push(id_header(alloc, row)?)?;
    for entry in routing.placement.as_slice() {
        let name = Text::copied(alloc, entry.header.as_str())?;
        let column = match entry.column {
            PlacedColumn::AggregateType => &row.event.aggregate_type,
            PlacedColumn::AggregateId => &row.event.aggregate_id,
            PlacedColumn::EventType => &row.event.event_type,
        };
        let value = Bytes::copied(alloc, column.as_bytes())?;
        headers.push(Header { name, value })?;
    }
    Ok(Items::from_vec(headers))
}

fn id_header(alloc: Global, row: &Row) -> Result<Header, AllocError>
    ensures { IfOk result (λ header. header ≡ id_header (stored_row row.now)) }
{
    let mut buffer = Uuid::encode_buffer();
    let id = row.event.id.hyphenated().encode_lower(&mut buffer);
    let name = Text::copied(alloc, "id")?;
    let value = Bytes::copied(alloc, id.as_bytes())?;
    Ok(Header { name, value })
}
