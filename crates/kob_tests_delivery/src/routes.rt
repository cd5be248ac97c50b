//! The headers that a route gives to a row's record.

use crate::fixtures::READY;
use kob_names::{Header, Record, Text};
use kob_outbox::{Change, OutboxEvent, Row};
use kob_router::{Route, RouteBy, RouteSettings, event_id, record_of};
use std::alloc::Global;
use std::process::Abort;
use uuid::Uuid;

/// A route to the topic `events.` and the aggregate's type, with this placement.
fn route(rt: &impl Abort, alloc: Global, placement: &str) -> Route {
    let settings = RouteSettings {
        by: RouteBy::AggregateType,
        replacement: Text::copied(alloc, "events.${routedByValue}").expect(rt, READY),
        placement: Text::copied(alloc, placement).expect(rt, READY),
    };
    Route::new(alloc, &settings).expect(rt, READY)
}

/// The row of the event that the customer 42 moved.
fn row(rt: &impl Abort, alloc: Global) -> Row {
    let change = Change::of(alloc, "customers", "42", "Moved").expect(rt, READY);
    let event = OutboxEvent::of(alloc, Uuid::from_u128(0xA), &change, "{}").expect(rt, READY);
    Row { seq: 1, event }
}

/// Whether these are the headers, in their order.
fn are_headers(headers: &[Header], due: &[(&str, &str)]) -> bool {
    for (header, (name, value)) in headers.iter().zip(due) {
        if header.name.as_str() != *name || header.value.as_slice() != value.as_bytes() {
            return false;
        }
    }
    headers.len() == due.len()
}

/// Whether a record has these headers, and the row's payload, key and id.
fn is_due(message: &Record, headers: &[(&str, &str)]) -> bool {
    let is_keyed = match &message.key {
        Some(key) => key.as_slice() == b"42".as_slice(),
        None => false,
    };
    is_keyed
        && are_headers(message.headers.as_slice(), headers)
        && message.value.as_slice() == b"{}".as_slice()
        && event_id(message) == Some(Uuid::from_u128(0xA))
}

/// The row goes to the topic `events.customers` by the route with this placement, and its record
/// has these headers.
fn places(rt: &impl Abort, alloc: Global, placement: &str, headers: &[(&str, &str)]) {
    let (row, route) = (row(rt, alloc), route(rt, alloc, placement));
    let routed = record_of(alloc, &route, &row).expect(rt, "a record");
    let is_to = routed.topic.as_str() == "events.customers";
    assert!(rt; is_to && is_due(&routed.message, headers), "by {placement}");
}

/// The header of the row's id.
const ID: (&str, &str) = ("id", "00000000-0000-0000-0000-00000000000a");

/// Placements, and the headers by each.
const PLACED: [(&str, &[(&str, &str)]); 3] = [
    (
        "type:header:eventType,aggregateid:header",
        &[ID, ("eventType", "Moved"), ("aggregateid", "42")],
    ),
    ("", &[ID]),
    ("aggregatetype:header:id", &[ID, ("id", "customers")]),
];

#[test]
fn placement_headers(rt: HostRuntime) {
    for (placement, headers) in PLACED {
        places(&rt, rt.alloc(), placement, headers);
    }
}
