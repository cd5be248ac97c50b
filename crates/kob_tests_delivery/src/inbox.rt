//! The rows of an inbox: which are taken, seen or refused, what they keep, and running out of
//! memory.

use crate::fixtures::READY;
use kob_inbox::{Inbox, InboxFault, InboxRow, TakeIn};
use kob_names::{Bytes, Header, Items, Record, Text};
use kob_router::event_id;
use std::alloc::{AllocError, Global};
use std::process::Abort;
use uuid::Uuid;

/// A record with this value and these headers, in this order. If the value is empty, so is the key;
/// otherwise it has none.
fn record(alloc: Global, value: &[u8], headers: &[(&str, &[u8])]) -> Result<Record, AllocError> {
    let mut made = Vec::new(alloc);
    for (name, value) in headers {
        let name = Text::copied(alloc, name)?;
        let value = Bytes::copied(alloc, value)?;
        made.push(Header { name, value })?;
    }
    let value = Bytes::copied(alloc, value)?;
    let key = if value.len() == 0 {
        Some(Bytes::from_vec(Vec::new(alloc)))
    } else {
        None
    };
    Ok(Record {
        key,
        value,
        headers: Items::from_vec(made),
    })
}

const ID: &[u8] = b"00000000-0000-0000-0000-00000000000a";

const UPPER: &[u8] = b"00000000-0000-0000-0000-00000000000A";

const BRACED: &[u8] = b"{00000000-0000-0000-0000-00000000000a}";

const URN: &[u8] = b"urn:uuid:00000000-0000-0000-0000-00000000000a";

const SIMPLE: &[u8] = b"0000000000000000000000000000000A";

const NO_TEXT: &[u8] = b"00000000-0000-0000-0000-00000000000\xff";

const OTHER: &[u8] = b"00000000-0000-0000-0000-00000000000b";

const THIRD: &[u8] = b"00000000-0000-0000-0000-00000000000c";

const VALUE: &[u8] = &[0, 255];

const GREATEST: u64 = 9_223_372_036_854_775_807;

/// Headers, and the id that they carry: in all its forms, and what is none.
type Form<'t> = (&'t [(&'t str, &'t [u8])], Option<u128>);

const FORMS: [Form<'_>; 11] = [
    (&[("id", UPPER)], Some(0xA)),
    (&[("id", ID)], Some(0xA)),
    (&[("id", BRACED)], Some(0xA)),
    (&[("id", URN)], Some(0xA)),
    (&[("id", SIMPLE)], Some(0xA)),
    (&[("kind", b"x"), ("id", ID), ("id", b"x")], Some(0xA)),
    (&[], None),
    (&[("ID", ID)], None),
    (&[("id", b"")], None),
    (&[("id", b"x"), ("id", ID)], None),
    (&[("id", NO_TEXT)], None),
];

#[test]
fn an_id_is_one_in_every_form(rt: HostRuntime) {
    for (headers, id) in FORMS {
        let message = record(rt.alloc(), VALUE, headers).expect(&rt, READY);
        assert_eq!(rt; event_id(&message), id.map(Uuid::from_u128), "{headers:?}");
    }
}

/// Takes in a record of this topic and partition, with this value and these headers. It is at the
/// greatest offset.
fn take(
    alloc: Global,
    inbox: &mut Inbox,
    (topic, partition): (&str, u64),
    value: &[u8],
    headers: &[(&str, &[u8])],
) -> Result<TakeIn, InboxFault> {
    let message = record(alloc, value, headers).map_err(InboxFault::Memory)?;
    inbox.take_in(topic, partition, GREATEST, &message)
}

/// Two of five records are taken in: in the greatest partition and not in the one after it, and of
/// texts that are empty.
fn takes_two(rt: &impl Abort, alloc: Global, inbox: &mut Inbox) {
    let taken = take(alloc, inbox, ("ö", GREATEST), VALUE, &[("id", UPPER)]);
    assert_eq!(rt; taken, Ok(TakeIn::Taken));
    let taken = take(alloc, inbox, ("", 0), VALUE, &[("id", BRACED)]);
    assert_eq!(rt; taken, Ok(TakeIn::Seen));
    let taken = take(alloc, inbox, ("", 0), VALUE, &[]);
    assert_eq!(rt; taken, Ok(TakeIn::NoEventId));
    let taken = take(alloc, inbox, ("", 0), b"", &[("id", OTHER)]);
    assert_eq!(rt; taken, Ok(TakeIn::Taken));
    let taken = take(alloc, inbox, ("", GREATEST + 1), VALUE, &[("id", THIRD)]);
    assert_eq!(rt; taken, Err(InboxFault::Store));
}

/// Whether a row has this place, partition, offset and topic, the event id that ends in this
/// number, this value, and an empty key if the value is empty, or else none.
fn is_row(row: &InboxRow, place: (u64, u64, u64), (topic, id, value): (&str, u128, &[u8])) -> bool {
    let is_keyed = match &row.key {
        Some(key) => key.len() == 0 && value.len() == 0,
        None => value.len() > 0,
    };
    is_keyed
        && (row.place, row.partition, row.offset) == place
        && row.id == Uuid::from_u128(id)
        && row.topic.as_str() == topic
        && row.value.as_slice() == value
}

/// The rows are those of the two that were taken, of which the first is copied.
fn keeps_two(rt: &impl Abort, alloc: Global, inbox: &mut Inbox) {
    let rows = inbox.taken().expect(rt, "rows");
    let [first, second] = rows.as_slice() else {
        panic!(rt; "not two rows");
    };
    let copy = first.copy(alloc).expect(rt, "a copy");
    assert!(rt; is_row(&copy, (1, GREATEST, GREATEST), ("ö", 0xA, VALUE)));
    assert!(rt; is_row(second, (2, 0, GREATEST), ("", 0xB, b"")));
}

#[test]
fn rows_are_kept(rt: HostRuntime) {
    let mut inbox = Inbox::open_in_memory(rt.alloc()).expect(&rt, READY);
    takes_two(&rt, rt.alloc(), &mut inbox);
    keeps_two(&rt, rt.alloc(), &mut inbox);
}

fn count_of(inbox: &mut Inbox) -> Result<usize, InboxFault> {
    Ok(inbox.taken()?.len())
}

/// The result of the intake of a record. If memory runs out, this number of rows stays.
fn takes(alloc: Global, inbox: &mut Inbox, id: &[u8], before: usize) -> Result<TakeIn, InboxFault> {
    let place = ("orders", 0);
    let taken = take(alloc, inbox, place, VALUE, &[("id", id)]);
    if matches!(taken, Err(InboxFault::Memory(_))) && count_of(inbox) == Ok(before) {
        take(alloc, inbox, place, VALUE, &[("id", id)])
    } else {
        taken
    }
}

/// If any one allocation is refused, the call that needed it changes nothing, and succeeds when it
/// is repeated.
#[test]
fn refused_allocation_leaves_the_inbox(rt: HostRuntime) {
    let alloc = rt.alloc();
    let mut inbox = Inbox::open_in_memory(alloc).expect(&rt, READY);
    assert_eq!(rt; takes(alloc, &mut inbox, ID, 0), Ok(TakeIn::Taken));
    assert_eq!(rt; takes(alloc, &mut inbox, OTHER, 1), Ok(TakeIn::Taken));
    assert_eq!(rt; takes(alloc, &mut inbox, ID, 2), Ok(TakeIn::Seen));
    let count = match count_of(&mut inbox) {
        Err(_) => count_of(&mut inbox),
        count => count,
    };
    assert_eq!(rt; count, Ok(2));
}
