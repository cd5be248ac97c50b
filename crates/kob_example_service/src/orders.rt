//! The broker and the orders of the example, and what it prints.

use kob_connections::ProgramFault;
use kob_endpoints::{JudgeFault, opened};
use kob_inbox::InboxRow;
use kob_outbox::{Change, OutboxEvent};
use kob_script::{Script, read_script};
use kob_shared::{ENTRY_LIMIT, Recorded};
use std::alloc::Global;
use std::io::Write;
use uuid::Uuid;

/// A topic, and what the service and the consumer may do.
const OPENING: &str = "super User:root
User:root h create-topic outbox.event.order 1
User:root h create-acl allow User:orders * Write Topic literal outbox.event.order
User:root h create-acl allow User:orders * IdempotentWrite Cluster literal kafka-cluster
User:root h create-acl allow User:mail * Read Topic literal outbox.event.order
User:root h create-acl allow User:mail * Read Group literal mail
";

/// What a worker leaves, or why it stopped.
pub(crate) type Worked<T> = Result<T, ProgramFault>;

/// The rows of an inbox, and whether the journals show that they are a prefix of what was recorded,
/// or why they don't.
#[derive(Drop)]
pub(crate) struct Delivered {
    pub(crate) judged: Result<(), JudgeFault>,
    pub(crate) rows: Vec<InboxRow>,
}

pub(crate) fn script(alloc: Global, text: &str) -> Worked<Script> {
    read_script(alloc, text.as_bytes()).map_err(|_| ProgramFault::BadText)
}

/// A broker with a journal that has served the opening.
pub(crate) fn broker(alloc: Global) -> Worked<Recorded> {
    let Script { settings, events } = script(alloc, OPENING)?;
    Ok(opened(alloc, settings, events.as_slice(), ENTRY_LIMIT)?)
}

/// An order's new state, and its event.
pub(crate) fn order_event(
    alloc: Global,
    id: u128,
    order: &str,
    state: &str,
) -> Worked<(Change, OutboxEvent)> {
    let change = Change::of(alloc, "order", order, state)?;
    let event = OutboxEvent::of(alloc, Uuid::from_u128(id), &change, state)?;
    Ok((change, event))
}

pub(crate) fn print<W: Write>(out: &mut W, delivered: &Delivered) -> Worked<()> {
    for order in ["41", "42"] {
        print_order(out, order, &delivered.rows)?;
    }
    match delivered.judged {
        Ok(()) => writeln!(out, "delivered in order: true")?,
        Err(fault) => writeln!(out, "delivered in order: false, {fault}")?,
    }
    Ok(())
}

/// Prints an order's states in the order in which they were taken in.
fn print_order<W: Write>(out: &mut W, order: &str, rows: &[InboxRow]) -> Worked<()> {
    write!(out, "{order}:")?;
    for row in rows {
        if matches!(&row.key, Some(key) if key.as_slice() == order.as_bytes()) {
            let state = std::str::from_utf8(row.value.as_slice()).unwrap_or("?");
            write!(out, " {state}")?;
        }
    }
    Ok(writeln!(out)?)
}
