//! Which texts the tables may have.

ghost use Rattle.std.specs.Prelude.{◌≡◌};
ghost use Rattle.kob_outbox.specs.Contents.{first_bad, first_bad_of_change, fits as fits_in};

use crate::change::Change;
use crate::event::OutboxEvent;
use memchr::memchr;

/// A column whose text a service chooses: the first three are of the business row, the others of
/// the outbox.
#[derive(Clone, Copy, Debug, PartialEq, Eq)]
pub enum Column {
    Kind,
    Id,
    State,
    AggregateType,
    AggregateId,
    Type,
    Payload,
}

/// The maximum length of a text that is neither a state nor a payload, in bytes.
pub const NAME_BYTES_LIMIT: usize = 255;

/// The maximum length of a business row's state and of an event's payload, in bytes.
pub const TEXT_BYTES_LIMIT: usize = 1_048_576;

#[tactic(auto, using(crate::proofs::ZeroBytes::zero_byte_found))]
fn fits(most: usize, text: &str) -> bool
    ensures { result ≡ fits_in most text.now }
{
    text.len() <= most && memchr(0, text.as_bytes()).is_none()
}

/// The first column of a business row whose text is too long or has a zero byte.
pub(crate) fn bad_change(change: &Change) -> Option<Column>
    ensures { result ≡ first_bad_of_change change.now }
{
    if !fits(NAME_BYTES_LIMIT, &change.kind) {
        Some(Column::Kind)
    } else if !fits(NAME_BYTES_LIMIT, &change.id) {
        Some(Column::Id)
    } else if !fits(TEXT_BYTES_LIMIT, &change.state) {
        Some(Column::State)
    } else {
        None
    }
}

/// The first column whose text is too long or has a zero byte.
pub(crate) fn bad_field(change: &Change, event: &OutboxEvent) -> Option<Column>
    ensures { result ≡ first_bad change.now event.now }
{
    if let Some(column) = bad_change(change) {
        Some(column)
    } else if !fits(NAME_BYTES_LIMIT, &event.aggregate_type) {
        Some(Column::AggregateType)
    } else if !fits(NAME_BYTES_LIMIT, &event.aggregate_id) {
        Some(Column::AggregateId)
    } else if !fits(NAME_BYTES_LIMIT, &event.event_type) {
        Some(Column::Type)
    } else if !fits(TEXT_BYTES_LIMIT, &event.payload) {
        Some(Column::Payload)
    } else {
        None
    }
}
