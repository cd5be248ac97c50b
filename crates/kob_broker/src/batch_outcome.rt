//! What becomes of a batch.

use kob_rights::Reason;

/// What becomes of a batch, decided before its request is copied or moved.
#[derive(Clone, Copy)]
pub(crate) enum BatchOutcome {
    Refused(Reason),
    /// It repeats a batch that was accepted at this offset.
    Repeated(u64),
    /// It is appended at this offset; capacity is reserved.
    Appended(u64),
}
