//! What one step of a consumer returns.

use kob_router::StopReason;

/// What one step of a consumer did.
#[derive(Debug, Drop)]
pub enum Tick {
    /// The partition's position is known: the offset that the group committed, or 0 if there is
    /// none.
    Placed(u64),
    /// This number of records was processed, including those that are seen already or have no event
    /// id.
    Took(u64),
    /// The position was committed, and the next partition has the turn.
    Committed,
    /// There was no record, and the next partition has the turn; or no partition is assigned.
    Idle,
    /// The call was lost: the next step makes the same call again.
    Repeat,
    /// The partition keeps its turn. A refusal with code 1 (`OFFSET_OUT_OF_RANGE`) means that the
    /// position is not an offset of the partition; no record is skipped.
    Stopped(StopReason),
}
