//! The progress of a consumer on each partition.

ghost use Rattle.std.specs.Prelude.{◌≡◌, IsSome};
ghost use Rattle.kob_inbox.specs.Run.{cursor_of, with_cursor, standing};

use kob_router::{Place, is_same_place};

/// The progress of a consumer on a partition.
#[derive(Debug, Drop)]
pub struct Cursor {
    pub place: Place,
    /// The offset of the next record.
    pub position: u64,
    /// Whether records were processed and no commit of them was acknowledged.
    pub uncommitted: bool,
}

/// A cursor without its partition.
#[derive(Clone, Copy, Debug, PartialEq, Eq)]
pub struct Standing {
    pub position: u64,
    pub uncommitted: bool,
}

/// The state of a partition, if it has a cursor.
pub(crate) fn standing_of(cursors: &[Cursor], place: &Place) -> Option<Standing>
    ensures { result ≡ standing (cursor_of cursors.now place.now) }
{
    for cursor in cursors {
        if is_same_place(&cursor.place, place) {
            return Some(Standing {
                position: cursor.position,
                uncommitted: cursor.uncommitted,
            });
        }
    }
    None
}

/// Moves the cursor of a partition.
#[tactic(auto, using(crate::proofs::Ticking::changed))]
pub(crate) fn set(cursors: &mut [Cursor], place: &Place, position: u64, uncommitted: bool)
    requires { IsSome (cursor_of cursors.old place.now) }
    ensures { cursors.new ≡ with_cursor cursors.old
        (record { place = place.now; position = position; uncommitted = uncommitted }) }
{
    for i in 0..cursors.len() {
        let cursor = &mut cursors[i];
        if is_same_place(&cursor.place, place) {
            cursor.position = position;
            cursor.uncommitted = uncommitted;
            return;
        }
    }
}
