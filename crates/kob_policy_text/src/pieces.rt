//! The parts of bytes around a mark.

ghost use Rattle.std.specs.Prelude.{◌≡◌};
ghost use Rattle.std.specs.Option.{option_map};
ghost use Rattle.kob_policy_text.specs.Listing.{around_first, around_last, first_parts};
ghost use Rattle.kob_policy_text.specs.Listing.{holds_mark, last_parts, trimmed};
ghost use Rattle.kob_script.specs.Words.{GivesSeen};

use bstr::ByteSlice;
use kob_script::{FaultKind, LineError};

/// The part before the first mark, and the part after it.
#[tactic(auto, unfolding(crate::specs::Listing::first_parts))]
pub fn first_parts<'a>(bytes: &'a [u8], mark: &[u8]) -> Option<(&'a [u8], &'a [u8])>
    ensures { option_map (λ parts. (parts.0.now, parts.1.now)) result
        ≡ first_parts bytes.entry.now mark.now }
{
    bytes.split_once_str(mark)
}

/// The part before the last mark, and the part after it.
#[tactic(auto, unfolding(crate::specs::Listing::last_parts))]
pub fn last_parts<'a>(bytes: &'a [u8], mark: &[u8]) -> Option<(&'a [u8], &'a [u8])>
    ensures { option_map (λ parts. (parts.0.now, parts.1.now)) result
        ≡ last_parts bytes.entry.now mark.now }
{
    bytes.rsplit_once_str(mark)
}

/// The parts around the first mark. The fault is `BadLine`.
pub fn around_first<'a>(bytes: &'a [u8], mark: &[u8]) -> Result<(&'a [u8], &'a [u8]), LineError>
    ensures { GivesSeen (λ parts. (parts.0.now, parts.1.now)) result
        (around_first bytes.entry.now mark.now) }
{
    match first_parts(bytes, mark) {
        Some(parts) => Ok(parts),
        None => Err(LineError::Fault(FaultKind::BadLine)),
    }
}

/// The parts around the last mark. The fault is `BadLine`.
pub fn around_last<'a>(bytes: &'a [u8], mark: &[u8]) -> Result<(&'a [u8], &'a [u8]), LineError>
    ensures { GivesSeen (λ parts. (parts.0.now, parts.1.now)) result
        (around_last bytes.entry.now mark.now) }
{
    match last_parts(bytes, mark) {
        Some(parts) => Ok(parts),
        None => Err(LineError::Fault(FaultKind::BadLine)),
    }
}

/// Whether the mark is somewhere.
pub fn holds_mark(bytes: &[u8], mark: &[u8]) -> bool
    ensures { result ≡ holds_mark bytes.now mark.now }
{
    first_parts(bytes, mark).is_some()
}

/// The bytes without white space at the ends.
#[tactic(auto, unfolding(crate::specs::Listing::trimmed))]
pub fn trimmed(bytes: &[u8]) -> &[u8]
    ensures { result.now ≡ trimmed bytes.entry.now }
{
    bytes.trim()
}
