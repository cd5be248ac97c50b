//! The size of a batch: the bytes of its keys, values, header names and header values.

ghost use Rattle.std.specs.Prelude.{◌≡◌, ◌+◌, ◌<◌, MatchOption};
ghost use Rattle.std.specs.List.{sum_by};
ghost use Rattle.kob_broker.specs.Records.{batch_bytes, header_bytes};

use kob_names::{Header, Record};

/// What is left of `room` bytes, if the records fit.
#[tactic(auto, using(std::proofs::lemmas::List::Sums::sum_by_more, std::proofs::lemmas::List::Sums::sum_by_more_le))]
pub(crate) fn room_after_records(records: &[Record], room: u64) -> Option<u64>
    ensures { MatchOption result (room < batch_bytes records.now)
        (λ left. left + batch_bytes records.now ≡ room) }
{
    let mut left = room;
    for message in records {
        if let Some(key) = &message.key {
            left = left.checked_sub(key.len() as u64)?;
        }
        left = left.checked_sub(message.value.len() as u64)?;
        left = room_after_headers(message.headers.as_slice(), left)?;
    }
    Some(left)
}

/// What is left of `room` bytes, if the headers fit.
#[tactic(auto, using(std::proofs::lemmas::List::Sums::sum_by_more, std::proofs::lemmas::List::Sums::sum_by_more_le))]
fn room_after_headers(headers: &[Header], room: u64) -> Option<u64>
    ensures { MatchOption result (room < sum_by header_bytes headers.now)
        (λ left. left + sum_by header_bytes headers.now ≡ room) }
{
    let mut left = room;
    for header in headers {
        left = left.checked_sub(header.name.len() as u64)?;
        left = left.checked_sub(header.value.len() as u64)?;
    }
    Some(left)
}
