//! The records of one reply, taken in one after another.

ghost use Rattle.std.specs.Prelude.{◌≡◌, ℕ, ◌<◌, ◌≤◌, None, Some, length, take, IfSome, IfNone};
ghost use Rattle.std.specs.List.{All};
ghost use Rattle.kob_names.specs.declared.record.Record.{Record};
ghost use Rattle.kob_rights.specs.Requests.{greatest_offset};
ghost use Rattle.kob_inbox.specs.Contents.{arrivals, taken_in};
ghost use Rattle.kob_inbox.specs.Run.{behind};

use crate::fault::InboxFault;
use crate::inbox::Inbox;
use kob_names::Record;
use kob_router::Place;

/// How many records were processed, where the next one is, and the fault on it, if there was one.
#[derive(Clone, Copy, Debug, PartialEq, Eq)]
pub(crate) struct Passed {
    pub count: u64,
    pub position: u64,
    pub fault: Option<InboxFault>,
}

/// Takes records in, in order, until the inbox fails on one.
pub(crate) fn take_all(
    inbox: &mut Inbox,
    place: &Place,
    position: u64,
    records: &[(u64, Record)],
) -> Passed
    requires { All (λ (entry : ℕ × Record). entry.0 < greatest_offset) records.now }
    ensures whole { IfNone result.fault (result.count ≡ length records.now) }
    ensures cut { IfSome result.fault (λ fault. result.count < length records.now) }
    ensures taken { inbox.new
        ≡ taken_in inbox.old (arrivals place.now (take result.count records.now)) }
    ensures behind { result.position ≡ behind position (take result.count records.now) }
{
    let mut passed = Passed {
        count: 0,
        position,
        fault: None,
    };
    for (at, message) in records {
        if let Err(fault) = inbox.take_in(place.topic.as_str(), place.partition, *at, message) {
            passed.fault = Some(fault);
            return passed;
        }
        passed.count += 1;
        passed.position = *at + 1;
    }
    passed
}
