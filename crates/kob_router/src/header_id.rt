//! The id that a record carries in its headers.

ghost use Rattle.std.specs.Prelude.{◌≡◌};
ghost use Rattle.std.specs.List.{find};
ghost use Rattle.std.specs.Option.{option_copied};
ghost use Rattle.kob_router.specs.Route.{event_id, is_id};

use kob_names::{Header, Record};
use uuid::Uuid;

/// The event id of a record: the value of its first header named `id`, read as the text of a UUID
/// in any of its forms, in either case. None if no header has the name, or if the first that has it
/// is not such a text. Does not allocate. Debezium's outbox event router writes this header, so
/// that consumers recognise an event that they have seen.
pub fn event_id(sent: &Record) -> Option<Uuid>
    ensures { result ≡ event_id sent.now }
{
    let header = id_header(sent.headers.as_slice())?;
    Uuid::try_parse_ascii(header.value.as_slice()).ok()
}

/// The first header named `id`.
fn id_header(headers: &[Header]) -> Option<&Header>
    ensures { option_copied result ≡ find is_id headers.now }
{
    headers.iter().find(|header| header.name.as_str() == "id")
}
