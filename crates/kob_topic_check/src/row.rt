//! A row of an outbox, as its database exports it.

ghost use Rattle.std.specs.Option.{option_map};
ghost use Rattle.std.specs.Prelude.{◌≡◌, IfOk};
ghost use Rattle.kob_topic_check.specs.Lists.{id_of, parts_of, row_of, text_of};

use bstr::ByteSlice;
use kob_names::Text;
use std::alloc::{AllocError, Global};
use uuid::Uuid;

/// An event's id and the key of its record, Debezium's `aggregateid`, as the list writes it.
#[derive(Debug, Drop)]
pub struct Row {
    pub id: Uuid,
    pub key: Text,
}

/// The bytes of an id: 36 with its hyphens.
const ID: usize = 36;

/// The row of a line: an id, a comma or a tab, and the key. `None` if the line is none.
#[tactic(auto, unfolding(crate::specs::Lists::row_of))]
pub(crate) fn row_of(alloc: Global, line: &[u8]) -> Result<Option<Row>, AllocError>
    ensures { IfOk result (λ row. row ≡ row_of line.now) }
{
    let Some((id, key)) = parts_of(line) else {
        return Ok(None);
    };
    match (id_of(id), text_of(key)) {
        (Some(id), Some(key)) => Ok(Some(Row {
            id,
            key: Text::copied(alloc, key)?,
        })),
        _ => Ok(None),
    }
}

fn parts_of(line: &[u8]) -> Option<(&[u8], &[u8])>
    ensures { option_map (λ parts. (parts.0.now, parts.1.now)) result ≡ parts_of line.entry.now }
{
    if line.len() < ID {
        return None;
    }
    let (id, rest) = line.split_at(ID);
    match rest {
        [b',' | b'\t', key @ ..] => Some((id, key)),
        _ => None,
    }
}

/// The text that bytes are, if they are UTF-8.
fn text_of(bytes: &[u8]) -> Option<&str>
    ensures { option_map (λ text. text.now) result ≡ text_of bytes.entry.now }
{
    match bytes.to_str() {
        Ok(text) => Some(text),
        Err(_) => None,
    }
}

/// The UUID that a text writes.
pub(crate) fn id_of(text: &[u8]) -> Option<Uuid>
    ensures { result ≡ id_of text.now }
{
    match Uuid::try_parse_ascii(text) {
        Ok(id) => Some(id),
        Err(_) => None,
    }
}
