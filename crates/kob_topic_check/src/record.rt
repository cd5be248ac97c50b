//! A record of a topic, as `kafka-console-consumer` prints it.

ghost use Rattle.std.specs.Option.{option_map};
ghost use Rattle.std.specs.Prelude.{◌≡◌, option_copied};
ghost use Rattle.kob_topic_check.specs.Lists.{behind, cut_at, header_id, number_after};
ghost use Rattle.kob_topic_check.specs.Lists.{record_of, up_to};

use crate::row::id_of;
use bstr::ByteSlice;
use kob_words::decimal_in;
use uuid::Uuid;

/// A record of an event, by the id in its header `id`.
#[derive(Clone, Copy, Debug)]
pub struct Record {
    pub partition: u64,
    pub offset: u64,
    pub id: Uuid,
}

/// The record of a line: `Partition:PARTITION`, `Offset:OFFSET` and the headers, with a tab between
/// two of them; what stands behind another tab is not read. `None` if the line is none.
#[tactic(auto, unfolding(crate::specs::Lists::record_of))]
pub(crate) fn record_of(line: &[u8]) -> Option<Record>
    ensures { result ≡ record_of line.now }
{
    let (partition, rest) = cut_at(line, b"\t")?;
    let (offset, rest) = cut_at(rest, b"\t")?;
    Some(Record {
        partition: number_after(b"Partition:", partition)?,
        offset: number_after(b"Offset:", offset)?,
        id: header_id(up_to(rest, b"\t"))?,
    })
}

#[tactic(auto, unfolding(crate::specs::Lists::cut_at))]
fn cut_at<'t>(text: &'t [u8], by: &[u8]) -> Option<(&'t [u8], &'t [u8])>
    ensures { option_map (λ parts. (parts.0.now, parts.1.now)) result
        ≡ cut_at by.now text.entry.now }
{
    text.split_once_str(by)
}

/// What stands before a separator, or all.
fn up_to<'t>(text: &'t [u8], by: &[u8]) -> &'t [u8]
    ensures { result.now ≡ up_to by.now text.entry.now }
{
    match cut_at(text, by) {
        Some((before, _)) => before,
        None => text,
    }
}

/// What stands behind a label at the beginning.
fn behind<'t>(label: &[u8], text: &'t [u8]) -> Option<&'t [u8]>
    ensures { option_map (λ rest. rest.now) result ≡ behind label.now text.entry.now }
{
    if text.starts_with(label) {
        Some(&text[label.len()..])
    } else {
        None
    }
}

fn number_after(label: &[u8], text: &[u8]) -> Option<u64>
    ensures { result ≡ number_after label.now text.now }
{
    decimal_in(behind(label, text)?)
}

/// The id in the header `id`.
fn header_id(headers: &[u8]) -> Option<Uuid>
    ensures { result ≡ header_id headers.now }
{
    let id = match behind(b"id:", headers) {
        Some(id) => id,
        None => cut_at(headers, b",id:")?.1,
    };
    id_of(up_to(id, b","))
}
