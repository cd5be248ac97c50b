//! Which columns of a row are sent as headers.

ghost use Rattle.std.specs.Prelude.{◌≡◌, ◌<◌, ◌==◌, IfOk, map};
ghost use Rattle.std.specs.List.{slice_split};
ghost use Rattle.kob_router.specs.Route.{OkIfSome, each_entry, entries_of};
ghost use Rattle.kob_router.specs.Route.{entry_of_parts, placed_as};

use crate::fault::RouteFault;
use kob_names::{Items, PlainValue, Text};
use std::alloc::{AllocError, Global};

/// The maximum number of entries of a placement.
const ENTRY_LIMIT: usize = 16;

/// The maximum length of a header's name, in bytes.
const ALIAS_LIMIT: usize = 255;

/// A column that can be sent as a header.
#[derive(Clone, Copy, Debug, PartialEq, Eq)]
pub enum PlacedColumn {
    /// `aggregatetype`.
    AggregateType,
    /// `aggregateid`.
    AggregateId,
    /// `type`.
    EventType,
}

/// A column that is sent as a header, and the header's name.
#[derive(Debug, Drop)]
pub struct Placed {
    pub column: PlacedColumn,
    pub header: Text,
}

impl PlainValue for Placed {
    fn copy(&self, alloc: Global) -> Result<Self, AllocError> {
        let header = self.header.copy(alloc)?;
        Ok(Placed {
            column: self.column,
            header,
        })
    }

    fn same(&self, other: &Self) -> bool {
        self.column == other.column && self.header.same(&other.header)
    }
}

/// The entries of a placement, in order.
pub(crate) fn entries_of(alloc: Global, text: &str) -> Result<Items<Placed>, RouteFault>
    ensures { OkIfSome (entries_of text.now) RouteFault.BadPlacement RouteFault.Memory result }
{
    if text.is_empty() {
        return Ok(Items::from_vec(Vec::new(alloc)));
    }
    let texts = cut_at(alloc, text, ',')?;
    if texts.len() > ENTRY_LIMIT {
        return Err(RouteFault::BadPlacement);
    }
    each_entry(alloc, &texts)
}

/// The parts of a text between separators, which are of one byte.
fn cut_at(alloc: Global, text: &str, separator: char) -> Result<Vec<&str>, AllocError>
    requires { separator < 128 }
    ensures { IfOk result (λ parts. map (λ part. part.now) parts.items
        ≡ slice_split (λ byte. byte == separator) text.now) }
{
    text.split(separator).collect(alloc)
}

fn each_entry(alloc: Global, texts: &[&str]) -> Result<Items<Placed>, RouteFault>
    ensures { OkIfSome (each_entry (map (λ text. text.now) texts.now))
        RouteFault.BadPlacement RouteFault.Memory result }
{
    let mut entries = Vec::new(alloc);
    for text in texts {
        let parts = cut_at(alloc, text, ':')?;
        entries.push(entry_of_parts(alloc, &parts)?)?;
    }
    Ok(Items::from_vec(entries))
}

fn entry_of_parts(alloc: Global, parts: &[&str]) -> Result<Placed, RouteFault>
    ensures { OkIfSome (entry_of_parts (map (λ part. part.now) parts.now))
        RouteFault.BadPlacement RouteFault.Memory result }
{
    match parts {
        [column, word] => placed_as(alloc, column, word, column),
        [column, word, alias] => placed_as(alloc, column, word, alias),
        _ => Err(RouteFault::BadPlacement),
    }
}

fn placed_as(alloc: Global, column: &str, word: &str, alias: &str) -> Result<Placed, RouteFault>
    ensures { OkIfSome (placed_as column.now word.now alias.now)
        RouteFault.BadPlacement RouteFault.Memory result }
{
    if word != "header" || alias.is_empty() || alias.len() > ALIAS_LIMIT {
        return Err(RouteFault::BadPlacement);
    }
    let column = if column == "aggregatetype" {
        PlacedColumn::AggregateType
    } else if column == "aggregateid" {
        PlacedColumn::AggregateId
    } else if column == "type" {
        PlacedColumn::EventType
    } else {
        return Err(RouteFault::BadPlacement);
    };
    let header = Text::copied(alloc, alias)?;
    Ok(Placed { column, header })
}
