//! The serials of one key of one kind.
ghost use Rattle.std.specs.Prelude.{◌≡◌, [], ◌∷◌, ◌++◌, ◌↔◌, IfOk, IsTrue, MatchOption};
ghost use Rattle.kob_prefix_tree.specs.Held.{has_in_turn, without_in_turn};
ghost use Rattle.kob_prefix_tree.specs.Contents.{unread_of};

use crate::cells::{Cells, Serial};
use crate::link::Link;
use std::alloc::{AllocError, Global};
use std::marker::Model;

/// The serials of one key of one kind, in the order of insertion.
#[derive(Drop)]
pub(crate) struct Serials {
    store: Store,
}

/// Where they are stored. Most keys hold one, which needs no block.
#[derive(Drop)]
enum Store {
    One(u64),
    List(Cells),
}

impl Model for Serials {
    ghost use Rattle.std.specs.Prelude.{List, ℕ};
    ghost use Rattle.kob_prefix_tree.specs.Serials.{serials_in};

    ghost Value = { List ℕ };

    ghost view = { λ a. serials_in a.store };
}

/// A serial to insert, with a block for it and one for a serial that has none yet.
#[derive(Drop)]
pub(crate) struct NewSerial {
    value: u64,
    cell: Cells,
    spare: Cells,
}

impl Model for NewSerial {
    ghost use Rattle.std.specs.Prelude.{◌≡◌, ◌≢◌, ◌∷◌, [], ℕ};

    ghost Value = { ℕ };

    ghost view = { λ a. a.value };

    ghost invariant = { λ a. (a.cell ≡ a.value ∷ []) × (a.spare ≢ []) };
}

impl NewSerial {
    pub(crate) fn new(alloc: Global, value: u64) -> Result<NewSerial, AllocError>
        ensures { IfOk result (λ serial. serial ≡ value) }
    {
        let cell = Cells::one(alloc, value)?;
        let spare = Cells::one(alloc, value)?;
        Ok(NewSerial { value, cell, spare })
    }
}

impl Serials {
    pub(crate) fn new() -> Serials
        ensures { result ≡ [] }
    {
        Serials {
            store: Store::List(Cells::new()),
        }
    }

    pub(crate) fn is_empty(&self) -> bool
        ensures empty { IsTrue result ↔ (self.now ≡ []) }
    {
        match &self.store {
            Store::One(_) => false,
            Store::List(cells) => cells.is_empty(),
        }
    }

    /// All of them, for reading one by one.
    pub(crate) fn unread(&self) -> Unread<'_>
        ensures { unread_of result ≡ self.now }
    {
        match &self.store {
            Store::One(serial) => Unread {
                one: Some(*serial),
                cells: None,
            },
            Store::List(cells) => Unread {
                one: None,
                cells: Some(&cells.link),
            },
        }
    }

    /// Appends a serial. Does not allocate, and frees the blocks that are not needed.
    pub(crate) fn put(&mut self, serial: NewSerial)
        ensures { self.new ≡ self.old ++ serial ∷ [] }
    {
        let NewSerial { value, cell, spare } = serial;
        match &mut self.store {
            Store::One(first) => {
                let mut cells = spare.refilled(*first);
                cells.append(cell);
                self.store = Store::List(cells);
            }
            Store::List(cells) => {
                if cells.is_empty() {
                    self.store = Store::One(value);
                } else {
                    cells.append(cell);
                }
            }
        }
    }

    /// Removes these serials in one pass, each searched for after the one before it, and returns
    /// whether any was there.
    pub(crate) fn remove_all(&mut self, serials: &[u64]) -> bool
        ensures found { result ≡ has_in_turn serials.now self.old }
        ensures left { self.new ≡ without_in_turn serials.now self.old }
    {
        match &mut self.store {
            Store::List(cells) => cells.remove_all(serials),
            Store::One(serial) => match serials.first() {
                Some(next) if *next == *serial => {
                    self.store = Store::List(Cells::new());
                    true
                }
                _ => false,
            },
        }
    }
}

/// The serials of a key that are not read yet: one that has no block, and those from a link on.
#[derive(Clone, Copy, Drop)]
pub(crate) struct Unread<'a> {
    one: Option<u64>,
    cells: Option<&'a Link<Serial>>,
}

impl<'a> Unread<'a> {
    pub(crate) fn nothing() -> Unread<'a>
        ensures { unread_of result ≡ [] }
    {
        Unread {
            one: None,
            cells: None,
        }
    }

    /// Reads the next one.
    pub(crate) fn next(&mut self) -> Option<u64>
        ensures { MatchOption result
            ((unread_of self.old ≡ []) × (unread_of self.new ≡ []))
            (λ value. unread_of self.old ≡ value ∷ unread_of self.new) }
    {
        if let Some(serial) = self.one.take() {
            return Some(serial);
        }
        let cells = self.cells?;
        if cells.is_null() {
            return None;
        }
        let node = cells.get();
        self.cells = Some(&node.next);
        Some(node.item.value)
    }
}
