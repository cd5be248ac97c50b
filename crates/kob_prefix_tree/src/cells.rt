//! A linked list of serials, to which another list is appended in one step, however long it is.
ghost use Rattle.std.specs.Prelude.{◌≡◌, ◌≢◌, [], ◌∷◌, ◌++◌, ◌↔◌, IfOk, IsTrue, MatchOption};
ghost use Rattle.kob_prefix_tree.specs.Held.{has_in_turn, without_in_turn};

use crate::link::Link;
use crate::node::Node;
use std::alloc::{AllocError, Global};
use std::marker::{Model, Send, Sync};
use std::mem::replace;
use std::ptr;
use std_alloc::room::Vacant;

/// One serial of a list. In the first one `last` points to the list's last node; in the others it
/// has no meaning.
#[derive(Drop)]
pub(crate) struct Serial {
    pub(crate) value: u64,
    last: *mut Node<Serial, Link<Serial>, Link<Serial>>,
}

// The node that `last` points to belongs to the same list, and moves to another thread with it.
unsafe impl Send for Serial {}

unsafe impl Sync for Serial {}

/// Serials in the order of insertion. The list is one pointer, and each serial one block.
#[derive(Drop)]
pub(crate) struct Cells {
    pub(crate) link: Link<Serial>,
}

impl Model for Cells {
    ghost use Rattle.std.specs.Prelude.{List, ℕ};
    ghost use Rattle.kob_prefix_tree.specs.Cells.{values_of, KnowsEnd};

    ghost Value = { List ℕ };

    ghost view = { λ a. values_of a.link.nodes };

    ghost invariant = { λ a. KnowsEnd a.link.nodes a.link.first };
}

impl Cells {
    pub(crate) fn new() -> Cells
        ensures { result ≡ [] }
    {
        Cells { link: Link::null() }
    }

    pub(crate) fn one(alloc: Global, value: u64) -> Result<Cells, AllocError>
        ensures { IfOk result (λ s. s ≡ value ∷ []) }
    {
        let room = Link::block(alloc)?;
        Ok(Cells::in_room(room, alloc, value))
    }

    /// The list of one serial, in this block.
    fn in_room(
        room: Vacant<Node<Serial, Link<Serial>, Link<Serial>>, Global>,
        alloc: Global,
        value: u64,
    ) -> Cells
        ensures { result ≡ value ∷ [] }
    {
        let last = ptr::null_mut();
        let item = Serial { value, last };
        let node = Node {
            item,
            child: Link::null(),
            next: Link::null(),
            alloc,
        };
        let mut link = Link::of(room, node);
        let last = link.start();
        link.get_mut().item.last = last;
        Cells { link }
    }

    pub(crate) fn is_empty(&self) -> bool
        ensures empty { IsTrue result ↔ (self.now ≡ []) }
    {
        self.link.is_null()
    }

    /// The list of this serial alone, in the first of these blocks.
    pub(crate) fn refilled(self, value: u64) -> Cells
        requires { self ≢ [] }
        ensures { result ≡ value ∷ [] }
    {
        let alloc = self.link.get().alloc;
        let Cells { link } = self;
        let (_, room) = link.take(alloc);
        Cells::in_room(room, alloc, value)
    }

    /// Appends the serials of another list.
    pub(crate) fn append(&mut self, other: Cells)
        ensures { self.new ≡ self.old ++ other }
    {
        if self.link.is_null() {
            *self = other;
            return;
        }
        if other.link.is_null() {
            return;
        }
        let last = self.link.get().item.last;
        let end = other.link.get().item.last;
        let Cells { link: others } = other;
        let link = replace(&mut self.link, Link::null());
        self.link = link.join(last, others);
        self.link.get_mut().item.last = end;
    }

    /// Removes the first serial, and returns it as a list of its own.
    fn take_first(&mut self) -> Option<(u64, Cells)>
        ensures { MatchOption result
            ((self.old ≡ []) × (self.new ≡ self.old))
            (λ p. (self.old ≡ p.0 ∷ self.new) × (p.1 ≡ p.0 ∷ [])) }
    {
        if self.link.is_null() {
            return None;
        }
        let alloc = self.link.get().alloc;
        let link = replace(&mut self.link, Link::null());
        let (node, room) = link.take(alloc);
        let mut rest = node.next;
        if !rest.is_null() {
            let last = node.item.last;
            rest.get_mut().item.last = last;
        }
        self.link = rest;
        Some((
            node.item.value,
            Cells::in_room(room, alloc, node.item.value),
        ))
    }

    /// Removes these serials in one pass, each searched for after the one before it, and returns
    /// whether any was there.
    pub(crate) fn remove_all(&mut self, serials: &[u64]) -> bool
        ensures found { result ≡ has_in_turn serials.now self.old }
        ensures left { self.new ≡ without_in_turn serials.now self.old }
    {
        let mut kept = Cells::new();
        let mut sought = serials;
        let mut found = false;
        while let Some((next, others)) = sought.split_first() {
            let Some((serial, one)) = self.take_first() else {
                break;
            };
            if serial == *next {
                found = true;
                sought = others;
            } else {
                kept.append(one);
            }
        }
        kept.append(replace(self, Cells::new()));
        *self = kept;
        found
    }
}
