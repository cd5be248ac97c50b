//! The subtree at one place of the tree: the bytes up to its first key or fork, the serials of the
//! key that ends after them, and the child nodes.
ghost use Rattle.std.specs.Prelude.{◌≡◌, ◌++◌, [], ◌≤◌, ◌↔◌, drop, length, take};
ghost use Rattle.std.specs.Prelude.{IsTrue, OnErr, OnOk};
ghost use Rattle.kob_prefix_tree.specs.Held.{with_serial, without_serials, has_serials};
ghost use Rattle.kob_prefix_tree.specs.Tree.{bare, led_by, held_in, IsNeat, ChangedAt};
ghost use Rattle.kob_prefix_tree.specs.Contents.{contents, end_of, seen, EndsAt, LeadsNowhere};
ghost use Rattle.kob_prefix_tree.specs.Path.{key_of};

use crate::kind::PatternKind;
use crate::link::Link;
use crate::path::path_of;
use crate::place::Place;
use crate::serials::{NewSerial, Serials};
use crate::siblings::{Item, Room};
use crate::tail::Tail;
use std::alloc::{AllocError, Global};
use std::mem::replace;

/// The subtree after one byte: the other bytes of its node, the serials of the key that ends with
/// the last of them, and the child nodes.
#[derive(Drop)]
pub(crate) struct Branch {
    pub(crate) tail: Tail,
    pub(crate) literal: Serials,
    pub(crate) prefixed: Serials,
    pub(crate) below: Link<Item>,
}

impl Branch {
    pub(crate) fn new() -> Branch
        ensures bare { contents result ≡ bare }
        ensures no_tail { result.tail ≡ [] }
    {
        Branch {
            tail: Tail::new(),
            literal: Serials::new(),
            prefixed: Serials::new(),
            below: Link::null(),
        }
    }

    /// A view of the branch, for reading.
    pub(crate) fn place(&self) -> Place<'_>
        ensures { seen result ≡ contents self.now }
    {
        Place {
            tail: self.tail.as_slice(),
            literal: &self.literal,
            prefixed: &self.prefixed,
            below: &self.below,
        }
    }

    #[tactic(auto, using(crate::proofs::WayLemmas::nothing_behind))]
    pub(crate) fn is_bare(&self) -> bool
        ensures { IsTrue result ↔ (contents self.now ≡ bare) }
    {
        if !self.tail.is_empty() {
            return false;
        }
        self.ends_bare()
    }

    /// Whether there are no serials and no children, whatever the branch's own bytes are.
    #[tactic(auto, using(crate::proofs::WayLemmas::nothing_behind))]
    pub(crate) fn ends_bare(&self) -> bool
        ensures { IsTrue result ↔ (end_of self.now ≡ bare) }
    {
        self.literal.is_empty() && self.prefixed.is_empty() && self.below.is_null()
    }

    /// Moves the bytes after the first `count`, if there are any, into a child node in this block.
    fn cut(&mut self, count: usize, room: Room, alloc: Global)
        requires { count ≤ length self.old.tail }
        ensures tail { self.new.tail ≡ take count self.old.tail }
        ensures end { end_of self.new ≡ led_by (drop count self.old.tail) (end_of self.old) }
    {
        let (before, behind) = self.tail.as_slice().split_at(count);
        let Some((byte, others)) = behind.split_first() else {
            room.free();
            return;
        };
        let byte = *byte;
        let first = Tail::of(before);
        let tail = Tail::of(others);
        let mut branch = replace(self, Branch::new());
        branch.tail = tail;
        self.tail = first;
        self.below.put_front(room, alloc, byte, branch);
    }

    /// Appends the serial at the key of the branch's own bytes and those of the path, by linking in
    /// the path's nodes. The branch must not have a child for the first of them yet.
    fn link(&mut self, path: Link<Item>, kind: PatternKind, serial: NewSerial)
        requires nowhere { LeadsNowhere (key_of path.nodes) (end_of self.old) }
        requires neat { IsNeat (contents self.old).1 }
        ensures { ChangedAt (self.old.tail ++ key_of path.nodes) (with_serial kind serial)
            (contents self.old) (contents self.new) }
    {
        if path.is_null() {
            path.give_up();
            self.put(kind, serial);
            return;
        }
        let alloc = path.get().alloc;
        let (mut node, room) = path.take(alloc);
        let byte = node.item.byte;
        let rest = replace(&mut node.next, Link::null());
        let tail = replace(&mut node.item.tail, Tail::new());
        let branch = Branch::along(tail, rest, kind, serial);
        self.below.put_front(room, alloc, byte, branch);
    }

    /// Appends the serial to those of the branch itself.
    pub(crate) fn put(&mut self, kind: PatternKind, serial: NewSerial)
        ensures held { (self.new.literal, self.new.prefixed)
            ≡ with_serial kind serial (self.old.literal, self.old.prefixed) }
        ensures tail { self.new.tail ≡ self.old.tail }
        ensures below { self.new.below ≡ self.old.below }
    {
        match kind {
            PatternKind::Literal => self.literal.put(serial),
            PatternKind::Prefixed => self.prefixed.put(serial),
        }
    }

    /// As `link`, after the first bytes of the branch, which is split if it has more.
    pub(crate) fn graft(
        &mut self,
        count: usize,
        path: Link<Item>,
        room: Room,
        alloc: Global,
        kind: PatternKind,
        serial: NewSerial,
    )
        requires { EndsAt count (key_of path.nodes) self.old }
        ensures { ChangedAt (take count self.old.tail ++ key_of path.nodes)
            (with_serial kind serial) (contents self.old) (contents self.new) }
    {
        self.cut(count, room, alloc);
        self.link(path, kind, serial);
    }

    /// Appends the serial at the key that continues after the first bytes of the branch. It makes
    /// the nodes for the key, and one more if a node has to be split.
    pub(crate) fn add_here(
        &mut self,
        alloc: Global,
        count: usize,
        key: &[u8],
        kind: PatternKind,
        serial: NewSerial,
    ) -> Result<(), AllocError>
        requires { EndsAt count key.now self.old }
        ensures put { OnOk result (ChangedAt (take count self.old.tail ++ key.now)
            (with_serial kind serial) (contents self.old) (contents self.new)) }
        ensures refused { OnErr result (contents self.new ≡ contents self.old) }
    {
        let path = path_of(alloc, key)?;
        if count == self.tail.as_slice().len() {
            self.link(path, kind, serial);
            return Ok(());
        }
        let room = Link::block(alloc)?;
        self.graft(count, path, room, alloc, kind, serial);
        Ok(())
    }

    /// Removes these serials at the key that continues after the first bytes of the branch, in one
    /// pass, and returns whether any was there.
    pub(crate) fn remove_here(
        &mut self,
        count: usize,
        key: &[u8],
        kind: PatternKind,
        serials: &[u64],
    ) -> bool
        requires { EndsAt count key.now self.old }
        ensures found { result ≡ has_serials kind serials.now
            (held_in (take count self.old.tail ++ key.now) (contents self.old)) }
        ensures taken { ChangedAt (take count self.old.tail ++ key.now)
            (without_serials kind serials.now) (contents self.old) (contents self.new) }
    {
        if !key.is_empty() {
            return false;
        }
        if count != self.tail.as_slice().len() {
            return false;
        }
        let found = self.take_out(kind, serials);
        self.settle();
        found
    }

    /// Removes these serials from those of the branch itself.
    fn take_out(&mut self, kind: PatternKind, serials: &[u64]) -> bool
        ensures found { result
            ≡ has_serials kind serials.now (self.old.literal, self.old.prefixed) }
        ensures taken { (self.new.literal, self.new.prefixed)
            ≡ without_serials kind serials.now (self.old.literal, self.old.prefixed) }
        ensures tail { self.new.tail ≡ self.old.tail }
        ensures below { self.new.below ≡ self.old.below }
    {
        match kind {
            PatternKind::Literal => self.literal.remove_all(serials),
            PatternKind::Prefixed => self.prefixed.remove_all(serials),
        }
    }
}
