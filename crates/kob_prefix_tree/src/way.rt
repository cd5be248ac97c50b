//! The way from a place down to another and up again, kept in the blocks of its own nodes. It needs
//! no allocation and no stack, however long the key is. `in_place.rt` begins it deep in the tree.
ghost use Rattle.std.specs.Prelude.{◌≡◌, ◌↔◌, [], ◌∷◌, ◌++◌, ◌+◌, ℕ, List, false, length, take};
ghost use Rattle.std.specs.Prelude.{IsTrue, None, OnErr, OnOk};
ghost use Rattle.kob_prefix_tree.specs.Nodes.{Leads};
ghost use Rattle.kob_prefix_tree.specs.Held.{has_serials, with_serial, without_serials};
ghost use Rattle.kob_prefix_tree.specs.Tree.{Contents, bare};
ghost use Rattle.kob_prefix_tree.specs.Tree.{count, held_in, IsNeat, siblings, value_at, ChangedAt};
ghost use Rattle.kob_prefix_tree.specs.Contents.{contents, end_of, node_end, trie_of};
ghost use Rattle.kob_prefix_tree.specs.Path.{key_of};
ghost use Rattle.kob_prefix_tree.specs.Contents.{EndsAt, IsWay, kept_behind, unwound, with_child};
ghost use Rattle.kob_prefix_tree.specs.Contents.{first_byte, first_contents};

use crate::branch::Branch;
use crate::kind::PatternKind;
use crate::link::Link;
use crate::node::Node;
use crate::path::parted;
use crate::serials::NewSerial;
use crate::siblings::{ByteNode, Item, Room};
use crate::tail::Tail;
use std::alloc::{AllocError, Global};
use std::mem::{replace, swap};

impl Branch {
    /// Goes on from here to another branch. The branch here becomes the way's last node, in the
    /// block.
    fn go_on(&mut self, above: &mut Link<Item>, room: Room, alloc: Global, byte: u8, branch: Branch)
        ensures here { self.new ≡ branch }
        ensures way { (c : Contents) → unwound above.new.nodes c
            ≡ unwound above.old.nodes (kept_behind self.old.tail (
              (self.old.literal, self.old.prefixed),
              with_child byte c (trie_of self.old.below.nodes),
            )) }
    {
        let Branch {
            tail,
            literal,
            prefixed,
            below,
        } = replace(self, branch);
        let item = Item {
            byte,
            tail,
            literal,
            prefixed,
        };
        let next = replace(above, Link::null());
        let node = Node {
            item,
            child: below,
            next,
            alloc,
        };
        let emptied = replace(above, Link::of(room, node));
        emptied.give_up();
    }

    /// Exchanges the contents of the branch and those of a node.
    pub(crate) fn change_places(&mut self, node: &mut ByteNode)
        ensures tail { self.new.tail ≡ node.old.item.tail }
        ensures end { end_of self.new ≡ node_end node.old }
        ensures node_tail { node.new.item.tail ≡ self.old.tail }
        ensures node_end { node_end node.new ≡ end_of self.old }
        ensures byte { node.new.item.byte ≡ node.old.item.byte }
        ensures next { node.new.next ≡ node.old.next }
        ensures alloc { node.new.alloc ≡ node.old.alloc }
    {
        swap(&mut self.tail, &mut node.item.tail);
        swap(&mut self.literal, &mut node.item.literal);
        swap(&mut self.prefixed, &mut node.item.prefixed);
        swap(&mut self.below, &mut node.child);
    }

    /// Goes on from here to the branch that a node holds. The branch here becomes the way's last
    /// node, in the block of that one: the two change places.
    fn go_down(&mut self, above: &mut Link<Item>, found: Link<Item>)
        requires { Leads found.nodes }
        ensures here { contents self.new ≡ first_contents found.nodes }
        ensures way { (c : Contents) → unwound above.new.nodes c
            ≡ unwound above.old.nodes (kept_behind self.old.tail (
              (self.old.literal, self.old.prefixed),
              with_child (first_byte found.nodes) c (trie_of self.old.below.nodes),
            )) }
    {
        let mut found = found;
        let next = replace(above, Link::null());
        let node = found.get_mut();
        self.change_places(node);
        node.next = next;
        let emptied = replace(above, found);
        emptied.give_up();
    }

    /// Goes back to the place that the way's last node keeps. The branch here is linked below it,
    /// or freed if it has no bytes, serials or children.
    fn go_back(&mut self, above: &mut Link<Item>)
        requires { Leads above.old.nodes }
        ensures shorter { count above.old.nodes ≡ 1 + count above.new.nodes }
        ensures root { unwound above.new.nodes (contents self.new)
            ≡ unwound above.old.nodes (contents self.old) }
    {
        let bare = self.is_bare();
        let mut last = replace(above, Link::null());
        let node = last.get_mut();
        self.change_places(node);
        let next = replace(&mut node.next, Link::null());
        let emptied = replace(above, next);
        emptied.give_up();
        self.take_in(last, bare);
        self.settle();
    }

    /// Links a node below, or frees it if it has no bytes, serials or children.
    fn take_in(&mut self, child: Link<Item>, is_bare: bool)
        requires leads { Leads child.nodes }
        requires bare { IsTrue is_bare ↔ (first_contents child.nodes ≡ bare) }
        ensures tail { self.new.tail ≡ self.old.tail }
        ensures put { end_of self.new ≡ (
          (self.old.literal, self.old.prefixed),
          with_child (first_byte child.nodes) (first_contents child.nodes)
              (trie_of self.old.below.nodes),
        ) }
    {
        if is_bare {
            drop(child);
            return;
        }
        self.below.put_node(child);
    }

    /// Removes the bytes of the branch if it has no serials or children.
    #[tactic(auto, using(crate::proofs::WayLemmas::kept_some))]
    pub(crate) fn settle(&mut self)
        ensures { contents self.new ≡ kept_behind self.old.tail (end_of self.old) }
    {
        if self.ends_bare() {
            self.tail = Tail::new();
        }
    }

    /// Goes on to the node that begins with the byte, if there is one and the branch has no more
    /// bytes than these.
    fn enter(&mut self, above: &mut Link<Item>, count: usize, byte: u8) -> bool
        ensures way { (rest key : List ℕ) (root : Contents) → IsTrue result
            → IsWay above.old.nodes (take count self.old.tail ++ byte ∷ rest) key root
            (contents self.old)
            → IsWay above.new.nodes rest key root (contents self.new) }
        ensures stays { result ≡ false → (above.new.nodes ≡ above.old.nodes)
            × ((self.new.tail ≡ self.old.tail) × (end_of self.new ≡ end_of self.old)) }
        ensures nowhere { result ≡ false → count ≡ length self.old.tail
            → value_at byte (siblings (end_of self.old).1) ≡ None }
    {
        if count != self.tail.as_slice().len() {
            return false;
        }
        let Some(found) = self.below.take_out(byte) else {
            return false;
        };
        self.go_down(above, found);
        true
    }

    /// Goes down along the key as far as there are nodes. Returns the way, how many bytes of the
    /// branch match after it, and the rest of the key.
    fn descend<'a>(&mut self, key: &'a [u8]) -> (Link<Item>, usize, &'a [u8])
        requires { IsNeat (contents self.old).1 }
        ensures way { IsWay result.0.nodes (take result.1 self.new.tail ++ result.2.now) key.now
            (contents self.old) (contents self.new) }
        ensures end { EndsAt result.1 result.2.now self.new }
    {
        let mut above = Link::null();
        let mut rest = key;
        loop {
            let (count, behind) = parted(self.tail.as_slice(), rest);
            let Some((byte, others)) = behind.split_first() else {
                return (above, count, behind);
            };
            if !self.enter(&mut above, count, *byte) {
                return (above, count, behind);
            }
            rest = others;
        }
    }

    /// As `descend`, along the key that the nodes of a path hold. Its bytes that are in the tree
    /// already are removed from the path.
    fn descend_path(&mut self, path: &mut Link<Item>) -> (Link<Item>, usize)
        requires { IsNeat (contents self.old).1 }
        ensures way { IsWay result.0.nodes (take result.1 self.new.tail ++ key_of path.new.nodes)
            (key_of path.old.nodes) (contents self.old) (contents self.new) }
        ensures end { EndsAt result.1 (key_of path.new.nodes) self.new }
    {
        let mut above = Link::null();
        loop {
            let count = path.drop_common(self.tail.as_slice());
            let Some(byte) = path.first_byte() else {
                return (above, count);
            };
            if !self.enter(&mut above, count, byte) {
                return (above, count);
            }
            path.drop_byte();
        }
    }

    /// Goes back up to the root.
    fn ascend(&mut self, above: Link<Item>)
        ensures { contents self.new ≡ unwound above.nodes (contents self.old) }
    {
        let mut above = above;
        while !above.is_null() {
            self.go_back(&mut above);
        }
        above.give_up();
    }

    /// The branch that holds the serial alone, at the key of a tail and of a path after it. It is
    /// made in the blocks of the path.
    pub(crate) fn along(
        tail: Tail,
        path: Link<Item>,
        kind: PatternKind,
        serial: NewSerial,
    ) -> Branch
        ensures { ChangedAt (tail ++ key_of path.nodes) (with_serial kind serial)
            bare (contents result) }
    {
        let mut here = Branch::new();
        here.tail = tail;
        let mut above = Link::null();
        let mut path = path;
        while !path.is_null() {
            let alloc = path.get().alloc;
            let (mut node, room) = path.take(alloc);
            path = replace(&mut node.next, Link::null());
            let mut branch = Branch::new();
            swap(&mut branch.tail, &mut node.item.tail);
            here.go_on(&mut above, room, alloc, node.item.byte, branch);
        }
        path.give_up();
        here.put(kind, serial);
        here.ascend(above);
        here
    }

    /// As `add`, however deep the key goes.
    pub(crate) fn add_far(
        &mut self,
        alloc: Global,
        key: &[u8],
        kind: PatternKind,
        serial: NewSerial,
    ) -> Result<(), AllocError>
        requires neat { IsNeat (contents self.old).1 }
        ensures put { OnOk result (ChangedAt key.now (with_serial kind serial)
            (contents self.old) (contents self.new)) }
        ensures refused { OnErr result (ChangedAt key.now (λ held. held)
            (contents self.old) (contents self.new)) }
    {
        let (above, count, rest) = self.descend(key);
        let added = self.add_here(alloc, count, rest, kind, serial);
        self.ascend(above);
        added
    }

    /// As `grow`, however deep the key goes. Nodes whose bytes are in the
    /// tree already are freed, the others linked in. A node within whose bytes the key ends or
    /// branches off is split, with the block.
    pub(crate) fn grow_far(
        &mut self,
        path: Link<Item>,
        room: Room,
        alloc: Global,
        kind: PatternKind,
        serial: NewSerial,
    )
        requires neat { IsNeat (contents self.old).1 }
        ensures { ChangedAt (key_of path.nodes) (with_serial kind serial)
            (contents self.old) (contents self.new) }
    {
        let mut path = path;
        let (above, count) = self.descend_path(&mut path);
        self.graft(count, path, room, alloc, kind, serial);
        self.ascend(above);
    }

    /// As `remove_all`, however deep the key goes.
    pub(crate) fn remove_far(&mut self, key: &[u8], kind: PatternKind, serials: &[u64]) -> bool
        requires neat { IsNeat (contents self.old).1 }
        ensures found { result
            ≡ has_serials kind serials.now (held_in key.now (contents self.old)) }
        ensures taken { ChangedAt key.now (without_serials kind serials.now)
            (contents self.old) (contents self.new) }
    {
        let (above, count, rest) = self.descend(key);
        let found = self.remove_here(count, rest, kind, serials);
        self.ascend(above);
        found
    }
}
