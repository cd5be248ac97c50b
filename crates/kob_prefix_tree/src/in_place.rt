//! Changes made in place. As far as a key goes on to nodes that are there, each is moved to the front
//! of its siblings, and none is taken out.
ghost use Rattle.std.specs.Prelude.{◌≡◌, ◌≢◌, ◌∷◌, ◌↔◌, false, IfErr, IfOk, IsTrue, MatchOption, OnErr, OnOk};
ghost use Rattle.kob_prefix_tree.specs.Nodes.{Leads};
ghost use Rattle.kob_prefix_tree.specs.Held.{has_serials, nothing, with_serial, without_serials};
ghost use Rattle.kob_prefix_tree.specs.Tree.{bare, held_in, ChangedAt, IsNeat};
ghost use Rattle.kob_prefix_tree.specs.Contents.{contents, first_byte, first_contents, trie_of};
ghost use Rattle.kob_prefix_tree.specs.Contents.{kept_behind, node_contents, node_end, others_of};
ghost use Rattle.kob_prefix_tree.specs.Contents.{LeftInFront};
ghost use Rattle.kob_prefix_tree.specs.Contents.{ChangedInFront, GoesOn, IsInFront, StaysAt, LeadsNowhere};
ghost use Rattle.kob_prefix_tree.specs.Path.{key_of};

use crate::branch::Branch;
use crate::kind::PatternKind;
use crate::link::Link;
use crate::path::parted;
use crate::serials::NewSerial;
use crate::siblings::{ByteNode, Item, Room};
use std::alloc::{AllocError, Global};
use std::mem::replace;

/// How many nodes a change goes down in place. Each takes a call, and so room on the stack. Below
/// them the nodes on the way are taken out and put back.
const LEVELS: u8 = 128;

impl Branch {
    /// Appends the serial at the key. It makes the nodes that are missing, and no others, and links
    /// them in when all are made.
    pub(crate) fn add(
        &mut self,
        alloc: Global,
        key: &[u8],
        kind: PatternKind,
        serial: NewSerial,
    ) -> Result<(), AllocError>
        requires neat { IsNeat (contents self.old).1 }
        ensures put { OnOk result (ChangedAt key.now (with_serial kind serial)
            (contents self.old) (contents self.new)) }
        ensures refused { OnErr result (ChangedAt key.now (λ held. held)
            (contents self.old) (contents self.new)) }
    {
        if !self.tail.is_empty() {
            return self.add_far(alloc, key, kind, serial);
        }
        match self.below.follow(key) {
            None => self.add_far(alloc, key, kind, serial),
            Some(rest) => self.below.add_in_place(LEVELS, alloc, rest, kind, serial),
        }
    }

    /// Appends the serial at the key that the nodes of the path hold. Nodes whose bytes are in the
    /// tree already are freed, the others linked in. A node within whose bytes the key ends or
    /// branches off is split, with the block.
    pub(crate) fn grow(
        &mut self,
        path: Link<Item>,
        room: Room,
        alloc: Global,
        kind: PatternKind,
        serial: NewSerial,
    )
        requires neat { IsNeat (contents self.old).1 }
        ensures { ChangedAt (key_of path.nodes) (with_serial kind serial)
            (contents self.old) (contents self.new) }
    {
        let mut path = path;
        if self.tail.is_empty() && self.below.follow_path(&mut path) {
            self.below
                .grow_in_place(LEVELS, path, room, alloc, kind, serial);
        } else {
            self.grow_far(path, room, alloc, kind, serial);
        }
    }

    /// Removes these serials at the key in one pass, and returns whether any was there. Frees the
    /// nodes that then have no serials and no children.
    pub(crate) fn remove_all(&mut self, key: &[u8], kind: PatternKind, serials: &[u64]) -> bool
        requires neat { IsNeat (contents self.old).1 }
        ensures found { result
            ≡ has_serials kind serials.now (held_in key.now (contents self.old)) }
        ensures taken { ChangedAt key.now (without_serials kind serials.now)
            (contents self.old) (contents self.new) }
    {
        if !self.tail.is_empty() {
            return self.remove_far(key, kind, serials);
        }
        match self.below.follow(key) {
            None => self.remove_far(key, kind, serials),
            Some(rest) => self.below.remove_in_place(LEVELS, rest, kind, serials),
        }
    }
}

impl Link<Item> {
    /// Moves the node that begins with the first byte of the path to the front, and removes the byte
    /// from the path, if there is such a node.
    fn follow_path(&mut self, path: &mut Link<Item>) -> bool
        ensures there { IsTrue result → (key_of path.old.nodes
            ≡ first_byte self.new.nodes ∷ key_of path.new.nodes)
            × IsInFront (first_byte self.new.nodes) self.old.nodes self.new.nodes }
        ensures none { result ≡ false → (path.new ≡ path.old)
            × ((trie_of self.new.nodes ≡ trie_of self.old.nodes)
            × LeadsNowhere (key_of path.old.nodes) (nothing, trie_of self.old.nodes)) }
    {
        let Some(byte) = path.first_byte() else {
            return false;
        };
        if !self.bring_front(byte) {
            return false;
        }
        path.drop_byte();
        true
    }

    /// Moves the node that begins with the first byte of the key to the front, and returns the other
    /// bytes of the key, if there is such a node.
    fn follow<'a>(&mut self, key: &'a [u8]) -> Option<&'a [u8]>
        ensures { MatchOption result
            ((trie_of self.new.nodes ≡ trie_of self.old.nodes)
            × LeadsNowhere key.now (nothing, trie_of self.old.nodes))
            (λ rest. (key.now ≡ first_byte self.new.nodes ∷ rest.now)
            × IsInFront (first_byte self.new.nodes) self.old.nodes self.new.nodes) }
    {
        let (byte, rest) = key.split_first()?;
        if !self.bring_front(*byte) {
            return None;
        }
        Some(rest)
    }

    /// As `Branch::add`, behind the first byte of the first node. It recurses at most once per level.
    #[cycle(add_in_place)]
    fn add_in_place(
        &mut self,
        levels: u8,
        alloc: Global,
        key: &[u8],
        kind: PatternKind,
        serial: NewSerial,
    ) -> Result<(), AllocError>
        requires leads { Leads self.old.nodes }
        requires neat { IsNeat (first_contents self.old.nodes).1 }
        requires some { first_contents self.old.nodes ≢ bare }
        ensures put { OnOk result (ChangedInFront key.now (with_serial kind serial)
            self.old.nodes self.new.nodes) }
        ensures refused { OnErr result (ChangedInFront key.now (λ held. held)
            self.old.nodes self.new.nodes) }
    {
        let node = self.get_mut();
        if levels > 0 {
            match step(node, key) {
                Ok(rest) => {
                    let child = &mut node.child;
                    child.add_in_place(levels - 1, alloc, rest, kind, serial)
                }
                Err((count, rest)) => {
                    let mut branch = Branch::new();
                    branch.change_places(node);
                    let added = branch.add_here(alloc, count, rest, kind, serial);
                    branch.change_places(node);
                    added
                }
            }
        } else {
            let mut branch = Branch::new();
            branch.change_places(node);
            let added = branch.add_far(alloc, key, kind, serial);
            branch.change_places(node);
            added
        }
    }

    /// As `Branch::grow`, behind the first byte of the first node. It recurses at most once per level.
    #[cycle(grow_in_place)]
    fn grow_in_place(
        &mut self,
        levels: u8,
        path: Link<Item>,
        room: Room,
        alloc: Global,
        kind: PatternKind,
        serial: NewSerial,
    )
        requires leads { Leads self.old.nodes }
        requires neat { IsNeat (first_contents self.old.nodes).1 }
        ensures { ChangedInFront (key_of path.nodes) (with_serial kind serial)
            self.old.nodes self.new.nodes }
    {
        let mut path = path;
        let node = self.get_mut();
        if levels > 0 {
            match step_along(node, &mut path) {
                None => {
                    let child = &mut node.child;
                    child.grow_in_place(levels - 1, path, room, alloc, kind, serial);
                }
                Some(count) => {
                    let mut branch = Branch::new();
                    branch.change_places(node);
                    branch.graft(count, path, room, alloc, kind, serial);
                    branch.change_places(node);
                }
            }
        } else {
            let mut branch = Branch::new();
            branch.change_places(node);
            branch.grow_far(path, room, alloc, kind, serial);
            branch.change_places(node);
        }
    }
}

impl Link<Item> {
    /// As `Branch::remove_all`, behind the first byte of the first node, which is freed if it then has
    /// no serials and no children. It recurses at most once per level.
    #[cycle(remove_in_place)]
    fn remove_in_place(
        &mut self,
        levels: u8,
        key: &[u8],
        kind: PatternKind,
        serials: &[u64],
    ) -> bool
        requires leads { Leads self.old.nodes }
        requires neat { IsNeat (first_contents self.old.nodes).1 }
        ensures found { result
            ≡ has_serials kind serials.now (held_in key.now (first_contents self.old.nodes)) }
        ensures taken { LeftInFront key.now (without_serials kind serials.now)
            self.old.nodes self.new.nodes }
    {
        let node = self.get_mut();
        let found = remove_behind(node, levels, key, kind, serials);
        if node_ends_bare(node) {
            self.drop_first();
        }
        found
    }

    /// Removes the first node, and frees it with all nodes below.
    fn drop_first(&mut self)
        requires { Leads self.old.nodes }
        ensures { trie_of self.new.nodes ≡ others_of self.old.nodes }
    {
        let next = replace(&mut self.get_mut().next, Link::null());
        *self = next;
    }
}

/// As `Branch::remove_all`, behind the first byte of a node.
#[cycle(remove_in_place)]
fn remove_behind(
    node: &mut ByteNode,
    levels: u8,
    key: &[u8],
    kind: PatternKind,
    serials: &[u64],
) -> bool
    requires { IsNeat (node_contents node.old).1 }
    ensures found { result
        ≡ has_serials kind serials.now (held_in key.now (node_contents node.old)) }
    ensures taken { ChangedAt key.now (without_serials kind serials.now)
        (node_contents node.old) (kept_behind node.new.item.tail (node_end node.new)) }
    ensures byte { node.new.item.byte ≡ node.old.item.byte }
    ensures next { node.new.next ≡ node.old.next }
{
    if levels > 0 {
        match step(node, key) {
            Ok(rest) => node.child.remove_in_place(levels - 1, rest, kind, serials),
            Err((count, rest)) => {
                let mut branch = Branch::new();
                branch.change_places(node);
                let found = branch.remove_here(count, rest, kind, serials);
                branch.change_places(node);
                found
            }
        }
    } else {
        let mut branch = Branch::new();
        branch.change_places(node);
        let found = branch.remove_far(key, kind, serials);
        branch.change_places(node);
        found
    }
}

/// Whether a node has no serials and no children.
#[tactic(auto, using(crate::proofs::WayLemmas::nothing_behind))]
fn node_ends_bare(node: &ByteNode) -> bool
    ensures { IsTrue result ↔ (node_end node.now ≡ bare) }
{
    node.item.literal.is_empty() && node.item.prefixed.is_empty() && node.child.is_null()
}

/// Goes on along the key behind the bytes of a node, to a child that is moved to the front, and
/// returns the rest of the key. If there is none, the error is how many of those bytes the key had,
/// and the rest of it.
fn step<'a>(node: &mut ByteNode, key: &'a [u8]) -> Result<&'a [u8], (usize, &'a [u8])>
    ensures goes { IfOk result (λ rest. GoesOn key.now rest.now node.old node.new) }
    ensures stays { IfErr result (λ end. StaysAt end.0 key.now end.1.now node.old node.new) }
{
    let (count, behind) = parted(node.item.tail.as_slice(), key);
    if count != node.item.tail.as_slice().len() {
        return Err((count, behind));
    }
    node.child.follow(behind).ok_or((count, behind))
}

/// Goes on along the path behind the bytes of a node, to a child that is moved to the front. If there
/// is none, it returns how many of those bytes the path had. What it had is removed from the path.
fn step_along(node: &mut ByteNode, path: &mut Link<Item>) -> Option<usize>
    ensures { MatchOption result
        (GoesOn (key_of path.old.nodes) (key_of path.new.nodes) node.old node.new)
        (λ count. StaysAt count (key_of path.old.nodes) (key_of path.new.nodes) node.old node.new) }
{
    let count = path.drop_common(node.item.tail.as_slice());
    if count == node.item.tail.as_slice().len() && node.child.follow_path(path) {
        return None;
    }
    Some(count)
}
