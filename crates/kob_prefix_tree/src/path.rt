//! The nodes of a key, allocated ahead: linked as siblings, each with some of its bytes.
ghost use Rattle.std.specs.Prelude.{◌≡◌, ◌≤◌, [], ◌∷◌, ◌++◌, ◌+◌, ◌*◌, drop, length, take};
ghost use Rattle.std.specs.Prelude.{IfOk, MatchOption, OnOk};
ghost use Rattle.kob_prefix_tree.specs.Nodes.{Leads};
ghost use Rattle.kob_prefix_tree.specs.Path.{key_of, Parts};
ghost use Rattle.kob_prefix_tree.specs.Tree.{count};

use crate::link::Link;
use crate::node::Node;
use crate::serials::Serials;
use crate::siblings::Item;
use crate::tail::Tail;
use std::alloc::{AllocError, Global};
use std::mem::replace;

impl Link<Item> {
    /// The first byte of the key.
    pub(crate) fn first_byte(&self) -> Option<u8>
        ensures { MatchOption result
            (key_of self.now.nodes ≡ [])
            (λ byte. key_of self.now.nodes ≡ byte ∷ drop 1 (key_of self.now.nodes)) }
    {
        if self.is_null() {
            return None;
        }
        Some(self.get().item.byte)
    }

    /// Removes the first byte, and frees a node that has no other.
    pub(crate) fn drop_byte(&mut self)
        ensures { key_of self.new.nodes ≡ drop 1 (key_of self.old.nodes) }
    {
        if self.is_null() {
            return;
        }
        let node = self.get_mut();
        if let Some(byte) = node.item.tail.pop_front() {
            node.item.byte = byte;
            return;
        }
        let alloc = node.alloc;
        let first = replace(self, Link::null());
        let (node, room) = first.take(alloc);
        room.free();
        let emptied = replace(self, node.next);
        emptied.give_up();
    }

    /// Removes the common prefix of the key and a tail, and returns its length. It recurses at most
    /// once per byte, and so at most 22 times.
    #[cycle(drop_common)]
    pub(crate) fn drop_common(&mut self, tail: &[u8]) -> usize
        ensures { Parts tail.now (key_of self.old.nodes) result (key_of self.new.nodes) }
    {
        let Some((first, others)) = tail.split_first() else {
            return 0;
        };
        let Some(byte) = self.first_byte() else {
            return 0;
        };
        if *first != byte {
            return 0;
        }
        let count = self.drop_shared(others);
        count + self.drop_common(&others[count..]) + 1
    }

    /// Removes the first byte, and from the others of its node the common prefix with some bytes,
    /// and returns the length of that.
    fn drop_shared(&mut self, bytes: &[u8]) -> usize
        ensures within { result ≤ length bytes.now }
        ensures key { drop 1 (key_of self.old.nodes)
            ≡ take result bytes.now ++ key_of self.new.nodes }
    {
        if self.is_null() {
            return 0;
        }
        let count = self.get_mut().item.tail.drop_common(bytes);
        self.drop_byte();
        count
    }

    /// Adds a node with these bytes in front, if there are any.
    fn push_node(&mut self, alloc: Global, bytes: &[u8]) -> Result<(), AllocError>
        requires { length bytes.now ≤ 23 }
        ensures key { IfOk result (λ _. key_of self.new.nodes ≡ bytes.now ++ key_of self.old.nodes) }
        ensures count { OnOk result (count self.new.nodes ≤ 1 + count self.old.nodes) }
    {
        let Some((byte, others)) = bytes.split_first() else {
            return Ok(());
        };
        let room = Link::block(alloc)?;
        let item = Item {
            byte: *byte,
            tail: Tail::of(others),
            literal: Serials::new(),
            prefixed: Serials::new(),
        };
        let next = replace(self, Link::null());
        let node = Node {
            item,
            child: Link::null(),
            next,
            alloc,
        };
        let emptied = replace(self, Link::of(room, node));
        emptied.give_up();
        Ok(())
    }
}

/// The length of the common prefix of a tail and a key, and the rest of the key.
pub(crate) fn parted<'a>(tail: &[u8], key: &'a [u8]) -> (usize, &'a [u8])
    ensures { Parts tail.now key.now result.0 result.1.now }
{
    let count = common_length(tail, key);
    (count, &key[count..])
}

/// The length of the common prefix of a tail and a key.
pub(crate) fn common_length(tail: &[u8], key: &[u8]) -> usize
    ensures within { result ≤ length key.now }
    ensures parts { Parts tail.now key.now result (drop result key.now) }
{
    let mut count = 0;
    while count < tail.len() && count < key.len() && tail[count] == key[count] {
        count += 1;
    }
    count
}

/// Nodes for a key, one for every 23 bytes. If one cannot be allocated, the others are freed.
pub(crate) fn path_of(alloc: Global, key: &[u8]) -> Result<Link<Item>, AllocError>
    ensures key { IfOk result (λ path. key_of path.nodes ≡ key.now) }
    ensures count { IfOk result (λ path. 23 * count path.nodes ≤ length key.now + 22) }
{
    let mut path = Link::null();
    let mut rest = key;
    while !rest.is_empty() {
        let (before, last) = rest.split_at(rest.len().saturating_sub(23));
        path.push_node(alloc, last)?;
        rest = before;
    }
    Ok(path)
}

/// One node for no key, of which only the block is used.
pub(crate) fn spare_node(alloc: Global) -> Result<Link<Item>, AllocError>
    ensures { IfOk result (λ spare. Leads spare.nodes) }
{
    let mut spare = Link::null();
    spare.push_node(alloc, &[0])?;
    Ok(spare)
}
