//! The child nodes of one place of the tree: siblings, each with another first byte. The one that
//! was added last is the first.
ghost use Rattle.std.specs.Prelude.{◌≡◌, Some, None, false, IsTrue, MatchOption};
ghost use Rattle.kob_prefix_tree.specs.Tree.{sibling, value_at, without, siblings};
ghost use Rattle.kob_prefix_tree.specs.Contents.{contents, node_contents, trie_of};
ghost use Rattle.kob_prefix_tree.specs.Contents.{first_byte, first_contents, IsInFront};
ghost use Rattle.kob_prefix_tree.specs.Nodes.{Leads};

use crate::branch::Branch;
use crate::link::Link;
use crate::node::Node;
use crate::serials::Serials;
use crate::tail::Tail;
use std::alloc::Global;
use std::mem::{replace, size_of};
use std_alloc::room::Vacant;

/// The contents of a node: its bytes, of which the first one differs from those of its siblings,
/// and the serials of the key that ends there.
#[derive(Drop)]
pub(crate) struct Item {
    pub(crate) byte: u8,
    pub(crate) tail: Tail,
    pub(crate) literal: Serials,
    pub(crate) prefixed: Serials,
}

/// A node of the tree, in 72 bytes.
pub(crate) type ByteNode = Node<Item, Link<Item>, Link<Item>>;

const _: () = prove!(size_of::<ByteNode>() == 72);

/// A block for a node.
pub(crate) type Room = Vacant<Node<Item, Link<Item>, Link<Item>>, Global>;

impl Link<Item> {
    /// The node that begins with this byte.
    pub(crate) fn find(&self, byte: u8) -> Option<&ByteNode>
        ensures { MatchOption result
            (value_at byte (siblings (trie_of self.now.nodes)) ≡ None)
            (λ n. value_at byte (siblings (trie_of self.now.nodes)) ≡ Some (node_contents n.now)) }
    {
        let mut at = self;
        while !at.is_null() {
            let node = at.get();
            if node.item.byte == byte {
                return Some(node);
            }
            at = &node.next;
        }
        None
    }

    /// Links a node in front.
    pub(crate) fn put_front(&mut self, room: Room, alloc: Global, byte: u8, branch: Branch)
        ensures { trie_of self.new.nodes
            ≡ sibling byte (contents branch).0 (contents branch).1 (trie_of self.old.nodes) }
    {
        let Branch {
            tail,
            literal,
            prefixed,
            below,
        } = branch;
        let item = Item {
            byte,
            tail,
            literal,
            prefixed,
        };
        let next = replace(self, Link::null());
        let node = Node {
            item,
            child: below,
            next,
            alloc,
        };
        let emptied = replace(self, Link::of(room, node));
        emptied.give_up();
    }

    /// Links the first node of another list in front. The nodes after it are freed.
    pub(crate) fn put_node(&mut self, other: Link<Item>)
        requires { Leads other.nodes }
        ensures { trie_of self.new.nodes ≡ sibling (first_byte other.nodes)
            (first_contents other.nodes).0 (first_contents other.nodes).1 (trie_of self.old.nodes) }
    {
        let mut other = other;
        let next = replace(self, Link::null());
        other.get_mut().next = next;
        let emptied = replace(self, other);
        emptied.give_up();
    }

    /// Moves the node that begins with this byte to the front, if there is one.
    pub(crate) fn bring_front(&mut self, byte: u8) -> bool
        ensures there { IsTrue result → IsInFront byte self.old.nodes self.new.nodes }
        ensures none { result ≡ false → (trie_of self.new.nodes ≡ trie_of self.old.nodes)
            × (value_at byte (siblings (trie_of self.old.nodes)) ≡ None) }
    {
        if !self.is_null() && self.get().item.byte == byte {
            return true;
        }
        match self.take_out(byte) {
            None => false,
            Some(node) => {
                self.put_node(node);
                true
            }
        }
    }

    /// Removes the node that begins with this byte, with all nodes below, and returns it as a list
    /// of its own. The next sibling takes its place. It recurses once per sibling, and so at most
    /// 256 times.
    #[cycle(take_out)]
    pub(crate) fn take_out(&mut self, byte: u8) -> Option<Link<Item>>
        ensures { MatchOption result
            ((value_at byte (siblings (trie_of self.old.nodes)) ≡ None)
            × (trie_of self.new.nodes ≡ trie_of self.old.nodes))
            (λ l. Leads l.nodes × ((first_byte l.nodes ≡ byte)
            × ((value_at byte (siblings (trie_of self.old.nodes)) ≡ Some (first_contents l.nodes))
            × (siblings (trie_of self.new.nodes)
            ≡ without byte (siblings (trie_of self.old.nodes)))))) }
    {
        if self.is_null() {
            return None;
        }
        let node = self.get_mut();
        if node.item.byte != byte {
            return node.next.take_out(byte);
        }
        let next = replace(&mut node.next, Link::null());
        Some(replace(self, next))
    }
}
