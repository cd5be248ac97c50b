//! The link to a list of siblings: a pointer that is null, or points to the first of them. No other
//! module dereferences a raw pointer.
ghost use Rattle.std.specs.Prelude.{◌≡◌, ◌↔◌, IfOk, IsTrue};
ghost use types.Logic.{sem};
ghost use Rattle.kob_prefix_tree.specs.Tree.{Tree, leaf, tree_coded};
ghost use Rattle.kob_prefix_tree.specs.Owned.{nodes_own, nodes_lent};

use crate::node::Node;
use std::alloc::{AllocError, Global};
use std::marker::{Model, Send, Sync};
use std::ptr;
use std_alloc::room::Vacant;

/// One pointer. It owns the siblings that it points to, and all nodes below them.
pub struct Link<T> {
    first: *mut Node<T, Link<T>, Link<T>>,
    pub ghost nodes: { Tree T } by { tree_coded T.code },
}

impl<T> Model for Link<T> {
    ghost also_owns = { λ l. nodes_own T.row l.nodes l.first };

    ghost also_shares = { λ l _ κ. nodes_lent T.row l.nodes l.first κ };
}

impl<T> Link<T> {
    ghost use Rattle.kob_prefix_tree.specs.Nodes.{Leads, tree_of, last_of, with_others};
    ghost use Rattle.kob_prefix_tree.specs.Nodes.{keeps_what_is_left};

    /// The null link.
    pub fn null() -> Link<T>
        ensures { result.nodes ≡ leaf }
    {
        Link {
            first: ptr::null_mut(),
        }
    }

    /// A block for one node. The kit's `take` answers a refusal with the allocator, so the error is
    /// made here, where an allocation was refused.
    pub fn block(alloc: Global) -> Result<Vacant<Node<T, Link<T>, Link<T>>, Global>, AllocError>
        ensures { IfOk result (λ room. room.alloc ≡ alloc) }
    {
        Vacant::take(alloc).map_err(|_| AllocError)
    }

    /// Whether the link is null.
    pub fn is_null(&self) -> bool
        ensures { IsTrue result ↔ (self.now.nodes ≡ leaf) }
    {
        self.first == ptr::null_mut()
    }

    /// The address of the first node.
    pub fn start(&self) -> *mut Node<T, Link<T>, Link<T>>
        ensures { result ≡ self.now.first }
    {
        self.first
    }

    /// Reads the first node.
    pub fn get(&self) -> &Node<T, Link<T>, Link<T>>
        requires { Leads self.now.nodes }
        ensures { self.now.nodes ≡ tree_of result.now }
    {
        unsafe { &*self.first }
    }

    /// Borrows the first node mutably.
    pub fn get_mut(&mut self) -> &mut Node<T, Link<T>, Link<T>>
        requires { Leads self.old.nodes }
        ensures* writes_back { sem 𝓛 (keeps_what_is_left T.row self.entry result) }
        ensures value { self.old.nodes ≡ tree_of result.now }
    {
        unsafe { &mut *self.first }
    }

    /// Writes the node into an empty block, and links it.
    pub fn of(
        room: Vacant<Node<T, Link<T>, Link<T>>, Global>,
        node: Node<T, Link<T>, Link<T>>,
    ) -> Link<T>
        ensures { result.nodes ≡ tree_of node }
    {
        let Vacant { ptr, alloc: _ } = room;
        unsafe {
            ptr.write(node);
        }
        Link { first: ptr }
    }

    /// Moves the first node out of its block, with its children and the siblings after it.
    pub fn take(
        self,
        alloc: Global,
    ) -> (
        Node<T, Link<T>, Link<T>>,
        Vacant<Node<T, Link<T>, Link<T>>, Global>,
    )
        requires { Leads self.nodes }
        ensures { self.nodes ≡ tree_of result.0 }
    {
        let Link { first } = self;
        unsafe {
            let node = first.read();
            (node, Vacant { ptr: first, alloc })
        }
    }

    /// Links other siblings after the last of these, which is at `last`.
    pub fn join(self, last: *mut Node<T, Link<T>, Link<T>>, others: Link<T>) -> Link<T>
        requires leads { Leads self.nodes }
        requires last { last ≡ last_of self.nodes self.first }
        ensures first { result.first ≡ self.first }
        ensures nodes { result.nodes ≡ with_others self.nodes others }
    {
        unsafe {
            let next = &raw mut (*last).next;
            next.write(others);
        }
        self
    }

    /// Drops a null link.
    pub fn give_up(self)
        requires { self.nodes ≡ leaf }
    {
        let Link { first: _ } = self;
    }
}

impl<T: Drop> Drop for Link<T> {
    fn drop(mut self) {
        loop {
            if self.is_null() {
                self.give_up();
                return;
            }
            let alloc = self.get().alloc;
            let (node, room) = self.take(alloc);
            room.free();
            let Node {
                item,
                child,
                next,
                alloc: _,
            } = node;
            drop(item);
            self = Link::before(child, next);
        }
    }
}

impl<T> Link<T> {
    ghost use Rattle.std.specs.Prelude.{◌+◌};
    ghost use Rattle.kob_prefix_tree.specs.Nodes.{size};

    /// The siblings of `first` in reverse order, and then those of `rest`.
    fn before(first: Link<T>, rest: Link<T>) -> Link<T>
        ensures { size result.nodes ≡ size first.nodes + size rest.nodes }
    {
        let mut first = first;
        let mut rest = rest;
        while !first.is_null() {
            let heap = first.get().alloc;
            let (node, room) = first.take(heap);
            let Node {
                item,
                child,
                next,
                alloc,
            } = node;
            rest = Link::of(
                room,
                Node {
                    item,
                    child,
                    next: rest,
                    alloc,
                },
            );
            first = next;
        }
        first.give_up();
        rest
    }
}

// A link is the only pointer to its nodes, so it may move to another thread if their contents may.
unsafe impl<T: Send> Send for Link<T> {}

unsafe impl<T: Sync> Sync for Link<T> {}
