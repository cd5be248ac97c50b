//! The tree, seen as a finite map from keys to serials.
ghost use Rattle.std.specs.Prelude.{◌≡◌, ◌∷◌, ◌++◌, ◌+◌, ◌≤◌, ◌↔◌, ℕ};
ghost use Rattle.std.specs.Prelude.{Contains, length, OnOk, OnErr, IfOk};
ghost use Rattle.std.specs.FinMap as map;
ghost use Rattle.kob_prefix_tree.specs.Held.{has_serial, has_serials, serials_of};
ghost use Rattle.kob_prefix_tree.specs.Contents.{part_of, left_of};
ghost use Rattle.kob_prefix_tree.specs.Held.{held, added, removed, removed_all, walk_of, IsHeld, IsLevels};

use crate::branch::Branch;
use crate::kind::PatternKind;
use crate::link::Link;
use crate::part::Part;
use crate::path::{path_of, spare_node};
use crate::serials::NewSerial;
use crate::siblings::Item;
use crate::walk::Walk;
use std::alloc::{AllocError, Global};
use std::marker::Model;

/// A map from keys, which are byte strings, to two lists of serials: the literal and the prefixed
/// ones.
///
/// A node takes 72 bytes. It has 1 to 23 bytes of a key, the serials of the key that ends with
/// them, its first child and its next sibling. No two siblings begin with the same byte. A node
/// without serials and children is freed. A node is split if a key ends or branches off within its
/// bytes, and no removal joins the parts again.
///
/// A key may be of any length. An addition or a removal goes down the first 129 nodes on the way by
/// calls, and the others by a loop. At each node it recurses at most once per byte and once per
/// sibling, and returns from there before it goes to the next node. All else is loops, also the
/// freeing of a tree. A tree may be moved to another thread.
#[derive(Drop)]
pub struct PrefixTree {
    root: Branch,
}

impl Model for PrefixTree {
    ghost use Rattle.std.specs.Coded.{coded_ℕ, coded_list, coded×};
    ghost use Rattle.std.specs.FinMap as map;
    ghost use Rattle.kob_prefix_tree.specs.Tree.{IsNeat, entries_in};
    ghost use Rattle.kob_prefix_tree.specs.Contents.{contents};
    ghost use Rattle.kob_prefix_tree.specs.Held.{PrefixMap};

    ghost Value = { PrefixMap };

    ghost coded = { map.code (coded_list coded_ℕ)
        (coded× (coded_list coded_ℕ) (coded_list coded_ℕ)) };

    ghost view = { λ a. map.from_entries (entries_in (contents a.root)) };

    ghost invariant = { λ a. IsNeat (contents a.root).1 };
}

/// The nodes of one key, one more for a node that is split, and the blocks for the key's serial,
/// allocated ahead. They are freed when it is dropped.
#[derive(Drop)]
pub struct Prepared {
    path: Link<Item>,
    spare: Link<Item>,
    kind: PatternKind,
    serial: NewSerial,
}

impl Model for Prepared {
    ghost use Rattle.kob_prefix_tree.specs.Held.{Addition};
    ghost use Rattle.kob_prefix_tree.specs.Path.{key_of};
    ghost use Rattle.kob_prefix_tree.specs.Nodes.{Leads};

    ghost Value = { Addition };

    ghost view = { λ a. record {
      key = key_of a.path.nodes;
      kind = a.kind;
      serial = a.serial;
    } };

    ghost invariant = { λ a. Leads a.spare.nodes };
}

impl PrefixTree {
    /// The empty map. Does not allocate.
    pub fn new() -> PrefixTree
        ensures { result ≡ map.empty }
    {
        PrefixTree {
            root: Branch::new(),
        }
    }

    /// Appends the serial to the key's list of its kind. The only error is out of memory. No node
    /// is made that is there already.
    #[tactic(auto, using(crate::proofs::WayLemmas::added_of, crate::proofs::WayLemmas::same_of))]
    pub fn add(
        &mut self,
        alloc: Global,
        key: &[u8],
        kind: PatternKind,
        serial: u64,
    ) -> Result<(), AllocError>
        ensures added { OnOk result (self.new ≡ added self.old key.now kind serial) }
        ensures refused { OnErr result (self.new ≡ self.old) }
    {
        let serial = NewSerial::new(alloc, serial)?;
        self.root.add(alloc, key, kind, serial)
    }

    /// The first step of an addition: allocates the nodes and the serial's blocks, and leaves the
    /// tree as it is. It makes a node for every 23 bytes of the key, since those that are there now
    /// may be removed before the second step. It makes one more, since a node may have to be split.
    /// The serial has two blocks, for the same reason.
    pub fn prepare_add(
        &self,
        alloc: Global,
        key: &[u8],
        kind: PatternKind,
        serial: u64,
    ) -> Result<Prepared, AllocError>
        ensures { IfOk result (λ p. p ≡ record { key = key.now; kind = kind; serial = serial }) }
    {
        let serial = NewSerial::new(alloc, serial)?;
        let path = path_of(alloc, key)?;
        let spare = spare_node(alloc)?;
        Ok(Prepared {
            path,
            spare,
            kind,
            serial,
        })
    }

    /// The second step: links in what was made, whatever was added and removed since, and frees the
    /// nodes whose bytes are there already. Does not allocate.
    #[tactic(auto, using(crate::proofs::WayLemmas::added_of))]
    pub fn commit_add(&mut self, prepared: Prepared)
        ensures { self.new ≡ added self.old prepared.key prepared.kind prepared.serial }
    {
        let Prepared {
            path,
            spare,
            kind,
            serial,
        } = prepared;
        let heap = spare.get().alloc;
        let (_, room) = spare.take(heap);
        self.root.grow(path, room, heap, kind, serial);
    }

    /// Removes the serial from the key's list of its kind, once if it is there more often, and
    /// returns whether it was there. Nodes that then have no serials and no children are freed.
    /// Does not allocate.
    #[tactic(auto, using(crate::proofs::WayLemmas::removing))]
    pub fn remove(&mut self, key: &[u8], kind: PatternKind, serial: u64) -> bool
        ensures found { result ≡ has_serial kind serial (held self.old key.now) }
        ensures removed { self.new ≡ removed self.old key.now kind serial }
    {
        self.root.remove_all(key, kind, &[serial])
    }

    /// Removes these serials from the key's list of their kind in one pass, and returns whether any
    /// was there. They must be in the order of that list: each is searched for after the one before
    /// it. Nodes that then have no serials and no children are freed. Does not allocate.
    #[tactic(auto, using(crate::proofs::WayLemmas::removing))]
    pub fn remove_all(&mut self, key: &[u8], kind: PatternKind, serials: &[u64]) -> bool
        ensures found { result ≡ has_serials kind serials.now (held self.old key.now) }
        ensures removed { self.new ≡ removed_all self.old key.now kind serials.now }
    {
        self.root.remove_all(key, kind, serials)
    }

    /// The prefixed serials of the keys that are prefixes of the name, the shortest key first, and
    /// then the literal serials of the name. Does not allocate, and enters no more places than
    /// `levels` returns.
    pub fn walk<'a>(&'a self, name: &'a [u8]) -> Walk<'a>
        ensures { left_of result ≡ walk_of self.now name.now }
    {
        self.whole().walk(name)
    }

    /// The literal serials of the name alone. Does not allocate.
    pub fn literal(&self, name: &[u8]) -> Walk<'_>
        ensures { left_of result ≡ serials_of PatternKind.Literal (held self.now name.now) }
    {
        self.listed(name, PatternKind::Literal)
    }

    /// The serials of the key's list of one kind, in order. Does not allocate.
    pub fn listed(&self, key: &[u8], kind: PatternKind) -> Walk<'_>
        ensures { left_of result ≡ serials_of kind (held self.now key.now) }
    {
        self.whole().listed(key, kind)
    }

    /// The serials of both kinds of all keys that begin with a text, in no particular order. It
    /// reads the nodes of these keys alone. The only error is out of memory.
    pub fn below(&self, alloc: Global, text: &[u8]) -> Result<Vec<u64>, AllocError>
        ensures { IfOk result (λ made. (serial : ℕ) → Contains made.items serial
            ↔ IsHeld (λ key. held self.now (text.now ++ key)) serial) }
    {
        match self.root.place().at(text) {
            None => Ok(Vec::new(alloc)),
            Some(place) => place.serials_behind(alloc),
        }
    }

    /// The part of the keys that begin with a text and the byte after it. Does not allocate.
    pub fn behind(&self, text: &[u8], byte: u8) -> Part<'_>
        ensures { part_of result ≡ (λ key. held self.now (text.now ++ byte ∷ key)) }
    {
        self.whole().behind(text, byte)
    }

    /// The part of all keys.
    fn whole(&self) -> Part<'_>
        ensures { part_of result ≡ held self.now }
    {
        Part::of(self.root.place())
    }

    /// The number of places that a walk of the name enters, including the start. Does not allocate.
    pub fn levels(&self, name: &[u8]) -> usize
        ensures levels { IsLevels self.now name.now result }
        ensures bounded { result ≤ length name.now + 1 }
    {
        self.root.place().depth_of(name) + 1
    }
}
