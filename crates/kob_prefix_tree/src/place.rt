//! A place of the tree, for reading.
ghost use Rattle.std.specs.Prelude.{◌≡◌, ◌≢◌, ◌∷◌, ◌++◌, ◌≤◌, ℕ, List, length, IfSome, MatchOption};
ghost use Rattle.kob_prefix_tree.specs.Held.{nothing, serials_of, IsLongestInUse};
ghost use Rattle.kob_prefix_tree.specs.Tree.{bare, held_in, IsNeat};
ghost use Rattle.kob_prefix_tree.specs.Contents.{node_contents, seen, unread_of};

use crate::kind::PatternKind;
use crate::link::Link;
use crate::serials::{Serials, Unread};
use crate::siblings::{ByteNode, Item};

/// A place for reading: the root, or the place after a byte of a node, with the rest of the node's
/// bytes.
#[derive(Clone, Copy, Drop)]
pub(crate) struct Place<'a> {
    pub(crate) tail: &'a [u8],
    pub(crate) literal: &'a Serials,
    pub(crate) prefixed: &'a Serials,
    pub(crate) below: &'a Link<Item>,
}

impl<'a> Place<'a> {
    fn of(node: &'a ByteNode) -> Place<'a>
        ensures { seen result ≡ node_contents node.now }
    {
        Place {
            tail: node.item.tail.as_slice(),
            literal: &node.item.literal,
            prefixed: &node.item.prefixed,
            below: &node.child,
        }
    }

    /// The serials of one kind at this place.
    #[tactic(auto, using(crate::proofs::WayLemmas::none_before))]
    pub(crate) fn serials(self, kind: PatternKind) -> Unread<'a>
        ensures { unread_of result ≡ serials_of kind (seen self.entry).0 }
    {
        if !self.tail.is_empty() {
            return Unread::nothing();
        }
        match kind {
            PatternKind::Literal => self.literal.unread(),
            PatternKind::Prefixed => self.prefixed.unread(),
        }
    }

    /// The place after one byte.
    #[tactic(auto, using(crate::proofs::WayLemmas::neat_children))]
    pub(crate) fn child(self, byte: u8) -> Option<Place<'a>>
        ensures held { MatchOption result
            ((key : List ℕ) → held_in (byte ∷ key) (seen self.entry) ≡ nothing)
            (λ p. (key : List ℕ) → held_in (byte ∷ key) (seen self.entry) ≡ held_in key (seen p)) }
        ensures leads { IsNeat (seen self.entry).1
            → IfSome result (λ p. (seen p ≢ bare) × IsNeat (seen p).1) }
    {
        let Some((first, others)) = self.tail.split_first() else {
            return match self.below.find(byte) {
                None => None,
                Some(node) => Some(Place::of(node)),
            };
        };
        if *first != byte {
            return None;
        }
        Some(Place {
            tail: others,
            literal: self.literal,
            prefixed: self.prefixed,
            below: self.below,
        })
    }

    /// The place of a key, from which longer keys continue.
    pub(crate) fn at(self, key: &[u8]) -> Option<Place<'a>>
        ensures held { MatchOption result
            ((more : List ℕ) → held_in (key.now ++ more) (seen self.entry) ≡ nothing)
            (λ p. (more : List ℕ)
            → held_in (key.now ++ more) (seen self.entry) ≡ held_in more (seen p)) }
        ensures leads { IsNeat (seen self.entry).1 → IfSome result (λ p. IsNeat (seen p).1) }
    {
        let mut place = self;
        let mut rest = key;
        while let Some((byte, others)) = rest.split_first() {
            place = place.child(*byte)?;
            rest = others;
        }
        Some(place)
    }

    /// How many bytes of a name can be followed from here.
    pub(crate) fn depth_of(self, name: &[u8]) -> usize
        requires { IsNeat (seen self).1 }
        ensures longest { IsLongestInUse (λ key. held_in key (seen self.entry)) name.now result }
        ensures bounded { result ≤ length name.now }
    {
        let mut place = self;
        let mut rest = name;
        let mut depth = 0;
        while let Some((byte, others)) = rest.split_first() {
            match place.child(*byte) {
                None => break,
                Some(child) => place = child,
            }
            rest = others;
            depth += 1;
        }
        depth
    }
}
