//! The part of a tree whose keys have a common prefix.
ghost use Rattle.std.specs.Prelude.{◌≡◌, ◌∷◌, ◌++◌, IsTrue, List, ℕ};
ghost use Rattle.kob_prefix_tree.specs.Held.{nothing, serials_of, serials_along};
ghost use Rattle.kob_prefix_tree.specs.Contents.{held_from, part_of, left_of};

use crate::kind::PatternKind;
use crate::place::Place;
use crate::serials::Unread;
use crate::walk::Walk;

/// A view of the keys of a tree that have a common prefix. It does not allocate. A key of the part
/// is what follows that prefix.
#[derive(Clone, Copy, Drop)]
pub struct Part<'a> {
    place: Option<Place<'a>>,
}

impl<'a> Part<'a> {
    pub(crate) fn of(place: Place<'a>) -> Part<'a>
        ensures { part_of result ≡ held_from (Some place.entry) }
    {
        Part { place: Some(place) }
    }

    /// Whether the tree ends before the prefix. Then no key of the tree begins with it.
    pub fn is_absent(&self) -> bool
        ensures { IsTrue result → part_of self.now ≡ (λ key. nothing) }
    {
        self.place.is_none()
    }

    /// The part of the keys that begin with a text and the byte after it.
    pub fn behind(self, text: &[u8], byte: u8) -> Part<'a>
        ensures { part_of result ≡ (λ key. part_of self.entry (text.now ++ byte ∷ key)) }
    {
        match self.at(text) {
            None => Part { place: None },
            Some(place) => Part {
                place: place.child(byte),
            },
        }
    }

    /// The prefixed serials of the keys that are prefixes of the name, the shortest key first, and
    /// then the literal serials of the name.
    pub fn walk(self, name: &'a [u8]) -> Walk<'a>
        ensures { left_of result ≡ serials_along (part_of self.entry) name.now }
    {
        match self.place {
            None => Walk::over(Unread::nothing()),
            Some(place) => Walk::along(place, name),
        }
    }

    /// The serials of the key's list of one kind, in order.
    pub fn listed(self, key: &[u8], kind: PatternKind) -> Walk<'a>
        ensures { left_of result ≡ serials_of kind (part_of self.entry key.now) }
    {
        match self.at(key) {
            None => Walk::over(Unread::nothing()),
            Some(place) => Walk::over(place.serials(kind)),
        }
    }

    /// The place of a key, from which longer keys continue.
    #[tactic(auto, using(crate::proofs::WalkLemmas::from_match))]
    fn at(self, key: &[u8]) -> Option<Place<'a>>
        ensures { (more : List ℕ)
            → held_from result more ≡ part_of self.entry (key.now ++ more) }
    {
        self.place?.at(key)
    }
}
