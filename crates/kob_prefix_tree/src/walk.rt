//! The serials along a name, one at a time.
ghost use Rattle.std.specs.Prelude.{◌≡◌, [], ◌++◌};
ghost use Rattle.std.specs.Iterator.{YieldsFirst, item_count};
ghost use Rattle.kob_prefix_tree.specs.Contents.{seen, left_of, serials_beyond, unread_of};
ghost use Rattle.kob_prefix_tree.specs.Tree.{held_in};

use crate::kind::PatternKind;
use crate::place::Place;
use crate::serials::Unread;

/// A place of the tree, and the rest of the name from there.
#[derive(Clone, Copy, Drop)]
pub(crate) struct Ahead<'a> {
    place: Place<'a>,
    name: &'a [u8],
}

/// The serials along a name, as `PrefixTree::walk` and `PrefixTree::literal` return them.
#[derive(Drop)]
pub struct Walk<'a> {
    serials: Unread<'a>,
    ahead: Option<Ahead<'a>>,
}

impl<'a> Walk<'a> {
    pub(crate) fn along(place: Place<'a>, name: &'a [u8]) -> Walk<'a>
        ensures { left_of result
            ≡ (held_in [] (seen place.entry)).1
            ++ serials_beyond (λ key. held_in key (seen place.entry)) name.now }
    {
        Walk {
            serials: place.serials(PatternKind::Prefixed),
            ahead: Some(Ahead { place, name }),
        }
    }

    pub(crate) fn over(serials: Unread<'a>) -> Walk<'a>
        ensures { left_of result ≡ unread_of serials.entry }
    {
        Walk {
            serials,
            ahead: None,
        }
    }
}

impl<'a> Iterator for Walk<'a> {
    type Item = u64;

    ghost next_gives = { YieldsFirst left_of };

    ghost remaining = { item_count left_of };

    fn next(&mut self) -> Option<u64> {
        loop {
            if let Some(serial) = self.serials.next() {
                return Some(serial);
            }
            let ahead = self.ahead?;
            match ahead.name.split_first() {
                None => {
                    self.serials = ahead.place.serials(PatternKind::Literal);
                    self.ahead = None;
                }
                Some((byte, rest)) => match ahead.place.child(*byte) {
                    None => self.ahead = None,
                    Some(child) => {
                        self.serials = child.serials(PatternKind::Prefixed);
                        self.ahead = Some(Ahead {
                            place: child,
                            name: rest,
                        });
                    }
                },
            }
        }
    }
}
