//! Lists that contracts see as the list of their items.

ghost use Rattle.std.specs.Prelude.{◌≡◌, ◌↔◌, IfOk, IsTrue, length};

use crate::plain_value::PlainValue;
use std::alloc::{AllocError, Global};
use std::marker::Model;

/// A list of plain values in order; contracts see it as a list. It grows as a `Vec` does.
#[derive(Debug, Drop)]
pub struct Items<T> {
    items: Vec<T>,
}

impl<T> Model for Items<T> {
    ghost use Rattle.std.specs.Prelude.{List};

    ghost Value = { List T };

    ghost view = { λ list. list.items.items };
}

impl<T> Items<T> {
    /// Takes ownership of the items. Does not allocate.
    pub fn from_vec(items: Vec<T>) -> Items<T>
        ensures { result ≡ items.items }
    {
        Items { items }
    }

    /// Returns the items, by value. Does not allocate.
    pub fn into_vec(self) -> Vec<T>
        ensures { result.items ≡ self }
    {
        let Items { items } = self;
        items
    }

    /// The items, in order.
    pub fn as_slice(&self) -> &[T]
        ensures { result.now ≡ self.now }
    {
        self.items.as_slice()
    }

    /// The number of items.
    pub fn len(&self) -> usize
        ensures { result ≡ length self.now }
    {
        self.items.len()
    }
}

impl<T: PlainValue> Items<T> {
    /// Equal items in the same order. The error is out of memory.
    pub fn copied(alloc: Global, items: &[T]) -> Result<Items<T>, AllocError>
        ensures { IfOk result (λ made. made ≡ items.now) }
    {
        let mut copies = Vec::with_capacity(alloc, items.len())?;
        for item in items {
            copies.push(item.copy(alloc)?)?;
        }
        Ok(Items { items: copies })
    }
}

impl<T: PlainValue> PlainValue for Items<T> {
    fn copy(&self, alloc: Global) -> Result<Items<T>, AllocError> {
        Items::copied(alloc, self.as_slice())
    }

    fn same(&self, other: &Self) -> bool {
        same_items(self.as_slice(), other.as_slice())
    }
}

/// Whether two lists have equal items at equal places.
fn same_items<T: PlainValue>(one: &[T], two: &[T]) -> bool
    ensures { IsTrue result ↔ (one.now ≡ two.now) }
{
    if one.len() != two.len() {
        return false;
    }
    for place in 0..one.len() {
        if !one[place].same(&two[place]) {
            return false;
        }
    }
    true
}
