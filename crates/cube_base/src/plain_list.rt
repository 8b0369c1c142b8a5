//! A plain list, which contracts see as the list of its items.
ghost use Rattle.std.specs.Prelude.{◌≡◌, [], ◌∷◌, ◌++◌, List, OnOk, OnErr};

use crate::{Memory, Name};
use std::alloc::Global;
use std::marker::Model;

/// Items in order. To make one of a `Vec`, or a `Vec` of one, moves the items and takes no memory.
#[derive(Debug, Drop)]
pub struct PlainList<T> {
    items: Vec<T>,
}

/// Bytes, as of a text.
pub type Bytes = PlainList<u8>;
/// Ids of facts, or numbers of calls.
pub type Ids = PlainList<u64>;
/// Names of dimensions, or of the outcomes of a measure.
pub type Names = PlainList<Name>;
/// Whole numbers, as sums of values.
pub type Nums = PlainList<i128>;
/// Pairs of two numbers, as a cell and its weight.
pub type Pairs = PlainList<(u64, u64)>;

impl<T> Model for PlainList<T> {
    ghost Value = { List T };

    ghost view = { λ l. l.items.items };
}

impl<T> PlainList<T> {
    /// The empty list.
    pub fn new(alloc: Global) -> Self
        ensures { result ≡ [] }
    {
        PlainList {
            items: Vec::new(alloc),
        }
    }

    /// The items in order.
    pub fn as_slice(&self) -> &[T]
        ensures { result.now ≡ self.now }
    {
        self.items.as_slice()
    }

    /// The items as a `Vec`.
    pub fn into_vec(self) -> Vec<T>
        ensures { result.items ≡ self }
    {
        let PlainList { items } = self;
        items
    }
}

impl<T: Drop> PlainList<T> {
    /// Appends an item. An error drops it and leaves the list as it was.
    pub fn push(&mut self, x: T) -> Result<(), Memory>
        ensures ok { OnOk result (self.new ≡ self.old ++ x ∷ []) }
        ensures err { OnErr result (self.new ≡ self.old) }
    {
        self.items.push(x)?;
        Ok(())
    }
}

impl<T> From<Vec<T>> for PlainList<T> {
    ghost from_gives = { λ v l. l ≡ v.items };

    fn from(items: Vec<T>) -> Self {
        PlainList { items }
    }
}
