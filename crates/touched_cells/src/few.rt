//! Lists of two items at most, which want no memory.
ghost use Rattle.std.specs.Prelude.{◌≡◌, ◌<◌, ◌≤◌, [], ◌∷◌, ◌++◌, length};
ghost use Rattle.touched_cells.specs.Few.{items_of};

use std::marker::Model;

/// A list of at most two items, held in place. Contracts see the list of its items.
#[derive(Debug, Drop)]
pub struct Few<T> {
    kept: Kept<T>,
}

/// The items.
#[derive(Clone, Copy, Debug, Drop)]
enum Kept<T> {
    None,
    One([T; 1]),
    Two([T; 2]),
}

impl<T> Model for Few<T> {
    ghost use Rattle.std.specs.Prelude.{◌≤◌, List, length};
    ghost use Rattle.touched_cells.specs.Few.{items_of};

    ghost Value = { List T };

    ghost view = { λ f. items_of f.kept };

    ghost invariant = { λ f. length (items_of f.kept) ≤ 2 };
}

impl<T: Copy> Few<T> {
    /// The empty list.
    pub fn new() -> Self
        ensures { result ≡ [] }
    {
        Few { kept: Kept::None }
    }

    /// The items in order.
    pub fn as_slice(&self) -> &[T]
        ensures items { result.now ≡ self.now }
        ensures few { length self.now ≤ 2 }
    {
        match &self.kept {
            Kept::None => &[],
            Kept::One(items) => items.as_slice(),
            Kept::Two(items) => items.as_slice(),
        }
    }

    /// Appends an item to a list that has no two yet.
    pub fn push(&mut self, item: T)
        requires { length self.old < 2 }
        ensures { self.new ≡ self.old ++ item ∷ [] }
    {
        self.kept = match self.kept {
            Kept::None => Kept::One([item]),
            Kept::One(items) => Kept::Two([items[0], item]),
            Kept::Two(_) => unreachable!(),
        };
    }
}
