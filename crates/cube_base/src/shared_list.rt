//! A list over storage that its copies share, which contracts see as the list of its items.
ghost use Rattle.std.specs.Prelude.{◌≡◌, ◌≤◌, [], ◌∷◌, ◌++◌, IfOk, IsOk, OnErr, OnOk, length};
ghost use Rattle.cube_base.specs.SharedList.{IsKeptList, items_of};

use crate::Memory;
use std::alloc::Global;
use std::marker::Model;
use std::rc::Rc;

/// Items in order, on storage that equal lists share. A list of no item or of one has no storage: the one is held in place. A list
/// is dropped in a step of its own, and the items with the last list that shares them.
#[derive(Debug, Drop)]
pub struct SharedList<T> {
    alloc: Global,
    kept: Kept<T>,
}

/// Where the items of a list are.
#[derive(Debug, Drop)]
enum Kept<T> {
    /// There is none.
    Nowhere,
    /// There is this one, in place.
    Here([T; 1]),
    /// There are several, on storage that may be shared.
    There(Rc<Vec<T>>),
}

/// Pairs of two numbers, as a cell and its weight.
pub type SharedPairs = SharedList<(u64, u64)>;

impl<T> Model for SharedList<T> {
    ghost use Rattle.std.specs.Prelude.{List};
    ghost use Rattle.cube_base.specs.SharedList.{IsKeptList, items_of};

    ghost Value = { List T };

    ghost view = { λ l. items_of l.kept };

    ghost invariant = { λ l. IsKeptList l.kept };
}

impl<T: Copy> SharedList<T> {
    /// The empty list. It takes no memory.
    pub fn new(alloc: Global) -> Self
        ensures { result ≡ [] }
    {
        SharedList {
            alloc,
            kept: Kept::Nowhere,
        }
    }

    /// The list of one item. It takes no memory.
    pub fn one(alloc: Global, item: T) -> Self
        ensures { result ≡ item ∷ [] }
    {
        SharedList {
            alloc,
            kept: Kept::Here([item]),
        }
    }

    /// The items of a `Vec`, which are moved and not copied. An empty one or one of one item takes no memory, and its storage goes
    /// back. An error drops the items.
    pub fn from_vec(alloc: Global, items: Vec<T>) -> Result<Self, Memory>
        ensures ok { IfOk result (λ list. list ≡ items.items) }
        ensures empty { items.items ≡ [] → IsOk result }
    {
        let kept = match items.as_slice() {
            [] => Kept::Nowhere,
            [item] => Kept::Here([*item]),
            _ => Kept::There(Rc::new(alloc, items)?),
        };
        Ok(SharedList { alloc, kept })
    }

    /// The items in order.
    pub fn as_slice(&self) -> &[T]
        ensures { result.now ≡ self.now }
    {
        match &self.kept {
            Kept::Nowhere => &[],
            Kept::Here(items) => items.as_slice(),
            Kept::There(items) => items.as_slice(),
        }
    }

    /// An equal list on the same storage. It copies no item but a single one, which takes no memory.
    pub fn share(&self) -> Result<Self, Memory>
        ensures equal { IfOk result (λ list. list ≡ self.now) }
        ensures short { length self.now ≤ 1 → IsOk result }
    {
        let kept = match &self.kept {
            Kept::Nowhere => Kept::Nowhere,
            Kept::Here(item) => Kept::Here(*item),
            Kept::There(items) => Kept::There(items.clone()?),
        };
        Ok(SharedList {
            alloc: self.alloc,
            kept,
        })
    }

    /// Appends an item. Where the storage is shared, the items are copied first, so that the other lists stay as they were. An error
    /// leaves this one as it was too.
    pub fn push(&mut self, x: T) -> Result<(), Memory>
        ensures ok { OnOk result (self.new ≡ self.old ++ x ∷ []) }
        ensures err { OnErr result (self.new ≡ self.old) }
    {
        if let Kept::There(items) = &mut self.kept
            && let Some(own) = Rc::get_mut(items)
        {
            own.push(x)?;
            return Ok(());
        }
        self.kept = one_more(self.alloc, self.as_slice(), x)?;
        Ok(())
    }
}

/// Where the items and one more are kept apart from these.
fn one_more<T: Copy>(alloc: Global, items: &[T], x: T) -> Result<Kept<T>, Memory>
    ensures items { IfOk result (λ kept. items_of kept ≡ items.now ++ x ∷ []) }
    ensures kept { IfOk result (λ kept. IsKeptList kept) }
{
    if items.is_empty() {
        return Ok(Kept::Here([x]));
    }
    let mut longer = Vec::with_capacity(alloc, items.len().saturating_add(1))?;
    longer.extend_from_slice(items)?;
    longer.push(x)?;
    Ok(Kept::There(Rc::new(alloc, longer)?))
}
