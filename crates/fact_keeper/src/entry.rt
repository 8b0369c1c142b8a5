//! What facts and rows have in common as entries of a content: an id, and a copy.
ghost use Rattle.std.specs.Prelude.{◌≡◌, ℕ, IfOk};
ghost use Rattle.fact_keeper.specs.Batch.{fact_id, rows_id};

use crate::{KeptFact, KeptRows};
use cube_base::{Memory, PlainList};
use std::alloc::Global;

/// An entry of a content.
pub(crate) trait Entry: Drop {
    /// The id that distinguishes it from others.
    ghost id_of: { Self → ℕ };

    /// Its id.
    fn id(&self) -> u64
        ensures { result ≡ id_of self.now };

    /// An equal entry.
    fn copy(&self, alloc: Global) -> Result<Self, Memory>
        ensures { IfOk result (λ entry. entry ≡ self.now) };
}

impl Entry for KeptFact {
    ghost id_of = { fact_id };

    fn id(&self) -> u64 {
        self.id
    }

    fn copy(&self, alloc: Global) -> Result<Self, Memory> {
        Ok(KeptFact {
            id: self.id,
            nodes: copy_items(alloc, &self.nodes)?,
            cols: copy_items(alloc, &self.cols)?,
        })
    }
}

impl Entry for KeptRows {
    ghost id_of = { rows_id };

    fn id(&self) -> u64 {
        self.id
    }

    /// An equal entry, which shares the rows.
    fn copy(&self, _alloc: Global) -> Result<Self, Memory> {
        Ok(KeptRows {
            id: self.id,
            den: self.den,
            rows: self.rows.share()?,
        })
    }
}

/// An equal list of plain numbers.
pub(crate) fn copy_items<T: Copy>(
    alloc: Global,
    items: &PlainList<T>,
) -> Result<PlainList<T>, Memory>
    ensures { IfOk result (λ copy. copy ≡ items.now) }
{
    let items = items.as_slice();
    let mut copy = Vec::with_capacity(alloc, items.len())?;
    copy.extend_from_slice(items)?;
    Ok(copy.into())
}

/// An equal list of entries.
pub(crate) fn copy_entries<T: Entry>(
    alloc: Global,
    entries: &PlainList<T>,
) -> Result<PlainList<T>, Memory>
    ensures { IfOk result (λ copy. copy ≡ entries.now) }
{
    let items = entries.as_slice();
    let mut copies = Vec::with_capacity(alloc, items.len())?;
    'entries: for entry in items {
        copies.push(entry.copy(alloc)?)?;
    }
    Ok(copies.into())
}
