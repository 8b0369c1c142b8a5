//! Copies of contents and batches, whose rows share their storage.
ghost use Rattle.std.specs.Prelude.{◌≡◌, IfOk};

use crate::entry::{copy_entries, copy_items};
use crate::{Batch, Stored};
use cube_base::{Bytes, Memory};
use std::alloc::Global;

impl Stored {
    /// An equal content.
    pub(crate) fn copy(&self, alloc: Global) -> Result<Self, Memory>
        ensures { IfOk result (λ content. content ≡ self.now) }
    {
        Ok(Stored {
            schema: copy_items(alloc, &self.schema)?,
            facts: copy_entries(alloc, &self.facts)?,
            rows: copy_entries(alloc, &self.rows)?,
        })
    }
}

impl Batch {
    /// An equal batch.
    pub(crate) fn copy(&self, alloc: Global) -> Result<Self, Memory>
        ensures { IfOk result (λ batch. batch ≡ self.now) }
    {
        Ok(Batch {
            schema: copy_schema(alloc, &self.schema)?,
            gone: copy_items(alloc, &self.gone)?,
            facts: copy_entries(alloc, &self.facts)?,
            rows: copy_entries(alloc, &self.rows)?,
        })
    }
}

/// An equal schema text, where there is one.
fn copy_schema(alloc: Global, schema: &Option<Bytes>) -> Result<Option<Bytes>, Memory>
    ensures { IfOk result (λ copy. copy ≡ schema.now) }
{
    match schema {
        Some(text) => Ok(Some(copy_items(alloc, text)?)),
        None => Ok(None),
    }
}
