//! Copies of batches, whose rows share their storage.
ghost use Rattle.std.specs.Prelude.{◌≡◌, IfOk};

use cube_base::{Bytes, Memory, PlainList};
use fact_keeper::{Batch, KeptFact, KeptFacts, KeptRows, KeptRowsList};
use std::alloc::Global;

/// An equal batch.
pub(crate) fn copy_batch(alloc: Global, batch: &Batch) -> Result<Batch, Memory>
    ensures { IfOk result (λ copy. copy ≡ batch.now) }
{
    Ok(Batch {
        schema: copy_text(alloc, &batch.schema)?,
        gone: copy_items(alloc, &batch.gone)?,
        facts: copy_facts(alloc, &batch.facts)?,
        rows: copy_rows(alloc, &batch.rows)?,
    })
}

/// An equal text, where there is one.
fn copy_text(alloc: Global, text: &Option<Bytes>) -> Result<Option<Bytes>, Memory>
    ensures { IfOk result (λ copy. copy ≡ text.now) }
{
    match text {
        Some(text) => Ok(Some(copy_items(alloc, text)?)),
        None => Ok(None),
    }
}

/// An equal list of plain numbers.
fn copy_items<T: Copy>(alloc: Global, items: &PlainList<T>) -> Result<PlainList<T>, Memory>
    ensures { IfOk result (λ copy. copy ≡ items.now) }
{
    let items = items.as_slice();
    let mut copy = Vec::with_capacity(alloc, items.len())?;
    copy.extend_from_slice(items)?;
    Ok(copy.into())
}

/// An equal list of facts.
fn copy_facts(alloc: Global, facts: &KeptFacts) -> Result<KeptFacts, Memory>
    ensures { IfOk result (λ copy. copy ≡ facts.now) }
{
    let items = facts.as_slice();
    let mut copies = Vec::with_capacity(alloc, items.len())?;
    'facts: for fact in items {
        copies.push(copy_fact(alloc, fact)?)?;
    }
    Ok(copies.into())
}

/// An equal fact.
fn copy_fact(alloc: Global, fact: &KeptFact) -> Result<KeptFact, Memory>
    ensures { IfOk result (λ copy. copy ≡ fact.now) }
{
    Ok(KeptFact {
        id: fact.id,
        nodes: copy_items(alloc, &fact.nodes)?,
        cols: copy_items(alloc, &fact.cols)?,
    })
}

/// An equal list of rows.
fn copy_rows(alloc: Global, rows: &KeptRowsList) -> Result<KeptRowsList, Memory>
    ensures { IfOk result (λ copy. copy ≡ rows.now) }
{
    let items = rows.as_slice();
    let mut copies = Vec::with_capacity(alloc, items.len())?;
    'rows: for entry in items {
        copies.push(copy_entry(entry)?)?;
    }
    Ok(copies.into())
}

/// The equal rows of a fact, which share their storage.
fn copy_entry(entry: &KeptRows) -> Result<KeptRows, Memory>
    ensures { IfOk result (λ copy. copy ≡ entry.now) }
{
    Ok(KeptRows {
        id: entry.id,
        den: entry.den,
        rows: entry.rows.share()?,
    })
}
