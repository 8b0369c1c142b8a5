//! Facts and rows of a store, written out as tables.
use cube_base::{Memory, SharedPairs};
use fact_keeper::{ColNums, KeptFact, KeptFacts, KeptRows, KeptRowsList, NodeNums};
use std::alloc::Global;

/// The id, the nodes and the values of a fact.
pub type FactRow = (u64, &'static [u32], &'static [i64]);

/// The id of a fact, the denominator of its weights, and the cells with their weights.
pub type SpreadRow = (u64, u64, &'static [(u64, u64)]);

/// The kept fact of a row.
fn fact_of(alloc: Global, row: &FactRow) -> Result<KeptFact, Memory> {
    let (id, nodes, cols) = *row;
    Ok(KeptFact {
        id,
        nodes: NodeNums::from(Vec::from_slice(alloc, nodes)?),
        cols: ColNums::from(Vec::from_slice(alloc, cols)?),
    })
}

/// The kept facts of a table.
pub fn facts_of(alloc: Global, table: &[FactRow]) -> Result<KeptFacts, Memory> {
    let mut facts = KeptFacts::new(alloc);
    for row in table {
        facts.push(fact_of(alloc, row)?)?;
    }
    Ok(facts)
}

/// The kept rows of a row.
fn spread_of(alloc: Global, row: &SpreadRow) -> Result<KeptRows, Memory> {
    let (id, den, rows) = *row;
    Ok(KeptRows {
        id,
        den,
        rows: SharedPairs::from_vec(alloc, Vec::from_slice(alloc, rows)?)?,
    })
}

/// The kept rows of a table.
pub fn rows_of(alloc: Global, table: &[SpreadRow]) -> Result<KeptRowsList, Memory> {
    let mut list = KeptRowsList::new(alloc);
    for row in table {
        list.push(spread_of(alloc, row)?)?;
    }
    Ok(list)
}
