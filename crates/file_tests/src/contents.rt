//! Contents of stores and batches, written out as tables.
use cube_base::{Bytes, Ids, Memory};
use cube_tests::fact_tables::{FactRow, SpreadRow, facts_of, rows_of};
use fact_keeper::{Batch, KeptFact, KeptRows, Stored};
use std::alloc::Global;

/// A batch, or with no id that goes a content.
pub struct Case {
    pub text: &'static [u8],
    pub gone: &'static [u64],
    pub facts: &'static [FactRow],
    pub rows: &'static [SpreadRow],
}

pub const NOTHING: Case = Case {
    text: b"",
    gone: &[],
    facts: &[],
    rows: &[],
};

pub const FIRST: Case = Case {
    text: b"ab",
    gone: &[],
    facts: &[(1, &[2], &[600]), (3, &[7], &[5])],
    rows: &[(3, 1, &[(0, 1)])],
};

/// It puts fact 4 twice.
pub const SECOND: Case = Case {
    text: b"cd",
    gone: &[3, u64::MAX],
    facts: &[
        (4, &[1, 1], &[0, 0]),
        (2, &[], &[]),
        (4, &[3, 4294967294], &[-1, i64::MIN]),
    ],
    rows: &[(4, 9223372036854775807, &[(1, 2), (u64::MAX, 1099511627776)])],
};

pub const BOTH: Case = Case {
    text: b"cd",
    gone: &[],
    facts: &[
        (1, &[2], &[600]),
        (2, &[], &[]),
        (4, &[3, 4294967294], &[-1, i64::MIN]),
    ],
    rows: &[(4, 9223372036854775807, &[(1, 2), (u64::MAX, 1099511627776)])],
};

/// Its last entry no table can hold.
pub const BEYOND_SQL: Case = Case {
    text: b"xyz",
    gone: &[1],
    facts: &[(9, &[1], &[1])],
    rows: &[(9223372036854775808, 1, &[])],
};

/// The batch of a case.
pub fn batch_of(alloc: Global, case: &Case) -> Result<Batch, Memory> {
    Ok(Batch {
        schema: Some(Bytes::from(Vec::from_slice(alloc, case.text)?)),
        gone: Ids::from(Vec::from_slice(alloc, case.gone)?),
        facts: facts_of(alloc, case.facts)?,
        rows: rows_of(alloc, case.rows)?,
    })
}

fn is_fact(fact: &KeptFact, row: &FactRow) -> bool {
    let (id, nodes, cols) = *row;
    fact.id == id && fact.nodes.as_slice() == nodes && fact.cols.as_slice() == cols
}

fn is_entry(entry: &KeptRows, row: &SpreadRow) -> bool {
    let (id, den, rows) = *row;
    entry.id == id && entry.den == den && entry.rows.as_slice() == rows
}

fn are_facts(facts: &[KeptFact], table: &[FactRow]) -> bool {
    facts.len() == table.len()
        && facts
            .iter()
            .zip(table)
            .all(|(fact, row)| is_fact(fact, row))
}

fn are_rows(entries: &[KeptRows], table: &[SpreadRow]) -> bool {
    entries.len() == table.len()
        && entries
            .iter()
            .zip(table)
            .all(|(entry, row)| is_entry(entry, row))
}

/// Whether a content is that of a case.
pub fn is_of(content: &Stored, case: &Case) -> bool {
    content.schema.as_slice() == case.text
        && are_facts(content.facts.as_slice(), case.facts)
        && are_rows(content.rows.as_slice(), case.rows)
}
