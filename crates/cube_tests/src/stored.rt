//! Contents of stores, and runs over them.
use crate::fact_tables::{FactRow, SpreadRow, facts_of, rows_of};
use crate::runs::{Outside, Ran, run_kept};
use cube_base::{Bytes, Ids, Memory};
use fact_keeper::{KeptFact, KeptRows, MemKeeper, Stored};
use std::alloc::Global;

/// Two cities of a state, with the number measure Hours, under the policy of counts. The nodes are All 0, TX 1, Austin 2 and Dallas 3;
/// the cells Austin 0 and Dallas 1.
pub const CITIES: &str =
    "cube\t1\npolicy\tcount\nnumber\tHours\ndimension\tPlace\nnode\t0\tAll\nnode\t1\tTX\nnode\t2\tAustin\nnode\t2\tDallas\nend\n";

/// Two facts in Austin, one in Dallas, and one in some city of Texas.
pub const FACTS: [FactRow; 4] = [
    (1, &[2], &[10]),
    (2, &[3], &[20]),
    (3, &[2], &[30]),
    (4, &[1], &[40]),
];

/// How they are spread: the fourth lies two thirds in Austin and one third in Dallas.
pub const SPREADS: [SpreadRow; 4] = [
    (1, 1, &[(0, 1)]),
    (2, 1, &[(1, 1)]),
    (3, 1, &[(0, 1)]),
    (4, 3, &[(0, 2), (1, 1)]),
];

/// What is kept of three repairs in a city and one in some city of Texas, over the schema of repairs.
pub const REPAIR_FACTS: [FactRow; 4] = [
    (1, &[2, 2], &[100]),
    (2, &[2, 2], &[300]),
    (3, &[3, 2], &[50]),
    (4, &[1, 2], &[600]),
];

/// How they are spread. After the cities, the code of a cell is four times the place of the city, and that of the
/// model.
pub const REPAIR_SPREADS: [SpreadRow; 4] = [
    (1, 1, &[(0, 1)]),
    (2, 1, &[(0, 1)]),
    (3, 1, &[(4, 1)]),
    (4, 3, &[(0, 2), (4, 1)]),
];

/// A keeper of these facts, spread so, over the text of a schema, of which the calls of these numbers fail.
pub fn keeper_of(
    alloc: Global,
    schema: &str,
    facts: &[FactRow],
    spreads: &[SpreadRow],
    fails: &[u64],
) -> Result<MemKeeper, Memory> {
    let content = Stored {
        schema: Bytes::from(Vec::from_slice(alloc, schema.as_bytes())?),
        facts: facts_of(alloc, facts)?,
        rows: rows_of(alloc, spreads)?,
    };
    let fails = Ids::from(Vec::from_slice(alloc, fails)?);
    Ok(MemKeeper::new(alloc, content, fails))
}

/// Which of these lists a store holds. A table names it by a word: the prover unfolds each list that a table holds, wherever it stands.
#[derive(Clone, Copy)]
pub enum Held {
    Nothing,
    Cities,
    Repairs,
}

/// The facts that a word names.
pub fn facts_held(held: Held) -> &'static [FactRow] {
    match held {
        Held::Nothing => &[],
        Held::Cities => &FACTS,
        Held::Repairs => &REPAIR_FACTS,
    }
}

static CITY_SPREADS: [SpreadRow; 4] = SPREADS;

static STATE_SPREADS: [SpreadRow; 4] = REPAIR_SPREADS;

/// How the facts that a word names are spread.
pub fn spreads_held(held: Held) -> &'static [SpreadRow] {
    match held {
        Held::Nothing => &[],
        Held::Cities => &CITY_SPREADS,
        Held::Repairs => &STATE_SPREADS,
    }
}

/// The text of a schema, with the words of its facts and of their rows.
pub type Holding = (&'static str, Held, Held);

/// Nothing, and the facts in the two cities without their rows.
pub const NOTHING: Holding = ("", Held::Nothing, Held::Nothing);

pub const ROWLESS: Holding = (CITIES, Held::Cities, Held::Nothing);

/// What stands so in a store.
pub fn content_of(holding: Holding) -> Content<'static> {
    let (schema, facts, spreads) = holding;
    (schema, facts_held(facts), spreads_held(spreads))
}

/// The text of a schema, with facts and rows that are kept over it.
pub type Content<'a> = (&'a str, &'a [FactRow], &'a [SpreadRow]);

/// The text of a schema alone.
pub fn without_facts(schema: &str) -> Content<'_> {
    (schema, &[], &[])
}

/// How a run went, and the store that it left.
#[derive(Drop)]
pub struct KeptRun {
    pub ran: Ran,
    pub keeper: MemKeeper,
}

/// Runs a command over an input and a store of this content, whose call of a number fails, and none where that is 0.
pub fn run_stored(
    alloc: Global,
    word: &str,
    content: Content<'_>,
    fails: u64,
    input: &[u8],
    outside: &Outside,
) -> Result<KeptRun, Memory> {
    run_words(alloc, &[word, "s"], content, fails, input, outside)
}

/// The same of all words of a command line.
pub fn run_words(
    alloc: Global,
    words: &[&str],
    content: Content<'_>,
    fails: u64,
    input: &[u8],
    outside: &Outside,
) -> Result<KeptRun, Memory> {
    let (schema, facts, spreads) = content;
    let mut keeper = keeper_of(alloc, schema, facts, spreads, &[fails])?;
    match run_kept(alloc, words, input, outside, &mut keeper) {
        Ok(ran) => Ok(KeptRun { ran, keeper }),
        Err(fault) => {
            drop(keeper);
            Err(fault.into())
        }
    }
}

/// Whether a fact is that of a row.
fn is_fact(fact: &KeptFact, row: &FactRow) -> bool {
    let (id, nodes, cols) = *row;
    fact.id == id && fact.nodes.as_slice() == nodes && fact.cols.as_slice() == cols
}

/// Whether kept rows are those of a row.
pub fn is_spread(kept: &KeptRows, row: &SpreadRow) -> bool {
    let (id, den, rows) = *row;
    kept.id == id && kept.den == den && kept.rows.as_slice() == rows
}

/// Whether two kept facts are the same.
fn is_same_fact(fact: &KeptFact, other: &KeptFact) -> bool {
    fact.id == other.id
        && fact.nodes.as_slice() == other.nodes.as_slice()
        && fact.cols.as_slice() == other.cols.as_slice()
}

/// Whether kept rows are the same.
fn is_same_spread(kept: &KeptRows, other: &KeptRows) -> bool {
    kept.id == other.id && kept.den == other.den && kept.rows.as_slice() == other.rows.as_slice()
}

/// Whether two contents are the same.
pub fn are_same(content: &Stored, other: &Stored) -> bool {
    let (facts, rows) = (content.facts.as_slice(), content.rows.as_slice());
    let (others, other_rows) = (other.facts.as_slice(), other.rows.as_slice());
    content.schema.as_slice() == other.schema.as_slice()
        && facts.len() == others.len()
        && rows.len() == other_rows.len()
        && facts
            .iter()
            .zip(others)
            .all(|(fact, other)| is_same_fact(fact, other))
        && rows
            .iter()
            .zip(other_rows)
            .all(|(kept, other)| is_same_spread(kept, other))
}

/// Whether a content has just these facts, spread so.
pub fn holds_just(content: &Stored, facts: &[FactRow], spreads: &[SpreadRow]) -> bool {
    let (kept, rows) = (content.facts.as_slice(), content.rows.as_slice());
    kept.len() == facts.len()
        && rows.len() == spreads.len()
        && kept.iter().zip(facts).all(|(fact, row)| is_fact(fact, row))
        && rows
            .iter()
            .zip(spreads)
            .all(|(kept, row)| is_spread(kept, row))
}
