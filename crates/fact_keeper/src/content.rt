//! What a store holds, and what changes it.
ghost use Rattle.std.specs.Prelude.{◌≡◌, ◌↔◌, IsTrue};

use cube_base::{Bytes, Ids, PlainList, SharedPairs};
use std::alloc::Global;

/// The numbers of nodes, one per dimension.
pub type NodeNums = PlainList<u32>;
/// The values of a fact, without the count.
pub type ColNums = PlainList<i64>;
/// Facts as they are kept.
pub type KeptFacts = PlainList<KeptFact>;
/// Rows as they are kept, one entry per fact.
pub type KeptRowsList = PlainList<KeptRows>;

/// A fact as it is kept. A damaged store may hold any numbers.
#[derive(Debug, Drop)]
pub struct KeptFact {
    /// The number of the fact.
    pub id: u64,
    /// The node where it lies, per dimension.
    pub nodes: NodeNums,
    /// Its values, without the count.
    pub cols: ColNums,
}

/// The rows of a fact as they are kept.
#[derive(Debug, Drop)]
pub struct KeptRows {
    /// The number of the fact.
    pub id: u64,
    /// The denominator of the weights.
    pub den: u64,
    /// The cells with their weights.
    pub rows: SharedPairs,
}

/// The content of a store.
#[derive(Debug, Drop)]
pub struct Stored {
    /// The text of the schema.
    pub schema: Bytes,
    /// The facts.
    pub facts: KeptFacts,
    /// The rows of the facts.
    pub rows: KeptRowsList,
}

/// One change of a content.
#[derive(Debug, Drop)]
pub struct Batch {
    /// The text of the schema from now on, where it changes.
    pub schema: Option<Bytes>,
    /// The ids whose facts and rows are dropped first.
    pub gone: Ids,
    /// The facts to put, each in the place of those of its id.
    pub facts: KeptFacts,
    /// The rows to put, each entry in the place of those of its id.
    pub rows: KeptRowsList,
}

impl Stored {
    ghost use Rattle.fact_keeper.specs.Batch.{empty_content};

    /// The content of a store in which nothing was kept. It takes no memory.
    pub fn empty(alloc: Global) -> Self
        ensures { result ≡ empty_content }
    {
        Stored {
            schema: Bytes::new(alloc),
            facts: KeptFacts::new(alloc),
            rows: KeptRowsList::new(alloc),
        }
    }

    /// Whether there is no byte of a schema, no fact and no row. It takes no memory.
    pub fn is_empty(&self) -> bool
        ensures { IsTrue result ↔ (self.now ≡ empty_content) }
    {
        self.schema.as_slice().is_empty()
            && self.facts.as_slice().is_empty()
            && self.rows.as_slice().is_empty()
    }
}
