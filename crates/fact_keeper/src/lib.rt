//! Where facts and rows are kept: the content of a store, batches that change it, keepers that hold it.
#![tactic(auto)]

mod calls;
mod content;
mod copies;
mod entry;
mod keeper;
mod laws;
mod mem_keeper;
mod no_keeper;
mod order;
mod update;

pub use content::{Batch, ColNums, KeptFact, KeptFacts, KeptRows, KeptRowsList, NodeNums, Stored};
pub use keeper::{KeepError, Keeper};
pub use laws::{worked_batches, worked_entries};
pub use mem_keeper::MemKeeper;
pub use no_keeper::NoKeeper;
