//! What every crate of the cube stands on: the traits of the outside with their counts of faults, names, columns of values,
//! and the codes of refusals. Contracts see lists as lists: plain ones, and such whose copies share their items.
#![tactic(auto)]

mod code;
mod cols;
mod fault;
mod laws;
mod memory_io;
mod name;
mod outside;
mod plain_list;
mod shared_list;
mod standard_io;

pub use code::Code;
pub use cols::{Cols, MAX_COLS};
pub use fault::{Failed, Memory, SinkError};
pub use laws::worked_names;
pub use memory_io::{MemSink, MemSource};
pub use name::{MAX_NAME_LEN, Name, is_name};
pub use outside::{Sink, Source, write_from, write_whole};
pub use plain_list::{Bytes, Ids, Names, Nums, Pairs, PlainList};
pub use shared_list::{SharedList, SharedPairs};
pub use standard_io::{StdSink, StdSource};
