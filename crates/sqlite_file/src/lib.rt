//! The file of a store: its content in three tables, which sqlite3 reads, and batches that are written into them.
#![tactic(auto)]

mod blob;
mod fault;
mod file;
mod layout;
mod left;
mod place;
mod reading;
mod reason;
mod writing;

pub use fault::Fault;
pub use file::StoreFile;
pub use place::{Standing, look};
pub use reason::Reason;
