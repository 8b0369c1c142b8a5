//! The keeper over a file: it opens the file of a store, keeps it open, and counts its faults.
#![tactic(auto)]

mod keeper;

pub use keeper::SqlKeeper;
