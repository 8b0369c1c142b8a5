//! What a cube keeps of its facts beside them, so that edits and answers look at few: made anew from all facts.
#![tactic(auto)]

mod anew;
mod fault;
mod group;
mod grouping;
mod indexing;
mod kept;
mod statistics;
mod tally;
mod viewing;

pub use anew::keep_all;
pub use fault::TooMany;
pub use group::Group;
pub use kept::FactsKept;
pub use viewing::{push_group, puts_at, view_of};
