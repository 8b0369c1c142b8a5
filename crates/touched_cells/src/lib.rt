//! The cells on which the old fact and the new fact of an edit lie, and what it changes of their statistics.
#![tactic(auto)]

mod few;
mod touched;

pub use few::Few;
pub use touched::{Change, cell_of_fact, changes, reweighing_changes};
