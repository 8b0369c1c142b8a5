//! How a fact is spread over the cells of its region: its rows, each a cell and a weight, over their sum.
#![tactic(auto)]

mod laws;
mod rows;
mod spread;
mod stepping;

pub use laws::{steps_compose, worked_rows, worked_steps};
pub use rows::{Alloc, inside, weight_in};
pub use spread::{allocate, allocate_at};
pub use stepping::step;
