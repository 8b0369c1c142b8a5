//! What a cell weighs, by what is known of its precise facts, and the statistics of all cells that have any.
#![tactic(auto)]

mod laws;
mod policy;
mod stat_index;

pub use cube_model::CellStat;
pub use laws::worked_weights;
pub use policy::{ByCount, BySum, Uniform, WeightPolicy};
pub use stat_index::StatIndex;
