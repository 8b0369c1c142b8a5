//! How a fact is spelled in fields: its id, the names of its nodes, and the values of each measure.
#![tactic(auto)]

mod fact_row;
mod laws;

pub use fact_row::{append_fact, append_values};
pub use laws::{fields_read_back, worked_fields};
