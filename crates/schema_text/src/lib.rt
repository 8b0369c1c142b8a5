//! The text of a schema.
#![tactic(auto)]

mod fault;
mod laws;
mod measures;
mod name;
mod open_dim;
mod policy;
mod read;
mod reader;
mod schema;
mod views;
mod word;
mod write;

pub use laws::{
    long_line_means_its_front, what_is_written_is_read, worked_distributions, worked_numbers,
    worked_views, worked_weights,
};
pub use read::read_schema;
pub use schema::{Schema, SchemaFault};
pub use word::PolicyWord;
pub use write::write_schema;
