//! Facts in a CSV file: reading them and writing them, and writing the rows over which they are spread. What a record is and
//! how it is spelled, the crate `csv` says.
#![tactic(auto)]

mod columns;
mod extended_row;
mod fact_row;
mod laws;
mod read;
mod record_fields;
mod record_reader;
mod record_writer;
mod rows;
mod write;

pub use laws::{parts_make_the_text, worked_text};
pub use read::read_facts;
pub use rows::{write_rows, write_rows_header};
pub use write::write_facts;
