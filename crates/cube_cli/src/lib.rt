//! The program as a library: the top call, from the bytes that come in to the bytes that go out and the store.
#![tactic(auto)]

mod asking;
mod command;
mod drill;
mod end;
mod following;
mod importing;
mod init;
mod laws;
mod leading;
mod rebuilding;
mod row_file;
mod run_end;
mod saying;
mod schema_alone;
mod schema_lines;
mod store;
mod telling;
mod trying;
mod words;

pub use command::{Command, StoreCommand, cube};
pub use end::{End, ErrorLine};
pub use laws::{
    worked_asked_words, worked_examples, worked_growths, worked_listing, worked_measures,
    worked_questions,
};
pub use schema_alone::read_schema_alone;
pub use store::InputTask;
pub use telling::Telling;
pub use words::words_of;
