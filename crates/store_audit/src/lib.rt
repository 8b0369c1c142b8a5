//! The state of a stored content: its facts read, judged and spread anew, and its rows compared with what they make, or put right.
#![tactic(auto)]

mod facts;
mod finding;
mod laws;
mod loading;
mod mending;
mod rows;

pub use finding::{Finding, LoadFault};
pub use laws::{mending_makes_sound, one_finding, worked_facts, worked_mending, worked_rows};
pub use loading::load_state;
pub use mending::{Mending, mend_rows};
