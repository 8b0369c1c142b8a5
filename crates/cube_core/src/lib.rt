//! The cube: facts, each spread over the cells of its region, edits of them, and answers over regions.
#![tactic(auto)]

mod carrying;
mod cube;
mod fault;
mod growing;
mod laws;
mod mending;
mod place;
mod ranging;
mod respread;
mod tabling;

pub use cube::{Cube, Receipt};
pub use cube_state::Ends;
pub use fault::{EditFault, ImportFault};
pub use laws::{worked_cube, worked_sums};
pub use place::PlacedList;
pub use ranging::Picks;
pub use store_audit::{Finding, LoadFault, Mending};
pub use tabling::tables_merge;
pub use view_store::ViewList;
pub use world_law::{Placed, WorldFault, WorldSum};
