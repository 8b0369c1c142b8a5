//! The drill: a cube that is made from a number alone, filled with facts that are drawn, and thinned out; and the line that
//! tells what is left.
#![tactic(auto)]

mod draws;
mod drill;
mod edit_cube;
mod laws;
mod run;
mod schema;
mod summary;

pub use laws::worked_drill;
pub use run::{MAX_DRILL, Summary, run_drill};
