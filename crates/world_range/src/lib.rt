//! The least and the greatest of what a region's sum may be over possible worlds, and a world that reaches each.
#![tactic(auto)]

mod ends;
mod extreme;
mod laws;
mod picking;
mod reach;
mod sides;

pub use ends::Range;
pub use extreme::Extreme;
pub use laws::{
    ends_are_reached, parts_are_told_by_sides, shared_facts_have_rows, worked_ends_above_0,
    worked_ends_below_0, worked_ends_that_are_one, worked_sides,
};
pub use picking::pick;
pub use reach::range;
pub use sides::{Sides, sides_of};
