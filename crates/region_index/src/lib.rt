//! The imprecise facts by region: which of them cover a cell, found by climbing from the cell's leaves; and the regions that
//! have a cell in common with a region.
#![tactic(auto)]

mod changes;
mod climb;
mod laws;
mod patterns;
mod region_index;
mod short;
mod steps;
mod touching;
mod walk;

pub use changes::sort_distinct;
pub use laws::{
    an_index_follows_its_facts, codes_held_over_a_cell_are_those_of_the_facts,
    ids_over_a_cell_are_those_of_the_facts, known_patterns_are_those_of_an_index,
    notes_keep_what_is_known, regions_over_a_cell_are_no_more_than_depths, worked_indexes,
    worked_touching,
};
pub use patterns::DepthPatterns;
pub use region_index::{RegionIndex, RegionStage};
pub use steps::Steps;
pub use touching::codes_touching;
