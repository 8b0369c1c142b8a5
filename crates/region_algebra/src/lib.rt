//! Regions, cells and codes over several dimensions.
#![tactic(auto)]

mod cell_walk;
mod cells;
mod copies;
mod growth;
mod inside;
mod laws;
mod regions;
mod space;
mod steps;
mod view_def;
mod wheel;

pub use cell_walk::CellWalk;
pub use cube_model::{Grow, MAX_DIMS, Region};
pub use growth::GrowFault;
pub use inside::Inside;
pub use laws::{
    a_full_dimension_gets_no_leaf, cells_are_a_product, cells_are_those_of_the_children,
    codes_tell_regions_apart, nested_or_apart, worked_growth, worked_regions,
};
pub use space::{Space, SpaceFault};
pub use view_def::{Depths, ViewDef, ViewDefs};
