//! One dimension's tree of nodes, built from its lines and asked about parents, leaves and names.
#![tactic(auto)]

mod dim;
mod growing;
mod laws;
mod node;
mod numbering;
mod outline;
mod places;

pub use cube_model::{DimFault, NodeLine, NumberedLine};
pub use dim::Dim;
pub use laws::{
    fewer_leaves_than_nodes, grown_stays_a_tree, too_many_lines, worked_numbers, worked_trees,
};
