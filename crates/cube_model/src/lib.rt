//! The plain data of the cube, its limits and, in `specs/`, its definitions: what trees, cells, facts, allocations and
//! answers are. The crates above compute by other means what stands here.
#![tactic(auto)]

mod edit;
mod limits;
mod region;
mod statistic;
mod term;
mod tree;

pub use edit::{Edit, Fact};
pub use limits::{
    MAX_CELLS, MAX_DEPTH, MAX_DIMS, MAX_FACTS, MAX_ID, MAX_NODES, MAX_ROWS, MAX_SCALE, MAX_VALUE,
    MIN_ID, MIN_SCALE, SPACE_LIMIT, WIDE,
};
pub use region::Region;
pub use statistic::CellStat;
pub use term::Term;
pub use tree::{DimFault, Grow, NodeLine, NumberedLine};
