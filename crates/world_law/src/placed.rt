//! A fact that is spread over cells.
use cube_base::{Cols, Pairs};

/// What worlds are made of: a fact without its id and its region.
#[derive(Debug, Drop)]
pub struct Placed {
    /// The denominator: the sum of the weights of the rows.
    pub den: u64,
    /// The rows, each a cell and its weight, ascending by cell.
    pub rows: Pairs,
    /// The values beside the count.
    pub cols: Cols,
}
