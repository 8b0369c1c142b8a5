//! What the two ends of a sum are.
use cube_base::Ids;

/// What a region's sum of a column may be over all possible worlds.
#[derive(Debug, Drop)]
pub struct Range {
    /// The least of the sums.
    pub least: i128,
    /// The greatest of them.
    pub greatest: i128,
    /// The cells of a world whose sum is the least: one for each fact, in order.
    pub low: Ids,
    /// The cells of a world whose sum is the greatest.
    pub high: Ids,
}
