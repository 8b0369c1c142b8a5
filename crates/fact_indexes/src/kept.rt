//! Facts, with all that is kept of them.
use crate::Group;
use cell_weight::StatIndex;
use fact_records::FactList;
use region_index::RegionIndex;
use staged_map::Staged;
use view_store::Views;

/// Facts, with what a cube keeps of them beside: made by `keep_all`.
#[derive(Drop)]
pub struct FactsKept {
    /// The facts, in order of their ids.
    pub facts: FactList,
    /// For each cell the number of its precise facts, and the sum that they add.
    pub stats: StatIndex,
    /// The ids of the imprecise facts, by the code of their region.
    pub index: RegionIndex,
    /// For each region that a fact has, by its code, the facts there.
    pub groups: Staged<Group>,
    /// For each view the terms of its regions.
    pub views: Views,
    /// The number of rows of all facts.
    pub rows: u64,
}
