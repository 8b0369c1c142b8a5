//! The sums over all worlds.
ghost use Rattle.std.specs.Prelude.{◌≡◌, ◌≤◌, None, All, length, map, IfErr, IfOk, OnOk};
ghost use Rattle.std.specs.List.{range_with_len};
ghost use Rattle.cube_model.specs.Limits.{MAX_FACTS};
ghost use Rattle.region_algebra.specs.Space.{IsRegion};
ghost use Rattle.world_law.specs.Placed.{IsPlacedFact, IsWorldFaultOf, fault_of, placed_facts};
ghost use Rattle.world_law.specs.Worlds.{mass, total, world_count};
ghost use Rattle.world_law.specs.declared.sum.WorldFault.TheVariants as world_fault;

use crate::Placed;
use crate::judge::judge;
use crate::settle::walk_column;
use cube_base::{Memory, Nums};
use cube_model::Region;
use region_algebra::Space;
use std::alloc::Global;

/// What all worlds of some facts add up to, in a region.
#[derive(Debug, Drop)]
pub struct WorldSum {
    /// The number of worlds.
    pub worlds: u64,
    /// The sum of their weights.
    pub mass: u64,
    /// For each column, the count first, the sum over all worlds of the weight times the sum of the column over the facts
    /// that stand in the region.
    pub totals: Nums,
}

/// Why worlds are not listed.
#[derive(Clone, Copy, Debug, PartialEq, Eq)]
pub enum WorldFault {
    /// There are more than [`crate::MAX_WORLDS`]: the product of the first numbers of rows, up to the one with which it is
    /// above that.
    Many { product: u64 },
    /// Their weights add up to more than [`crate::MAX_MASS`].
    Wide,
    /// Out of memory.
    Memory,
}

impl From<Memory> for WorldFault {
    ghost from_gives = { λ _ fault. fault ≡ world_fault.Memory };

    fn from(_: Memory) -> Self {
        WorldFault::Memory
    }
}

/// Lists the possible worlds of facts and adds up what stands in a region. In a world each fact stands in one cell of its
/// rows, independently of the others; the weight of the world is the product of the weights of these rows.
///
/// Each fact's rows are an allocation over cells of the space, at most 2^20, and its values, one less than `columns`, are at
/// most 10^12 in absolute value. There are at most 2^20 facts, and the region is one of the space.
///
/// `Many` is answered exactly where there are more than 65,536 worlds, with the first product of the numbers of rows, in the
/// order of the facts, that shows it. Else `Wide` is answered exactly where the product of the denominators, which is what
/// the weights add up to, is above 2^60. Running out of memory is the only other error.
///
/// It goes through the worlds one by one for each column, and keeps none of them: it takes memory for the rows of the facts
/// with several.
pub fn enumerate(
    alloc: Global,
    placed: &[Placed],
    space: &Space,
    r: Region,
    columns: u32,
) -> Result<WorldSum, WorldFault>
    requires placed { All (IsPlacedFact space.now columns) placed.now }
    requires few { length placed.now ≤ MAX_FACTS }
    requires region { IsRegion space.now r }
    ensures worlds { IfOk result (λ sum. sum.worlds ≡ world_count (placed_facts placed.now)) }
    ensures mass { IfOk result (λ sum. sum.mass ≡ mass (placed_facts placed.now)) }
    ensures totals { IfOk result (λ sum. sum.totals ≡ map (λ column. total space.now r column (placed_facts placed.now)) (range_with_len 0 columns)) }
    ensures accepted { OnOk result (fault_of placed.now ≡ None) }
    ensures refused { IfErr result (IsWorldFaultOf placed.now) }
{
    if let Some(fault) = judge(placed) {
        return Err(fault);
    }
    Ok(sum_of(alloc, placed, space, r, columns)?)
}

// Walks through the worlds for each column. Where there is no column there is no fact, and one world, of weight 1.
fn sum_of(
    alloc: Global,
    placed: &[Placed],
    space: &Space,
    r: Region,
    columns: u32,
) -> Result<WorldSum, Memory>
    requires placed { All (IsPlacedFact space.now columns) placed.now }
    requires few { length placed.now ≤ MAX_FACTS }
    requires region { IsRegion space.now r }
    requires accepted { fault_of placed.now ≡ None }
    ensures worlds { IfOk result (λ sum. sum.worlds ≡ world_count (placed_facts placed.now)) }
    ensures mass { IfOk result (λ sum. sum.mass ≡ mass (placed_facts placed.now)) }
    ensures totals { IfOk result (λ sum. sum.totals ≡ map (λ column. total space.now r column (placed_facts placed.now)) (range_with_len 0 columns)) }
{
    let mut worlds = 1;
    let mut mass = 1;
    let mut totals = Nums::new(alloc);
    for column in 0..columns {
        let found = walk_column(alloc, placed, space, r, column)?;
        worlds = found.worlds;
        mass = found.mass;
        totals.push(found.total)?;
    }
    Ok(WorldSum {
        worlds,
        mass,
        totals,
    })
}
