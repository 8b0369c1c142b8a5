//! The allocation of a fact.
ghost use Rattle.std.specs.Prelude.{◌≡◌, ◌<◌, ◌≤◌, ◌==◌, if◌then◌else◌, IfOk, length};
ghost use Rattle.std.specs.List.{sum_by};
ghost use Rattle.cube_model.specs.Allocation.{rows_of, spread, spread_evenly};
ghost use Rattle.cube_model.specs.Cells.{AreRows, cells_of};
ghost use Rattle.cube_model.specs.Limits.{DEN_LIMIT, MAX_CELLS};
ghost use Rattle.cell_weight.specs.Stats.{stat_at};
ghost use Rattle.region_algebra.specs.Space.{IsRegion};
ghost use Rattle.alloc_rows.specs.Alloc.{AreFewAt, IsAllocation, IsAllocationOf, IsSpreadOf};

use crate::Alloc;
use cell_weight::{StatIndex, WeightPolicy};
use cube_base::Memory;
use cube_model::{Fact, Region};
use region_algebra::Space;
use std::alloc::Global;

/// The allocation of a fact: on one cell, it is there whole. Else it is spread over the cells of its region by what the
/// policy makes them weigh, or evenly where all weigh 0. The region is one of the space and has at most 2^20 cells, and the
/// counts of the statistics over these cells add up to at most 2^20. It looks at each cell of the region once, or twice
/// where all weigh 0.
pub fn allocate<P: WeightPolicy>(
    alloc: Global,
    space: &Space,
    policy: &P,
    stats: &StatIndex,
    f: &Fact,
) -> Result<Alloc, Memory>
    requires region { IsRegion space.now f.now.region }
    requires few { length (cells_of space.now f.now.region) ≤ MAX_CELLS }
    requires counted { AreFewAt space.now stats.now f.now.region }
    ensures spread { IfOk result (λ a. a ≡ spread (λ cell. P.weigh policy.now (stat_at stats.now cell)) (cells_of space.now f.now.region)) }
    ensures of_facts { IfOk result (IsAllocationOf (P.weigh policy.now) space.now stats.now f.now) }
    ensures cells { IfOk result (λ a. AreRows space.now a.rows) }
{
    allocate_at(alloc, space, policy, stats, f.region)
}

/// The allocation of every fact in a region, as `allocate` gives it: that depends on the region alone. The conditions are
/// those of `allocate`. Where the region is one cell, it takes no memory.
pub fn allocate_at<P: WeightPolicy>(
    alloc: Global,
    space: &Space,
    policy: &P,
    stats: &StatIndex,
    r: Region,
) -> Result<Alloc, Memory>
    requires region { IsRegion space.now r }
    requires few { length (cells_of space.now r) ≤ MAX_CELLS }
    requires counted { AreFewAt space.now stats.now r }
    ensures spread { IfOk result (λ a. a ≡ spread (λ cell. P.weigh policy.now (stat_at stats.now cell)) (cells_of space.now r)) }
    ensures of_facts { IfOk result (IsSpreadOf (P.weigh policy.now) space.now (stat_at stats.now) r) }
    ensures cells { IfOk result (λ a. AreRows space.now a.rows) }
{
    if let Some(cell) = space.cell_code(r) {
        return Ok(Alloc::of_cell(alloc, cell));
    }
    let (total, rows) = weigh_cells(alloc, space, policy, stats, r)?;
    settle(alloc, space, r, total, rows)
}

/// The sum of the weights of a region's cells, and the cells that weigh something with their weights, ascending.
fn weigh_cells<P: WeightPolicy>(
    alloc: Global,
    space: &Space,
    policy: &P,
    stats: &StatIndex,
    r: Region,
) -> Result<(u64, Vec<(u64, u64)>), Memory>
    requires region { IsRegion space.now r }
    requires few { length (cells_of space.now r) ≤ MAX_CELLS }
    requires counted { AreFewAt space.now stats.now r }
    ensures total { IfOk result (λ weighed. weighed.0 ≡ sum_by (λ cell. P.weigh policy.now (stat_at stats.now cell)) (cells_of space.now r)) }
    ensures rows { IfOk result (λ weighed. weighed.1.items ≡ rows_of (λ cell. P.weigh policy.now (stat_at stats.now cell)) (cells_of space.now r)) }
    ensures limit { IfOk result (λ weighed. weighed.0 < DEN_LIMIT) }
{
    let mut total = 0;
    let mut rows = Vec::new(alloc);
    for cell in space.cells(r) {
        let weight = policy.weight(stats.stat(cell));
        if weight > 0 {
            total += weight;
            rows.push((cell, weight))?;
        }
    }
    Ok((total, rows))
}

/// The rows of the cells that weigh something over their sum or, where that is 0, even ones.
pub(crate) fn settle(
    alloc: Global,
    space: &Space,
    r: Region,
    total: u64,
    rows: Vec<(u64, u64)>,
) -> Result<Alloc, Memory>
    requires region { IsRegion space.now r }
    requires few { length (cells_of space.now r) ≤ MAX_CELLS }
    requires weighed { 1 ≤ total → IsAllocation (record { den = total; rows = rows.items }) }
    ensures { IfOk result (λ a. a ≡ (if total == 0 then spread_evenly (cells_of space.now r) else record { den = total; rows = rows.items })) }
{
    if total == 0 {
        return spread_evenly(alloc, space, r);
    }
    Alloc::of_rows(alloc, total, rows)
}

/// Weight 1 for each of a region's cells.
fn spread_evenly(alloc: Global, space: &Space, r: Region) -> Result<Alloc, Memory>
    requires region { IsRegion space.now r }
    requires few { length (cells_of space.now r) ≤ MAX_CELLS }
    ensures { IfOk result (λ a. a ≡ spread_evenly (cells_of space.now r)) }
{
    let count = space.cell_count(r);
    let mut rows = Vec::with_capacity(alloc, count as usize)?;
    for cell in space.cells(r) {
        rows.push((cell, 1))?;
    }
    Alloc::of_rows(alloc, count, rows)
}
