//! The two ends of a region's sum.
ghost use Rattle.std.specs.Prelude.{◌≡◌, ◌*◌, ◌≤◌, All, length, IfOk, ◌+ℤ◌, if◌then◌else◌, nat_abs, pos};
ghost use Rattle.cube_model.specs.Cells.{cells_of, is_among};
ghost use Rattle.cube_model.specs.Limits.{MAX_FACTS, MAX_VALUE};
ghost use Rattle.region_algebra.specs.Inside.{cells_inside};
ghost use Rattle.region_algebra.specs.Space.{IsRegion};
ghost use Rattle.world_law.specs.Placed.{IsPlacedFor, placed_fact, placed_facts};
ghost use Rattle.world_law.specs.Worlds.{column_of};
ghost use Rattle.world_range.specs.Ends.{AreEnds};
ghost use Rattle.world_range.specs.Picks.{end_of, picks};
ghost use Rattle.world_range.specs.declared.extreme.Extreme.TheVariants.{Greatest, Least};

use crate::{Extreme, Range, pick};
use cube_base::{Ids, Memory};
use cube_model::Region;
use region_algebra::{Inside, Space};
use std::alloc::Global;
use world_law::Placed;

/// The least and the greatest that a region's sum of a column may be over all possible worlds, in which each fact stands in
/// one cell of its rows, and a world that reaches each. Column 0 is the count.
///
/// Each fact's rows are an allocation over cells of the space, and it has that column, whose values are at most 10^12 in
/// absolute value. There are at most 2^20 facts, and the region is one of the space. Running out of memory is the only error.
///
/// It lists no world: it reads each fact's rows once or twice, up to the first that is wanted, and takes memory for the two
/// lists of cells.
pub fn range(
    alloc: Global,
    placed: &[Placed],
    space: &Space,
    r: Region,
    column: u32,
) -> Result<Range, Memory>
    requires placed { All (IsPlacedFor space.now column) placed.now }
    requires few { length placed.now ≤ MAX_FACTS }
    requires region { IsRegion space.now r }
    ensures least { IfOk result (λ range. range.least ≡ end_of Least (cells_of space.now r) column (placed_facts placed.now)) }
    ensures greatest { IfOk result (λ range. range.greatest ≡ end_of Greatest (cells_of space.now r) column (placed_facts placed.now)) }
    ensures low { IfOk result (λ range. range.low ≡ picks Least (cells_of space.now r) column (placed_facts placed.now)) }
    ensures high { IfOk result (λ range. range.high ≡ picks Greatest (cells_of space.now r) column (placed_facts placed.now)) }
    ensures law { AreEnds space.now r column (placed_facts placed.now) }
{
    let low = reach_end(alloc, placed, space, r, column, Extreme::Least)?;
    let high = reach_end(alloc, placed, space, r, column, Extreme::Greatest)?;
    Ok(Range {
        least: i128::from(low.sum),
        greatest: i128::from(high.sum),
        low: low.picked,
        high: high.picked,
    })
}

/// One end of a sum.
#[derive(Drop)]
struct End {
    /// The sum.
    sum: i64,
    /// The cells of a world that has it.
    picked: Ids,
}

// Picks each fact's cell.
fn reach_end(
    alloc: Global,
    placed: &[Placed],
    space: &Space,
    r: Region,
    column: u32,
    extreme: Extreme,
) -> Result<End, Memory>
    requires placed { All (IsPlacedFor space.now column) placed.now }
    requires few { length placed.now ≤ MAX_FACTS }
    requires region { IsRegion space.now r }
    ensures sum { IfOk result (λ end. end.sum ≡ end_of extreme (cells_of space.now r) column (placed_facts placed.now)) }
    ensures picked { IfOk result (λ end. end.picked ≡ picks extreme (cells_of space.now r) column (placed_facts placed.now)) }
{
    let inside = space.inside(r);
    let mut sum = 0;
    let mut picked = Ids::new(alloc);
    for item in placed {
        let value = column_of(item, column);
        let cell = pick(extreme, value, item.rows.as_slice(), &inside);
        sum = with_own(sum, value, cell, &inside);
        picked.push(cell)?;
    }
    Ok(End { sum, picked })
}

// The sum with that of a fact that stands at a cell: its value if the cell is the region's.
fn with_own(sum: i64, value: i64, cell: u64, inside: &Inside<'_>) -> i64
    requires sum { nat_abs sum ≤ MAX_FACTS * MAX_VALUE }
    requires value { nat_abs value ≤ MAX_VALUE }
    ensures { result ≡ sum +ℤ (if is_among (cells_inside inside.now) cell then value else pos 0) }
{
    if inside.holds(cell) { sum + value } else { sum }
}

// A column of a fact, the count being column 0.
fn column_of(item: &Placed, column: u32) -> i64
    requires { column ≤ length item.now.cols }
    ensures { result ≡ column_of column (placed_fact item.now) }
{
    if column == 0 {
        1
    } else {
        item.cols.get(column - 1)
    }
}
