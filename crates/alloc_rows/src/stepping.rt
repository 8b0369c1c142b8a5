//! The allocation of a region that steps along with statistics, instead of being made anew.
ghost use Rattle.std.specs.Prelude.{◌≡◌, ◌<◌, ◌≤◌, ◌++◌, IfErr, IfOk, OnOk, filter, length, nat_lt, true};
ghost use Rattle.cube_base.specs.Search.{IsKeyAt, IsKeyGap};
ghost use Rattle.cube_model.specs.Allocation.{spread};
ghost use Rattle.cube_model.specs.Ascending.{ascends_from};
ghost use Rattle.cube_model.specs.Cells.{AreRows, cells_of};
ghost use Rattle.cube_model.specs.Limits.{MAX_CELLS};
ghost use Rattle.cell_weight.specs.Stats.{AreStats, stat_at};
ghost use Rattle.region_algebra.specs.Space.{IsRegion};
ghost use Rattle.alloc_rows.specs.Alloc.{AreFewAt, AreFewIn, IsSpreadOf};
ghost use Rattle.alloc_rows.specs.Changed.{AreChangesAt, stat_after};
ghost use Rattle.alloc_rows.specs.Rows.{cell_row, first_weight, weighted_part};

use crate::Alloc;
use crate::spread::settle;
use cell_weight::{CellStat, StatIndex, WeightPolicy};
use cube_base::Memory;
use cube_model::Region;
use region_algebra::Space;
use std::alloc::Global;

/// The most cells whose statistics change at once: an edit takes a fact from one cell and puts it into another.
const MAX_CHANGES: usize = 2;

/// The allocation of a region of several cells after statistics of some of them have changed, from the one before: what
/// `allocate_at` gives under the new statistics. `stats` are the old ones, `old` is the allocation under them, and
/// `changed` has each changed cell with its statistics before and after.
///
/// The region is one of the space and has at most 2^20 cells, and the counts over these cells add up to at most 2^20 before
/// and after. At most two cells change, ascending; they are cells of the region, and their new statistics are such as
/// facts can have.
///
/// It copies the rows once, in parts: those before a changed cell, then its own in place of what it had. It goes over the cells of
/// the region only where after the changes all of them weigh 0.
pub fn step<P: WeightPolicy>(
    alloc: Global,
    space: &Space,
    policy: &P,
    stats: &StatIndex,
    old: &Alloc,
    r: Region,
    changed: &[(u64, CellStat, CellStat)],
) -> Result<Alloc, Memory>
    requires region { IsRegion space.now r }
    requires several { 1 < length (cells_of space.now r) }
    requires few { length (cells_of space.now r) ≤ MAX_CELLS }
    requires counted { AreFewAt space.now stats.now r }
    requires counted_after { AreFewIn space.now (stat_after (stat_at stats.now) changed.now) r }
    requires before { old.now ≡ spread (λ cell. P.weigh policy.now (stat_at stats.now cell)) (cells_of space.now r) }
    requires changes { AreChangesAt (cells_of space.now r) (stat_at stats.now) changed.now }
    ensures spread { IfOk result (λ a. a ≡ spread (λ cell. P.weigh policy.now (stat_after (stat_at stats.now) changed.now cell)) (cells_of space.now r)) }
    ensures of_facts { IfOk result (IsSpreadOf (P.weigh policy.now) space.now (stat_after (stat_at stats.now) changed.now) r) }
    ensures cells { IfOk result (λ a. AreRows space.now a.rows) }
{
    let (mut total, mut rest) = rows_by_weight(policy, stats, old);
    let mut rows = Vec::with_capacity(alloc, rest.len() + MAX_CHANGES)?;
    for (cell, before, after) in changed {
        let weight = policy.weight(*after);
        total = total - policy.weight(*before) + weight;
        rest = pass_cell(&mut rows, rest, *cell, weight)?;
    }
    rows.extend_from_slice(rest)?;
    settle(alloc, space, r, total, rows)
}

/// The sum of the rows that an allocation has by weight, and these: none where it is even, since all cells weigh 0. Even rows
/// show by the first of them: its cell weighs 0, as that of no row by weight does.
fn rows_by_weight<'a, P: WeightPolicy>(
    policy: &P,
    stats: &StatIndex,
    old: &'a Alloc,
) -> (u64, &'a [(u64, u64)])
    ensures total { result.0 ≡ (weighted_part (λ cell. P.weigh policy.now (stat_at stats.now cell)) old.now).den }
    ensures rows { result.1.now ≡ (weighted_part (λ cell. P.weigh policy.now (stat_at stats.now cell)) old.now).rows }
    ensures possible { AreStats stats.now }
{
    let rows = old.rows();
    if weigh_first(policy, stats, rows) == 0 {
        return (0, &[]);
    }
    (old.den(), rows)
}

/// What the cell of the first row weighs.
fn weigh_first<P: WeightPolicy>(policy: &P, stats: &StatIndex, rows: &[(u64, u64)]) -> u64
    requires some { 1 ≤ length rows.now }
    ensures weight { result ≡ first_weight (λ cell. P.weigh policy.now (stat_at stats.now cell)) rows.now }
    ensures possible { AreStats stats.now }
{
    policy.weight(stats.stat(rows[0].0))
}

/// Appends those of the rest that come before a cell, and the cell's row by its new weight: none at weight 0. What
/// comes after the cell is left.
fn pass_cell<'a>(
    rows: &mut Vec<(u64, u64)>,
    rest: &'a [(u64, u64)],
    cell: u64,
    weight: u64,
) -> Result<&'a [(u64, u64)], Memory>
    requires { ascends_from (λ row. row.0) 0 rest.now ≡ true }
    ensures passed { OnOk result (rows.new.items ≡ rows.old.items ++ (filter (λ row. nat_lt row.0 cell) rest.now ++ cell_row cell weight)) }
    ensures left { IfOk result (λ left. left.now ≡ filter (λ row. nat_lt cell row.0) rest.now) }
{
    let (smaller, greater) = part_at(rest, cell);
    rows.extend_from_slice(smaller)?;
    if weight > 0 {
        rows.push((cell, weight))?;
    }
    Ok(greater)
}

/// The rows of smaller cells and those of greater ones.
fn part_at(rows: &[(u64, u64)], cell: u64) -> (&[(u64, u64)], &[(u64, u64)])
    requires { ascends_from (λ row. row.0) 0 rows.now ≡ true }
    ensures smaller { result.0.now ≡ filter (λ row. nat_lt row.0 cell) rows.now }
    ensures greater { result.1.now ≡ filter (λ row. nat_lt cell row.0) rows.now }
{
    match search(rows, cell) {
        Ok(at) => (&rows[..at], &rows[at + 1..]),
        Err(at) => (&rows[..at], &rows[at..]),
    }
}

/// Where the row of a cell is, or where it would go.
fn search(rows: &[(u64, u64)], cell: u64) -> Result<usize, usize>
    requires { ascends_from (λ row. row.0) 0 rows.now ≡ true }
    ensures found { IfOk result (IsKeyAt (λ row. row.0) (0, 0) rows.now cell) }
    ensures absent { IfErr result (IsKeyGap (λ row. row.0) (0, 0) rows.now cell) }
{
    rows.binary_search_by_key(&cell, |row| row.0)
}
