//! The choices of facts for one column. A fact of one row has none: it stands where it is.
ghost use Rattle.std.specs.Prelude.{◌≡◌, ◌+◌, ◌*◌, ◌≤◌, ◌<◌, None, All, length, IfOk, nat_abs};
ghost use Rattle.cube_model.specs.Cells.{AreRows, all_cells, cells_of};
ghost use Rattle.cube_model.specs.Limits.{MAX_FACTS, MAX_VALUE};
ghost use Rattle.region_algebra.specs.Space.{IsRegion};
ghost use Rattle.world_law.specs.Choices.{AreSmall, IsLight, Settles, choice_of, own};
ghost use Rattle.world_law.specs.Limits.{MAX_MASS};
ghost use Rattle.world_law.specs.Placed.{IsPlacedFor, choices_of, fault_of, placed_fact, placed_facts};
ghost use Rattle.world_law.specs.Worlds.{column_of, mass, total, world_count};

use crate::Placed;
use crate::walk::{Choice, Found, plus, walk};
use cube_base::{Memory, PlainList};
use cube_model::Region;
use region_algebra::Space;
use std::alloc::Global;

/// What the worlds add up to for one column. The facts of one row are passed once, and not in every world.
pub fn walk_column(
    alloc: Global,
    placed: &[Placed],
    space: &Space,
    r: Region,
    column: u32,
) -> Result<Found, Memory>
    requires placed { All (IsPlacedFor space.now column) placed.now }
    requires few { length placed.now ≤ MAX_FACTS }
    requires region { IsRegion space.now r }
    requires accepted { fault_of placed.now ≡ None }
    ensures worlds { IfOk result (λ found. found.worlds ≡ world_count (placed_facts placed.now)) }
    ensures mass { IfOk result (λ found. found.mass ≡ mass (placed_facts placed.now)) }
    ensures total { IfOk result (λ found. found.total ≡ total space.now r column (placed_facts placed.now)) }
{
    let settled = settle(alloc, placed, space, r, column)?;
    let found = Found {
        worlds: 0,
        mass: 0,
        total: 0,
    };
    Ok(walk(
        settled.several.as_slice(),
        settled.weight,
        settled.sum,
        found,
    ))
}

/// What the facts of one row add up to, and the choices of the others.
#[derive(Drop)]
struct Settled {
    /// The product of the weights of the facts of one row.
    weight: u64,
    /// The sum of the column over those of them that stand in the region.
    sum: i64,
    /// The choices of the others, in order.
    several: PlainList<Choice>,
}

// Goes through the facts.
fn settle(
    alloc: Global,
    placed: &[Placed],
    space: &Space,
    r: Region,
    column: u32,
) -> Result<Settled, Memory>
    requires placed { All (IsPlacedFor space.now column) placed.now }
    requires few { length placed.now ≤ MAX_FACTS }
    requires region { IsRegion space.now r }
    requires light { IsLight (choices_of space.now r column placed.now) }
    ensures settles { IfOk result (λ s. Settles (choices_of space.now r column placed.now) s.weight s.sum s.several) }
    ensures small { IfOk result (λ s. nat_abs s.sum + length s.several * MAX_VALUE ≤ MAX_MASS) }
    ensures values { IfOk result (λ s. All AreSmall s.several) }
{
    let mut weight = 1;
    let mut sum = 0;
    let mut several = PlainList::new(alloc);
    for item in placed {
        let rows = item.rows.as_slice();
        if rows.len() == 1 {
            weight *= rows[0].1;
            sum = plus(sum, own(item, space, r, column, rows[0].0));
            continue;
        }
        several.push(choose(alloc, item, space, r, column)?)?;
    }
    Ok(Settled {
        weight,
        sum,
        several,
    })
}

// The choice of a fact.
fn choose(
    alloc: Global,
    item: &Placed,
    space: &Space,
    r: Region,
    column: u32,
) -> Result<Choice, Memory>
    requires cells { AreRows space.now item.now.rows }
    requires column { column ≤ length item.now.cols }
    requires region { IsRegion space.now r }
    ensures { IfOk result (λ choice. choice ≡ choice_of (cells_of space.now r) column (placed_fact item.now)) }
{
    let mut choice = Choice::new(alloc);
    for (cell, weight) in item.rows.as_slice() {
        choice.push((*weight, own(item, space, r, column, *cell)))?;
    }
    Ok(choice)
}

// What a fact adds where it stands at a cell.
fn own(item: &Placed, space: &Space, r: Region, column: u32, cell: u64) -> i64
    requires cell { cell < length (all_cells space.now) }
    requires column { column ≤ length item.now.cols }
    requires region { IsRegion space.now r }
    ensures { result ≡ own (cells_of space.now r) column (placed_fact item.now) cell }
{
    if space.contains(r, cell) {
        column_of(item, column)
    } else {
        0
    }
}

// A column of a fact, the count being column 0.
fn column_of(item: &Placed, column: u32) -> i64
    requires { column ≤ length item.now.cols }
    ensures { result ≡ column_of column (placed_fact item.now) }
{
    if column == 0 {
        1
    } else {
        item.cols.get(column - 1)
    }
}
