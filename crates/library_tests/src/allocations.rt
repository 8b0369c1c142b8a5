//! How facts are spread over the cells of their regions.
ghost use Rattle.std.specs.Prelude.{◌≤◌, IfOk, length};
ghost use Rattle.cube_model.specs.Cells.{AreRows, cells_of};
ghost use Rattle.cube_model.specs.Limits.{MAX_CELLS};
ghost use Rattle.region_algebra.specs.Space.{IsRegion};

use crate::fixtures::{PLACES, space_of};
use alloc_rows::{Alloc, allocate};
use cell_weight::{ByCount, BySum, StatIndex, Uniform, WeightPolicy};
use cube_base::Cols;
use cube_model::{Fact, MAX_CELLS};
use region_algebra::Space;
use std::alloc::Global;
use std::test::Fail;

/// A node with the cells over which a fact there is spread evenly.
type Row = (u32, &'static [(u64, u64)]);

/// Nodes of several cells, of one, and with one leaf.
const SPREAD: [Row; 4] = [
    (0, &[(0, 1), (1, 1), (2, 1)]),
    (3, &[(1, 1), (2, 1)]),
    (4, &[(1, 1)]),
    (1, &[(0, 1)]),
];

/// A fact without values at a node of a space of one dimension.
fn fact_at(space: &Space, node: u32) -> Result<Fact, Fail>
    ensures region { IfOk result (λ fact. IsRegion space.now fact.region) }
    ensures cells { IfOk result (λ fact. length (cells_of space.now fact.region) ≤ MAX_CELLS) }
{
    let region = space.region(&[node]).ok_or("no region")?;
    if space.cell_count(region) > MAX_CELLS {
        return Err("many cells".into());
    }
    Ok(Fact {
        id: 1,
        region,
        cols: Cols::new(&[]).ok_or("no columns")?,
    })
}

/// The allocation of a fact at a node, where no precise fact lies.
pub fn spread_alone<P: WeightPolicy>(
    alloc: Global,
    space: &Space,
    policy: &P,
    node: u32,
) -> Result<Alloc, Fail>
    ensures { IfOk result (λ a. AreRows space.now a.rows) }
{
    let fact = fact_at(space, node)?;
    Ok(allocate(alloc, space, policy, &StatIndex::new(alloc), &fact)?)
}

/// Whether a fact is spread evenly by a policy.
fn is_spread<P: WeightPolicy>(
    alloc: Global,
    space: &Space,
    policy: &P,
    row: &Row,
) -> Result<bool, Fail> {
    let (node, rows) = *row;
    let spread = spread_alone(alloc, space, policy, node)?;
    Ok(spread.rows() == rows)
}

/// Whether facts are, whatever cells weigh.
fn are_spread_over(alloc: Global, space: &Space, rows: &[Row]) -> Result<bool, Fail> {
    for row in rows {
        if !is_spread(alloc, space, &Uniform, row)?
            || !is_spread(alloc, space, &ByCount, row)?
            || !is_spread(alloc, space, &BySum, row)?
        {
            return Ok(false);
        }
    }
    Ok(true)
}

fn are_spread(alloc: Global, rows: &[Row]) -> Result<bool, Fail> {
    let space = space_of(alloc, &[&PLACES])?;
    are_spread_over(alloc, &space, rows)
}

#[test]
fn facts_are_spread(rt: HostRuntime) -> Result<(), Fail> {
    assert!(rt; are_spread(rt.alloc(), &SPREAD)?);
    Ok(())
}
