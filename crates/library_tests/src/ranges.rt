//! The two ends of a region's sum over possible worlds.
ghost use Rattle.std.specs.Prelude.{◌≤◌, All, IfOk, OnOk, length};
ghost use Rattle.world_law.specs.Placed.{IsPlacedFor};
ghost use Rattle.library_tests.specs.Few.{AreFewEach};

use crate::fixtures::{CARS, CITIES, Node, PLACES, space_of};
use alloc_rows::allocate_at;
use cell_weight::{ByCount, CellStat, StatIndex};
use cube_base::{Cols, Pairs};
use region_algebra::Space;
use std::alloc::Global;
use std::test::Fail;
use world_law::Placed;
use world_range::range;

/// The nodes of a fact, and its value.
type Fact = (&'static [u32], i32);

/// A sum, and the cells of the facts in a world that has it.
type End = (i128, &'static [u64]);

/// Facts, the nodes of a region, and a column, with its least and its greatest sum there.
type Row = (&'static [Fact], &'static [u32], u32, End, End);

/// Two facts in Austin, one in Dallas, and one in either of these.
const ABOVE_0: [Fact; 4] = [
    (&[2, 2], 100),
    (&[2, 2], 300),
    (&[3, 2], 50),
    (&[1, 2], 600),
];

/// The same where the last has a value below 0.
const BELOW_0: [Fact; 4] = [
    (&[2, 2], 100),
    (&[2, 2], 300),
    (&[3, 2], 50),
    (&[1, 2], -600),
];

/// The same where it has 0.
const OF_0: [Fact; 4] = [(&[2, 2], 100), (&[2, 2], 300), (&[3, 2], 50), (&[1, 2], 0)];

/// Two facts, of which the last is somewhere in Texas and has the one row of the first.
const OF_ONE_ROW: [Fact; 2] = [(&[2, 2], 5), (&[1, 2], 600)];

/// A fact in Reno, and one somewhere in Texas, where no other is.
const APART: [Fact; 2] = [(&[2], 100), (&[3], 600)];

/// Ends at cities and cars: where rows are on both sides of the region, all inside, and all outside.
const ENDS: [Row; 12] = [
    (
        &ABOVE_0,
        &[2, 2],
        1,
        (400, &[0, 0, 4, 4]),
        (1000, &[0, 0, 4, 0]),
    ),
    (&ABOVE_0, &[2, 2], 0, (2, &[0, 0, 4, 4]), (3, &[0, 0, 4, 0])),
    (
        &ABOVE_0,
        &[3, 2],
        1,
        (50, &[0, 0, 4, 0]),
        (650, &[0, 0, 4, 4]),
    ),
    (
        &ABOVE_0,
        &[1, 2],
        1,
        (1050, &[0, 0, 4, 0]),
        (1050, &[0, 0, 4, 0]),
    ),
    (&ABOVE_0, &[4, 2], 1, (0, &[0, 0, 4, 0]), (0, &[0, 0, 4, 0])),
    (&ABOVE_0, &[5, 0], 1, (0, &[0, 0, 4, 0]), (0, &[0, 0, 4, 0])),
    (
        &BELOW_0,
        &[2, 2],
        1,
        (-200, &[0, 0, 4, 0]),
        (400, &[0, 0, 4, 4]),
    ),
    (&BELOW_0, &[3, 0], 0, (1, &[0, 0, 4, 0]), (2, &[0, 0, 4, 4])),
    (&OF_0, &[3, 2], 1, (50, &[0, 0, 4, 0]), (50, &[0, 0, 4, 0])),
    (&OF_ONE_ROW, &[2, 2], 1, (605, &[0, 0]), (605, &[0, 0])),
    (&OF_ONE_ROW, &[2, 2], 0, (2, &[0, 0]), (2, &[0, 0])),
    (&[], &[0, 0], 1, (0, &[]), (0, &[])),
];

/// Ends at places, in Austin.
const ENDS_IN_AUSTIN: [Row; 1] = [(&APART, &[4], 1, (0, &[0, 2]), (600, &[0, 1]))];

/// How many precise facts a cell may have here.
const MOST_EACH: u64 = 8;

/// How many cells a region may have here.
const MOST_CELLS: u64 = 1024;

/// One more precise fact lies at a cell.
fn count_at(stats: &mut StatIndex, cell: u64) -> Result<(), Fail>
    requires { AreFewEach stats.old }
    ensures { OnOk result (AreFewEach stats.new) }
{
    let stat = stats.stat(cell);
    if stat.count >= MOST_EACH {
        return Err("many facts at a cell".into());
    }
    let count = stat.count + 1;
    let change = [(cell, CellStat { count, ..stat })];
    stats.stage(&change)?;
    stats.install(&change);
    Ok(())
}

/// The numbers of precise facts at cells.
fn stats_of(alloc: Global, space: &Space, facts: &[Fact]) -> Result<StatIndex, Fail>
    ensures { IfOk result (λ stats. AreFewEach stats) }
{
    let mut stats = StatIndex::new(alloc);
    for (nodes, _) in facts {
        let region = space.region(nodes).ok_or("no region")?;
        if let Some(cell) = space.cell_code(region) {
            count_at(&mut stats, cell)?;
        }
    }
    Ok(stats)
}

/// A fact over its allocation by the numbers of precise facts.
fn place(
    alloc: Global,
    space: &Space,
    stats: &StatIndex,
    fact: &Fact,
    column: u32,
) -> Result<Placed, Fail>
    requires few { AreFewEach stats.now }
    requires column { column ≤ 1 }
    ensures { IfOk result (IsPlacedFor space.now column) }
{
    let (nodes, value) = *fact;
    let region = space.region(nodes).ok_or("no region")?;
    if space.cell_count(region) > MOST_CELLS {
        return Err("many cells".into());
    }
    let spread = allocate_at(alloc, space, &ByCount, stats, region)?;
    Ok(Placed {
        den: spread.den(),
        rows: Pairs::from(spread.rows().to_vec(alloc)?),
        cols: Cols::new(&[i64::from(value)]).ok_or("no columns")?,
    })
}

/// All of some facts, in order.
fn place_all(alloc: Global, space: &Space, facts: &[Fact], column: u32) -> Result<Vec<Placed>, Fail>
    requires few { length facts.now ≤ 4 }
    requires column { column ≤ 1 }
    ensures each { IfOk result (λ placed. All (IsPlacedFor space.now column) placed.items) }
    ensures few { IfOk result (λ placed. length placed.items ≤ 4) }
{
    let stats = stats_of(alloc, space, facts)?;
    let mut placed = Vec::new(alloc);
    for fact in facts {
        placed.push(place(alloc, space, &stats, fact, column)?)?;
    }
    Ok(placed)
}

/// Whether the ends of a row are given.
fn has_ends(alloc: Global, space: &Space, row: &Row) -> Result<bool, Fail> {
    let (facts, nodes, column, low, high) = *row;
    if facts.len() > 4 || column > 1 {
        return Err("a large row".into());
    }
    let region = space.region(nodes).ok_or("no region")?;
    let items = place_all(alloc, space, facts, column)?;
    let found = range(alloc, &items, space, region, column)?;
    Ok(
        (found.least, found.low.as_slice()) == low
            && (found.greatest, found.high.as_slice()) == high,
    )
}

fn have_ends(alloc: Global, dims: &[&[Node]], rows: &[Row]) -> Result<bool, Fail> {
    let space = space_of(alloc, dims)?;
    for row in rows {
        if !has_ends(alloc, &space, row)? {
            return Ok(false);
        }
    }
    Ok(true)
}

#[test]
fn ends_of_a_sum(rt: HostRuntime) -> Result<(), Fail> {
    assert!(rt; have_ends(rt.alloc(), &[&CITIES, &CARS], &ENDS)?);
    assert!(rt; have_ends(rt.alloc(), &[&PLACES], &ENDS_IN_AUSTIN)?);
    Ok(())
}
