//! The facts over a cell, and those found by way of the depths at which facts are.
ghost use Rattle.std.specs.Prelude.{◌≡◌, ◌<◌, IfOk, OnOk};
ghost use Rattle.region_index.specs.Patterns.{HasPatterns};
ghost use Rattle.library_tests.specs.Noted.{AreNoted};

use crate::fixtures::{CARS, CITIES, space_of};
use cube_base::Ids;
use region_algebra::Space;
use region_index::{DepthPatterns, RegionIndex, Steps};
use std::alloc::Global;
use std::marker::Brand;
use std::sync::ledger::{Blank, Ledger};
use std::test::Fail;

/// The nodes of a region, and the id of a fact there.
type Fact = (&'static [u32], u64);

/// The facts that are there.
const THERE: [Fact; 5] = [
    (&[0, 0], 5),
    (&[1, 1], 6),
    (&[5, 0], 7),
    (&[1, 2], 2),
    (&[1, 2], 9),
];

/// The nodes of a cell, and the ids of the facts over it.
type Row = (&'static [u32], &'static [u64]);

const COVERED: [Row; 6] = [
    (&[2, 2], &[2, 5, 6, 9]),
    (&[2, 3], &[5, 6]),
    (&[2, 5], &[5]),
    (&[4, 2], &[2, 5, 6, 9]),
    (&[6, 2], &[5, 7]),
    (&[7, 6], &[5, 7]),
];

/// The codes of regions with an id each, and the patterns of the regions.
type Placed = (Vec<(u64, u64)>, DepthPatterns);

/// Places one more fact.
fn place(space: &Space, placed: &mut Placed, fact: &Fact) -> Result<(), Fail>
    requires { AreNoted space.now placed.old.0.items placed.old.1 }
    ensures { OnOk result (AreNoted space.now placed.new.0.items placed.new.1) }
{
    let (nodes, id) = *fact;
    let region = space.region(nodes).ok_or("no region")?;
    placed.0.push((space.code(region), id))?;
    placed.1.note(space, region);
    Ok(())
}

/// The codes of facts' regions with the ids, and the patterns of the regions.
fn place_all(alloc: Global, space: &Space, facts: &[Fact]) -> Result<Placed, Fail>
    ensures { IfOk result (λ placed. AreNoted space.now placed.0.items placed.1) }
{
    let mut placed = (Vec::new(alloc), DepthPatterns::new());
    for fact in facts {
        place(space, &mut placed, fact)?;
    }
    Ok(placed)
}

/// The index of facts, and the patterns of their regions.
fn index_of(
    alloc: Global,
    space: &Space,
    facts: &[Fact],
) -> Result<(RegionIndex, DepthPatterns), Fail>
    ensures { IfOk result (λ made. HasPatterns space.now made.0 made.1) }
{
    let (pairs, patterns) = place_all(alloc, space, facts)?;
    let mut index = RegionIndex::new(alloc);
    let entries = index.stage(&pairs, &[])?;
    index.install(entries);
    Ok((index, patterns))
}

/// The ids over the cell of these nodes.
fn ids_over<L: Ledger>(
    index: &RegionIndex,
    space: &Space,
    nodes: &[u32],
    blank: Blank,
) -> Result<Ids, Fail>
    requires { (blank.name ≡ L.name) × (blank.parts ≡ L.parts) × (0 < L.parts) }
{
    let mut steps = Steps::<L>::new(blank);
    let region = space.region(nodes).ok_or("no region")?;
    let cell = space.cell_code(region).ok_or("no cell")?;
    Ok(index.covering(space, cell, &mut steps)?)
}

/// The ids at codes, ascending.
fn ids_at(alloc: Global, index: &RegionIndex, codes: &[u64]) -> Result<Vec<u64>, Fail> {
    let mut ids = Vec::new(alloc);
    for code in codes {
        ids.extend_from_slice(index.ids(*code))?;
    }
    ids.sort_unstable();
    Ok(ids)
}

/// The ids at each code over the cell of these nodes, ascending.
fn ids_by_patterns<L: Ledger>(
    alloc: Global,
    index: &RegionIndex,
    patterns: &DepthPatterns,
    space: &Space,
    nodes: &[u32],
    blank: Blank,
) -> Result<Vec<u64>, Fail>
    requires ledger { (blank.name ≡ L.name) × (blank.parts ≡ L.parts) × (0 < L.parts) }
    requires patterns { HasPatterns space.now index.now patterns.now }
{
    let mut steps = Steps::<L>::new(blank);
    let region = space.region(nodes).ok_or("no region")?;
    let cell = space.cell_code(region).ok_or("no cell")?;
    let mut codes = Vec::new(alloc);
    index.held_codes_by_pattern(space, patterns, cell, &mut codes, &mut steps)?;
    ids_at(alloc, index, &codes)
}

/// Whether the ids over a cell are these.
fn is_covered(index: &RegionIndex, space: &Space, row: &Row) -> Result<bool, Fail> {
    let (nodes, ids) = *row;
    let found = ids_over::<Brand>(index, space, nodes, Blank::new(1))?;
    Ok(found.as_slice() == ids)
}

/// Whether so are those found by patterns.
fn is_found(
    alloc: Global,
    index: &RegionIndex,
    patterns: &DepthPatterns,
    space: &Space,
    row: &Row,
) -> Result<bool, Fail>
    requires { HasPatterns space.now index.now patterns.now }
{
    let (nodes, ids) = *row;
    let found = ids_by_patterns::<Brand>(alloc, index, patterns, space, nodes, Blank::new(1))?;
    Ok(found.as_slice() == ids)
}

fn are_found_by(
    alloc: Global,
    index: &RegionIndex,
    patterns: &DepthPatterns,
    space: &Space,
    rows: &[Row],
) -> Result<bool, Fail>
    requires { HasPatterns space.now index.now patterns.now }
{
    for row in rows {
        if !is_covered(index, space, row)? || !is_found(alloc, index, patterns, space, row)? {
            return Ok(false);
        }
    }
    Ok(true)
}

/// The same where index and patterns are made of the facts.
fn are_found_in(alloc: Global, space: &Space, rows: &[Row]) -> Result<bool, Fail> {
    let (index, patterns) = index_of(alloc, space, &THERE)?;
    are_found_by(alloc, &index, &patterns, space, rows)
}

fn are_found(alloc: Global, rows: &[Row]) -> Result<bool, Fail> {
    let space = space_of(alloc, &[&CITIES, &CARS])?;
    are_found_in(alloc, &space, rows)
}

#[test]
fn facts_over_a_cell_are_found(rt: HostRuntime) -> Result<(), Fail> {
    assert!(rt; are_found(rt.alloc(), &COVERED)?);
    Ok(())
}
