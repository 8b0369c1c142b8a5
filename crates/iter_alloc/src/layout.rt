//! Cells at places, in the order in which spots have them.
ghost use Rattle.std.specs.Prelude.{◌≡◌, ◌≤◌, All, [], length, nat_eq, map, if◌then◌else◌, IfOk, OnOk};
ghost use Rattle.cube_model.specs.Cells.{cells_of};
ghost use Rattle.cube_model.specs.Limits.{MAX_CELLS};
ghost use Rattle.region_algebra.specs.Space.{IsRegion};
ghost use Rattle.indexmap.specs.IndexSet.{insert_key};
ghost use Rattle.iter_alloc.specs.LaidOut.{AreLaidOut, AreNumbered, AreOwnPlaces};
ghost use Rattle.iter_alloc.specs.Spotting.{place_in};

use crate::rounds::Span;
use crate::spots::First;
use cube_base::Memory;
use cube_model::Region;
use indexmap::IndexSet;
use region_algebra::Space;
use std::alloc::Global;

/// The fewest cells of a spot after which places are left free.
const MANY: usize = 64;

/// How many places are left free there, a line of a cache. Where rows cross columns of a power of two, the cells of a row would
/// else lie a power of two apart, and a cache has room for a few such lines alone.
const GAP: usize = 4;

/// Cells at their places, some of which are free, and the places of the cells of each spot, one spot's after the
/// other's.
#[derive(Debug, Drop)]
pub(crate) struct Layout {
    pub(crate) cells: IndexSet<u64>,
    pub(crate) flat: Vec<u32>,
    pub(crate) spans: Vec<Span>,
}

/// Gives places to the cells of the spots that are marked. The others have none.
pub(crate) fn lay_out(
    alloc: Global,
    space: &Space,
    firsts: &[First],
    marks: &[bool],
    members: &[u64],
) -> Result<Layout, Memory>
    requires regions { All (λ first. IsRegion space.now first.region) firsts.now }
    requires sizes { All (λ first. length (cells_of space.now first.region) ≤ MAX_CELLS) firsts.now }
    requires marks { length marks.now ≡ length firsts.now }
    requires members { length members.now ≡ length firsts.now }
    ensures { IfOk result (λ layout. AreLaidOut space.now firsts.now marks.now members.now (length firsts.now) layout.cells.keys layout.flat.items layout.spans.items) }
{
    let mut cells = IndexSet::new(alloc);
    let mut flat = Vec::new(alloc);
    let mut spans = Vec::new(alloc);
    for i in 0..firsts.len() {
        let len = add_spot(space, firsts[i].region, marks[i], &mut cells, &mut flat)?;
        spans.push(Span {
            len,
            members: members[i],
        })?;
    }
    Ok(Layout { cells, flat, spans })
}

/// Appends the places of a spot's cells if it is marked, and tells how many there are.
fn add_spot(
    space: &Space,
    r: Region,
    is_marked: bool,
    cells: &mut IndexSet<u64>,
    flat: &mut Vec<u32>,
) -> Result<usize, Memory>
    requires region { IsRegion space.now r }
    requires size { length (cells_of space.now r) ≤ MAX_CELLS }
    requires own { AreOwnPlaces cells.old.keys }
    ensures len { IfOk result (λ len. len ≡ length (if is_marked then cells_of space.now r else [])) }
    ensures numbered { OnOk result (AreNumbered cells.old.keys cells.new.keys flat.old.items flat.new.items (if is_marked then cells_of space.now r else [])) }
{
    if !is_marked {
        return Ok(0);
    }
    add_cells(space, r, cells, flat)?;
    let len = space.cell_count(r) as usize;
    leave_free(cells, if len < MANY { 0 } else { GAP })?;
    Ok(len)
}

/// Leaves so many places free: what has them is the code of no cell.
fn leave_free(cells: &mut IndexSet<u64>, count: usize) -> Result<(), Memory>
    requires { AreOwnPlaces cells.old.keys }
    ensures { OnOk result (AreNumbered cells.old.keys cells.new.keys [] [] []) }
{
    for done in 0..count {
        cells.insert(u64::MAX - cells.len() as u64)?;
    }
    Ok(())
}

/// Appends the places of a region's cells.
fn add_cells(
    space: &Space,
    r: Region,
    cells: &mut IndexSet<u64>,
    flat: &mut Vec<u32>,
) -> Result<(), Memory>
    requires region { IsRegion space.now r }
    requires own { AreOwnPlaces cells.old.keys }
    ensures { OnOk result (AreNumbered cells.old.keys cells.new.keys flat.old.items flat.new.items (cells_of space.now r)) }
{
    for cell in space.cells(r) {
        let place = place_of(cells, cell)?;
        flat.push(place)?;
    }
    Ok(())
}

/// The place of a cell, which is a new one where the cell has none.
fn place_of(cells: &mut IndexSet<u64>, cell: u64) -> Result<u32, Memory>
    ensures keys { OnOk result (cells.new.keys ≡ insert_key nat_eq cells.old.keys cell) }
    ensures place { IfOk result (λ place. place ≡ place_in cells.old.keys cell) }
{
    let (place, _) = cells.insert_full(cell)?;
    // No set has so many keys that this fails.
    u32::try_from(place).map_err(|_| Memory)
}
