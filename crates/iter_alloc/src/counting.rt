//! How many cells facts may lie in.
ghost use Rattle.std.specs.Prelude.{◌≡◌, ◌≤◌, ◌<◌, ◌+◌, ◌==◌, length, if◌then◌else◌};
ghost use Rattle.cube_model.specs.Cells.{cells_of};
ghost use Rattle.cube_model.specs.Limits.{MAX_CELLS};
ghost use Rattle.region_algebra.specs.Space.{IsRegion};
ghost use Rattle.iter_alloc.specs.Counting.{ArePlacedIn, cells_in_all};

use cube_model::Region;
use fact_records::FactList;
use region_algebra::Space;

/// The most cells that imprecise facts may have between them, those of each fact counted.
pub const MOST_CELLS: u64 = 2_097_152;

/// The number of cells of all imprecise facts.
pub(crate) fn count_cells(space: &Space, facts: &FactList) -> u64
    requires { ArePlacedIn space.now facts.now.facts }
    ensures { result ≡ cells_in_all space.now facts.now.facts }
{
    let mut cells = 0;
    for fact in facts.iter() {
        cells += cells_of_several(space, fact.region);
    }
    cells
}

/// The number of a region's cells, or 0 where it has one alone.
fn cells_of_several(space: &Space, r: Region) -> u64
    requires { IsRegion space.now r }
    ensures { result ≡ (if length (cells_of space.now r) == 1 then 0 else length (cells_of space.now r)) }
{
    let cells = space.cell_count(r);
    if cells == 1 { 0 } else { cells }
}
