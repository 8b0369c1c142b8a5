//! Spots claim the cells of their regions, and those that share a cell are joined.
ghost use Rattle.std.specs.Prelude.{◌≡◌, ◌<◌, ℕ, List, All, length, IfOk, OnOk};
ghost use Rattle.std.specs.List.{range_with_len};
ghost use Rattle.cube_model.specs.Cells.{cells_of};
ghost use Rattle.region_algebra.specs.Space.{IsRegion};
ghost use Rattle.iter_alloc.specs.Claims.{AreClaimed, claim_cell, claim_cells, roots_of};
ghost use Rattle.iter_alloc.specs.Forest.{AreOwnRoots, AreRoots, IsForest};
ghost use Rattle.iter_alloc.specs.Spotting.{regions_of};

use crate::forest::{join, roots};
use crate::spots::First;
use cube_base::Memory;
use cube_model::Region;
use indexmap::IndexMap;
use region_algebra::Space;
use std::alloc::Global;

/// The root of each spot: the least of those that are joined to it by spots that share cells.
pub(crate) fn roots_of_spots(
    alloc: Global,
    space: &Space,
    firsts: &[First],
) -> Result<Vec<usize>, Memory>
    requires regions { All (λ first. IsRegion space.now first.region) firsts.now }
    ensures roots { IfOk result (λ roots. roots.items ≡ roots_of space.now (regions_of firsts.now)) }
    ensures own { IfOk result (λ roots. AreOwnRoots roots.items) }
{
    let mut parents = places(alloc, firsts.len())?;
    claimed_roots(alloc, space, firsts, &mut parents)
}

/// The roots of spots once all have claimed the cells of their regions.
fn claimed_roots(
    alloc: Global,
    space: &Space,
    firsts: &[First],
    parents: &mut [usize],
) -> Result<Vec<usize>, Memory>
    requires regions { All (λ first. IsRegion space.now first.region) firsts.now }
    requires places { parents.old ≡ range_with_len 0 (length firsts.now) }
    ensures roots { IfOk result (λ roots. roots.items ≡ roots_of space.now (regions_of firsts.now)) }
    ensures own { IfOk result (λ roots. AreOwnRoots roots.items) }
{
    claim_regions(alloc, space, firsts, parents)?;
    let found = roots(alloc, parents)?;
    Ok(found)
}

/// The spots claim the cells of their regions.
fn claim_regions(
    alloc: Global,
    space: &Space,
    firsts: &[First],
    parents: &mut [usize],
) -> Result<(), Memory>
    requires regions { All (λ first. IsRegion space.now first.region) firsts.now }
    requires places { parents.old ≡ range_with_len 0 (length firsts.now) }
    ensures forest { OnOk result (IsForest parents.new) }
    ensures roots { OnOk result (AreRoots parents.new (roots_of space.now (regions_of firsts.now))) }
{
    let mut owners = IndexMap::new(alloc);
    let mut spot = 0;
    for first in firsts {
        claim_region(space, first.region, spot, &mut owners, parents)?;
        spot += 1;
    }
    Ok(())
}

/// The numbers below this one.
fn places(alloc: Global, count: usize) -> Result<Vec<usize>, Memory>
    ensures { IfOk result (λ places. places.items ≡ range_with_len 0 count) }
{
    let mut places = Vec::new(alloc);
    for i in 0..count {
        places.push(i)?;
    }
    Ok(places)
}

/// A spot claims the cells of its region.
fn claim_region(
    space: &Space,
    r: Region,
    spot: usize,
    owners: &mut IndexMap<u64, usize>,
    parents: &mut [usize],
) -> Result<(), Memory>
    requires region { IsRegion space.now r }
    requires forest { IsForest parents.old }
    requires spot { spot < length parents.old }
    requires owners { All (λ owner. owner.1 < length parents.old) owners.old.entries }
    ensures forest { IsForest parents.new }
    ensures as_many { length parents.new ≡ length parents.old }
    ensures owners { All (λ owner. owner.1 < length parents.new) owners.new.entries }
    ensures claimed { OnOk result ((roots : List ℕ) → AreRoots parents.old roots → AreClaimed (claim_cells spot (record { owners = owners.old.entries; roots = roots }) (cells_of space.now r)) owners.new.entries parents.new) }
{
    for cell in space.cells(r) {
        claim(owners, parents, spot, cell)?;
    }
    Ok(())
}

/// A spot claims a cell: it owns one that is new, and joins the owner of one that is not.
fn claim(
    owners: &mut IndexMap<u64, usize>,
    parents: &mut [usize],
    spot: usize,
    cell: u64,
) -> Result<(), Memory>
    requires forest { IsForest parents.old }
    requires spot { spot < length parents.old }
    requires owners { All (λ owner. owner.1 < length parents.old) owners.old.entries }
    ensures forest { IsForest parents.new }
    ensures as_many { length parents.new ≡ length parents.old }
    ensures owners { All (λ owner. owner.1 < length parents.new) owners.new.entries }
    ensures claimed { OnOk result ((roots : List ℕ) → AreRoots parents.old roots → AreClaimed (claim_cell spot (record { owners = owners.old.entries; roots = roots }) cell) owners.new.entries parents.new) }
{
    match owners.get(&cell).copied() {
        Some(owner) => join(parents, spot, owner),
        None => {
            owners.insert(cell, spot)?;
        }
    }
    Ok(())
}
