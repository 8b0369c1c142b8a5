//! Facts shared round after round, over the components that a region touches.
ghost use Rattle.std.specs.Prelude.{◌≡◌, ◌≤◌, IfOk, IfErr, OnOk};
ghost use Rattle.region_algebra.specs.Space.{IsRegion};
ghost use Rattle.iter_alloc.specs.Counting.{ArePlacedIn, IsIterFault, cells_in_all};
ghost use Rattle.iter_alloc.specs.Iterated.{iterated_all};
ghost use Rattle.iter_alloc.specs.Portions.{AreValued};

use crate::counting::{MOST_CELLS, count_cells};
use crate::fault::IterFault;
use crate::portions::{fact_portions, spot_portions};
use crate::spots::spots_of;
use crate::totals::totals;
use cube_base::{Memory, Nums};
use cube_model::Region;
use fact_records::FactList;
use region_algebra::Space;
use std::alloc::Global;

/// What all facts have in a region after so many rounds, column by column, in units of 1/2^20: the count first.
///
/// A precise fact is whole in its cell. In each round an imprecise fact is shared among the cells in which it may lie, as they
/// stood before the round, and evenly where nothing stood in any. Then each cell stands at its precise facts and what the shares
/// of that round give it. What is in the region are its precise facts and the shares of the last round. Each share is rounded
/// down to a unit, so that the shares of a fact may add up to less than all of it.
///
/// The facts are in order of their ids, at most 2^20 of them. Each has a region of the space of at most 2^20 cells, and a value
/// for each column but the count, none beyond 10^12. There is one round at least.
///
/// `Many` is answered exactly where the cells of all imprecise facts, those of each fact counted, number more than
/// [`crate::MOST_CELLS`], with that number. Running out of memory is the only other error.
///
/// Only the components that the region touches are shared out, which gives the same. Each round takes a few operations for each
/// cell of a region that their facts have, however many facts have it.
pub fn iterate(
    alloc: Global,
    space: &Space,
    facts: &FactList,
    rounds: u32,
    r: Region,
    columns: u32,
) -> Result<Nums, IterFault>
    requires facts { ArePlacedIn space.now facts.now.facts }
    requires values { AreValued columns facts.now.facts }
    requires rounds { 1 ≤ rounds }
    requires region { IsRegion space.now r }
    ensures sums { IfOk result (λ nums. nums ≡ iterated_all space.now facts.now.facts rounds r columns) }
    ensures few { OnOk result (cells_in_all space.now facts.now.facts ≤ MOST_CELLS) }
    ensures fault { IfErr result (IsIterFault space.now facts.now.facts) }
{
    let cells = count_cells(space, facts);
    if cells > MOST_CELLS {
        return Err(IterFault::Many { cells });
    }
    Ok(iterate_facts(alloc, space, facts, rounds, r, columns)?)
}

/// What facts that are not judged have in a region.
fn iterate_facts(
    alloc: Global,
    space: &Space,
    facts: &FactList,
    rounds: u32,
    r: Region,
    columns: u32,
) -> Result<Nums, Memory>
    requires facts { ArePlacedIn space.now facts.now.facts }
    requires values { AreValued columns facts.now.facts }
    requires rounds { 1 ≤ rounds }
    requires region { IsRegion space.now r }
    ensures { IfOk result (λ nums. nums ≡ iterated_all space.now facts.now.facts rounds r columns) }
{
    let all = spots_of(alloc, space, facts)?;
    let of_spots = spot_portions(alloc, space, facts, &all, rounds, r)?;
    let portions = fact_portions(alloc, space, facts, &all.spots, &of_spots, r)?;
    totals(alloc, facts, &portions, columns)
}
