//! How places stand before any round: by the precise facts of their cells.
ghost use Rattle.std.specs.Prelude.{◌≡◌, ◌<◌, ◌+◌, ◌^◌, ℕ, length, map, if◌then◌else◌, IfOk};
ghost use Rattle.cube_model.specs.Facts.{lies_at};
ghost use Rattle.region_algebra.specs.Space.{IsRegion};
ghost use Rattle.iter_alloc.specs.Counting.{ArePlacedIn};
ghost use Rattle.iter_alloc.specs.Forest.{at};
ghost use Rattle.iter_alloc.specs.LaidOut.{AreOwnPlaces};
ghost use Rattle.iter_alloc.specs.Places.{IsRaised};
ghost use Rattle.iter_alloc.specs.Rounds.{WHOLE_FACT, start};

use crate::rounds::UNIT;
use cube_base::Memory;
use cube_model::Fact;
use fact_records::FactList;
use indexmap::IndexSet;
use region_algebra::Space;
use std::alloc::Global;

/// How the places of cells stand before any round.
pub(crate) fn begun_levels(
    alloc: Global,
    space: &Space,
    facts: &FactList,
    cells: &IndexSet<u64>,
) -> Result<Vec<u64>, Memory>
    requires facts { ArePlacedIn space.now facts.now.facts }
    requires own { AreOwnPlaces cells.now.keys }
    ensures { IfOk result (λ begun. begun.items ≡ map (start space.now facts.now.facts) cells.now.keys) }
{
    let mut begun = vec![in alloc; 0; cells.len()]?;
    for fact in facts.iter() {
        add_precise(space, fact, cells, &mut begun);
    }
    Ok(begun)
}

/// Adds a fact to the place of its cell, if it is precise and the cell has a place.
fn add_precise(space: &Space, fact: Fact, cells: &IndexSet<u64>, begun: &mut [u64])
    requires region { IsRegion space.now fact.region }
    requires own { AreOwnPlaces cells.now.keys }
    requires as_many { length begun.old ≡ length cells.now.keys }
    requires fits { (i : ℕ) → i < length begun.old → at begun.old i + WHOLE_FACT < 2 ^ 64 }
    ensures { IsRaised (λ i. if lies_at space.now (at cells.now.keys i) fact then WHOLE_FACT else 0) begun.old begun.new }
{
    if let Some(cell) = space.cell_code(fact.region) {
        if let Some(place) = cells.get_index_of(&cell) {
            begun[place] += UNIT;
        }
    }
}
