//! The index of the imprecise ones of facts.
ghost use Rattle.std.specs.Prelude.{◌≡◌, ◌∷◌, [], ◌++◌, All, IfOk, OnOk};
ghost use Rattle.fact_records.specs.Valid.{AreValid};
ghost use Rattle.fact_indexes.specs.Placed.{places_of};
ghost use Rattle.region_algebra.specs.Space.{IsRegion};
ghost use Rattle.region_index.specs.Indexed.{Indexes};

use cube_base::Memory;
use cube_model::Fact;
use fact_records::{FactList, Shape};
use region_algebra::Space;
use region_index::RegionIndex;
use std::alloc::Global;

/// The ids of the imprecise facts, by the code of their region.
pub(crate) fn index_of(
    alloc: Global,
    space: &Space,
    shape: &Shape,
    facts: &FactList,
) -> Result<RegionIndex, Memory>
    requires { AreValid shape.now space.now facts.now.facts }
    ensures { IfOk result (Indexes space.now facts.now.facts) }
{
    let places = places_of(alloc, space, facts)?;
    let mut index = RegionIndex::new(alloc);
    let stage = index.stage(&places, &[])?;
    index.install(stage);
    Ok(index)
}

/// For each imprecise fact the code of its region and its id, in the order of the facts.
fn places_of(alloc: Global, space: &Space, facts: &FactList) -> Result<Vec<(u64, u64)>, Memory>
    requires { All (λ fact. IsRegion space.now fact.region) facts.now.facts }
    ensures { IfOk result (λ places. places.items ≡ places_of space.now facts.now.facts) }
{
    let mut places = Vec::new(alloc);
    for fact in facts.iter() {
        gather(&mut places, space, fact)?;
    }
    Ok(places)
}

/// Puts the code of a fact's region and its id after the others, if the fact is imprecise.
fn gather(places: &mut Vec<(u64, u64)>, space: &Space, fact: Fact) -> Result<(), Memory>
    requires { IsRegion space.now fact.region }
    ensures { OnOk result (places.new.items ≡ places.old.items ++ places_of space.now (fact ∷ [])) }
{
    if space.cell_count(fact.region) == 1 {
        return Ok(());
    }
    places.push((space.code(fact.region), fact.id))?;
    Ok(())
}
