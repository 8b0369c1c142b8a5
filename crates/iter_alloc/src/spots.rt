//! Facts in spots: each region that an imprecise fact has is one.
ghost use Rattle.std.specs.Prelude.{◌≡◌, length, IfOk, OnOk, if◌then◌else◌};
ghost use Rattle.cube_model.specs.Facts.{is_precise};
ghost use Rattle.region_algebra.specs.Space.{IsRegion};
ghost use Rattle.iter_alloc.specs.Counting.{ArePlacedIn};
ghost use Rattle.iter_alloc.specs.Spotting.{firsts_with, spot_codes, spot_in, spotted_all};

use cube_base::Memory;
use cube_model::{Fact, Region};
use fact_records::FactList;
use indexmap::IndexSet;
use region_algebra::Space;
use std::alloc::Global;

/// The first fact of a spot.
#[derive(Clone, Copy, Debug)]
pub(crate) struct First {
    pub(crate) id: u64,
    pub(crate) region: Region,
}

/// The spots by their first facts, and for each fact its spot, which a precise one has not.
#[derive(Debug, Drop)]
pub(crate) struct Spots {
    pub(crate) firsts: Vec<First>,
    pub(crate) spots: Vec<Option<usize>>,
}

/// Puts facts in spots.
pub(crate) fn spots_of(alloc: Global, space: &Space, facts: &FactList) -> Result<Spots, Memory>
    requires { ArePlacedIn space.now facts.now.facts }
    ensures { IfOk result (λ all. record { firsts = all.firsts.items; spots = all.spots.items } ≡ spotted_all space.now facts.now.facts) }
{
    let mut codes = IndexSet::new(alloc);
    let mut firsts = Vec::new(alloc);
    let mut spots = Vec::new(alloc);
    for fact in facts.iter() {
        let spot = add_fact(space, fact, &mut codes, &mut firsts)?;
        spots.push(spot)?;
    }
    Ok(Spots { firsts, spots })
}

/// The spot of a fact, which is a new one where its region is.
fn add_fact(
    space: &Space,
    fact: Fact,
    codes: &mut IndexSet<u64>,
    firsts: &mut Vec<First>,
) -> Result<Option<usize>, Memory>
    requires region { IsRegion space.now fact.region }
    requires codes { codes.old.keys ≡ spot_codes space.now firsts.old.items }
    ensures codes { OnOk result (codes.new.keys ≡ spot_codes space.now firsts.new.items) }
    ensures firsts { OnOk result (firsts.new.items ≡ (if is_precise space.now fact then firsts.old.items else firsts_with space.now firsts.old.items fact)) }
    ensures spot { IfOk result (λ spot. spot ≡ spot_in space.now firsts.old.items fact) }
{
    if space.cell_count(fact.region) == 1 {
        return Ok(None);
    }
    let (spot, is_new) = codes.insert_full(space.code(fact.region))?;
    if is_new {
        firsts.push(First {
            id: fact.id,
            region: fact.region,
        })?;
    }
    Ok(Some(spot))
}
