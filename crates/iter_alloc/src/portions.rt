//! How much of a fact is in a region after rounds.
ghost use Rattle.std.specs.Prelude.{◌≡◌, ◌≤◌, ◌<◌, ◌-◌, ℕ, List, All, length, map, IfOk, IfSome};
ghost use Rattle.cube_model.specs.Cells.{cells_of};
ghost use Rattle.cube_model.specs.Limits.{MAX_CELLS};
ghost use Rattle.cube_model.specs.Tree.{IsTree};
ghost use Rattle.region_algebra.specs.Inside.{cells_inside};
ghost use Rattle.region_algebra.specs.Space.{IsRegion};
ghost use Rattle.iter_alloc.specs.Counting.{ArePlacedIn};
ghost use Rattle.iter_alloc.specs.Forest.{at};
ghost use Rattle.iter_alloc.specs.LaidOut.{AreOwnPlaces};
ghost use Rattle.iter_alloc.specs.Marks.{AreMarks};
ghost use Rattle.iter_alloc.specs.Places.{AreLevels, ArePlaced, LEVEL_LIMIT, Part, levels_in, parts, placed_level};
ghost use Rattle.iter_alloc.specs.Portions.{ArePortions, portion_in, portions_by};
ghost use Rattle.iter_alloc.specs.Rounds.{start};
ghost use Rattle.iter_alloc.specs.Spotting.{Spotted, spotted_all};

use crate::begun::begun_levels;
use crate::claims::roots_of_spots;
use crate::layout::{Layout, lay_out};
use crate::marks::{marks_of, members_of};
use crate::rounds::{Place, UNIT, places_after};
use crate::shares::{mass_of, share};
use crate::spots::Spots;
use cube_base::Memory;
use cube_model::Region;
use fact_records::FactList;
use indexmap::IndexSet;
use region_algebra::{Inside, Space};
use std::alloc::Global;

/// For each spot how much of each of its facts is in a region.
pub(crate) fn spot_portions(
    alloc: Global,
    space: &Space,
    facts: &FactList,
    all: &Spots,
    rounds: u32,
    r: Region,
) -> Result<Vec<u64>, Memory>
    requires rounds { 1 ≤ rounds }
    requires facts { ArePlacedIn space.now facts.now.facts }
    requires spots { record { firsts = all.now.firsts.items; spots = all.now.spots.items } ≡ spotted_all space.now facts.now.facts }
    requires region { IsRegion space.now r }
    ensures { IfOk result (λ portions. ArePortions space.now facts.now.facts rounds r all.now.firsts.items portions.items) }
{
    let _ = space.dims();
    let roots = roots_of_spots(alloc, space, &all.firsts)?;
    let marks = marks_of(alloc, space, &all.firsts, &roots, r)?;
    marked_portions(alloc, space, facts, all, &marks, rounds, r)
}

/// The portions by rounds of the facts whose spots are marked.
fn marked_portions(
    alloc: Global,
    space: &Space,
    facts: &FactList,
    all: &Spots,
    marks: &[bool],
    rounds: u32,
    r: Region,
) -> Result<Vec<u64>, Memory>
    requires trees { All IsTree space.now }
    requires rounds { 1 ≤ rounds }
    requires facts { ArePlacedIn space.now facts.now.facts }
    requires spots { record { firsts = all.now.firsts.items; spots = all.now.spots.items } ≡ spotted_all space.now facts.now.facts }
    requires region { IsRegion space.now r }
    requires marks { AreMarks space.now facts.now.facts all.now.firsts.items r marks.now }
    ensures { IfOk result (λ portions. ArePortions space.now facts.now.facts rounds r all.now.firsts.items portions.items) }
{
    let members = members_of(alloc, &all.spots, all.firsts.len())?;
    let layout = lay_out(alloc, space, &all.firsts, marks, &members)?;
    laid_portions(alloc, space, facts, &layout, rounds - 1, r)
}

/// The portions by so many rounds of what is laid out, and a last one.
fn laid_portions(
    alloc: Global,
    space: &Space,
    facts: &FactList,
    layout: &Layout,
    rounds: u32,
    r: Region,
) -> Result<Vec<u64>, Memory>
    requires facts { ArePlacedIn space.now facts.now.facts }
    requires region { IsRegion space.now r }
    requires own { AreOwnPlaces layout.now.cells.keys }
    requires placed { ArePlaced layout.now.spans.items layout.now.flat.items (length layout.now.cells.keys) }
    requires low { (n i : ℕ) → i < length layout.now.cells.keys
        → placed_level (map (start space.now facts.now.facts) layout.now.cells.keys) (parts layout.now.spans.items layout.now.flat.items) n i ≤ LEVEL_LIMIT }
    ensures { IfOk result (λ portions. portions.items ≡ map (portion_in (cells_of space.now r) layout.now.cells.keys
        (placed_level (map (start space.now facts.now.facts) layout.now.cells.keys) (parts layout.now.spans.items layout.now.flat.items) rounds))
        (parts layout.now.spans.items layout.now.flat.items)) }
{
    let begun = begun_levels(alloc, space, facts, &layout.cells)?;
    let places = places_after(alloc, &begun, &layout.spans, &layout.flat, rounds)?;
    portions_by_places(alloc, layout, &places, &space.inside(r))
}

/// The portions where the places stand so.
fn portions_by_places(
    alloc: Global,
    layout: &Layout,
    places: &[Place],
    inside: &Inside<'_>,
) -> Result<Vec<u64>, Memory>
    requires as_many { length places.now ≡ length layout.now.cells.keys }
    requires placed { ArePlaced layout.now.spans.items layout.now.flat.items (length places.now) }
    requires levels { AreLevels (levels_in places.now) }
    ensures { IfOk result (λ portions. portions.items ≡ map (portion_in (cells_inside inside.now) layout.now.cells.keys (at (levels_in places.now)))
        (parts layout.now.spans.items layout.now.flat.items)) }
{
    let mut portions = Vec::new(alloc);
    let mut rest = layout.flat.as_slice();
    for span in &layout.spans {
        let (own, behind) = rest.split_at(span.len);
        portions.push(portion_of(&layout.cells, places, own, inside))?;
        rest = behind;
    }
    Ok(portions)
}

/// What of a fact that is shared among these places is in a region.
fn portion_of(cells: &IndexSet<u64>, places: &[Place], own: &[u32], inside: &Inside<'_>) -> u64
    requires as_many { length places.now ≡ length cells.now.keys }
    requires within { All (λ i. i < length places.now) own.now }
    requires levels { AreLevels (levels_in places.now) }
    requires few { length own.now ≤ MAX_CELLS }
    ensures { result ≡ portion_in (cells_inside inside.now) cells.now.keys (at (levels_in places.now)) (record { own = own.now; members = 0 }) }
{
    let mass = mass_of(places, own);
    let mut portion = 0;
    for i in own {
        let place = *i as usize;
        if inside.holds(cells[place]) {
            portion += share(places[place].level, mass);
        }
    }
    portion
}

/// For each fact how much of it is in a region: by its spot, or by its cell if it has none.
pub(crate) fn fact_portions(
    alloc: Global,
    space: &Space,
    facts: &FactList,
    spots: &[Option<usize>],
    portions: &[u64],
    r: Region,
) -> Result<Vec<u64>, Memory>
    requires facts { ArePlacedIn space.now facts.now.facts }
    requires region { IsRegion space.now r }
    requires as_many { length spots.now ≡ length facts.now.facts }
    requires spots { All (λ spot. IfSome spot (λ s. s < length portions.now)) spots.now }
    ensures { IfOk result (λ all. all.items ≡ portions_by space.now r portions.now facts.now.facts spots.now) }
{
    let mut of_facts = Vec::new(alloc);
    let mut i = 0;
    for fact in facts.iter() {
        let portion = match spots[i] {
            Some(spot) => portions[spot],
            None => UNIT * space.overlap_count(fact.region, r),
        };
        of_facts.push(portion)?;
        i += 1;
    }
    Ok(of_facts)
}
