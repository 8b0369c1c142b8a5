//! Rounds over places: each cell has a place, where its level stands, and facts of one region give to their places at once.
ghost use Rattle.std.specs.Prelude.{◌≡◌, ◌≤◌, ◌<◌, ◌+◌, ◌*◌, ◌^◌, ℕ, All, length, IfOk};
ghost use Rattle.cube_model.specs.Limits.{MAX_CELLS};
ghost use Rattle.iter_alloc.specs.Forest.{at};
ghost use Rattle.iter_alloc.specs.Places.{AreLevels, ArePlaced, IsRaised, LEVEL_LIMIT, Part, amount, amounts, levels_in, nexts_in, parts, placed_level};

use crate::shares::{mass_of, share};
use cube_base::Memory;
use std::alloc::Global;

/// What a whole fact counts.
pub(crate) const UNIT: u64 = 1_048_576;

/// How many places a spot has in a list of places, one spot's after the other's, and how many facts it has.
#[derive(Clone, Copy, Debug)]
pub(crate) struct Span {
    pub(crate) len: usize,
    pub(crate) members: u64,
}

/// How a place stands, and how it is to stand after the round. The two lie side by side, so that one line of a cache has both.
#[derive(Clone, Copy, Debug)]
pub(crate) struct Place {
    pub(crate) level: u64,
    pub(crate) next: u64,
}

/// How the places stand after so many rounds.
pub(crate) fn places_after(
    alloc: Global,
    begun: &[u64],
    spans: &[Span],
    flat: &[u32],
    rounds: u32,
) -> Result<Vec<Place>, Memory>
    requires placed { ArePlaced spans.now flat.now (length begun.now) }
    requires low { (n i : ℕ) → i < length begun.now → placed_level begun.now (parts spans.now flat.now) n i ≤ LEVEL_LIMIT }
    ensures as_many { IfOk result (λ places. length places.items ≡ length begun.now) }
    ensures levels { IfOk result (λ places. (i : ℕ) → i < length begun.now → at (levels_in places.items) i ≡ placed_level begun.now (parts spans.now flat.now) rounds i) }
{
    let mut places = begun_places(alloc, begun)?;
    for done in 0..rounds {
        add_round(&mut places, spans, flat);
        end_round(&mut places, begun);
    }
    Ok(places)
}

/// The places before any round.
fn begun_places(alloc: Global, begun: &[u64]) -> Result<Vec<Place>, Memory>
    ensures levels { IfOk result (λ places. levels_in places.items ≡ begun.now) }
    ensures nexts { IfOk result (λ places. nexts_in places.items ≡ begun.now) }
{
    let mut places = Vec::new(alloc);
    for level in begun {
        places.push(Place {
            level: *level,
            next: *level,
        })?;
    }
    Ok(places)
}

/// Each place comes to stand as it is to stand, and begins anew.
fn end_round(places: &mut [Place], begun: &[u64])
    requires as_many { length places.old ≡ length begun.now }
    ensures levels { levels_in places.new ≡ nexts_in places.old }
    ensures nexts { nexts_in places.new ≡ begun.now }
{
    for i in 0..begun.len() {
        places[i] = Place {
            level: places[i].next,
            next: begun[i],
        };
    }
}

/// Adds to each place what it gets in a round.
fn add_round(places: &mut [Place], spans: &[Span], flat: &[u32])
    requires placed { ArePlaced spans.now flat.now (length places.old) }
    requires levels { AreLevels (levels_in places.old) }
    requires fits { (i : ℕ) → i < length places.old → at (nexts_in places.old) i + amounts (at (levels_in places.old)) (parts spans.now flat.now) i < 2 ^ 64 }
    ensures levels { levels_in places.new ≡ levels_in places.old }
    ensures nexts { IsRaised (amounts (at (levels_in places.old)) (parts spans.now flat.now)) (nexts_in places.old) (nexts_in places.new) }
{
    let mut rest = flat;
    for span in spans {
        let (own, behind) = rest.split_at(span.len);
        add_shares(places, own, span.members);
        rest = behind;
    }
}

/// Adds to each of a spot's places what it gets of the facts of the spot.
fn add_shares(places: &mut [Place], own: &[u32], members: u64)
    requires within { All (λ i. i < length places.old) own.now }
    requires levels { AreLevels (levels_in places.old) }
    requires few { length own.now ≤ MAX_CELLS }
    requires fits { (i : ℕ) → i < length places.old → at (nexts_in places.old) i + amount (at (levels_in places.old)) i (record { own = own.now; members = members }) < 2 ^ 64 }
    ensures levels { levels_in places.new ≡ levels_in places.old }
    ensures nexts { IsRaised (λ i. amount (at (levels_in places.old)) i (record { own = own.now; members = members })) (nexts_in places.old) (nexts_in places.new) }
{
    let mass = mass_of(places, own);
    for i in own {
        let place = *i as usize;
        let given = members * share(places[place].level, mass);
        places[place].next += given;
    }
}
