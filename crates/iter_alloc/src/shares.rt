//! Shares of a whole fact, by how much stands in places.
ghost use Rattle.std.specs.Prelude.{◌≡◌, ◌≤◌, ◌<◌, ◌/◌, ◌^◌, All, length};
ghost use Rattle.std.specs.List.{sum_by};
ghost use Rattle.cube_model.specs.Limits.{MAX_CELLS};
ghost use Rattle.iter_alloc.specs.Forest.{at};
ghost use Rattle.iter_alloc.specs.Places.{AreLevels, HasInverse, LEVEL_LIMIT, levels_in};
ghost use Rattle.iter_alloc.specs.Rounds.{share_of};

use crate::rounds::{Place, UNIT};

/// How many numbers have 64 bits.
const NUMBERS: u128 = 1 << 64;

/// How much stands in some places, and how many these are.
#[derive(Clone, Copy, Debug)]
pub(crate) struct Mass {
    pub(crate) sum: u64,
    pub(crate) count: usize,
    // How often the sum goes into 2^64 - 1, if anything stands there. A product with it takes a few steps, a division many.
    pub(crate) inverse: u64,
}

/// How much stands in these places.
pub(crate) fn mass_of(places: &[Place], own: &[u32]) -> Mass
    requires within { All (λ i. i < length places.now) own.now }
    requires levels { AreLevels (levels_in places.now) }
    requires few { length own.now ≤ MAX_CELLS }
    ensures sum { result.sum ≡ sum_by (at (levels_in places.now)) own.now }
    ensures count { result.count ≡ length own.now }
    ensures inverse { HasInverse result }
{
    let sum = sum_of(places, own);
    Mass {
        sum,
        count: own.len(),
        inverse: if sum == 0 { 0 } else { u64::MAX / sum },
    }
}

/// The sum of what stands in these places.
fn sum_of(places: &[Place], own: &[u32]) -> u64
    requires within { All (λ i. i < length places.now) own.now }
    requires levels { AreLevels (levels_in places.now) }
    requires few { length own.now ≤ MAX_CELLS }
    ensures { result ≡ sum_by (at (levels_in places.now)) own.now }
{
    let mut sum = 0;
    for i in own {
        sum += places[*i as usize].level;
    }
    sum
}

/// The share of a whole fact that falls to one of some places, by how much stands in the place and in all of them.
pub(crate) fn share(level: u64, mass: Mass) -> u64
    requires some { 1 ≤ mass.count }
    requires level { level ≤ LEVEL_LIMIT }
    requires inverse { HasInverse mass }
    ensures { result ≡ share_of level mass.sum mass.count }
{
    if mass.sum == 0 {
        return UNIT / mass.count as u64;
    }
    quotient(UNIT * level, mass)
}

/// A number divided by what stands in all places.
fn quotient(n: u64, mass: Mass) -> u64
    requires some { 1 ≤ mass.sum }
    requires inverse { HasInverse mass }
    ensures { result ≡ n / mass.sum }
{
    let low = (u128::from(n) * u128::from(mass.inverse) / NUMBERS) as u64;
    // The true quotient, or one less.
    if n - low * mass.sum < mass.sum {
        low
    } else {
        low + 1
    }
}
