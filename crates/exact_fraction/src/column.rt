//! Passes over a column of terms.
ghost use Rattle.std.specs.Prelude.{◌≡◌, ◌+◌, ◌*◌, ◌<◌, ◌≤◌, length, nat_abs, MatchOption, ◌+ℤ◌};
ghost use Rattle.cube_model.specs.Answer.{total_by};
ghost use Rattle.cube_model.specs.Limits.{WIDE};
ghost use Rattle.group_sum.specs.Terms.{AreTerms};
ghost use Rattle.exact_fraction.specs.Number.{within};
ghost use Rattle.exact_fraction.specs.Fraction.{abs_over, ceiling_of, column_fractions, common_den, floor_of};
ghost use Rattle.exact_fraction.specs.Moderate.{IsModerate};
ghost use Rattle.exact_fraction.specs.Signed.{AddsToSums, AreSignedSums, IsFractionAt};

use crate::division::quotient;
use crate::fraction::{Bounds, SignedFraction, bounds_of, over, reduce};
use crate::gcd::{lcm_within, product_within};
use cube_model::WIDE;
use group_sum::Terms;

/// A sum by its numbers above 0 and those below.
#[derive(Clone, Copy, Drop)]
pub struct SignedSums {
    /// The sum of the numbers above 0.
    pub above: u128,
    /// The sum of the absolute values of those below 0.
    pub below: u128,
}

/// The least common multiple of the denominators of a column, if it does not pass the limit.
pub fn common_den(t: &Terms, col: u32) -> Option<u128>
    requires column { col < t.now.columns }
    requires moderate { IsModerate t.now.terms }
    ensures common { result ≡ within (common_den (column_fractions col t.now.terms)) }
    ensures terms { AreTerms t.now }
{
    let mut common = 1;
    for i in 0..t.len() {
        common = lcm_within(common, part(t, col, i).den)?;
    }
    Some(common)
}

/// The sum of a column over a multiple of its denominators, if the absolute values together do not pass the limit.
pub fn signed_sums(t: &Terms, col: u32, multiple: u128) -> Option<SignedSums>
    requires column { col < t.now.columns }
    requires moderate { IsModerate t.now.terms }
    ensures { MatchOption result (WIDE < abs_over multiple (column_fractions col t.now.terms))
        (λ sums. AreSignedSums multiple (column_fractions col t.now.terms) sums) }
{
    let mut sums = SignedSums { above: 0, below: 0 };
    for i in 0..t.len() {
        let part = part(t, col, i);
        let share = product_within(quotient(multiple, part.den), part.size)?;
        sums = plus(sums, part.negative, share)?;
    }
    Some(sums)
}

// The sums with a number added, if together they do not pass the limit.
fn plus(sums: SignedSums, negative: bool, share: u128) -> Option<SignedSums>
    requires sums { sums.above + sums.below ≤ WIDE }
    requires share { share ≤ WIDE }
    ensures { MatchOption result (WIDE < sums.above + sums.below + share) (λ new. AddsToSums sums negative share new) }
{
    if share > WIDE - sums.above - sums.below {
        return None;
    }
    Some(if negative {
        SignedSums {
            above: sums.above,
            below: sums.below + share,
        }
    } else {
        SignedSums {
            above: sums.above + share,
            below: sums.below,
        }
    })
}

/// The whole numbers next to each fraction of a column, added up.
pub fn wide_bounds(t: &Terms, col: u32) -> Bounds
    requires column { col < t.now.columns }
    requires moderate { IsModerate t.now.terms }
    ensures lo { result.lo ≡ total_by floor_of (column_fractions col t.now.terms) }
    ensures hi { result.hi ≡ total_by ceiling_of (column_fractions col t.now.terms) }
{
    let mut all = Bounds { lo: 0, hi: 0 };
    for i in 0..t.len() {
        all = plus_bounds(all, bounds_of(part(t, col, i)));
    }
    all
}

// The sums of two pairs of bounds.
fn plus_bounds(x: Bounds, y: Bounds) -> Bounds
    requires lo { nat_abs (x.lo +ℤ y.lo) ≤ WIDE }
    requires hi { nat_abs (x.hi +ℤ y.hi) ≤ WIDE }
    ensures { result ≡ record { lo = x.lo +ℤ y.lo; hi = x.hi +ℤ y.hi } }
{
    Bounds {
        lo: sum(x.lo, y.lo),
        hi: sum(x.hi, y.hi),
    }
}

// The sum of two numbers.
fn sum(x: i128, y: i128) -> i128
    requires { nat_abs (x +ℤ y) ≤ WIDE }
    ensures { result ≡ x +ℤ y }
{
    x + y
}

// The fraction of a column of one term.
fn part(t: &Terms, col: u32, i: u64) -> SignedFraction
    requires terms { AreTerms t.now }
    requires place { i < length t.now.terms }
    requires column { col < t.now.columns }
    requires moderate { IsModerate t.now.terms }
    ensures { IsFractionAt col t.now.terms i result }
{
    reduce(over(t.num_at(i, col), u128::from(t.den_at(i))))
}
