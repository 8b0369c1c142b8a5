//! Fractions by their sign and size: lowest terms, and the whole numbers next to them.
ghost use Rattle.std.specs.Prelude.{◌≡◌, ◌+◌, ◌*◌, ◌<◌, ◌≤◌};
ghost use Rattle.cube_model.specs.Limits.{WIDE};
ghost use Rattle.exact_fraction.specs.Fraction.{UNIT, reduced, floor_of, ceiling_of};
ghost use Rattle.exact_fraction.specs.Signed.{MOST_WHOLE, SMALL_DEN, fraction_of, signed_lowest, next_above, signed_over, signed};

use crate::division::{quotient, remainder};
use crate::gcd::gcd;

/// The decimal digits of a bound after the point.
const PLACES: u32 = 9;

/// How many units are one.
const UNITS: u64 = 1_000_000_000;

/// The largest denominator for which a number below it, times the units of one, has 64 bits.
const SMALL_DEN: u128 = 18_446_744_073;

/// A fraction: its size over a denominator, negative or not.
#[derive(Clone, Copy, Drop)]
pub struct SignedFraction {
    /// Whether the fraction is below 0.
    pub negative: bool,
    /// The absolute value of the numerator.
    pub size: u128,
    /// The denominator, at least 1.
    pub den: u128,
}

/// The whole numbers next to a fraction, in units of 10^-9.
#[derive(Clone, Copy, Drop)]
pub struct Bounds {
    /// The greatest that is not above it.
    pub lo: i128,
    /// The least that is not below it.
    pub hi: i128,
}

/// A number over a denominator.
pub fn over(num: i128, den: u128) -> SignedFraction
    ensures { result ≡ signed_over num den }
{
    SignedFraction {
        negative: num < 0,
        size: num.unsigned_abs(),
        den,
    }
}

/// A fraction in lowest terms.
pub fn reduce(p: SignedFraction) -> SignedFraction
    requires { 1 ≤ p.den }
    ensures parts { result ≡ signed_lowest p }
    ensures fraction { fraction_of result ≡ reduced (signed p.negative p.size) p.den }
    ensures some { 1 ≤ result.den }
{
    let common = gcd(p.size, p.den);
    SignedFraction {
        negative: p.negative,
        size: quotient(p.size, common),
        den: quotient(p.den, common),
    }
}

/// The whole numbers next to a fraction.
pub fn bounds_of(p: SignedFraction) -> Bounds
    requires some { 1 ≤ p.den }
    requires den { p.den ≤ WIDE }
    requires size { p.size ≤ MOST_WHOLE * p.den }
    ensures lo { result.lo ≡ floor_of (fraction_of p) }
    ensures hi { result.hi ≡ ceiling_of (fraction_of p) }
{
    let (below, rest) = units(p.size, p.den);
    let above = next_above(below, rest);
    if p.negative {
        Bounds {
            lo: with_sign(true, above),
            hi: with_sign(true, below),
        }
    } else {
        Bounds {
            lo: with_sign(false, below),
            hi: with_sign(false, above),
        }
    }
}

// The whole part, or the next whole number where something is left over.
fn next_above(whole: u128, rest: u128) -> u128
    requires { whole ≤ WIDE }
    ensures { result ≡ next_above whole rest }
{
    if rest == 0 { whole } else { whole + 1 }
}

// The whole units of a fraction, and what is left over.
fn units(size: u128, den: u128) -> (u128, u128)
    requires some { 1 ≤ den }
    requires den { den ≤ WIDE }
    requires size { size ≤ MOST_WHOLE * den }
    ensures parts { result.0 * den + result.1 ≡ size * UNIT }
    ensures rest { result.1 < den }
    ensures within { result.0 ≤ MOST_WHOLE * UNIT }
{
    if den <= SMALL_DEN {
        units_at_once(size, den as u64)
    } else {
        units_by_digits(size, den)
    }
}

// The same over a small denominator: what a whole part leaves over is, in units, a number of 64 bits.
fn units_at_once(size: u128, den: u64) -> (u128, u128)
    requires some { 1 ≤ den }
    requires den { den ≤ SMALL_DEN }
    requires size { size ≤ MOST_WHOLE * den }
    ensures parts { result.0 * den + result.1 ≡ size * UNIT }
    ensures rest { result.1 < den }
    ensures within { result.0 ≤ MOST_WHOLE * UNIT }
{
    let wide = u128::from(den);
    let rest = remainder(size, wide) as u64 * UNITS;
    let units = quotient(size, wide) * u128::from(UNITS) + u128::from(rest / den);
    (units, u128::from(rest % den))
}

// The same over any denominator, digit by digit.
fn units_by_digits(size: u128, den: u128) -> (u128, u128)
    requires some { 1 ≤ den }
    requires den { den ≤ WIDE }
    requires size { size ≤ MOST_WHOLE * den }
    ensures parts { result.0 * den + result.1 ≡ size * UNIT }
    ensures rest { result.1 < den }
    ensures within { result.0 ≤ MOST_WHOLE * UNIT }
{
    let mut whole = size / den;
    let mut rest = size % den;
    for place in 0..PLACES {
        rest *= 10;
        whole = whole * 10 + rest / den;
        rest %= den;
    }
    (whole, rest)
}

/// A number by its sign and its size.
pub fn with_sign(negative: bool, size: u128) -> i128
    requires { size ≤ 2 * WIDE }
    ensures { result ≡ signed negative size }
{
    if negative {
        -(size as i128)
    } else {
        size as i128
    }
}
