//! A sum as one fraction.
ghost use Rattle.std.specs.Prelude.{◌≡◌, ◌<◌, true, MatchOption};
ghost use Rattle.group_sum.specs.Terms.{AreTerms};
ghost use Rattle.exact_fraction.specs.Moderate.{IsModerate};
ghost use Rattle.exact_fraction.specs.One.{IsExactSum, exact_value, is_wide, one_of, wide_value};
ghost use Rattle.exact_fraction.specs.Fraction.{column_fractions, common_den};
ghost use Rattle.exact_fraction.specs.Laws.{TellsSum};
ghost use Rattle.exact_fraction.specs.Number.{within};
ghost use Rattle.exact_fraction.specs.Signed.{StandsFor, IsSumOver, fraction_of};

use crate::column::{SignedSums, common_den, signed_sums, wide_bounds};
use crate::fraction::{SignedFraction, bounds_of, reduce, with_sign};
use group_sum::Terms;

/// A number: bounds in units of 10^-9, and one fraction where it was given as such.
#[derive(Clone, Copy, Debug, PartialEq, Eq)]
pub struct Value {
    /// A number of units that is not above the value.
    pub lo: i128,
    /// A number of units that is not below the value.
    pub hi: i128,
    /// The numerator and the denominator, in lowest terms. The bounds are then the whole numbers of units next to it.
    pub exact: Option<(i128, u128)>,
}

/// The sum of a column, the count being column 0. With each term's fraction in lowest terms, it is given as one
/// fraction where neither the least common multiple of their denominators nor the sum of their absolute values over it,
/// as a numerator, is above 2^120, and nowhere else. Where it is not, the bounds are those of the terms added up.
///
/// The column is below the number of columns. The terms are moderate: at most 2^20, each of a count of at most 2^20, and no
/// sum of one is above 10^12 times its count in absolute value.
pub fn one(t: &Terms, col: u32) -> Value
    requires column { col < t.now.columns }
    requires moderate { IsModerate t.now.terms }
    ensures value { result ≡ one_of col t.now.terms }
    ensures law { TellsSum (column_fractions col t.now.terms) result }
{
    value_over(t, col, common_den(t, col))
}

/// The sum of a column of whose denominators this is the least common multiple, or `None` where that passes the limit.
pub fn value_over(t: &Terms, col: u32, common: Option<u128>) -> Value
    requires column { col < t.now.columns }
    requires moderate { IsModerate t.now.terms }
    requires terms { AreTerms t.now }
    requires common { common ≡ within (common_den (column_fractions col t.now.terms)) }
    ensures value { result ≡ one_of col t.now.terms }
    ensures law { TellsSum (column_fractions col t.now.terms) result }
{
    match exact_sum(t, col, common) {
        Some(sum) => exact_value(sum),
        None => wide_value(t, col),
    }
}

// The bounds of each fraction, added up.
fn wide_value(t: &Terms, col: u32) -> Value
    requires column { col < t.now.columns }
    requires moderate { IsModerate t.now.terms }
    ensures { result ≡ wide_value (column_fractions col t.now.terms) }
{
    let wide = wide_bounds(t, col);
    Value {
        lo: wide.lo,
        hi: wide.hi,
        exact: None,
    }
}

// The sum in lowest terms, if it can be given as one fraction.
fn exact_sum(t: &Terms, col: u32, common: Option<u128>) -> Option<SignedFraction>
    requires column { col < t.now.columns }
    requires moderate { IsModerate t.now.terms }
    requires terms { AreTerms t.now }
    requires common { common ≡ within (common_den (column_fractions col t.now.terms)) }
    ensures { MatchOption result (is_wide (column_fractions col t.now.terms) ≡ true) (λ p. IsExactSum (column_fractions col t.now.terms) p) }
{
    let multiple = common?;
    let sums = signed_sums(t, col, multiple)?;
    Some(reduce(fraction_from(sums, multiple)))
}

/// A sum over a denominator.
pub fn fraction_from(sums: SignedSums, den: u128) -> SignedFraction
    ensures { IsSumOver sums den result }
{
    SignedFraction {
        negative: sums.above < sums.below,
        size: sums.above.abs_diff(sums.below),
        den,
    }
}

/// A fraction in lowest terms with the bounds next to it.
pub fn exact_value(p: SignedFraction) -> Value
    requires { StandsFor (fraction_of p) p }
    ensures { result ≡ exact_value (fraction_of p) }
{
    let next = bounds_of(p);
    Value {
        lo: next.lo,
        hi: next.hi,
        exact: Some((with_sign(p.negative, p.size), p.den)),
    }
}
