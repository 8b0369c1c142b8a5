//! A sum divided by the count and a scale.
ghost use Rattle.std.specs.Prelude.{◌≡◌, ◌*◌, ◌<◌, ◌≤◌, true, if◌then◌else◌, length, nat_abs, MatchOption};
ghost use Rattle.std.specs.Int.{is_negative};
ghost use Rattle.cube_model.specs.Limits.{MAX_VALUE, WIDE};
ghost use Rattle.group_sum.specs.Terms.{AreTerms};
ghost use Rattle.exact_fraction.specs.Fraction.{ceiling_of, column_fractions, common_den, floor_of, reduced};
ghost use Rattle.exact_fraction.specs.Laws.{TellsQuotient};
ghost use Rattle.exact_fraction.specs.Moderate.{IsModerate};
ghost use Rattle.exact_fraction.specs.Number.{within};
ghost use Rattle.exact_fraction.specs.Signed.{StandsFor, MOST_WHOLE, fraction_of, signed};
ghost use Rattle.exact_fraction.specs.Ratio.{CanDivide, IsExactQuotient, exact_quotient, is_wide_quotient, ratio_of, wide_quotient};

use crate::column::{SignedSums, common_den, signed_sums};
use crate::fraction::{Bounds, SignedFraction, bounds_of, over, reduce};
use crate::gcd::{lcm_within, product_within};
use crate::sums::{Value, exact_value, fraction_from, value_over};
use cube_model::MAX_SCALE;
use group_sum::Terms;

/// A quotient.
#[derive(Clone, Copy, Debug, PartialEq, Eq)]
pub enum Quotient {
    /// There is no count to divide by.
    Undefined,
    /// One fraction where the quotient was given as such, and bounds in units of 10^-9: none where it was not and the
    /// count's lower bound is 0.
    Is {
        /// A number of units that is not above the quotient.
        lo: Option<i128>,
        /// A number of units that is not below it.
        hi: Option<i128>,
        /// The numerator and the denominator, in lowest terms. The bounds are then the whole numbers of units next to
        /// it.
        exact: Option<(i128, u128)>,
    },
}

/// The sum of a column divided by that of the count, which is column 0, and a scale; `Undefined` where there is no term.
/// With each term's fraction in lowest terms, it is given as one fraction where none of these is above 2^120, and
/// nowhere else. They are the least common multiple of the denominators of both columns, the sum of each column's
/// absolute values over it, as a numerator, and the denominator of the quotient in lowest terms. Where it is not, the
/// bounds are those of the two sums divided, and none where the lower one of the count is 0.
///
/// The column is below the number of columns, the scale is from 1 to `MAX_SCALE`, and the terms are moderate as for [`crate::one`].
pub fn ratio(t: &Terms, col: u32, scale: u32) -> Quotient
    requires column { col < t.now.columns }
    requires moderate { IsModerate t.now.terms }
    requires scale { (1 ≤ scale) × (scale ≤ MAX_SCALE) }
    ensures value { result ≡ ratio_of col scale t.now.terms }
    ensures law { TellsQuotient scale (column_fractions col t.now.terms) (column_fractions 0 t.now.terms) result }
{
    if t.len() == 0 {
        return Quotient::Undefined;
    }
    let column_den = common_den(t, col);
    let count_den = common_den(t, 0);
    match exact_ratio(t, col, scale, column_den, count_den) {
        Some(p) => exact_quotient(p),
        None => wide_quotient(
            value_over(t, col, column_den),
            value_over(t, 0, count_den),
            scale,
        ),
    }
}

// The quotient in lowest terms, if it can be given as one fraction, by the least common multiples of the denominators
// of the column and of the count.
fn exact_ratio(
    t: &Terms,
    col: u32,
    scale: u32,
    column_den: Option<u128>,
    count_den: Option<u128>,
) -> Option<SignedFraction>
    requires some { 1 ≤ length t.now.terms }
    requires column { col < t.now.columns }
    requires moderate { IsModerate t.now.terms }
    requires terms { AreTerms t.now }
    requires scale { (1 ≤ scale) × (scale ≤ MAX_SCALE) }
    requires column_den { column_den ≡ within (common_den (column_fractions col t.now.terms)) }
    requires count_den { count_den ≡ within (common_den (column_fractions 0 t.now.terms)) }
    ensures { MatchOption result (is_wide_quotient scale (column_fractions col t.now.terms) (column_fractions 0 t.now.terms) ≡ true)
        (λ p. IsExactQuotient scale (column_fractions col t.now.terms) (column_fractions 0 t.now.terms) p) }
{
    let first = column_den?;
    let second = count_den?;
    let common = lcm_within(first, second)?;
    let sum = signed_sums(t, col, common)?;
    let count = signed_sums(t, 0, common)?;
    over_scale(
        fraction_from(sum, count.above + count.below),
        u128::from(scale),
    )
}

// A fraction divided by a scale, in lowest terms, if its denominator does not pass the limit. Both steps are in
// lowest terms, so what is multiplied last is the denominator itself.
fn over_scale(p: SignedFraction, scale: u128) -> Option<SignedFraction>
    requires some { 1 ≤ p.den }
    requires narrow { p.den ≤ WIDE }
    requires within { p.size ≤ WIDE }
    requires size { p.size ≤ MAX_VALUE * p.den }
    requires scale { (1 ≤ scale) × (scale ≤ MAX_SCALE) }
    ensures { MatchOption result (WIDE < (reduced (signed p.negative p.size) (p.den * scale)).den)
        (λ q. StandsFor (reduced (signed p.negative p.size) (p.den * scale)) q) }
{
    let first = reduce(p);
    let second = reduce(SignedFraction {
        negative: first.negative,
        size: first.size,
        den: scale,
    });
    let den = product_within(first.den, second.den)?;
    Some(SignedFraction {
        negative: second.negative,
        size: second.size,
        den,
    })
}

// A fraction in lowest terms with the bounds next to it.
fn exact_quotient(p: SignedFraction) -> Quotient
    requires { StandsFor (fraction_of p) p }
    ensures { result ≡ exact_quotient (fraction_of p) }
{
    let value = exact_value(p);
    Quotient::Is {
        lo: Some(value.lo),
        hi: Some(value.hi),
        exact: value.exact,
    }
}

// The quotient of the bounds of a sum by those of a count and a scale, where the count is known to be above 0.
fn wide_quotient(sum: Value, count: Value, scale: u32) -> Quotient
    requires scale { (1 ≤ scale) × (scale ≤ MAX_SCALE) }
    requires divide { CanDivide scale sum count }
    ensures { result ≡ wide_quotient scale sum count }
{
    let least = count.lo.unsigned_abs();
    let most = count.hi.unsigned_abs();
    if least == 0 {
        return Quotient::Is {
            lo: None,
            hi: None,
            exact: None,
        };
    }
    let below = bounds_by_sign(sum.lo, least, most, u128::from(scale));
    let above = bounds_by_sign(sum.hi, most, least, u128::from(scale));
    Quotient::Is {
        lo: Some(below.lo),
        hi: Some(above.hi),
        exact: None,
    }
}

// The whole numbers next to a number over a divisor and a scale; a negative number has another divisor.
fn bounds_by_sign(num: i128, negative: u128, positive: u128, scale: u128) -> Bounds
    requires some { (1 ≤ negative) × (1 ≤ positive) × (1 ≤ scale) }
    requires narrow { (negative * scale ≤ WIDE) × (positive * scale ≤ WIDE) }
    requires size { (nat_abs num ≤ MOST_WHOLE * negative) × (nat_abs num ≤ MOST_WHOLE * positive) }
    ensures lo { result.lo ≡ floor_of (record { num = num; den = (if is_negative num then negative else positive) * scale }) }
    ensures hi { result.hi ≡ ceiling_of (record { num = num; den = (if is_negative num then negative else positive) * scale }) }
{
    if num < 0 {
        bounds_over(num, negative * scale)
    } else {
        bounds_over(num, positive * scale)
    }
}

// The whole numbers next to a number over a denominator.
fn bounds_over(num: i128, den: u128) -> Bounds
    requires some { 1 ≤ den }
    requires den { den ≤ WIDE }
    requires size { nat_abs num ≤ MOST_WHOLE * den }
    ensures lo { result.lo ≡ floor_of (record { num = num; den = den }) }
    ensures hi { result.hi ≡ ceiling_of (record { num = num; den = den }) }
{
    bounds_of(over(num, den))
}
