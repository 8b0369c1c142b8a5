//! Which values and which regions a fact may have.
ghost use Rattle.std.specs.Prelude.{◌≡◌, ◌^◌, ◌≤◌, ◌+ℤ◌, All, length, nat_abs, nat_lt, unsigned_abs};
ghost use Rattle.std.specs.List.{list_any};
ghost use Rattle.std.specs.Result.{result_err};
ghost use Rattle.region_algebra.specs.Space.{IsRegion};
ghost use Rattle.fact_records.specs.Accepted.{cols_refusal, has_wrong_number, has_wrong_parts, is_large, is_no_distribution, is_wrong_number, region_refusal};
ghost use Rattle.fact_records.specs.Shape.{IsWithin, values_of};
ghost use Rattle.cube_model.specs.Limits.{MAX_COLS, MAX_VALUE};
ghost use Rattle.fact_records.specs.Values.{has_negative, sums_to};

use crate::places::places_of;
use crate::shape::width;
use crate::{Kind, Measure, Shape};
use cube_base::{Code, Cols};
use cube_model::{MAX_CELLS, MAX_VALUE, Region};
use region_algebra::Space;

/// Judges the values of a fact. The first of these that holds is answered: `Value`, their number is not that of the
/// columns without the count, the value of a number measure is above 10^12 in absolute value, or it is below 0 where
/// cells weigh by the measure's sum; `Parts`, a parts measure has a value below 0, or its values do not add up to its
/// scale. It takes no memory.
pub fn check_cols(shape: &Shape, cols: Cols) -> Result<(), Code>
    ensures { result_err result ≡ cols_refusal shape.now cols }
{
    if cols.len() + 1 != shape.columns() {
        return Err(Code::Value);
    }
    let places = places_of(cols);
    let values = &places[..cols.len() as usize];
    if has_wrong_number(shape, values) {
        return Err(Code::Value);
    }
    if has_wrong_parts(shape, values) {
        return Err(Code::Parts);
    }
    Ok(())
}

/// Judges a region of the space as that of a fact: `Region` exactly where it has more than 2^20 cells.
pub fn check_region(space: &Space, r: Region) -> Result<(), Code>
    requires { IsRegion space.now r }
    ensures { result_err result ≡ region_refusal space.now r }
{
    if space.cell_count(r) > MAX_CELLS {
        Err(Code::Region)
    } else {
        Ok(())
    }
}

/// Whether a measure has a wrong number among the values of a fact.
fn has_wrong_number(shape: &Shape, values: &[i64]) -> bool
    requires { All (IsWithin (length values.now)) shape.now.measures }
    ensures { result ≡ has_wrong_number shape.now values.now }
{
    let measures = shape.measures();
    for measure in measures {
        if is_wrong_number(shape, measure, values_of(measure, values)) {
            return true;
        }
    }
    false
}

/// Whether one of a measure's values is above 10^12 in absolute value where it is a number, or below 0 where cells weigh
/// by the measure's sum.
fn is_wrong_number(shape: &Shape, measure: &Measure, values: &[i64]) -> bool
    ensures { result ≡ is_wrong_number shape.now measure.now values.now }
{
    is_large(&measure.kind, values) || (shape.is_weight(measure) && has_negative(values))
}

/// Whether a parts measure has values that are no distribution.
fn has_wrong_parts(shape: &Shape, values: &[i64]) -> bool
    requires within { All (IsWithin (length values.now)) shape.now.measures }
    requires few { length values.now ≤ MAX_COLS }
    ensures { result ≡ has_wrong_parts shape.now.measures values.now }
{
    let measures = shape.measures();
    for measure in measures {
        if is_no_distribution(&measure.kind, values_of(measure, values)) {
            return true;
        }
    }
    false
}

/// The values of a measure among those of a fact.
fn values_of<'a>(measure: &Measure, values: &'a [i64]) -> &'a [i64]
    requires { IsWithin (length values.now) measure.now }
    ensures values { result.now ≡ values_of measure.now values.now }
    ensures few { length result.now ≤ length values.now }
{
    let first = measure.first_col as usize - 1;
    &values[first..first + width(&measure.kind)]
}

/// Whether these are values of a number measure, and one is above 10^12 in absolute value.
fn is_large(kind: &Kind, values: &[i64]) -> bool
    ensures { result ≡ is_large kind.now values.now }
{
    match kind {
        Kind::Number => has_above(values),
        Kind::Parts { .. } => false,
    }
}

/// Whether a value is above 10^12 in absolute value.
fn has_above(values: &[i64]) -> bool
    ensures { result ≡ list_any (λ value. nat_lt MAX_VALUE (unsigned_abs value)) values.now }
{
    values.iter().any(|value| value.unsigned_abs() > MAX_VALUE)
}

/// Whether a value is below 0.
pub fn has_negative(values: &[i64]) -> bool
    ensures { result ≡ has_negative values.now }
{
    values.iter().any(|value| *value < 0)
}

/// Whether these are values of a parts measure, and one is below 0 or they do not add up to its scale.
fn is_no_distribution(kind: &Kind, values: &[i64]) -> bool
    requires { length values.now ≤ MAX_COLS }
    ensures { result ≡ is_no_distribution kind.now values.now }
{
    match kind {
        Kind::Number => false,
        Kind::Parts { scale, .. } => { has_negative(values) || !sums_to(*scale, values) }
    }
}

/// Whether the values add up to the scale.
pub fn sums_to(scale: u32, values: &[i64]) -> bool
    requires { length values.now ≤ MAX_COLS }
    ensures { result ≡ sums_to scale values.now }
{
    let mut sum: i128 = 0;
    for value in values {
        sum = plus(sum, *value);
    }
    sum == i128::from(scale)
}

/// The sum with a value more.
fn plus(sum: i128, value: i64) -> i128
    requires { nat_abs sum ≤ 2 ^ 70 }
    ensures { result ≡ sum +ℤ value }
{
    sum + i128::from(value)
}
