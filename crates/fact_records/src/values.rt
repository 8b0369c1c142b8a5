//! The values of a measure, as a field spells them.
ghost use Rattle.std.specs.Prelude.{◌≡◌, ◌+◌, ◌^◌, ◌<◌, ◌≤◌, ◌++◌, None, Some, IfErr, IfSome, IsSomeAnd, OnErr, OnOk, length, neg_ℤ, pos, slice_get};
ghost use Rattle.std.specs.Option.{option_map};
ghost use Rattle.cube_model.specs.Limits.{MAX_COLS};
ghost use Rattle.text_lines.specs.Text.{number_in};
ghost use Rattle.fact_records.specs.Shape.{width_of};
ghost use Rattle.fact_records.specs.Values.{field_code, has_negative, parts_in, signed_number_in, values_for, values_in};

use crate::checks::{has_negative, sums_to};
use crate::places::{append, places_of};
use crate::shape::width;
use crate::{Kind, Measure, Shape};
use cube_base::{Code, Cols, MAX_COLS};
use cube_model::MAX_VALUE;
use text_lines::number_in;

/// Appends the values that a field gives a measure. Those that are there must end right before the measure's first column.
/// A number measure's field is a whole number from -10^12 to 10^12: `-` stands before a negative one, and no 0 before
/// another digit. Where cells weigh by the measure's sum, it is not negative. A parts measure's field is as many whole
/// numbers from 0 to the scale as outcomes, joined by `:`, that add up to the scale. Any other field is refused, `Value`
/// for a number measure and `Parts` for a parts measure, and then the values stay as they were. It takes no memory.
pub fn read_value(shape: &Shape, measure: u32, field: &str, into: &mut Cols) -> Result<(), Code>
    requires measure { measure < length shape.now.measures }
    requires place { IfSome (slice_get shape.now.measures measure) (λ m. length into.old + 1 ≡ m.first_col) }
    ensures read { OnOk result (IfSome (slice_get shape.now.measures measure) (λ m. IsSomeAnd (values_for shape.now m field.now) (λ values. into.new ≡ into.old ++ values))) }
    ensures refused { IfErr result (λ code. IfSome (slice_get shape.now.measures measure) (λ m. (values_for shape.now m field.now ≡ None) × (code ≡ field_code m.kind))) }
    ensures kept { OnErr result (into.new ≡ into.old) }
{
    let measure = shape.measure(measure);
    let Some(values) = values_for(shape, measure, field) else {
        return Err(code_of(&measure.kind));
    };
    *into = append(*into, values);
    Ok(())
}

/// The values that a field gives a measure of a shape: none below 0 where cells weigh by the measure's sum.
pub(crate) fn values_for(shape: &Shape, measure: &Measure, field: &str) -> Option<Cols>
    requires { width_of measure.now.kind ≤ MAX_COLS }
    ensures values { result ≡ values_for shape.now measure.now field.now }
    ensures count { IfSome result (λ values. length values ≡ width_of measure.now.kind) }
{
    let values = values_in(&measure.kind, field)?;
    if shape.is_weight(measure) && some_negative(values) {
        None
    } else {
        Some(values)
    }
}

/// Whether a value is below 0.
fn some_negative(values: Cols) -> bool
    ensures { result ≡ has_negative values }
{
    has_negative(&places_of(values)[..values.len() as usize])
}

/// The code of a field that gives no values.
fn code_of(kind: &Kind) -> Code
    ensures { result ≡ field_code kind.now }
{
    match kind {
        Kind::Number => Code::Value,
        Kind::Parts { .. } => Code::Parts,
    }
}

/// The values that a field gives a measure.
fn values_in(kind: &Kind, field: &str) -> Option<Cols>
    requires { width_of kind.now ≤ MAX_COLS }
    ensures values { result ≡ values_in kind.now field.now }
    ensures count { IfSome result (λ values. length values ≡ width_of kind.now) }
{
    match kind {
        Kind::Number => Cols::new(&[signed_number_in(MAX_VALUE, field.as_bytes())?]),
        Kind::Parts { scale, .. } => parts_in(width(kind), *scale, field),
    }
}

/// The number from `-most` to `most` that the bytes spell: a number, or `-` before a number other than 0.
fn signed_number_in(most: u64, bytes: &[u8]) -> Option<i64>
    requires { most < 2 ^ 63 }
    ensures { result ≡ signed_number_in most bytes.now }
{
    match bytes {
        [b'-', digits @ ..] => negative_in(digits, most),
        _ => natural_in(bytes, most),
    }
}

/// The number from `-most` to -1 whose digits these are.
fn negative_in(digits: &[u8], most: u64) -> Option<i64>
    requires { most < 2 ^ 63 }
    ensures { result ≡ option_map (λ n. neg_ℤ (pos n)) (number_in 1 most digits.now) }
{
    Some(negative(number_in(digits, 1, most)?))
}

/// The number from 0 to `most` that the bytes spell.
fn natural_in(bytes: &[u8], most: u64) -> Option<i64>
    requires { most < 2 ^ 63 }
    ensures { result ≡ option_map (λ n. pos n) (number_in 0 most bytes.now) }
{
    Some(to_value(number_in(bytes, 0, most)?))
}

/// A number as a value.
fn to_value(n: u64) -> i64
    requires { n < 2 ^ 63 }
    ensures { result ≡ pos n }
{
    n as i64
}

/// A number below 0.
fn negative(n: u64) -> i64
    requires { n < 2 ^ 63 }
    ensures { result ≡ neg_ℤ (pos n) }
{
    -(n as i64)
}

/// The parts that a field spells: so many numbers, joined by `:`, that add up to the scale.
fn parts_in(count: usize, scale: u32, field: &str) -> Option<Cols>
    requires { count ≤ MAX_COLS }
    ensures parts { result ≡ parts_in count scale field.now }
    ensures count { IfSome result (λ parts. length parts ≡ count) }
{
    let mut parts = [0; MAX_COLS];
    let mut read = 0;
    for part in field.split(':') {
        if read == count {
            return None;
        }
        parts[read] = to_value(number_in(part.as_bytes(), 0, u64::from(scale))?);
        read += 1;
    }
    if read < count {
        return None;
    }
    if !sums_to(scale, &parts[..read]) {
        return None;
    }
    Cols::new(&parts[..read])
}
