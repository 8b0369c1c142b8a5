//! The fields of a reply with numbers: bounds in units of 10^-9, and fractions.
ghost use Rattle.std.specs.Prelude.{◌≡◌, ◌<◌, ◌∷◌, ◌++◌, OnOk, OnErr};
ghost use Rattle.std.specs.Fmt.{sign_text};
ghost use Rattle.exact_fraction.specs.Fraction.{UNIT};
ghost use Rattle.script_text.specs.Decimals.{PLACES, bound_text, bounds_fields, exact_text, fraction_text, last_digits, pool_fields, quotient_fields, size_text, units_text};
ghost use Rattle.script_text.specs.ReplySteps.{Keeps, fields_text};

use crate::reply_fields::{append_field, append_signed};
use cube_base::Memory;
use exact_fraction::{Quotient, Value, quotient, remainder};
use itoa::Buffer;

/// The units of one whole.
const UNITS: u128 = 1_000_000_000;

/// Appends the fields of a number: its bounds and its fraction.
pub fn append_value(text: &mut Vec<u8>, value: &Value) -> Result<(), Memory>
    ensures ok { OnOk result (text.new.items ≡ text.old.items ++ fields_text (bounds_fields value.now)) }
    ensures err { OnErr result (Keeps text.old.items text.new.items) }
{
    append_units(text, value.lo)?;
    append_units(text, value.hi)?;
    append_exact(text, value.exact)
}

/// Appends the fields of quotients.
pub fn append_quotients(text: &mut Vec<u8>, quotients: &[Quotient]) -> Result<(), Memory>
    ensures ok { OnOk result (text.new.items ≡ text.old.items ++ fields_text (pool_fields quotients.now)) }
    ensures err { OnErr result (Keeps text.old.items text.new.items) }
{
    for quotient in quotients {
        append_quotient(text, quotient)?;
    }
    Ok(())
}

/// Appends the fields of a quotient, which has none where there is no count to divide by.
pub fn append_quotient(text: &mut Vec<u8>, quotient: &Quotient) -> Result<(), Memory>
    ensures ok { OnOk result (text.new.items ≡ text.old.items ++ fields_text (quotient_fields quotient.now)) }
    ensures err { OnErr result (Keeps text.old.items text.new.items) }
{
    match quotient {
        Quotient::Undefined => Ok(()),
        Quotient::Is { lo, hi, exact } => {
            append_bound(text, *lo)?;
            append_bound(text, *hi)?;
            append_exact(text, *exact)
        }
    }
}

/// Appends TAB and a bound.
fn append_bound(text: &mut Vec<u8>, bound: Option<i128>) -> Result<(), Memory>
    ensures ok { OnOk result (text.new.items ≡ text.old.items ++ 9 ∷ bound_text bound) }
    ensures err { OnErr result (Keeps text.old.items text.new.items) }
{
    match bound {
        Some(units) => append_units(text, units),
        None => append_field(text, b"-"),
    }
}

/// Appends TAB and the fraction, or `wide` where there is none.
pub fn append_exact(text: &mut Vec<u8>, exact: Option<(i128, u128)>) -> Result<(), Memory>
    ensures ok { OnOk result (text.new.items ≡ text.old.items ++ 9 ∷ exact_text exact) }
    ensures err { OnErr result (Keeps text.old.items text.new.items) }
{
    match exact {
        Some((num, den)) => append_fraction(text, num, den),
        None => append_field(text, b"wide"),
    }
}

/// Appends TAB and a fraction.
fn append_fraction(text: &mut Vec<u8>, num: i128, den: u128) -> Result<(), Memory>
    ensures ok { OnOk result (text.new.items ≡ text.old.items ++ 9 ∷ fraction_text num den) }
    ensures err { OnErr result (Keeps text.old.items text.new.items) }
{
    append_signed(text, num)?;
    if den != 1 {
        text.push(b'/')?;
        text.extend_from_slice(Buffer::new().format(den).as_bytes())?;
    }
    Ok(())
}

/// Appends TAB and a number of units.
fn append_units(text: &mut Vec<u8>, units: i128) -> Result<(), Memory>
    ensures ok { OnOk result (text.new.items ≡ text.old.items ++ 9 ∷ units_text units) }
    ensures err { OnErr result (Keeps text.old.items text.new.items) }
{
    text.push(b'\t')?;
    append_sign(text, units < 0)?;
    append_size(text, units.unsigned_abs())
}

/// Appends `-` in front of a number below 0.
fn append_sign(text: &mut Vec<u8>, negative: bool) -> Result<(), Memory>
    ensures ok { OnOk result (text.new.items ≡ text.old.items ++ sign_text negative) }
    ensures err { OnErr result (Keeps text.old.items text.new.items) }
{
    if negative {
        text.push(b'-')?;
    }
    Ok(())
}

/// Appends a size in units: the whole part, a point, and the rest.
fn append_size(text: &mut Vec<u8>, size: u128) -> Result<(), Memory>
    ensures ok { OnOk result (text.new.items ≡ text.old.items ++ size_text size) }
    ensures err { OnErr result (Keeps text.old.items text.new.items) }
{
    text.extend_from_slice(Buffer::new().format(quotient(size, UNITS)).as_bytes())?;
    text.push(b'.')?;
    append_places(text, remainder(size, UNITS))
}

/// Appends the nine digits after the point: those after the 1 of a whole more.
fn append_places(text: &mut Vec<u8>, rest: u128) -> Result<(), Memory>
    requires { rest < UNIT }
    ensures ok { OnOk result (text.new.items ≡ text.old.items ++ last_digits PLACES rest) }
    ensures err { OnErr result (Keeps text.old.items text.new.items) }
{
    let mut buffer = Buffer::new();
    let digits = buffer.format(UNITS + rest).as_bytes();
    text.extend_from_slice(&digits[1..])?;
    Ok(())
}
