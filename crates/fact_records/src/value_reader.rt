//! The values of a fact, one field for each measure.
ghost use Rattle.std.specs.Prelude.{◌≡◌, ◌≤◌, ◌&&◌, None, drop, is_none, length, IfOk};
ghost use Rattle.cube_model.specs.Limits.{MAX_COLS};
ghost use Rattle.fact_records.specs.Accepted.{cols_refusal};
ghost use Rattle.fact_records.specs.Fields.{cols_given, is_number_measure, some_wrong};
ghost use Rattle.fact_records.specs.Shape.{width_of};
ghost use Rattle.fact_records.specs.Values.{values_for};

use crate::values::{read_value, values_for};
use crate::{Kind, Measure, Shape};
use cube_base::{Code, Cols};
use text_lines::Fields;

/// The values that fields give, one field for each measure. A field that gives none is refused: `Value` where some field
/// of a number measure gives none, and else `Parts`. It takes no memory.
pub fn read_values<'a, F: Fields<'a>>(shape: &Shape, fields: &mut F) -> Result<Cols, Code>
    requires { length (F.left fields.old) ≡ length shape.now.measures }
    ensures values { result ≡ cols_given shape.now (F.left fields.old) }
    ensures accepted { IfOk result (λ cols. cols_refusal shape.now cols ≡ None) }
{
    let mut cols = Cols::new(&[]).unwrap();
    for i in 0..shape.len() {
        if let Err(code) = read_value(shape, i, fields.next_field(), &mut cols) {
            // A wrong number comes before wrong parts, wherever they stand.
            if some_wrong_number(shape, i + 1, fields) {
                return Err(Code::Value);
            }
            return Err(code);
        }
    }
    Ok(cols)
}

/// Whether the field of some number measure, from a place on, gives no value.
fn some_wrong_number<'a, F: Fields<'a>>(shape: &Shape, first: u32, fields: &mut F) -> bool
    requires within { first ≤ length shape.now.measures }
    requires count { length (F.left fields.old) ≡ length (drop first shape.now.measures) }
    ensures { result ≡ some_wrong is_number_measure shape.now (drop first shape.now.measures) (F.left fields.old) }
{
    for i in first..shape.len() {
        if is_wrong_number(shape, shape.measure(i), fields.next_field()) {
            return true;
        }
    }
    false
}

/// Whether a measure is a number measure, and a field gives no value of it.
fn is_wrong_number(shape: &Shape, measure: &Measure, field: &str) -> bool
    requires { width_of measure.now.kind ≤ MAX_COLS }
    ensures { result ≡ (is_number_measure measure.now.kind && is_none (values_for shape.now measure.now field.now)) }
{
    match measure.kind {
        Kind::Number => values_for(shape, measure, field).is_none(),
        Kind::Parts { .. } => false,
    }
}
