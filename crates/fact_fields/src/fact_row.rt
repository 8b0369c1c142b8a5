//! The fields of a fact, appended to a text.
ghost use Rattle.std.specs.Prelude.{◌≡◌, ◌≤◌, ◌++◌, length, OnOk};
ghost use Rattle.std.specs.Fmt.{signed_decimal};
ghost use Rattle.fact_records.specs.Shape.{IsWithin, values_of, width_of, width_of_all};
ghost use Rattle.fact_records.specs.Valid.{IsFactOf};
ghost use Rattle.schema_text.specs.Schema.{shape_of};
ghost use Rattle.script_text.specs.ReplySteps.{fields_text};
ghost use Rattle.fact_fields.specs.FactRow.{record_of, value_fields, value_text};

use cube_base::{Cols, Memory};
use fact_records::{Fact, Measure, Shape, width};
use itoa::Buffer;
use schema_text::Schema;
use script_text::{append_names, append_number};

// Where it runs out of memory, each of these may have appended a part.

/// Appends the fields of a fact over a schema, a TAB before each: the id, the names of the nodes, and for each measure its
/// values.
pub fn append_fact(text: &mut Vec<u8>, schema: &Schema, fact: &Fact) -> Result<(), Memory>
    requires { IsFactOf (shape_of schema.now) schema.now.dims fact.now }
    ensures { OnOk result (text.new.items ≡ text.old.items ++ fields_text (record_of schema.now fact.now)) }
{
    append_number(text, fact.id)?;
    append_names(text, schema.space(), fact.region)?;
    append_measures(text, schema.shape(), fact.cols)
}

/// Appends a TAB and the values, for each measure.
fn append_measures(text: &mut Vec<u8>, shape: &Shape, cols: Cols) -> Result<(), Memory>
    requires { length cols ≡ width_of_all shape.now.measures }
    ensures { OnOk result (text.new.items ≡ text.old.items ++ fields_text (value_fields shape.now.measures cols)) }
{
    for i in 0..shape.len() {
        text.push(b'\t')?;
        append_values(text, shape.measure(i), cols)?;
    }
    Ok(())
}

/// Appends the values of a measure, with `:` between them.
pub fn append_values(text: &mut Vec<u8>, measure: &Measure, cols: Cols) -> Result<(), Memory>
    requires within { IsWithin (length cols) measure.now }
    requires some { 1 ≤ width_of measure.now.kind }
    ensures { OnOk result (text.new.items ≡ text.old.items ++ value_text (values_of measure.now cols)) }
{
    let first = measure.first_col - 1;
    append_value(text, cols.get(first))?;
    for i in 1..width(&measure.kind) as u32 {
        text.push(b':')?;
        append_value(text, cols.get(first + i))?;
    }
    Ok(())
}

/// Appends a value.
fn append_value(text: &mut Vec<u8>, value: i64) -> Result<(), Memory>
    ensures { OnOk result (text.new.items ≡ text.old.items ++ signed_decimal value) }
{
    text.extend_from_slice(Buffer::new().format(value).as_bytes())?;
    Ok(())
}
