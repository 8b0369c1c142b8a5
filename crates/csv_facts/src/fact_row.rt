//! The record of a fact.
ghost use Rattle.std.specs.Prelude.{◌≡◌, ◌∷◌, [], length, OnOk};
ghost use Rattle.std.specs.Fmt.{decimal};
ghost use Rattle.csv.specs.Records.{fields_of, partial_of};
ghost use Rattle.fact_records.specs.Shape.{width_of_all};
ghost use Rattle.fact_records.specs.Valid.{IsFactOf};
ghost use Rattle.region_algebra.specs.Space.{IsRegion};
ghost use Rattle.schema_text.specs.Schema.{shape_of};
ghost use Rattle.script_text.specs.Reply.{names_of};
ghost use Rattle.fact_fields.specs.FactRow.{record_of, value_fields};
ghost use Rattle.csv_facts.specs.RecordList.{IsLonger, IsRecordRow};

use csv::ByteRecord;
use cube_base::{Cols, Memory};
use cube_model::Region;
use fact_fields::append_values;
use fact_records::{Fact, Shape};
use itoa::Buffer;
use region_algebra::Space;
use schema_text::Schema;

/// Makes a row the record of a fact. The text is room for a field.
pub(crate) fn fill_row(
    row: &mut ByteRecord,
    text: &mut Vec<u8>,
    s: &Schema,
    fact: &Fact,
) -> Result<(), Memory>
    requires { IsFactOf (shape_of s.now) s.now.dims fact.now }
    ensures { OnOk result (fields_of row.new ≡ record_of s.now fact.now) }
{
    start_row(row, s.space(), fact.id, fact.region)?;
    push_values(row, text, s.shape(), fact.cols)
}

/// Makes a row the front of a record: an id and the names of a region's nodes.
pub(crate) fn start_row(
    row: &mut ByteRecord,
    space: &Space,
    id: u64,
    region: Region,
) -> Result<(), Memory>
    requires { IsRegion space.now region }
    ensures { OnOk result (IsRecordRow (decimal id ∷ names_of space.now region) row.new) }
{
    row.clear();
    push_number(row, id)?;
    push_nodes(row, space, region)
}

/// Appends a field for a number.
pub(crate) fn push_number(row: &mut ByteRecord, number: u64) -> Result<(), Memory>
    requires { partial_of row.old ≡ [] }
    ensures { OnOk result (IsLonger row.old (decimal number ∷ []) row.new) }
{
    row.push_field(Buffer::new().format(number).as_bytes())?;
    Ok(())
}

/// Appends a field for each node of a region.
fn push_nodes(row: &mut ByteRecord, space: &Space, region: Region) -> Result<(), Memory>
    requires region { IsRegion space.now region }
    requires whole { partial_of row.old ≡ [] }
    ensures { OnOk result (IsLonger row.old (names_of space.now region) row.new) }
{
    for d in 0..space.dims() {
        row.push_field(space.dim(d).name_of(region.node(d)).as_bytes())?;
    }
    Ok(())
}

/// Appends a field for each measure. The text is room for one.
pub(crate) fn push_values(
    row: &mut ByteRecord,
    text: &mut Vec<u8>,
    shape: &Shape,
    cols: Cols,
) -> Result<(), Memory>
    requires columns { length cols ≡ width_of_all shape.now.measures }
    requires whole { partial_of row.old ≡ [] }
    ensures { OnOk result (IsLonger row.old (value_fields shape.now.measures cols) row.new) }
{
    for i in 0..shape.len() {
        text.clear();
        append_values(text, shape.measure(i), cols)?;
        row.push_field(text)?;
    }
    Ok(())
}
