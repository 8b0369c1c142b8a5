//! The headers of files.
ghost use Rattle.std.specs.Prelude.{◌≡◌, ◌<◌, [], ◌∷◌, codes, map, length, slice_index_or, IfOk, OnOk};
ghost use Rattle.std.specs.Cmp.Lexicographic.{pointwise};
ghost use Rattle.std.specs.Str.{bytes_eq};
ghost use Rattle.csv.specs.Records.{fields_of, partial_of};
ghost use Rattle.schema_text.specs.Schema.{IsSchema};
ghost use Rattle.csv_facts.specs.ExtendedRow.{rows_header};
ghost use Rattle.csv_facts.specs.FactFile.{header_of};
ghost use Rattle.csv_facts.specs.RecordList.{IsLonger, IsRecordRow};

use csv::ByteRecord;
use cube_base::{Memory, Name};
use fact_records::Shape;
use schema_text::Schema;
use std::alloc::Global;

/// The record that names the columns of a schema: `id`, the dimensions, the measures.
pub(crate) fn header_row(alloc: Global, s: &Schema) -> Result<ByteRecord, Memory>
    ensures header { IfOk result (λ row. fields_of row ≡ header_of s.now) }
    ensures schema { IsSchema s.now }
{
    let mut row = front_row(alloc, s)?;
    push_measures(&mut row, s.shape())?;
    Ok(row)
}

/// The record that names the columns of rows: `id`, the dimensions, `weight`, `of`, the measures.
pub(crate) fn rows_header_row(alloc: Global, s: &Schema) -> Result<ByteRecord, Memory>
    ensures { IfOk result (λ row. fields_of row ≡ rows_header s.now) }
{
    let mut row = front_row(alloc, s)?;
    row.push_field(b"weight")?;
    row.push_field(b"of")?;
    push_measures(&mut row, s.shape())?;
    Ok(row)
}

/// The front of both: `id`, the dimensions.
fn front_row(alloc: Global, s: &Schema) -> Result<ByteRecord, Memory>
    ensures row { IfOk result (IsRecordRow (codes "id" ∷ s.now.names)) }
    ensures schema { IsSchema s.now }
{
    let names = s.dim_names();
    let mut row = ByteRecord::new(alloc);
    row.push_field(b"id")?;
    push_names(&mut row, names)?;
    Ok(row)
}

/// Appends a field for each name.
fn push_names(row: &mut ByteRecord, names: &[Name]) -> Result<(), Memory>
    requires { partial_of row.old ≡ [] }
    ensures { OnOk result (IsLonger row.old names.now row.new) }
{
    for name in names {
        row.push_field(name.text().as_bytes())?;
    }
    Ok(())
}

/// Appends a field for the name of each measure.
fn push_measures(row: &mut ByteRecord, shape: &Shape) -> Result<(), Memory>
    requires { partial_of row.old ≡ [] }
    ensures { OnOk result (IsLonger row.old (map (λ m. m.name) shape.now.measures) row.new) }
{
    for i in 0..shape.len() {
        row.push_field(shape.measure(i).name.text().as_bytes())?;
    }
    Ok(())
}

/// Whether two records have the same fields.
pub(crate) fn are_same(a: &ByteRecord, b: &ByteRecord) -> bool
    ensures { result ≡ pointwise bytes_eq (fields_of a.now) (fields_of b.now) }
{
    if a.len() != b.len() {
        return false;
    }
    for i in 0..a.len() {
        if field_of(a, i) != field_of(b, i) {
            return false;
        }
    }
    true
}

/// The field of a record at a place, which must be below their number.
fn field_of(row: &ByteRecord, i: usize) -> &[u8]
    requires { i < length (fields_of row.now) }
    ensures { result.now ≡ slice_index_or (fields_of row.now) i [] }
{
    row.get(i).unwrap()
}
