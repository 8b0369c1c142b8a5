//! The record of a row over which a fact is spread.
ghost use Rattle.std.specs.Prelude.{◌≡◌, ◌<◌, [], length, OnOk};
ghost use Rattle.csv.specs.Records.{fields_of};
ghost use Rattle.cube_model.specs.Cells.{all_cells};
ghost use Rattle.fact_records.specs.Valid.{IsFactOf};
ghost use Rattle.schema_text.specs.Schema.{shape_of};
ghost use Rattle.csv_facts.specs.ExtendedRow.{row_record, with_rows};

use crate::fact_row::{push_number, push_values, start_row};
use csv::ByteRecord;
use cube_base::Memory;
use fact_records::Fact;
use schema_text::Schema;

/// Makes a row the record of a cell of a fact with its weight, over a denominator. The text is room for a field.
pub(crate) fn fill_extended_row(
    row: &mut ByteRecord,
    text: &mut Vec<u8>,
    s: &Schema,
    fact: &Fact,
    placed: (u64, u64),
    den: u64,
) -> Result<(), Memory>
    requires fact { IsFactOf (shape_of s.now) s.now.dims fact.now }
    requires cell { placed.0 < length (all_cells s.now.dims) }
    ensures { OnOk result (fields_of row.new ≡ row_record s.now (with_rows fact.now (record { den = den; rows = [] })) placed) }
{
    let space = s.space();
    start_row(row, space, fact.id, space.cell_at(placed.0))?;
    push_number(row, placed.1)?;
    push_number(row, den)?;
    push_values(row, text, s.shape(), fact.cols)
}
