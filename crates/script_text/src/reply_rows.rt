//! The fields of a reply with rows.
ghost use Rattle.std.specs.Prelude.{◌≡◌, ◌++◌, ◌<◌, length, OnOk, OnErr};
ghost use Rattle.cube_model.specs.Cells.{AreRows, all_cells};
ghost use Rattle.region_algebra.specs.Space.{IsRegion};
ghost use Rattle.script_text.specs.Reply.{cell_fields, names_of, row_fields, rows_fields};
ghost use Rattle.script_text.specs.ReplySteps.{Keeps, fields_text};

use crate::reply_fields::{append_field, append_number};
use cube_base::Memory;
use cube_model::Region;
use region_algebra::Space;

/// Appends the fields of rows: the denominator, how many rows there are, and those of each.
pub fn append_rows(
    text: &mut Vec<u8>,
    space: &Space,
    den: u64,
    rows: &[(u64, u64)],
) -> Result<(), Memory>
    requires { AreRows space.now rows.now }
    ensures ok { OnOk result (text.new.items ≡ text.old.items ++ fields_text (rows_fields space.now den rows.now)) }
    ensures err { OnErr result (Keeps text.old.items text.new.items) }
{
    append_number(text, den)?;
    append_number(text, rows.len())?;
    for row in rows {
        append_row(text, space, *row)?;
    }
    Ok(())
}

/// Appends the fields of a row: the names of the cell's leaves, and the weight.
pub fn append_row(text: &mut Vec<u8>, space: &Space, row: (u64, u64)) -> Result<(), Memory>
    requires { row.0 < length (all_cells space.now) }
    ensures ok { OnOk result (text.new.items ≡ text.old.items ++ fields_text (row_fields space.now row)) }
    ensures err { OnErr result (Keeps text.old.items text.new.items) }
{
    append_cell(text, space, row.0)?;
    append_number(text, row.1)
}

/// Appends the names of a cell's leaves.
pub fn append_cell(text: &mut Vec<u8>, space: &Space, cell: u64) -> Result<(), Memory>
    requires { cell < length (all_cells space.now) }
    ensures ok { OnOk result (text.new.items ≡ text.old.items ++ fields_text (cell_fields space.now cell)) }
    ensures err { OnErr result (Keeps text.old.items text.new.items) }
{
    append_names(text, space, space.cell_at(cell))
}

/// Appends the names of a region's nodes.
pub fn append_names(text: &mut Vec<u8>, space: &Space, region: Region) -> Result<(), Memory>
    requires { IsRegion space.now region }
    ensures ok { OnOk result (text.new.items ≡ text.old.items ++ fields_text (names_of space.now region)) }
    ensures err { OnErr result (Keeps text.old.items text.new.items) }
{
    for d in 0..space.dims() {
        append_field(text, space.dim(d).name_of(region.node(d)).as_bytes())?;
    }
    Ok(())
}
