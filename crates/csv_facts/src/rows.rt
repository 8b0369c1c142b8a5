//! Writing the rows of facts.
ghost use Rattle.std.specs.Prelude.{◌≡◌, [], ◌∷◌, drop, length, map, take, IfOk, OnOk};
ghost use Rattle.cube_model.specs.Cells.{AreRows};
ghost use Rattle.fact_records.specs.Valid.{IsFactOf};
ghost use Rattle.schema_text.specs.Schema.{shape_of};
ghost use Rattle.csv_facts.specs.ExtendedRow.{part_text, row_record, rows_header, with_rows};
ghost use Rattle.csv_facts.specs.RecordList.{IsWriting, Writes, records_text};

use crate::columns::rows_header_row;
use crate::extended_row::fill_extended_row;
use crate::record_writer::{new_writer, write_row, written_text};
use alloc_rows::Alloc;
use csv::{ByteRecord, Writer};
use cube_base::{Bytes, Memory};
use fact_records::Fact;
use schema_text::Schema;
use std::alloc::Global;

/// The header of the rows of facts over a schema, with which their CSV file begins: `id`, the dimensions, `weight`, `of`,
/// the measures, ended by LF.
pub fn write_rows_header(alloc: Global, s: &Schema) -> Result<Bytes, Memory>
    ensures { IfOk result (λ text. text ≡ records_text (rows_header s.now ∷ [])) }
{
    let header = rows_header_row(alloc, s)?;
    let mut out = new_writer(alloc);
    write_row(&mut out, &header)?;
    written_text(out)
}

/// The records of some rows of a fact that is spread so, in order: of those from a place on, counted from 0, at most so many. Each
/// has the fact's id, the names of the leaves of the row's cell, its weight, the denominator, and the fact's values as
/// `write_facts` writes them. After `write_rows_header`, such parts make the file of all rows (`parts_make_the_text`).
pub fn write_rows(
    alloc: Global,
    s: &Schema,
    fact: &Fact,
    spread: &Alloc,
    from: usize,
    most: usize,
) -> Result<Bytes, Memory>
    requires fact { IsFactOf (shape_of s.now) s.now.dims fact.now }
    requires cells { AreRows s.now.dims spread.now.rows }
    ensures { IfOk result (λ text. text ≡ part_text s.now (with_rows fact.now spread.now) from most) }
{
    let mut out = new_writer(alloc);
    let rows = part_of(spread.rows(), from, most);
    write_some_rows(alloc, &mut out, s, fact, spread.den(), rows)?;
    written_text(out)
}

/// Of the rows from a place on, at most so many.
fn part_of(rows: &[(u64, u64)], from: usize, most: usize) -> &[(u64, u64)]
    ensures { result.now ≡ take most (drop from rows.now) }
{
    let rest = &rows[from.min(rows.len())..];
    &rest[..most.min(rest.len())]
}

/// Writes the records of some rows of a fact, over a denominator.
fn write_some_rows(
    alloc: Global,
    out: &mut Writer<Vec<u8>>,
    s: &Schema,
    fact: &Fact,
    den: u64,
    rows: &[(u64, u64)],
) -> Result<(), Memory>
    requires writing { IsWriting out.old }
    requires fact { IsFactOf (shape_of s.now) s.now.dims fact.now }
    requires cells { AreRows s.now.dims rows.now }
    ensures { OnOk result (Writes out.old (map (row_record s.now (with_rows fact.now (record { den = den; rows = [] }))) rows.now) out.new) }
{
    let mut row = ByteRecord::new(alloc);
    let mut text = Vec::new(alloc);
    for placed in rows {
        fill_extended_row(&mut row, &mut text, s, fact, *placed, den)?;
        write_row(out, &row)?;
    }
    Ok(())
}
