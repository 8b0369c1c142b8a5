//! Writing facts.
ghost use Rattle.std.specs.Prelude.{◌≡◌, map, All, None, IfOk, OnOk};
ghost use Rattle.fact_records.specs.Valid.{IsFactOf};
ghost use Rattle.schema_text.specs.Schema.{shape_of};
ghost use Rattle.fact_fields.specs.FactRow.{record_of};
ghost use Rattle.csv_facts.specs.FactFile.{facts_in, file_text};
ghost use Rattle.csv_facts.specs.RecordList.{IsWriting, Writes, records_of};

use crate::columns::header_row;
use crate::fact_row::fill_row;
use crate::record_writer::{new_writer, write_row, written_text};
use csv::{ByteRecord, Writer};
use cube_base::{Bytes, Memory};
use fact_records::FactList;
use schema_text::Schema;
use std::alloc::Global;

/// The CSV file of facts over a schema, as `csv`'s writer writes it where nothing is asked for: the header, then the
/// facts in order of their ids, each record ended by LF. Read again, it gives the same facts.
pub fn write_facts(alloc: Global, s: &Schema, facts: &FactList) -> Result<Bytes, Memory>
    requires { All (IsFactOf (shape_of s.now) s.now.dims) facts.now.facts }
    ensures text { IfOk result (λ text. text ≡ file_text s.now facts.now.facts) }
    ensures reads { IfOk result (λ text. facts_in s.now (records_of text) ≡ record { facts = facts.now.facts; bad = None }) }
{
    let header = header_row(alloc, s)?;
    let mut out = new_writer(alloc);
    write_row(&mut out, &header)?;
    write_fact_rows(alloc, &mut out, s, facts)?;
    written_text(out)
}

/// Writes the records of facts.
fn write_fact_rows(
    alloc: Global,
    out: &mut Writer<Vec<u8>>,
    s: &Schema,
    facts: &FactList,
) -> Result<(), Memory>
    requires writing { IsWriting out.old }
    requires valid { All (IsFactOf (shape_of s.now) s.now.dims) facts.now.facts }
    ensures { OnOk result (Writes out.old (map (record_of s.now) facts.now.facts) out.new) }
{
    let mut row = ByteRecord::new(alloc);
    let mut text = Vec::new(alloc);
    for fact in facts.iter() {
        fill_row(&mut row, &mut text, s, &fact)?;
        write_row(out, &row)?;
    }
    Ok(())
}
