//! Reading facts.
ghost use Rattle.std.specs.Prelude.{◌≡◌, All, IfOk};
ghost use Rattle.csv.specs.Records.{fields_of};
ghost use Rattle.fact_records.specs.Valid.{IsFactOf};
ghost use Rattle.schema_text.specs.Schema.{shape_of};
ghost use Rattle.csv_facts.specs.FactFile.{facts_from, facts_in, record_given};
ghost use Rattle.csv_facts.specs.RecordList.{records_of};

use crate::columns::{are_same, header_row};
use crate::record_fields::RecordFields;
use crate::record_reader::RecordReader;
use csv::{ByteRecord, StringRecord};
use cube_base::{Code, Memory};
use fact_records::{BadRecord, Fact, FactRun, FactSeq, read_fact};
use schema_text::Schema;
use std::alloc::Global;
use std::mem;

/// The facts of a CSV file over a schema, in its order, up to the first record that cannot be read. The records are those
/// of `csv`'s reader, after a byte order mark at the very front of the file. The first is the header: `id`, the names
/// of the dimensions, those of the measures. Where it is another or there is none, `Header` is answered for index 0.
/// Each later one has the header's fields. The first of these that holds refuses it: `Fields`, their number is another;
/// `Text`, a field is not UTF-8; then `Id`, `Node`, `Value` and `Parts`, as in a line of a script.
pub fn read_facts(alloc: Global, s: &Schema, file: &[u8]) -> Result<FactSeq, Memory>
    ensures facts { IfOk result (λ seq. seq ≡ facts_in s.now (records_of file.now)) }
    ensures within { IfOk result (λ seq. All (IsFactOf (shape_of s.now) s.now.dims) seq.facts) }
{
    let mut records = RecordReader::new(alloc, file);
    let mut row = ByteRecord::new(alloc);
    let header = header_row(alloc, s)?;
    if records.next(&mut row)? && are_same(&header, &row) {
        read_records(alloc, s, &mut records, &mut row)
    } else {
        Ok(FactSeq {
            facts: FactRun::new(alloc),
            bad: Some(BadRecord {
                index: 0,
                code: Code::Header,
            }),
        })
    }
}

/// The facts of the records after the header. The row is room for one.
fn read_records(
    alloc: Global,
    s: &Schema,
    records: &mut RecordReader<'_>,
    row: &mut ByteRecord,
) -> Result<FactSeq, Memory>
    ensures facts { IfOk result (λ seq. seq ≡ facts_from s.now 1 records.old) }
    ensures within { IfOk result (λ seq. All (IsFactOf (shape_of s.now) s.now.dims) seq.facts) }
{
    let mut facts = FactRun::new(alloc);
    while records.next(row)? {
        match read_record(alloc, s, row) {
            Ok(fact) => facts.push(fact)?,
            Err(code) => {
                let index = facts.as_slice().len() as u64 + 1;
                return Ok(FactSeq {
                    facts,
                    bad: Some(BadRecord { index, code }),
                });
            }
        }
    }
    Ok(FactSeq { facts, bad: None })
}

/// The fact that a record gives, or the first code that refuses it. The row is room for another one afterwards.
fn read_record(alloc: Global, s: &Schema, row: &mut ByteRecord) -> Result<Fact, Code>
    ensures fact { result ≡ record_given s.now (fields_of row.old) }
    ensures within { IfOk result (IsFactOf (shape_of s.now) s.now.dims) }
{
    if row.len() != 1 + s.dim_names().len() + s.shape().len() as usize {
        return Err(Code::Fields);
    }
    // A record that is known to be text gives its fields without looking through each. Its memory goes back to the row.
    let taken = mem::replace(row, ByteRecord::new(alloc));
    let Ok(text) = StringRecord::from_byte_record(taken) else {
        return Err(Code::Text);
    };
    let given = read_fact(s.space(), s.shape(), &mut RecordFields::new(&text));
    *row = text.into_byte_record();
    given
}
