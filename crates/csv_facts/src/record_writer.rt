//! Writing records into a text.
ghost use Rattle.std.specs.Prelude.{◌≡◌, [], ◌∷◌, IfOk, OnOk};
ghost use Rattle.csv.specs.Records.{fields_of};
ghost use Rattle.csv_facts.specs.RecordList.{IsWriting, Writes, text_in};

use csv::{ByteRecord, Writer, WriterBuilder};
use cube_base::{Bytes, Memory};
use std::alloc::Global;

/// A writer that has written nothing.
pub(crate) fn new_writer(alloc: Global) -> Writer<Vec<u8>>
    ensures writing { IsWriting result }
    ensures empty { text_in result ≡ [] }
{
    WriterBuilder::new().from_writer(Vec::new(alloc))
}

/// Writes a record.
pub(crate) fn write_row(out: &mut Writer<Vec<u8>>, row: &ByteRecord) -> Result<(), Memory>
    requires { IsWriting out.old }
    ensures { OnOk result (Writes out.old (fields_of row.now ∷ []) out.new) }
{
    if out.write_byte_record(row).is_err() {
        return Err(Memory);
    }
    Ok(())
}

/// What was written.
pub(crate) fn written_text(out: Writer<Vec<u8>>) -> Result<Bytes, Memory>
    ensures { IfOk result (λ text. text ≡ text_in out) }
{
    match out.into_inner() {
        Ok(text) => Ok(Bytes::from(text)),
        Err(_) => Err(Memory),
    }
}
