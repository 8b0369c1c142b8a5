//! The records of a file one after another.
ghost use Rattle.std.specs.Prelude.{◌≡◌, IfOk};
ghost use Rattle.csv.specs.Reading.{error_kind};
ghost use Rattle.csv.specs.Records.{fields_of};
ghost use Rattle.csv_facts.specs.RecordList.{IsNext, IsWant, records_of};

use csv::{ByteRecord, Error, ErrorKind, Reader, ReaderBuilder};
use cube_base::Memory;
use std::alloc::Global;
use std::marker::Model;

/// A walk through the records of a file. Contracts see the records that are left, none where it ran out of memory.
#[derive(Drop)]
pub(crate) struct RecordReader<'a> {
    reader: Reader<&'a [u8]>,
}

impl<'a> Model for RecordReader<'a> {
    ghost use Rattle.std.specs.Prelude.{ℕ, List};
    ghost use Rattle.csv_facts.specs.RecordList.{IsFileReader, records_before};

    ghost Value = { List (List (List ℕ)) };

    ghost view = { λ r. records_before r.reader };

    ghost invariant = { λ r. IsFileReader r.reader };
}

impl<'a> RecordReader<'a> {
    /// The walk before the first record of a file.
    pub(crate) fn new(alloc: Global, file: &'a [u8]) -> Self
        ensures { result ≡ records_of file.now }
    {
        RecordReader {
            reader: ReaderBuilder::new()
                .has_headers(false)
                .flexible(true)
                .from_reader(alloc, file),
        }
    }

    /// Takes the next record into a row: false exactly where none is left.
    pub(crate) fn next(&mut self, row: &mut ByteRecord) -> Result<bool, Memory>
        ensures { IfOk result (λ found. IsNext found self.old (fields_of row.new) self.new) }
    {
        match self.reader.read_byte_record(row) {
            Ok(found) => Ok(found),
            Err(error) => return Err(want_of_memory(error)),
        }
    }
}

/// Why a record could not be taken: its bytes are taken as they stand, and as many fields as there are.
fn want_of_memory(error: Error) -> Memory
    requires { IsWant (error_kind error) }
{
    match error.into_kind() {
        ErrorKind::OutOfMemory | ErrorKind::Io(_) => Memory,
        _ => unreachable!(),
    }
}
