//! The fields of a record that is text.
ghost use Rattle.std.specs.Prelude.{◌≡◌};
ghost use Rattle.csv.specs.Records.{fields_of};

use csv::StringRecord;
use std::marker::Model;
use text_lines::Fields;

/// A walk through the fields of a record. Contracts see the fields that are left.
#[derive(Drop)]
pub(crate) struct RecordFields<'a> {
    row: &'a StringRecord,
    next: usize,
}

impl<'a> Model for RecordFields<'a> {
    ghost use Rattle.std.specs.Prelude.{ℕ, List, drop};
    ghost use Rattle.csv.specs.Records.{fields_of};

    ghost Value = { List (List ℕ) };

    ghost view = { λ w. drop w.next (fields_of w.row.now) };
}

impl<'a> RecordFields<'a> {
    /// The walk before the first field of a record.
    pub(crate) fn new(row: &'a StringRecord) -> Self
        ensures { result ≡ fields_of row.now }
    {
        RecordFields { row, next: 0 }
    }
}

impl<'a> Fields<'a> for RecordFields<'a> {
    ghost left = { λ fields. fields };

    fn next_field(&mut self) -> &'a str {
        let field = self.row.get(self.next).unwrap();
        self.next += 1;
        field
    }
}
