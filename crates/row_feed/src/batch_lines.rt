//! The lines after that of a batch, one after another.
ghost use Rattle.std.specs.Prelude.{◌≡◌, ◌<◌, ◌≤◌, ◌++◌, drop, length, IfOk, OnOk, OnErr};
ghost use Rattle.cube_model.specs.Cells.{AreRows, all_cells};
ghost use Rattle.text_lines.specs.LineText.{field_at};
ghost use Rattle.row_feed.specs.BatchLines.{GoesOnWith, IsNextLine, IsPlaceIn, first_line};
ghost use Rattle.row_feed.specs.FeedText.{AreRowsOf, behind_lines, row_line, rows_head, rows_lines};

use cube_base::Memory;
use fact_keeper::{Batch, KeptRows};
use region_algebra::Space;
use schema_text::Schema;
use script_text::{append_number, append_row};
use std::marker::Model;

/// A walk through the lines after that of a batch, which holds no text of its own. Contracts see the lines that are
/// left.
#[derive(Drop)]
pub struct BatchLines<'a> {
    space: &'a Space,
    // The entries of which lines are left.
    entries: &'a [KeptRows],
    // How many lines of the first of them were handed out.
    place: usize,
    // Whether the last line was handed out.
    ended: bool,
}

impl<'a> Model for BatchLines<'a> {
    ghost use Rattle.std.specs.Prelude.{ℕ, List};
    ghost use Rattle.row_feed.specs.BatchLines.{IsBatchWalk, lines_left};

    ghost Value = { List (List ℕ) };

    ghost view = { λ w. lines_left w.space.now w.entries.now w.place w.ended };

    ghost invariant = { λ w. IsBatchWalk w.space.now w.entries.now w.place w.ended };
}

impl<'a> BatchLines<'a> {
    /// The walk before the first line after that of a batch, over the schema after it.
    pub fn new(schema: &'a Schema, batch: &'a Batch) -> Self
        requires { AreRowsOf schema.now.dims batch.now.rows }
        ensures { result ≡ behind_lines schema.now.dims batch.now }
    {
        BatchLines {
            space: schema.space(),
            entries: batch.rows.as_slice(),
            place: 0,
            ended: false,
        }
    }

    /// Makes a text the next line, without its LF: false exactly where none is left. Where it runs out of memory, the text is
    /// a part of the line, and the line is still the next.
    pub fn next(&mut self, line: &mut Vec<u8>) -> Result<bool, Memory>
        ensures next { IfOk result (λ found. IsNextLine found self.old line.new.items self.new) }
        ensures same { OnErr result (self.new ≡ self.old) }
    {
        line.clear();
        self.append_next(line)
    }

    /// Appends the next line to a text, without its LF: false exactly where none is left.
    pub(crate) fn append_next(&mut self, text: &mut Vec<u8>) -> Result<bool, Memory>
        ensures next { IfOk result (λ found. GoesOnWith found self.old text.old.items text.new.items self.new) }
        ensures same { OnErr result (self.new ≡ self.old) }
    {
        if self.ended {
            return Ok(false);
        }
        append_first(text, self.space, self.entries, self.place)?;
        self.pass();
        Ok(true)
    }

    /// Passes over the next line, which must be there.
    fn pass(&mut self)
        requires { 1 ≤ length self.old }
        ensures { self.new ≡ drop 1 self.old }
    {
        match self.entries {
            [] => self.ended = true,
            [entry, rest @ ..] => {
                if self.place < entry.rows.as_slice().len() {
                    self.place += 1;
                } else {
                    self.entries = rest;
                    self.place = 0;
                }
            }
        }
    }
}

/// Appends the first line that is left of entries, of whose first so many lines were handed out.
fn append_first(
    text: &mut Vec<u8>,
    space: &Space,
    entries: &[KeptRows],
    place: usize,
) -> Result<(), Memory>
    requires place { IsPlaceIn place entries.now }
    requires rows { AreRowsOf space.now entries.now }
    ensures { OnOk result (text.new.items ≡ text.old.items ++ first_line space.now entries.now place) }
{
    match entries {
        [] => {
            text.extend_from_slice(b"done")?;
            Ok(())
        }
        [entry, ..] => append_line_of(text, space, entry, place),
    }
}

/// Appends the line of an entry at a place: what its rows are at 0, and then one of these.
fn append_line_of(
    text: &mut Vec<u8>,
    space: &Space,
    entry: &KeptRows,
    place: usize,
) -> Result<(), Memory>
    requires place { place ≤ length entry.now.rows }
    requires rows { AreRows space.now entry.now.rows }
    ensures { OnOk result (text.new.items ≡ text.old.items ++ field_at (rows_lines space.now entry.now) place) }
{
    if place == 0 {
        append_head(text, entry)
    } else {
        append_row_line(text, space, entry.rows.as_slice()[place - 1])
    }
}

/// Appends the line of what rows are: the id, the denominator, and how many there are.
fn append_head(text: &mut Vec<u8>, entry: &KeptRows) -> Result<(), Memory>
    ensures { OnOk result (text.new.items ≡ text.old.items ++ rows_head entry.now) }
{
    text.extend_from_slice(b"rows")?;
    append_number(text, entry.id)?;
    append_number(text, entry.den)?;
    append_number(text, entry.rows.as_slice().len())
}

/// Appends the line of a row.
fn append_row_line(text: &mut Vec<u8>, space: &Space, row: (u64, u64)) -> Result<(), Memory>
    requires { row.0 < length (all_cells space.now) }
    ensures { OnOk result (text.new.items ≡ text.old.items ++ row_line space.now row) }
{
    text.extend_from_slice(b"row")?;
    append_row(text, space, row)
}
