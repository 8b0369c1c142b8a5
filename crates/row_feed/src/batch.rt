//! Writing a batch.
ghost use Rattle.std.specs.Prelude.{◌≡◌, ◌++◌, IfOk, OnOk};
ghost use Rattle.script_text.specs.ReplySteps.{fields_text};
ghost use Rattle.row_feed.specs.FeedText.{AreRowsOf, IsSaid, batch_lines, behind_lines, feed_bytes};

use crate::batch_lines::BatchLines;
use crate::changes::append_said;
use cube_base::{Bytes, Memory};
use fact_keeper::Batch;
use schema_text::Schema;
use script_text::{Line, append_number};
use std::alloc::Global;

/// The lines of a batch of a feed, each ended by LF: `batch`, its number and the edit or the growth that was done, over the
/// schema after it; then, for each of the batch's entries of rows, `rows`, the id, the denominator and the number of rows,
/// and a line `row` for each, with the names of the cell's leaves and the weight; and `done`.
pub fn write_batch(
    alloc: Global,
    schema: &Schema,
    number: u64,
    line: &Line,
    batch: &Batch,
) -> Result<Bytes, Memory>
    requires said { IsSaid schema.now line.now }
    requires rows { AreRowsOf schema.now.dims batch.now.rows }
    ensures { IfOk result (λ text. text ≡ feed_bytes (batch_lines schema.now number line.now batch.now)) }
{
    let mut text = Vec::new(alloc);
    text.extend_from_slice(b"batch")?;
    append_number(&mut text, number)?;
    append_said(&mut text, schema, line)?;
    text.push(b'\n')?;
    append_behind(&mut text, schema, batch)?;
    Ok(Bytes::from(text))
}

/// Appends the lines after that of a batch.
fn append_behind(text: &mut Vec<u8>, schema: &Schema, batch: &Batch) -> Result<(), Memory>
    requires { AreRowsOf schema.now.dims batch.now.rows }
    ensures { OnOk result (text.new.items ≡ text.old.items ++ feed_bytes (behind_lines schema.now.dims batch.now)) }
{
    let mut lines = BatchLines::new(schema, batch);
    while lines.append_next(text)? {
        text.push(b'\n')?;
    }
    Ok(())
}
