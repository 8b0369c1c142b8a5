//! Reading a schema.
ghost use Rattle.std.specs.Prelude.{◌≡◌, ◌≤◌, length, Ok, IfOk, IfErr, OnOk};
ghost use Rattle.schema_text.specs.Draft.{read_with};
ghost use Rattle.schema_text.specs.Fault.{HasCause};
ghost use Rattle.schema_text.specs.Kept.{IsReader, draft_of};
ghost use Rattle.schema_text.specs.SchemaText.{blank_draft, schema_of};

use crate::reader::Reader;
use crate::schema::{Schema, SchemaFault};
use crate::word::is_end;
use cube_base::Code;
use std::alloc::Global;
use text_lines::{first_line_of, is_skipped};

/// The schema with which a text begins, and the number of bytes that it takes. With TABs where `|` stands, its lines are
/// `cube|1` or `cube|2`, the version; `policy|uniform`, `policy|count` or `policy|weight|NAME`; for each measure
/// `number|NAME`, or `parts|NAME|SCALE` with a field more for the name of each outcome; then for each dimension
/// `dimension|NAME` and, for each node in preorder, `node|DEPTH|NAME` in version 1 or `node|DEPTH|NAME|NUMBER` in version 2;
/// then for each view `view|NAME` with a field more for the depth of each dimension; and `end`. A final CR of a line is
/// dropped. Lines that are then empty or begin with `#` are skipped, whatever their length and bytes. `end` needs no LF
/// after it.
///
/// The measures have at most 7 columns: one of numbers has one, one of distributions 2 to 7, one for each outcome. There
/// are 1 to 6 dimensions, and in each 1 to 65,536 nodes. The first node of a dimension has depth 0; each other has a depth
/// from 1 to 8, at most one more than the node before it. The number of a node is its place in version 1. In version 2 the
/// numbers of a dimension are distinct, below the count of its nodes, and that of a node is above its parent's. A name has
/// 1 to 128 bytes, is UTF-8 and has no byte below 32 and no 127. No two measures have one name, no two dimensions, no two
/// nodes of a dimension, no two outcomes of a measure, and no two views. There are at most 4 views, and a depth of one is
/// from 0 to 8, whatever those of the nodes. The name after `weight` is that of a measure of numbers.
///
/// # Errors
///
/// `Bad` gives the first line at fault and, of these codes, the first whose rule the line breaks:
/// - `Long`: the line has more than 4,096 bytes, its final CR included.
/// - `Text`: it is not UTF-8, or has a byte below 32 other than TAB, or 127.
/// - `Order`: its first field is no word of a schema, or one that may not follow the line before.
/// - `Fields`: the number of fields is not one that the word may have.
/// - `Name`: a name is none, or is taken.
/// - `Policy`: the policy is not known; or, at `end`, no measure of numbers has the name that the policy gives.
/// - `Number`: the version is not `1` or `2`, the scale no number from 1 to 1,000,000, the depth none from 0 to 8, or the
///   number of a node none from 0 to 65,535 or that of an earlier node of the dimension; or, at `dimension`, `view` and
///   `end`, the numbers of the dimension before it are not as they must be.
/// - `Depth`: the depth does not fit the node before.
/// - `Limit`: it is a measure of which a column is the eighth, the seventh dimension, the 65,537th node of the dimension,
///   or the fifth view.
/// - `Cells`: at `end`, the product of the dimensions' leaf counts is 2^62 or more.
/// - `Nodes`: at `end`, the product of their node counts is 2^62 or more.
/// - `Cut`: the text ends before `end`; the line is the one after its last.
///
/// `Memory` comes when it runs out of memory.
pub fn read_schema(alloc: Global, text: &[u8]) -> Result<(Schema, usize), SchemaFault>
    ensures read { IfOk result (λ read. schema_of text.now ≡ Ok (record { schema = read.0; size = read.1 })) }
    ensures within { IfOk result (λ read. read.1 ≤ length text.now) }
    ensures refused { IfErr result (HasCause text.now) }
{
    let mut reader = Reader::new(alloc);
    read_to_end(alloc, &mut reader, text)
}

/// Reads a schema, by a reader before its first line.
fn read_to_end(
    alloc: Global,
    reader: &mut Reader,
    text: &[u8],
) -> Result<(Schema, usize), SchemaFault>
    requires blank { draft_of reader.old ≡ blank_draft }
    requires reader { IsReader reader.old }
    ensures read { IfOk result (λ read. schema_of text.now ≡ Ok (record { schema = read.0; size = read.1 })) }
    ensures within { IfOk result (λ read. read.1 ≤ length text.now) }
    ensures refused { IfErr result (HasCause text.now) }
{
    let (lines, size) = read_lines(alloc, reader, text)?;
    match reader.finish(alloc) {
        Ok(schema) => Ok((schema, size)),
        Err(fault) => Err(fault.at(lines)),
    }
}

/// Takes the lines before the line `end`. Answers the number of that line, and how many bytes the text has up to there, the
/// LF of that line included.
fn read_lines(alloc: Global, reader: &mut Reader, text: &[u8]) -> Result<(u64, usize), SchemaFault>
    requires blank { draft_of reader.old ≡ blank_draft }
    requires reader { IsReader reader.old }
    ensures read { IfOk result (λ read. schema_of text.now ≡ read_with (draft_of reader.new) read.0 read.1) }
    ensures within { IfOk result (λ read. read.1 ≤ length text.now) }
    ensures reader { OnOk result (IsReader reader.new) }
    ensures refused { IfErr result (HasCause text.now) }
{
    let mut rest = text;
    let mut lines = 0;
    while let Some((line, behind)) = first_line_of(rest) {
        rest = behind;
        lines += 1;
        if is_skipped(line) {
            continue;
        }
        if is_end(line) {
            return Ok((lines, text.len() - rest.len()));
        }
        if let Err(fault) = reader.take_line(alloc, line) {
            return Err(fault.at(lines));
        }
    }
    Err(SchemaFault::Bad {
        line: lines + 1,
        code: Code::Cut,
    })
}
