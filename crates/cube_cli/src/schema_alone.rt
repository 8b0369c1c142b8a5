//! A text that is a schema and nothing else.
ghost use Rattle.std.specs.Prelude.{◌≡◌, ◌<◌, ◌≤◌, Ok, length, not, position, IfErr, IfOk, IfSome};
ghost use Rattle.text_lines.specs.LineText.{is_skipped};
ghost use Rattle.text_lines.specs.Text.{lines_of};
ghost use Rattle.cube_cli.specs.SchemaAlone.{HasCauseAlone, schema_alone, tail_line};

use cube_base::Code;
use schema_text::{Schema, SchemaFault, read_schema};
use std::alloc::Global;
use text_lines::{first_line_of, is_skipped};

/// Reads a schema that a text holds alone. `Bad` comes exactly where the schema is refused, with its first faulty line.
/// Else `Tail` comes exactly where a line that is not skipped stands after it, with the number of that line. The only
/// other error is running out of memory.
pub fn read_schema_alone(alloc: Global, text: &[u8]) -> Result<Schema, SchemaFault>
    ensures read { IfOk result (λ schema. schema_alone text.now ≡ Ok schema) }
    ensures refused { IfErr result (HasCauseAlone text.now) }
{
    let (schema, size) = read_schema(alloc, text)?;
    match tail_line(text, size) {
        Some(line) => Err(SchemaFault::Bad {
            line,
            code: Code::Tail,
        }),
        None => Ok(schema),
    }
}

// The number of the first line after so many bytes of a text that is not skipped, counted from 1.
fn tail_line(text: &[u8], size: usize) -> Option<u64>
    requires { size ≤ length text.now }
    ensures { result ≡ tail_line text.now size }
{
    let before = line_count(&text[..size]);
    let behind = first_not_skipped(&text[size..])?;
    Some(before + behind + 1)
}

// The number of the lines of a text.
fn line_count(text: &[u8]) -> u64
    ensures count { result ≡ length (lines_of text.now) }
    ensures within { result ≤ length text.now }
{
    let mut rest = text;
    let mut count = 0;
    'lines: while let Some((_, after)) = first_line_of(rest) {
        count += 1;
        rest = after;
    }
    count
}

// How many lines of a text are skipped before the first that is not, if there is one.
fn first_not_skipped(text: &[u8]) -> Option<u64>
    ensures place { result ≡ position (λ line. not (is_skipped line)) (lines_of text.now) }
    ensures within { IfSome result (λ k. k < length text.now) }
{
    let mut rest = text;
    let mut count = 0;
    'lines: while let Some((line, after)) = first_line_of(rest) {
        if !is_skipped(line) {
            return Some(count);
        }
        count += 1;
        rest = after;
    }
    None
}
