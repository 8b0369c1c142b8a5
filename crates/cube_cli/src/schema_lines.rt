//! Taking the schema with which an input begins, which goes on after it.
ghost use Rattle.std.specs.Prelude.{◌≡◌, ◌∷◌, ◌++◌, [], false, true, IfErr, IfOk, OnErr, OnOk};
ghost use Rattle.std.specs.Io.KnownBytes.{IsAtEnd};
ghost use Rattle.text_lines.specs.Input.{EndsOnce, INPUT_LIMIT, ends_if};
ghost use Rattle.text_lines.specs.Pieces.{rest_of, whole_lines};
ghost use Rattle.schema_text.specs.SchemaText.{is_end};
ghost use Rattle.script_run.specs.Seen.{source_seen};
ghost use Rattle.cube_cli.specs.SchemaLines.{HasHeadCause, StopsBeforeEnd, TookHeld, TookLines, TookSchema};

use cube_base::{Code, Source};
use schema_text::{Schema, SchemaFault, read_schema};
use std::alloc::{AllocError, Global};
use text_lines::{InputStop, LineCutter, LineInput, is_text, without_cr};

/// Why the schema with which an input begins is not taken.
#[derive(Debug, Drop)]
pub enum HeadStop {
    /// The input is not taken up to its line `end`.
    Input(InputStop),
    /// The schema is refused: its first faulty line, counted from 1, and why.
    Bad { line: u64, code: Code },
}

/// Takes the schema with which an input begins, of which nothing was taken yet, up to and with the line `end`: what was
/// taken after it is held. A line at fault is reported once the line `end` has come, or the input has ended.
pub fn take_schema<S: Source>(
    alloc: Global,
    input: &mut LineInput,
    source: &mut S,
) -> Result<Schema, HeadStop>
    requires pieces { input.old.pieces ≡ record { room = INPUT_LIMIT; is_ended = false } }
    requires lines { input.old.lines.lines ≡ [] ∷ [] }
    ensures took { IfOk result (TookSchema (source_seen S.tells source.old source.new) input.new.pieces.room input.new.lines.lines) }
    ensures ended { IfOk result (λ _. input.new.pieces.is_ended ≡ true → IsAtEnd (S.tells source.new).left) }
    ensures count { IfOk result (λ _. (S.tells source.new).faults ≡ (S.tells source.old).faults) }
    ensures none { IfErr result (HasHeadCause (source_seen S.tells source.old source.new)) }
    ensures ends { OnOk result ((S.tells source.new).ends ≡ ends_if input.new.pieces.is_ended (S.tells source.old).ends) }
    ensures once { OnErr result (EndsOnce (S.tells source.old).ends (S.tells source.new).ends) }
{
    let text = match take_lines(alloc, input, source) {
        Ok(text) => text,
        Err(stop) => return Err(HeadStop::Input(stop)),
    };
    match read_schema(alloc, &text) {
        Ok((schema, _)) => Ok(schema),
        Err(SchemaFault::Bad { line, code }) => Err(HeadStop::Bad { line, code }),
        Err(SchemaFault::Memory) => Err(HeadStop::Input(InputStop::Memory)),
    }
}

// Takes the lines of an input up to and with the first line `end`, or all where there is none: of each as much as tells what it means,
// with an LF.
fn take_lines<S: Source>(
    alloc: Global,
    input: &mut LineInput,
    source: &mut S,
) -> Result<Vec<u8>, InputStop>
    requires pieces { input.old.pieces ≡ record { room = INPUT_LIMIT; is_ended = false } }
    requires lines { input.old.lines.lines ≡ [] ∷ [] }
    ensures ended { IfOk result (λ _. input.new.pieces.is_ended ≡ true → IsAtEnd (S.tells source.new).left) }
    ensures took { IfOk result (λ text. TookLines (source_seen S.tells source.old source.new) input.new.pieces.room input.new.lines.lines text.items) }
    ensures count { IfOk result (λ _. (S.tells source.new).faults ≡ (S.tells source.old).faults) }
    ensures none { IfErr result (StopsBeforeEnd (source_seen S.tells source.old source.new)) }
    ensures ends { OnOk result ((S.tells source.new).ends ≡ ends_if input.new.pieces.is_ended (S.tells source.old).ends) }
    ensures once { OnErr result (EndsOnce (S.tells source.old).ends (S.tells source.new).ends) }
{
    let mut text = Vec::new(alloc);
    'pieces: while !input.pieces.is_ended() {
        input.pieces.feed_next(source, &mut input.lines)?;
        if take_held(&mut text, &mut input.lines)? {
            return Ok(text);
        }
    }
    if let Some(line) = input.lines.finish() {
        push_line(&mut text, line)?;
    }
    Ok(text)
}

// Appends the lines that are held whole, up to and with the first line `end`, and says whether there is one.
fn take_held(text: &mut Vec<u8>, lines: &mut LineCutter) -> Result<bool, AllocError>
    ensures took { IfOk result (TookHeld (whole_lines lines.old.lines) (rest_of lines.old.lines) text.old.items text.new.items lines.new.lines) }
{
    'lines: while let Some(line) = lines.next_line() {
        push_line(text, line)?;
        if is_end(line) {
            return Ok(true);
        }
    }
    Ok(false)
}

// Whether a line is the last of a schema.
fn is_end(line: &[u8]) -> bool
    ensures { result ≡ is_end line.now }
{
    is_text(without_cr(line), "end")
}

// Appends a line and an LF.
fn push_line(text: &mut Vec<u8>, line: &[u8]) -> Result<(), AllocError>
    ensures { OnOk result (text.new.items ≡ text.old.items ++ line.now ++ 10 ∷ []) }
{
    text.extend_from_slice(line)?;
    text.push(b'\n')?;
    Ok(())
}
