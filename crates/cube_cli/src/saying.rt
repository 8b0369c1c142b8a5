//! What a command without a script writes.
ghost use Rattle.std.specs.Prelude.{◌≡◌, List, ℕ, IfOk};
ghost use Rattle.script_run.specs.Seen.{sink_seen};
ghost use Rattle.cube_cli.specs.Files.{count_line};
ghost use Rattle.cube_cli.specs.Steps.{WritesText};

use cube_base::{Bytes, Memory, Sink, SinkError, write_whole};
use script_text::append_number;
use std::alloc::Global;

/// Writes a line.
pub fn write_line<K: Sink>(out: &mut K, line: &[u8]) -> Result<(), SinkError>
    ensures { WritesText line.now (sink_seen K.tells out.old out.new) result }
{
    write_whole(out, line)
}

/// Writes a text, for which there was memory or not.
pub fn write_text<K: Sink>(out: &mut K, text: Result<Bytes, Memory>) -> Result<(), SinkError>
    ensures { (told : List ℕ) → IfOk text (λ bytes. bytes ≡ told) → WritesText told (sink_seen K.tells out.old out.new) result }
{
    match text {
        Ok(text) => write_line(out, text.as_slice()),
        Err(Memory) => Err(SinkError::Memory),
    }
}

/// The line of a word and two numbers.
pub fn count_line(alloc: Global, word: &[u8], first: u64, second: u64) -> Result<Bytes, Memory>
    ensures { IfOk result (λ line. line ≡ count_line word.now first second) }
{
    let mut text = Vec::new(alloc);
    text.extend_from_slice(word)?;
    append_number(&mut text, first)?;
    append_number(&mut text, second)?;
    text.push(b'\n')?;
    Ok(Bytes::from(text))
}
