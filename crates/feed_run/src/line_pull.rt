//! Pulling the lines of an input one after the other, as its pieces come.
ghost use Rattle.std.specs.Prelude.{◌≡◌, ◌<◌, ℕ, List, true, IfOk};
ghost use Rattle.cube_base.specs.Outside.{SourceTold};
ghost use Rattle.feed_run.specs.Pulling.{CopiesHeld, CopiesWhole, Pulled, Pulls, pulls_left};

use cube_base::Source;
use text_lines::{InputStop, LineCutter, LineInput};

/// An input whose lines are pulled.
#[derive(Drop)]
pub struct LinePull {
    /// The input, as far as it was read and its lines were pulled.
    pub input: LineInput,
}

impl LinePull {
    /// Puts the next line of the input into a buffer, without its LF and no more than its first 4,097 bytes, and says whether there is
    /// one. A line ends with its LF, or with the input. A piece is read only where no whole line is held, and none
    /// after the end of the input. An error is one of the reading, or running out of memory.
    pub fn next<S: Source>(&mut self, source: &mut S, line: &mut Vec<u8>) -> Result<bool, InputStop>
        ensures pulls { (start : SourceTold) (pulled : List (List ℕ)) → Pulled start (S.tells source.old) self.old.input pulled
            → Pulls start (S.tells source.new) self.new.input pulled line.new.items result }
        ensures fewer { IfOk result (λ more. more ≡ true → pulls_left self.new.input < pulls_left self.old.input) }
    {
        'pieces: while !self.input.pieces.is_ended() {
            if copy_whole(&mut self.input.lines, line)? {
                return Ok(true);
            }
            self.input.pieces.feed_next(source, &mut self.input.lines)?;
        }
        copy_held(&mut self.input.lines, line)
    }
}

/// Puts the next line that is held whole into a buffer, and says whether there is one.
fn copy_whole(lines: &mut LineCutter, line: &mut Vec<u8>) -> Result<bool, InputStop>
    ensures { CopiesWhole lines.old.lines lines.new.lines line.new.items result }
{
    let Some(whole) = lines.next_line() else {
        return Ok(false);
    };
    line.clear();
    line.extend_from_slice(whole)?;
    Ok(true)
}

/// The same at the end of the input: the rest is the last line, unless it is empty.
fn copy_held(lines: &mut LineCutter, line: &mut Vec<u8>) -> Result<bool, InputStop>
    ensures { CopiesHeld lines.old.lines lines.new.lines line.new.items result }
{
    if copy_whole(lines, line)? {
        return Ok(true);
    }
    let Some(rest) = lines.finish() else {
        return Ok(false);
    };
    line.clear();
    line.extend_from_slice(rest)?;
    Ok(true)
}
