//! Reading an input piece by piece, each of which is cut into lines before the next is read.
ghost use Rattle.std.specs.Prelude.{◌≡◌, [], ◌∷◌, false, length, IfErr, IfOk, OnErr, OnOk};
ghost use Rattle.text_lines.specs.Input.{EndsOnce, INPUT_LIMIT, ends_if};
ghost use Rattle.text_lines.specs.Reading.{Feeds, StopsFeeding};

use crate::LineCutter;
use crate::input::{InputStop, MAX_INPUT, PIECE, zeros};
use cube_base::Source;
use std::alloc::{AllocError, Global};
use std::marker::Model;

/// A reader of an input of at most 2^30 bytes in pieces of at most 65,536. Contracts see how many bytes may still be taken, and
/// whether the input ended.
#[derive(Drop)]
pub struct PieceReader {
    // As long as a piece may be.
    buffer: Vec<u8>,
    room: usize,
    is_ended: bool,
}

impl Model for PieceReader {
    ghost use Rattle.std.specs.Prelude.{◌≡◌, ◌≤◌, length};
    ghost use Rattle.text_lines.specs.Input.{INPUT_LIMIT};
    ghost use Rattle.text_lines.specs.Reading.{PIECE_LIMIT, Reading};

    ghost Value = { Reading };

    ghost view = { λ r. record { room = r.room; is_ended = r.is_ended } };

    ghost invariant = { λ r. (length r.buffer.items ≡ PIECE_LIMIT) × (r.room ≤ INPUT_LIMIT) };
}

/// An input as it is read: its pieces, and the lines that are held of them.
#[derive(Drop)]
pub struct LineInput {
    pub pieces: PieceReader,
    pub lines: LineCutter,
}

impl LineInput {
    /// Nothing was taken yet. The only error is running out of memory.
    pub fn new(alloc: Global) -> Result<Self, AllocError>
        ensures pieces { IfOk result (λ input. input.pieces ≡ record { room = INPUT_LIMIT; is_ended = false }) }
        ensures lines { IfOk result (λ input. input.lines ≡ record { lines = [] ∷ []; bytes = 0 }) }
    {
        Ok(LineInput {
            pieces: PieceReader::new(alloc)?,
            lines: LineCutter::new(alloc),
        })
    }
}

impl PieceReader {
    /// Nothing was taken yet. The only error is running out of memory.
    pub fn new(alloc: Global) -> Result<Self, AllocError>
        ensures { IfOk result (λ reader. reader ≡ record { room = INPUT_LIMIT; is_ended = false }) }
    {
        Ok(PieceReader {
            buffer: zeros(alloc, PIECE)?,
            room: MAX_INPUT,
            is_ended: false,
        })
    }

    /// Whether the input ended. It is not read again then.
    pub fn is_ended(&self) -> bool
        ensures { result ≡ self.now.is_ended }
    {
        self.is_ended
    }

    /// Takes the next piece of an input that did not end yet, and gives it to a cutter whose whole lines were all handed out. At
    /// the end of the input the cutter holds what it held. `Fault` comes at a failed read, by which nothing is lost; `TooLong`
    /// where 2^30 bytes were taken and one more came, whatever memory there is; `Memory` where the piece could not be held.
    pub fn feed_next<S: Source>(
        &mut self,
        source: &mut S,
        cutter: &mut LineCutter,
    ) -> Result<(), InputStop>
        requires more { self.old.is_ended ≡ false }
        requires handed_out { length cutter.old.lines ≡ 1 }
        ensures fed { OnOk result (Feeds (S.tells source.old).left (S.tells source.new).left self.old self.new cutter.old.lines cutter.new.lines) }
        ensures count { OnOk result ((S.tells source.new).faults ≡ (S.tells source.old).faults) }
        ensures stopped { IfErr result (StopsFeeding self.old.room (S.tells source.old).left (S.tells source.new).left (S.tells source.old).faults (S.tells source.new).faults) }
        ensures same { OnErr result (cutter.new.lines ≡ cutter.old.lines) }
        ensures ends { OnOk result ((S.tells source.new).ends ≡ ends_if self.new.is_ended (S.tells source.old).ends) }
        ensures ended { OnErr result (EndsOnce (S.tells source.old).ends (S.tells source.new).ends) }
    {
        let most = self.room.clamp(1, PIECE);
        let Ok(len) = source.read(&mut self.buffer[0..most]) else {
            return Err(InputStop::Fault);
        };
        if len > self.room {
            return Err(InputStop::TooLong);
        }
        if cutter.feed(&self.buffer[..len]).is_err() {
            return Err(InputStop::Memory);
        }
        self.room -= len;
        self.is_ended = len == 0;
        Ok(())
    }
}
