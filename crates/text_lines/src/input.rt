//! Taking the whole input at once.
ghost use Rattle.std.specs.Prelude.{◌≡◌, ◌<◌, ◌≤◌, ◌^◌, ℕ, [], List, Option, false, length, IfOk, OnErr, OnOk, IfErr};
ghost use Rattle.std.specs.Io.KnownBytes.{Consumes};
ghost use Rattle.text_lines.specs.Input.{EndsOnce, Reads, StopsReading, Taken, ends_if};

use cube_base::Source;
use std::alloc::{AllocError, Global};

/// The most bytes of an input.
pub const MAX_INPUT: usize = 1 << 30;

/// The most bytes of one read.
pub const PIECE: usize = 1 << 16;

/// Why the input was not taken whole.
#[derive(Clone, Copy, Debug, PartialEq, Eq)]
pub enum InputStop {
    /// A read failed.
    Fault,
    /// The input goes on after the most bytes that it may have.
    TooLong,
    /// There was no memory for an input that is not too long so far.
    Memory,
}

impl From<AllocError> for InputStop {
    ghost use Rattle.text_lines.specs.declared.input.InputStop.TheVariants.{Memory};

    ghost from_gives = { λ _ e. e ≡ Memory };

    fn from(_: AllocError) -> Self {
        InputStop::Memory
    }
}

/// Takes the input to its end, of which so many bytes are the most: one more is taken of an input that is longer, and then
/// it is too long, whatever memory there is. It is not read again after its end.
pub fn take_input<S: Source>(
    alloc: Global,
    source: &mut S,
    limit: usize,
) -> Result<Vec<u8>, InputStop>
    requires { limit < 2 ^ 62 }
    ensures whole { IfOk result (λ input. Taken limit (S.tells source.old).left (S.tells source.new).left input.items) }
    ensures count { OnOk result ((S.tells source.new).faults ≡ (S.tells source.old).faults) }
    ensures stopped { IfErr result (StopsReading limit (S.tells source.old).left (S.tells source.new).left (S.tells source.old).faults (S.tells source.new).faults) }
    ensures ended { EndsOnce (S.tells source.old).ends (S.tells source.new).ends }
{
    let mut buffer = zeros(alloc, PIECE)?;
    let mut input = Input::new(alloc);
    'pieces: while !input.is_ended {
        input.take_piece(source, &mut buffer, limit)?;
    }
    Ok(input.bytes)
}

/// What was taken of an input, and whether that is all of it.
#[derive(Drop)]
pub struct Input {
    pub bytes: Vec<u8>,
    pub is_ended: bool,
}

impl Input {
    // Nothing was taken yet.
    fn new(alloc: Global) -> Self
        ensures bytes { result.bytes.items ≡ [] }
        ensures more { result.is_ended ≡ false }
    {
        Input {
            bytes: Vec::new(alloc),
            is_ended: false,
        }
    }

    // Takes one piece of an input that did not end yet, no longer than the buffer and what is left up to the limit and one
    // byte more. Whether the input is too long is judged before memory is asked for.
    fn take_piece<S: Source>(
        &mut self,
        source: &mut S,
        buffer: &mut [u8],
        limit: usize,
    ) -> Result<(), InputStop>
        requires more { self.old.is_ended ≡ false }
        requires room { 0 < length buffer.old }
        requires moderate { limit < 2 ^ 62 }
        requires short { length self.old.bytes.items ≤ limit }
        ensures bytes { OnOk result (Reads limit (S.tells source.old).left (S.tells source.new).left self.old self.new) }
        ensures buffer { length buffer.new ≡ length buffer.old }
        ensures count { OnOk result ((S.tells source.new).faults ≡ (S.tells source.old).faults) }
        ensures stopped { (start : Option (List ℕ)) → Consumes start (S.tells source.old).left self.old.bytes.items
            → IfErr result (StopsReading limit start (S.tells source.new).left (S.tells source.old).faults (S.tells source.new).faults) }
        ensures ends { OnOk result ((S.tells source.new).ends ≡ ends_if self.new.is_ended (S.tells source.old).ends) }
        ensures ended { OnErr result (EndsOnce (S.tells source.old).ends (S.tells source.new).ends) }
    {
        let left = limit - self.bytes.len();
        let room = (left + 1).min(buffer.len());
        let piece = &mut buffer[..room];
        let Ok(len) = source.read(piece) else {
            return Err(InputStop::Fault);
        };
        if len > left {
            return Err(InputStop::TooLong);
        }
        if self.bytes.extend_from_slice(&piece[..len]).is_err() {
            return Err(InputStop::Memory);
        }
        self.is_ended = len == 0;
        Ok(())
    }
}

/// A buffer of a length.
pub fn zeros(alloc: Global, len: usize) -> Result<Vec<u8>, AllocError>
    ensures { IfOk result (λ buffer. length buffer.items ≡ len) }
{
    vec![in alloc; 0u8; len]
}
