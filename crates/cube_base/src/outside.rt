//! Where bytes come from and where they go. Each object of the outside counts its faults, so that a
//! contract can say that a failure has a cause, and may tell its bytes, so that one can name them.
ghost use Rattle.std.specs.Prelude.{◌≡◌, ◌<◌, ◌≤◌, length, IfOk, OnOk, OnErr};
ghost use Rattle.std.specs.Io.KnownBytes.{Appends, ReadConsumes, WriteAppends};
ghost use Rattle.cube_base.specs.Outside.{CountsEnd, CountsFault, CountsSinkFault, SinkTold, SourceTold, TakesPart, between, ends_with};

use crate::{Failed, SinkError};

/// A source of bytes.
pub trait Source {
    /// The bytes left, where the source tells them, how many faults there have been, and how many reads gave no byte. The counts
    /// never fall.
    ghost tells: { Self → SourceTold };

    /// Puts the next bytes into the front of `into`, which is not empty, and says how many: 0 is the end of the input.
    /// `Failed` comes at a fault of the outside alone, and no byte is lost by it; `into` then holds anything.
    fn read(&mut self, into: &mut [u8]) -> Result<usize, Failed>
        requires { 0 < length into.old }
        ensures within { IfOk result (λ n. n ≤ length into.new) }
        ensures bytes { ReadConsumes (tells self.old).left (tells self.new).left result into.new }
        ensures count { CountsFault (tells self.old).faults (tells self.new).faults result }
        ensures ends { CountsEnd (tells self.old).ends (tells self.new).ends result };
}

/// A sink for bytes.
pub trait Sink {
    /// The bytes taken, where the sink tells them, and how many faults there have been. The count never falls.
    ghost tells: { Self → SinkTold };

    /// Takes one byte or more from the front of `piece`, which is not empty, and says how many. On an error it took
    /// none: `Failed` comes at a fault of the outside alone, and `Memory` is counted as none.
    fn write(&mut self, piece: &[u8]) -> Result<usize, SinkError>
        requires { 0 < length piece.now }
        ensures some { IfOk result (λ n. 0 < n) }
        ensures within { IfOk result (λ n. n ≤ length piece.now) }
        ensures bytes { WriteAppends (tells self.old).taken (tells self.new).taken result piece.now }
        ensures count { CountsSinkFault (tells self.old).faults (tells self.new).faults result };
}

/// The count of reads that gave no byte, after one more that gave so many. The count stands at its last value.
pub(crate) fn ends_with(ends: u64, given: usize) -> u64
    ensures { result ≡ ends_with ends given }
{
    if given == 0 {
        ends.saturating_add(1)
    } else {
        ends
    }
}

/// Writes what is left of `text` from the place `sent` on, and moves `sent` past what was taken. On an error some of
/// the text is left. It takes no memory of its own.
pub fn write_from<K: Sink>(out: &mut K, text: &[u8], sent: &mut usize) -> Result<(), SinkError>
    requires { sent.old ≤ length text.now }
    ensures forward { sent.old ≤ sent.new }
    ensures within { sent.new ≤ length text.now }
    ensures bytes { Appends (K.tells out.old).taken (K.tells out.new).taken (between text.now sent.old sent.new) }
    ensures ok { OnOk result (sent.new ≡ length text.now) }
    ensures err { OnErr result (sent.new < length text.now) }
    ensures count { CountsSinkFault (K.tells out.old).faults (K.tells out.new).faults result }
{
    while *sent < text.len() {
        *sent += out.write(&text[*sent..])?;
    }
    Ok(())
}

/// Writes the whole text. On an error a prefix of it was taken, and not the whole.
/// It takes no memory of its own.
pub fn write_whole<K: Sink>(out: &mut K, text: &[u8]) -> Result<(), SinkError>
    ensures ok { OnOk result (Appends (K.tells out.old).taken (K.tells out.new).taken text.now) }
    ensures err { OnErr result (TakesPart (K.tells out.old).taken (K.tells out.new).taken text.now) }
    ensures count { CountsSinkFault (K.tells out.old).faults (K.tells out.new).faults result }
{
    let mut sent = 0;
    write_from(out, text, &mut sent)
}
