//! Readers and writers of std as sources and sinks.
ghost use Rattle.std.specs.Prelude.{◌≡◌, ◌<◌, ◌≤◌, length, IfErr, IfOk, OnErr};
ghost use Rattle.std.specs.Io.KnownBytes.{ReadConsumes, WriteAppends};
ghost use Rattle.cube_base.specs.Outside.{CountsEnd, CountsFault, CountsSinkFault, Rose, next_count};
ghost use Rattle.cube_base.specs.declared.fault.SinkError.TheVariants as sink_error;

use crate::outside::ends_with;
use crate::{Failed, Sink, SinkError, Source};
use std::io::{Read, Write};
use std::marker::Model;

/// A reader of std as a source. It tells the bytes that the reader tells, and counts the reader's
/// errors.
#[derive(Debug, Drop)]
pub struct StdSource<R> {
    inner: R,
    faults: u64,
    // How many reads gave no byte. The count stands at its last value.
    ends: u64,
}

impl<R> Model for StdSource<R> {
    ghost use Rattle.cube_base.specs.StandardIo.{Read};

    ghost Value = { Read R };

    ghost view = { λ s. record { inner = s.inner; faults = s.faults; ends = s.ends } };
}

impl<R: Read> StdSource<R> {
    /// The reader as a source without a fault. It takes no memory.
    pub fn new(inner: R) -> Self
        ensures { result ≡ record { inner = inner; faults = 0; ends = 0 } }
    {
        StdSource {
            inner,
            faults: 0,
            ends: 0,
        }
    }

    /// The reader.
    pub fn into_inner(self) -> R
        ensures { result ≡ self.inner }
    {
        let StdSource { inner, .. } = self;
        inner
    }
}

impl<R: Read> Source for StdSource<R> {
    ghost tells = { λ s. record { left = R.remaining s.inner; faults = s.faults; ends = s.ends } };

    fn read(&mut self, into: &mut [u8]) -> Result<usize, Failed>
        requires { 0 < length into.old }

        // What every source says.
        ensures within { IfOk result (λ n. n ≤ length into.new) }
        ensures bytes { ReadConsumes (R.remaining self.old.inner) (R.remaining self.new.inner) result into.new }
        ensures count { CountsFault self.old.faults self.new.faults result }
        ensures ends { CountsEnd self.old.ends self.new.ends result }

        // What this one adds.
        ensures raised { OnErr result (self.new.faults ≡ next_count self.old.faults) }
    {
        match self.inner.read(into) {
            Ok(count) => {
                self.ends = ends_with(self.ends, count);
                Ok(count)
            }
            Err(_) => Err(count_fault(&mut self.faults)),
        }
    }
}

/// A writer of std as a sink. It tells the bytes that the writer tells. The writer's errors count as
/// faults, and so does a write that takes nothing. It never answers `Memory`.
#[derive(Debug, Drop)]
pub struct StdSink<W> {
    inner: W,
    faults: u64,
}

impl<W> Model for StdSink<W> {
    ghost use Rattle.cube_base.specs.StandardIo.{Written};

    ghost Value = { Written W };

    ghost view = { λ s. record { inner = s.inner; faults = s.faults } };
}

impl<W: Write> StdSink<W> {
    /// The writer as a sink without a fault. It takes no memory.
    pub fn new(inner: W) -> Self
        ensures { result ≡ record { inner = inner; faults = 0 } }
    {
        StdSink { inner, faults: 0 }
    }

    /// The writer.
    pub fn into_inner(self) -> W
        ensures { result ≡ self.inner }
    {
        let StdSink { inner, faults: _ } = self;
        inner
    }
}

impl<W: Write> Sink for StdSink<W> {
    ghost tells = { λ s. record { taken = W.contents s.inner; faults = s.faults } };

    fn write(&mut self, piece: &[u8]) -> Result<usize, SinkError>
        requires { 0 < length piece.now }

        // What every sink says.
        ensures some { IfOk result (λ n. 0 < n) }
        ensures within { IfOk result (λ n. n ≤ length piece.now) }
        ensures bytes { WriteAppends (W.contents self.old.inner) (W.contents self.new.inner) result piece.now }
        ensures count { CountsSinkFault self.old.faults self.new.faults result }

        // What this one adds.
        ensures never_memory { IfErr result (λ error. error ≡ sink_error.Failed) }
        ensures raised { OnErr result (self.new.faults ≡ next_count self.old.faults) }
    {
        match self.inner.write(piece) {
            Ok(count) if count > 0 => Ok(count),
            _ => Err(count_fault(&mut self.faults).into()),
        }
    }
}

/// Counts a fault. The count stands at its last value.
fn count_fault(faults: &mut u64) -> Failed
    ensures raised { faults.new ≡ next_count faults.old }
    ensures rose { Rose faults.old faults.new }
{
    *faults = faults.saturating_add(1);
    Failed
}
