//! A source and a sink in memory, which tell their bytes and fail at chosen calls.
ghost use Rattle.std.specs.Prelude.{◌≡◌, ◌↔◌, ◌<◌, ◌≤◌, [], Some, Err, min, length, Contains, IfOk, OnErr, IsErr, IsTrue, if◌then◌else◌};
ghost use Rattle.std.specs.Bool.{OnTrue};
ghost use Rattle.std.specs.Io.KnownBytes.{ReadConsumes, WriteAppends};
ghost use Rattle.cube_base.specs.Outside.{CountsEnd, CountsFault, CountsSinkFault, Rose, next_count};
ghost use Rattle.cube_base.specs.declared.fault.SinkError.TheVariants as sink_error;

use crate::outside::ends_with;
use crate::{Bytes, Failed, Ids, Sink, SinkError, Source};
use std::alloc::Global;
use std::marker::Model;

/// The calls of an object in memory, numbered from 1, and the numbers of those that fail.
#[derive(Debug, Drop)]
struct Calls {
    made: u64,
    faults: u64,
    fails: Ids,
}

impl Calls {
    /// No call so far.
    fn new(fails: Ids) -> Self
        ensures { result ≡ record { made = 0; faults = 0; fails = fails } }
    {
        Calls {
            made: 0,
            faults: 0,
            fails,
        }
    }

    /// Counts a call, and its fault where it is one of those that fail. Both counts stand at their
    /// last value.
    fn next_fails(&mut self) -> bool
        ensures failed { IsTrue result ↔ Contains self.old.fails (next_count self.old.made) }
        ensures made { self.new.made ≡ next_count self.old.made }
        ensures faults { self.new.faults ≡ (if result then next_count self.old.faults else self.old.faults) }
        ensures rose { OnTrue result (Rose self.old.faults self.new.faults) }
        ensures fails { self.new.fails ≡ self.old.fails }
    {
        self.made = self.made.saturating_add(1);
        let is_failed = self.fails.as_slice().contains(&self.made);
        if is_failed {
            self.faults = self.faults.saturating_add(1);
        }
        is_failed
    }
}

/// A source of given bytes. A call gives `step` of them, or fewer where fewer are left or the caller's buffer is shorter; the
/// calls listed in `fails`, counted from 1, answer `Failed` instead.
#[derive(Debug, Drop)]
pub struct MemSource {
    bytes: Bytes,
    given: usize,
    step: usize,
    // How many reads gave no byte. The count stands at its last value.
    ends: u64,
    calls: Calls,
}

impl Model for MemSource {
    ghost use Rattle.std.specs.Prelude.{◌≤◌, drop, length};
    ghost use Rattle.cube_base.specs.MemoryIo.{Reading};

    ghost Value = { Reading };

    ghost view = { λ s. record {
      left = drop s.given s.bytes;
      step = s.step;
      calls = s.calls.made;
      faults = s.calls.faults;
      ends = s.ends;
      fails = s.calls.fails;
    } };

    ghost invariant = { λ s. (1 ≤ s.step) × (s.given ≤ length s.bytes) };
}

impl MemSource {
    /// A source of these bytes that has given none and counts no call. It takes no memory.
    pub fn new(_alloc: Global, bytes: Bytes, step: usize, fails: Ids) -> Self
        requires { 1 ≤ step }
        ensures { result ≡ record { left = bytes; step = step; calls = 0; faults = 0; ends = 0; fails = fails } }
    {
        MemSource {
            bytes,
            given: 0,
            step,
            ends: 0,
            calls: Calls::new(fails),
        }
    }

    /// The bytes left.
    pub fn left(&self) -> &[u8]
        ensures { result.now ≡ self.now.left }
    {
        &self.bytes.as_slice()[self.given..]
    }
}

impl Source for MemSource {
    ghost tells = { λ s. record { left = Some s.left; faults = s.faults; ends = s.ends } };

    fn read(&mut self, into: &mut [u8]) -> Result<usize, Failed>
        requires { 0 < length into.old }

        // What every source says.
        ensures within { IfOk result (λ n. n ≤ length into.new) }
        ensures bytes { ReadConsumes (Some self.old.left) (Some self.new.left) result into.new }
        ensures count { CountsFault self.old.faults self.new.faults result }
        ensures ends { CountsEnd self.old.ends self.new.ends result }

        // What this one adds.
        ensures fails { IsErr result ↔ Contains self.old.fails (next_count self.old.calls) }
        ensures raised { OnErr result (self.new.faults ≡ next_count self.old.faults) }
        ensures given { IfOk result (λ n. n ≡ min (min self.old.step (length into.new)) (length self.old.left)) }
        ensures called { self.new.calls ≡ next_count self.old.calls }
        ensures same_step { self.new.step ≡ self.old.step }
        ensures same_fails { self.new.fails ≡ self.old.fails }
    {
        if self.calls.next_fails() {
            return Err(Failed);
        }
        let left = &self.bytes.as_slice()[self.given..];
        let count = self.step.min(into.len()).min(left.len());
        into[..count].copy_from_slice(&left[..count]);
        self.given += count;
        self.ends = ends_with(self.ends, count);
        Ok(count)
    }
}

/// A sink that keeps the bytes it takes. A call takes `step` of them at most, or answers `Memory` and takes none where there is
/// no room for them; the calls listed in `fails`, counted from 1, answer `Failed` instead.
#[derive(Debug, Drop)]
pub struct MemSink {
    taken: Vec<u8>,
    step: usize,
    calls: Calls,
}

impl Model for MemSink {
    ghost use Rattle.std.specs.Prelude.{◌≤◌};
    ghost use Rattle.cube_base.specs.MemoryIo.{Writing};

    ghost Value = { Writing };

    ghost view = { λ s. record {
      taken = s.taken.items;
      step = s.step;
      calls = s.calls.made;
      faults = s.calls.faults;
      fails = s.calls.fails;
    } };

    ghost invariant = { λ s. 1 ≤ s.step };
}

impl MemSink {
    /// A sink that has taken nothing and counts no call. It takes no memory.
    pub fn new(alloc: Global, step: usize, fails: Ids) -> Self
        requires { 1 ≤ step }
        ensures { result ≡ record { taken = []; step = step; calls = 0; faults = 0; fails = fails } }
    {
        MemSink {
            taken: Vec::new(alloc),
            step,
            calls: Calls::new(fails),
        }
    }

    /// The bytes taken.
    pub fn bytes(&self) -> &[u8]
        ensures { result.now ≡ self.now.taken }
    {
        self.taken.as_slice()
    }
}

impl Sink for MemSink {
    ghost tells = { λ s. record { taken = Some s.taken; faults = s.faults } };

    fn write(&mut self, piece: &[u8]) -> Result<usize, SinkError>
        requires { 0 < length piece.now }

        // What every sink says.
        ensures some { IfOk result (λ n. 0 < n) }
        ensures within { IfOk result (λ n. n ≤ length piece.now) }
        ensures bytes { WriteAppends (Some self.old.taken) (Some self.new.taken) result piece.now }
        ensures count { CountsSinkFault self.old.faults self.new.faults result }

        // What this one adds.
        ensures fails { (result ≡ Err sink_error.Failed) ↔ Contains self.old.fails (next_count self.old.calls) }
        ensures raised { result ≡ Err sink_error.Failed → self.new.faults ≡ next_count self.old.faults }
        ensures taken { IfOk result (λ n. n ≡ min self.old.step (length piece.now)) }
        ensures called { self.new.calls ≡ next_count self.old.calls }
        ensures same_step { self.new.step ≡ self.old.step }
        ensures same_fails { self.new.fails ≡ self.old.fails }
    {
        if self.calls.next_fails() {
            return Err(SinkError::Failed);
        }
        let count = self.step.min(piece.len());
        self.taken.extend_from_slice(&piece[..count])?;
        Ok(count)
    }
}
