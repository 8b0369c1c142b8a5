//! A source whose lines are counted as they are read.
ghost use Rattle.std.specs.Prelude.{◌≡◌, ◌<◌, ◌≤◌, false, length, take, IfOk, OnErr};
ghost use Rattle.std.specs.Io.KnownBytes.{ReadConsumes};
ghost use Rattle.cube_base.specs.Outside.{CountsEnd, CountsFault};
ghost use Rattle.cube_program.specs.Counted.{ended_with, is_within_with, lines_in};

use cube_base::{Failed, Source};

/// A source that counts the lines of what it gives. It tells what the source in it tells.
#[derive(Debug, Drop)]
pub struct Counted<S> {
    inner: S,
    // How many LFs were given. The count stands at its last value.
    ended: u64,
    // Whether something was given after the last of them.
    is_within: bool,
}

impl<S: Source> Counted<S> {
    /// The source, of which nothing was given yet.
    pub fn new(inner: S) -> Self
        ensures { result ≡ record { inner = inner; ended = 0; is_within = false } }
    {
        Counted {
            inner,
            ended: 0,
            is_within: false,
        }
    }

    /// How many lines were given. The last of them may have no LF.
    pub fn lines(&self) -> u64
        ensures { result ≡ lines_in self.now.ended self.now.is_within }
    {
        if self.is_within {
            self.ended.saturating_add(1)
        } else {
            self.ended
        }
    }

    /// Counts the lines of some bytes more.
    fn count(&mut self, bytes: &[u8])
        ensures { self.new ≡ record { inner = self.old.inner; ended = ended_with self.old.ended bytes.now; is_within = is_within_with self.old.is_within bytes.now } }
    {
        let ended = bytes.iter().filter(|byte| **byte == b'\n').count() as u64;
        self.ended = self.ended.saturating_add(ended);
        if let Some(last) = bytes.last() {
            self.is_within = *last != b'\n';
        }
    }
}

impl<S: Source> Source for Counted<S> {
    ghost tells = { λ s. S.tells s.inner };

    fn read(&mut self, into: &mut [u8]) -> Result<usize, Failed>
        requires { 0 < length into.old }

        // What every source says.
        ensures within { IfOk result (λ n. n ≤ length into.new) }
        ensures bytes { ReadConsumes (S.tells self.old.inner).left (S.tells self.new.inner).left result into.new }
        ensures count { CountsFault (S.tells self.old.inner).faults (S.tells self.new.inner).faults result }
        ensures ends { CountsEnd (S.tells self.old.inner).ends (S.tells self.new.inner).ends result }

        // What this one adds.
        ensures counted { IfOk result (λ n. self.new ≡ record { inner = self.new.inner; ended = ended_with self.old.ended (take n into.new); is_within = is_within_with self.old.is_within (take n into.new) }) }
        ensures same { OnErr result (self.new ≡ record self.old { inner = self.new.inner }) }
    {
        let given = self.inner.read(into)?;
        self.count(&into[..given]);
        Ok(given)
    }
}
