//! Inputs that are longer than memory is to hold, and one at whose end a file is exchanged.
use cube_base::{Failed, MemSource, Source};
use std::fs;

/// A source in memory, and after its bytes so many more, each an `x`.
#[derive(Drop)]
pub struct Padded {
    input: MemSource,
    more: usize,
    // How many reads gave no byte. The count stands at its last value.
    ends: u64,
}

impl Padded {
    /// This source, and so many bytes more.
    pub fn new(input: MemSource, more: usize) -> Self {
        Padded {
            input,
            more,
            ends: 0,
        }
    }
}

impl Source for Padded {
    ghost use Rattle.std.specs.Prelude.{None};

    ghost tells = { λ s. record { left = None; faults = s.input.faults; ends = s.ends } };

    fn read(&mut self, into: &mut [u8]) -> Result<usize, Failed> {
        let count = self.input.read(into)?;
        if count > 0 {
            return Ok(count);
        }
        let count = into.len().min(self.more);
        into[..count].fill(b'x');
        self.more -= count;
        if count == 0 {
            self.ends = self.ends.saturating_add(1);
        }
        Ok(count)
    }
}

/// How a file is exchanged.
#[derive(Clone, Copy)]
pub enum Way {
    /// It is not.
    Left,
    /// A path becomes another one.
    Moved(&'static str, &'static str),
    /// A file is removed.
    Removed(&'static str),
    /// A file loses its bytes.
    Emptied(&'static str),
}

/// Exchanges a file. What the system refuses is left.
fn exchange(rt: &HostRuntime, way: Way) {
    let _ = match way {
        Way::Left => Ok(()),
        Way::Moved(from, to) => fs::rename(rt, from, to),
        Way::Removed(path) => fs::remove_file(rt, path),
        Way::Emptied(path) => fs::write(rt, path, ""),
    };
}

/// A source in memory. As it tells its end, a file is exchanged.
#[derive(Drop)]
pub struct Exchanging<'rt> {
    rt: &'rt HostRuntime,
    input: MemSource,
    way: Way,
}

impl<'rt> Exchanging<'rt> {
    /// This source, and how a file is exchanged at its end.
    pub fn new(rt: &'rt HostRuntime, input: MemSource, way: Way) -> Self {
        Exchanging { rt, input, way }
    }
}

impl Source for Exchanging<'_> {
    ghost use Rattle.std.specs.Prelude.{Some};

    ghost tells = { λ s. record { left = Some s.input.left; faults = s.input.faults; ends = s.input.ends } };

    fn read(&mut self, into: &mut [u8]) -> Result<usize, Failed> {
        let count = self.input.read(into)?;
        if count == 0 {
            exchange(self.rt, self.way);
        }
        Ok(count)
    }
}
