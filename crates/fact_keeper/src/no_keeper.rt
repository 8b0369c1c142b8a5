//! A keeper that keeps nothing.
ghost use Rattle.std.specs.Prelude.{◌≡◌, None, Ok, false, true, IsOk};
ghost use Rattle.cube_base.specs.Outside.{next_count};
ghost use Rattle.fact_keeper.specs.Batch.{empty_content};

use crate::{Batch, KeepError, Keeper, Stored};
use std::alloc::Global;

/// A keeper that keeps nothing and tells no content, no journal and no name. It is open from the start and has no fault.
#[derive(Debug, Drop)]
pub struct NoKeeper {
    loads: u64,
}

impl NoKeeper {
    /// A keeper that counts no load. It takes no memory.
    pub fn new() -> Self
        ensures { result ≡ record { loads = 0 } }
    {
        NoKeeper { loads: 0 }
    }
}

impl Keeper for NoKeeper {
    ghost tells = { λ k. record { content = None; journal = None; name = None; loads = k.loads; is_open = true; faults = 0 } };

    fn keeps(&self) -> bool
        ensures none { result ≡ false }
    {
        false
    }

    /// The empty content, always. It takes no memory.
    fn load(&mut self, alloc: Global, _name: &str) -> Result<Stored, KeepError>
        ensures given { result ≡ Ok empty_content }
        ensures loaded { self.new.loads ≡ next_count self.old.loads }
    {
        self.loads = self.loads.saturating_add(1);
        Ok(Stored::empty(alloc))
    }

    /// Done, always. It takes no memory.
    fn commit(&mut self, _batch: &Batch) -> Result<(), KeepError>
        ensures done { IsOk result }
        ensures same { self.new ≡ self.old }
    {
        Ok(())
    }
}
