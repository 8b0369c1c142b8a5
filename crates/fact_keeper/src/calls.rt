//! The numbers of calls, and which of them fail.
ghost use Rattle.std.specs.Prelude.{◌≡◌, ◌↔◌, Contains, Err, OnErr, IsErr};
ghost use Rattle.cube_base.specs.Outside.{next_count};
ghost use Rattle.fact_keeper.specs.Keeper.{CountsKeepFault};
ghost use Rattle.fact_keeper.specs.declared.keeper.KeepError.TheVariants as keep_error;

use crate::KeepError;
use cube_base::Ids;

/// The calls of a keeper, numbered from 1, and the numbers of those that fail.
#[derive(Debug, Drop)]
pub(crate) struct Calls {
    pub(crate) made: u64,
    pub(crate) faults: u64,
    pub(crate) fails: Ids,
}

impl Calls {
    /// No call so far.
    pub(crate) fn new(fails: Ids) -> Self
        ensures { result ≡ record { made = 0; faults = 0; fails = fails } }
    {
        Calls {
            made: 0,
            faults: 0,
            fails,
        }
    }

    /// Counts a call, and its fault where it is one of those that fail. Both counts stand at their last value.
    pub(crate) fn next(&mut self) -> Result<(), KeepError>
        ensures failed { IsErr result ↔ Contains self.old.fails (next_count self.old.made) }
        ensures cause { OnErr result (result ≡ Err keep_error.Failed) }
        ensures made { self.new.made ≡ next_count self.old.made }
        ensures count { CountsKeepFault self.old.faults self.new.faults result }
        ensures raised { OnErr result (self.new.faults ≡ next_count self.old.faults) }
        ensures fails { self.new.fails ≡ self.old.fails }
    {
        self.made = self.made.saturating_add(1);
        if self.fails.as_slice().contains(&self.made) {
            self.faults = self.faults.saturating_add(1);
            return Err(KeepError::Failed);
        }
        Ok(())
    }
}
