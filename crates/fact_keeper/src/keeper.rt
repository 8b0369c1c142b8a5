//! Where contents are kept. A keeper counts its loads and its faults, and may tell what it keeps and which store it opened.
ghost use Rattle.std.specs.Prelude.{◌≡◌, ◌++◌, ◌∷◌, [], false, None, IfOk, IfSome, IsTrue, OnOk, OnErr, option_map};
ghost use Rattle.cube_base.specs.Outside.{next_count};
ghost use Rattle.fact_keeper.specs.Batch.{apply_batch};
ghost use Rattle.fact_keeper.specs.Keeper.{CountsKeepFault, KeeperTold, StaysOpen};
ghost use Rattle.fact_keeper.specs.declared.keeper.KeepError.TheVariants as keep_error;

use crate::{Batch, Stored};
use cube_base::Memory;
use std::alloc::{AllocError, AllocFailed, Global};

/// Why a keeper gave or kept nothing.
#[derive(Clone, Copy, Debug, PartialEq, Eq)]
pub enum KeepError {
    /// A fault of the outside. The keeper counts it.
    Failed,
    /// Out of memory.
    Memory,
}

impl From<Memory> for KeepError {
    ghost from_gives = { λ _ e. e ≡ keep_error.Memory };

    fn from(_: Memory) -> Self {
        KeepError::Memory
    }
}

impl From<AllocError> for KeepError {
    ghost from_gives = { λ _ e. e ≡ keep_error.Memory };

    fn from(_: AllocError) -> Self {
        KeepError::Memory
    }
}

impl<T: Drop> From<AllocFailed<T>> for KeepError {
    ghost from_gives = { λ _ e. e ≡ keep_error.Memory };

    fn from(_: AllocFailed<T>) -> Self {
        KeepError::Memory
    }
}

/// A keeper of contents.
pub trait Keeper {
    /// What it tells: its content, all batches that were committed to it, and the name of the store that was opened last, each where it
    /// knows it; the count of loads that were asked for; whether it may be committed to; and the count of its faults. No count falls.
    ghost tells: { Self → KeeperTold };

    /// Whether it keeps what is committed. One that does not tells no content and no journal, so that nothing need be made for it. It
    /// takes no memory.
    fn keeps(&self) -> bool
        ensures content { result ≡ false → (tells self.now).content ≡ None }
        ensures journal { result ≡ false → (tells self.now).journal ≡ None };

    /// Opens the store of that name and gives its content, which stays as it is, and so does the journal. A load that is answered opens the
    /// keeper for good, and an error leaves the name that it tells. `Failed` comes at a fault of the outside alone, and `Memory` is counted
    /// as none.
    fn load(&mut self, alloc: Global, name: &str) -> Result<Stored, KeepError>
        ensures given { IfOk result (λ given. IfSome (tells self.old).content (λ kept. given ≡ kept)) }
        ensures content { (tells self.new).content ≡ (tells self.old).content }
        ensures journal { (tells self.new).journal ≡ (tells self.old).journal }
        ensures named { OnOk result (IfSome (tells self.new).name (λ opened. opened ≡ name.now)) }
        ensures same_name { OnErr result ((tells self.new).name ≡ (tells self.old).name) }
        ensures loaded { (tells self.new).loads ≡ next_count (tells self.old).loads }
        ensures opened { OnOk result (IsTrue (tells self.new).is_open) }
        ensures stays_open { IsTrue (tells self.old).is_open → IsTrue (tells self.new).is_open }
        ensures count { CountsKeepFault (tells self.old).faults (tells self.new).faults result };

    /// Applies the batch to the content and appends it to the journal. On an error both stay as they were: `Failed` comes at a fault of
    /// the outside alone, and `Memory` is counted as none. The name and the count of loads stay.
    fn commit(&mut self, batch: &Batch) -> Result<(), KeepError>
        requires { IsTrue (tells self.old).is_open }
        ensures applied { OnOk result ((tells self.new).content ≡ option_map (apply_batch batch.now) (tells self.old).content) }
        ensures appended { OnOk result ((tells self.new).journal ≡ option_map (λ batches. batches ++ batch.now ∷ []) (tells self.old).journal) }
        ensures same_content { OnErr result ((tells self.new).content ≡ (tells self.old).content) }
        ensures same_journal { OnErr result ((tells self.new).journal ≡ (tells self.old).journal) }
        ensures stays_open { StaysOpen (tells self.old) (tells self.new) }
        ensures count { CountsKeepFault (tells self.old).faults (tells self.new).faults result };
}
