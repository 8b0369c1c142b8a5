//! A keeper in memory, which tells all and fails at chosen calls.
ghost use Rattle.std.specs.Prelude.{◌≡◌, ◌↔◌, ◌++◌, ◌∷◌, [], false, true, Contains, Err, IfOk, IsTrue, None, OnErr, OnOk, Some};
ghost use Rattle.cube_base.specs.Outside.{next_count};
ghost use Rattle.fact_keeper.specs.Batch.{apply_batch};
ghost use Rattle.fact_keeper.specs.Keeper.{CountsKeepFault};
ghost use Rattle.fact_keeper.specs.Order.{IsInOrder};
ghost use Rattle.fact_keeper.specs.declared.keeper.KeepError.TheVariants as keep_error;

use crate::calls::Calls;
use crate::order::is_in_order;
use crate::{Batch, KeepError, Keeper, Stored};
use cube_base::{Ids, Memory};
use std::alloc::Global;
use std::marker::Model;

/// A keeper of one store, whatever its name. The calls listed in `fails`, counted from 1 over loads and commits, answer `Failed`.
#[derive(Debug, Drop)]
pub struct MemKeeper {
    alloc: Global,
    content: Stored,
    journal: Vec<Batch>,
    name: Option<String>,
    loads: u64,
    is_open: bool,
    // Whether the entries are known to be in the order of their ids.
    is_in_order: bool,
    calls: Calls,
}

impl Model for MemKeeper {
    ghost use Rattle.fact_keeper.specs.MemKeeper.{Keeping};
    ghost use Rattle.fact_keeper.specs.Order.{IsInOrder};
    ghost use Rattle.std.specs.Prelude.{IsTrue, option_map, string_bytes};

    ghost Value = { Keeping };

    ghost view = { λ k. record {
      content = k.content;
      journal = k.journal.items;
      name = option_map string_bytes k.name;
      loads = k.loads;
      is_open = k.is_open;
      calls = k.calls.made;
      faults = k.calls.faults;
      fails = k.calls.fails;
    } };

    ghost invariant = { λ k. IsTrue k.is_in_order → IsInOrder k.content };
}

impl MemKeeper {
    /// A keeper of this content that is not open, has an empty journal and tells no name, and counts no call. It takes no memory.
    pub fn new(alloc: Global, content: Stored, fails: Ids) -> Self
        ensures { result ≡ record { content = content; journal = []; name = None; loads = 0; is_open = false; calls = 0; faults = 0; fails = fails } }
    {
        let is_in_order = is_in_order(&content);
        MemKeeper {
            alloc,
            content,
            journal: Vec::new(alloc),
            name: None,
            loads: 0,
            is_open: false,
            is_in_order,
            calls: Calls::new(fails),
        }
    }

    /// The content. It takes no memory.
    pub fn content(&self) -> &Stored
        ensures { result.now ≡ self.now.content }
    {
        &self.content
    }

    /// The batches that were committed, the oldest first. It takes no memory.
    pub fn journal(&self) -> &[Batch]
        ensures { result.now ≡ self.now.journal }
    {
        self.journal.as_slice()
    }
}

impl Keeper for MemKeeper {
    ghost tells = { λ k. record { content = Some k.content; journal = Some k.journal; name = k.name; loads = k.loads; is_open = k.is_open; faults = k.faults } };

    fn keeps(&self) -> bool
        ensures all { result ≡ true }
    {
        true
    }

    /// The content, whatever the name, of which it keeps a copy.
    fn load(&mut self, _alloc: Global, name: &str) -> Result<Stored, KeepError>
        // What every keeper says.
        ensures given { IfOk result (λ given. given ≡ self.old.content) }
        ensures content { self.new.content ≡ self.old.content }
        ensures journal { self.new.journal ≡ self.old.journal }
        ensures named { OnOk result (self.new.name ≡ Some name.now) }
        ensures same_name { OnErr result (self.new.name ≡ self.old.name) }
        ensures loaded { self.new.loads ≡ next_count self.old.loads }
        ensures opened { OnOk result (IsTrue self.new.is_open) }
        ensures stays_open { IsTrue self.old.is_open → IsTrue self.new.is_open }
        ensures count { CountsKeepFault self.old.faults self.new.faults result }

        // What this one adds.
        ensures fails { (result ≡ Err keep_error.Failed) ↔ Contains self.old.fails (next_count self.old.calls) }
        ensures raised { result ≡ Err keep_error.Failed → self.new.faults ≡ next_count self.old.faults }
        ensures called { self.new.calls ≡ next_count self.old.calls }
        ensures same_open { OnErr result (self.new.is_open ≡ self.old.is_open) }
        ensures same_fails { self.new.fails ≡ self.old.fails }
    {
        self.loads = self.loads.saturating_add(1);
        self.calls.next()?;
        let given = self.content.copy(self.alloc)?;
        let opened = String::from_str(self.alloc, name)?;
        self.name = Some(opened);
        self.is_open = true;
        Ok(given)
    }

    fn commit(&mut self, batch: &Batch) -> Result<(), KeepError>
        requires { IsTrue self.old.is_open }

        // What every keeper says.
        ensures applied { OnOk result (self.new.content ≡ apply_batch batch.now self.old.content) }
        ensures appended { OnOk result (self.new.journal ≡ self.old.journal ++ batch.now ∷ []) }
        ensures same_content { OnErr result (self.new.content ≡ self.old.content) }
        ensures same_journal { OnErr result (self.new.journal ≡ self.old.journal) }
        ensures stays_open { IsTrue self.new.is_open }
        ensures same_name { self.new.name ≡ self.old.name }
        ensures same_loads { self.new.loads ≡ self.old.loads }
        ensures count { CountsKeepFault self.old.faults self.new.faults result }

        // What this one adds.
        ensures fails { (result ≡ Err keep_error.Failed) ↔ Contains self.old.fails (next_count self.old.calls) }
        ensures raised { result ≡ Err keep_error.Failed → self.new.faults ≡ next_count self.old.faults }
        ensures called { self.new.calls ≡ next_count self.old.calls }
        ensures same_fails { self.new.fails ≡ self.old.fails }
    {
        self.calls.next()?;
        keep(
            self.alloc,
            &mut self.content,
            &mut self.journal,
            batch,
            self.is_in_order,
        )?;
        Ok(())
    }
}

/// Applies a batch to a content and appends it to a journal. An error leaves both as they were. Entries that are known to be in order
/// are so afterwards.
fn keep(
    alloc: Global,
    content: &mut Stored,
    journal: &mut Vec<Batch>,
    batch: &Batch,
    is_in_order: bool,
) -> Result<(), Memory>
    requires { IsTrue is_in_order → IsInOrder content.old }
    ensures applied { OnOk result (content.new ≡ apply_batch batch.now content.old) }
    ensures appended { OnOk result (journal.new.items ≡ journal.old.items ++ batch.now ∷ []) }
    ensures order { IsTrue is_in_order → IsInOrder content.new }
    ensures same_content { OnErr result (content.new ≡ content.old) }
    ensures same_journal { OnErr result (journal.new.items ≡ journal.old.items) }
{
    let entry = batch.copy(alloc)?;
    journal.reserve(1)?;
    content.apply(alloc, batch, is_in_order)?;
    let _ = journal.push(entry);
    Ok(())
}
