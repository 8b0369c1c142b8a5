//! The facts in order of their ids.
ghost use Rattle.std.specs.Prelude.{◌≡◌, ◌+◌, ◌≤◌, [], true, length, nat_lt, ◌||◌, slice_get, IfSome, IsOk, OnOk, OnErr};
ghost use Rattle.cube_model.specs.Facts.{has_id, put, withdraw};
ghost use Rattle.fact_records.specs.FactList.{IsAscending, fact_of, facts_left};

use crate::FactWalk;
use crate::blocks::{Blocks, HALF, load};
use crate::search::{fact_at, search};
use cube_base::{Memory, PlainList};
use cube_model::Fact;
use std::alloc::Global;
use std::marker::Model;

/// Facts in the order in which they were given, which need not be that of their ids.
pub type FactRun = PlainList<Fact>;

/// Facts in order of their ids. Contracts see their list, and how many more may be put without memory.
#[derive(Drop)]
pub struct FactList {
    blocks: Blocks,
    count: u64,
    // How many more facts may be put without memory.
    spare: u64,
}

impl Model for FactList {
    ghost use Rattle.fact_records.specs.BlockList.{all_facts};
    ghost use Rattle.fact_records.specs.FactList.{SparedFacts};
    ghost use Rattle.fact_records.specs.Kept.{IsKept};

    ghost Value = { SparedFacts };

    ghost view = { λ l. record { facts = all_facts l.blocks.used; spare = l.spare } };

    ghost invariant = { λ l. IsKept l.blocks l.count l.spare };
}

impl FactList {
    /// No facts, and no room for any. It takes no memory.
    pub fn new(alloc: Global) -> Self
        ensures empty { result.facts ≡ [] }
        ensures spare { result.spare ≡ 0 }
    {
        FactList {
            blocks: Blocks::new(alloc),
            count: 0,
            spare: 0,
        }
    }

    /// The number of facts.
    pub fn len(&self) -> u64
        ensures count { result ≡ length self.now.facts }
        ensures ascending { IsAscending self.now.facts }
    {
        self.count
    }

    /// How many more facts may be put without memory.
    pub fn spare(&self) -> u64
        ensures { result ≡ self.now.spare }
    {
        self.spare
    }

    /// Whether there is a fact of an id. It takes no memory.
    pub fn has(&self, id: u64) -> bool
        ensures { result ≡ has_id id self.now.facts }
    {
        match search(self.blocks.used_blocks(), id) {
            Ok(_) => true,
            Err(_) => false,
        }
    }

    /// The fact of an id. It takes no memory.
    pub fn get(&self, id: u64) -> Option<Fact>
        ensures { result ≡ fact_of id self.now.facts }
    {
        match search(self.blocks.used_blocks(), id) {
            Ok(place) => Some(fact_at(self.blocks.used_blocks(), place)),
            Err(_) => None,
        }
    }

    /// The fact at a place in the order, from 0: None exactly from the number of facts on. It takes no memory.
    pub fn nth(&self, i: u64) -> Option<Fact>
        ensures { result ≡ slice_get self.now.facts i }
    {
        self.blocks.nth(i)
    }

    /// The facts in order. It takes no memory.
    pub fn iter(&self) -> FactWalk<'_>
        ensures { facts_left result ≡ self.now.facts }
    {
        FactWalk::new(self.blocks.used_blocks())
    }

    /// Puts a fact in, in the place of the one with its id if there is one, which is handed back. Where there is none,
    /// room must have been made first. It takes no memory.
    pub fn put(&mut self, fact: Fact) -> Option<Fact>
        requires { (has_id fact.id self.old.facts || nat_lt 0 self.old.spare) ≡ true }
        ensures facts { self.new.facts ≡ put fact self.old.facts }
        ensures had { result ≡ fact_of fact.id self.old.facts }
        ensures spare { self.old.spare ≤ self.new.spare + 1 }
        ensures kept { IfSome result (λ _. self.old.spare ≤ self.new.spare) }
        ensures ascending { IsAscending self.new.facts }
    {
        match search(self.blocks.used_blocks(), fact.id) {
            Ok(place) => Some(self.blocks.replace(place, fact)),
            Err(place) => {
                self.blocks.insert(place, fact);
                self.count += 1;
                self.spare -= 1;
                None
            }
        }
    }

    /// Takes out the fact of an id, which is handed back. It takes no memory.
    pub fn take(&mut self, id: u64) -> Option<Fact>
        ensures facts { self.new.facts ≡ withdraw id self.old.facts }
        ensures had { result ≡ fact_of id self.old.facts }
        ensures spare { self.old.spare ≤ self.new.spare }
        ensures ascending { IsAscending self.new.facts }
    {
        match search(self.blocks.used_blocks(), id) {
            Ok(place) => {
                let fact = self.blocks.remove(place);
                self.count -= 1;
                Some(fact)
            }
            Err(_) => None,
        }
    }

    /// Makes room for so many more facts. An error leaves the facts and the room as they were; where there is such room
    /// already, there is none.
    pub fn reserve(&mut self, n: u64) -> Result<(), Memory>
        ensures facts { self.new.facts ≡ self.old.facts }
        ensures ok { OnOk result (n ≤ self.new.spare) }
        ensures kept { self.old.spare ≤ self.new.spare }
        ensures err { OnErr result (self.new ≡ self.old) }
        ensures spared { n ≤ self.old.spare → IsOk result }
    {
        if n <= self.spare {
            return Ok(());
        }
        if n > u64::MAX - self.count {
            return Err(Memory);
        }
        if n > self.blocks.stock() as u64 {
            let stock = n.min(n / HALF as u64 + load(self.blocks.used_blocks()) / HALF as u64 + 2);
            self.blocks.reserve(stock as usize)?;
        }
        self.spare = n;
        Ok(())
    }
}
