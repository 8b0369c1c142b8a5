//! A block: a few facts, and the room for a fixed number of them, which is taken once.
ghost use Rattle.std.specs.Prelude.{◌≡◌, ◌+◌, ◌^◌, ◌<◌, ◌≤◌, [], ◌++◌, Some, length, take, drop, slice_get, slice_set, insert, remove, map, IfOk};

use crate::in_room::insert_in_room;
use crate::moves;
use crate::short_lists::ShortLists;
use cube_base::{Cols, MAX_COLS};
use cube_model::{Fact, MAX_DIMS, Region};
use std::alloc::{AllocError, Global};
use std::marker::Model;

/// The most facts of a block.
pub(crate) const BLOCK: usize = 1024;

/// Facts with room for as many as a block has at most, in columns: a search by id reads the ids alone, and a fact takes up what its region
/// and its values have. Contracts see the list of the facts.
#[derive(Drop)]
pub(crate) struct Block {
    ids: Vec<u64>,
    regions: ShortLists<u32, MAX_DIMS>,
    values: ShortLists<i64, MAX_COLS>,
}

impl Model for Block {
    ghost use Rattle.std.specs.Prelude.{List};
    ghost use Rattle.std.specs.Vec.{vec_capacity};
    ghost use Rattle.cube_model.specs.declared.edit.Fact.{Fact};
    ghost use Rattle.fact_records.specs.FactColumns.{AreColumns, facts_of};

    ghost Value = { List Fact };

    ghost view = { λ b. facts_of b.ids.items b.regions b.values };

    ghost invariant = { λ b. AreColumns b.ids.items (vec_capacity b.ids) b.regions b.values };
}

impl Block {
    /// A block without facts.
    pub(crate) fn new(alloc: Global) -> Result<Self, AllocError>
        ensures { IfOk result (λ block. block ≡ []) }
    {
        Ok(Block {
            ids: Vec::with_capacity(alloc, BLOCK)?,
            regions: ShortLists::new(alloc)?,
            values: ShortLists::new(alloc)?,
        })
    }

    /// The number of facts.
    pub(crate) fn len(&self) -> usize
        ensures count { result ≡ length self.now }
        ensures most { length self.now < 2 ^ 63 }
    {
        self.ids().len()
    }

    /// The ids of the facts in order.
    pub(crate) fn ids(&self) -> &[u64]
        ensures { result.now ≡ map (λ f. f.id) self.now }
    {
        self.ids.as_slice()
    }

    /// The fact at a place.
    pub(crate) fn get(&self, at: usize) -> Fact
        requires { at < length self.now }
        ensures { slice_get self.now at ≡ Some result }
    {
        Fact {
            id: self.ids[at],
            region: Region::new(self.regions.get(at)).unwrap(),
            cols: Cols::new(self.values.get(at)).unwrap(),
        }
    }

    /// Puts a fact in at a place.
    pub(crate) fn insert(&mut self, at: usize, fact: Fact)
        requires place { at ≤ length self.old }
        requires room { length self.old < BLOCK }
        ensures { self.new ≡ insert self.old at fact }
    {
        self.regions.insert(at, fact.region.nodes());
        self.values.insert(at, fact.cols.as_slice());
        insert_in_room(&mut self.ids, at, fact.id);
    }

    /// Writes a fact over the one at a place, which it hands back.
    pub(crate) fn replace(&mut self, at: usize, fact: Fact) -> Fact
        requires { at < length self.old }
        ensures had { slice_get self.old at ≡ Some result }
        ensures facts { self.new ≡ slice_set self.old at fact }
    {
        let old = self.get(at);
        self.ids[at] = fact.id;
        self.regions.replace(at, fact.region.nodes());
        self.values.replace(at, fact.cols.as_slice());
        old
    }

    /// Takes out the fact at a place.
    pub(crate) fn remove(&mut self, at: usize) -> Fact
        requires { at < length self.old }
        ensures had { slice_get self.old at ≡ Some result }
        ensures facts { self.new ≡ remove self.old at }
    {
        let old = self.get(at);
        self.ids.remove(at);
        self.regions.remove(at);
        self.values.remove(at);
        old
    }

    /// Moves the facts from a place on to the front of the next block.
    pub(crate) fn give_end(&mut self, from: usize, next: &mut Block)
        requires place { from ≤ length self.old }
        requires room { length self.old + length next.old ≤ from + BLOCK }
        ensures front { self.new ≡ take from self.old }
        ensures back { next.new ≡ drop from self.old ++ next.old }
    {
        moves::give_end(&mut self.ids, from, &mut next.ids);
        self.regions.give_end(from, &mut next.regions);
        self.values.give_end(from, &mut next.values);
    }

    /// Moves so many facts from the front of the next block after these.
    pub(crate) fn take_front(&mut self, count: usize, next: &mut Block)
        requires place { count ≤ length next.old }
        requires room { length self.old + count ≤ BLOCK }
        ensures front { self.new ≡ self.old ++ take count next.old }
        ensures back { next.new ≡ drop count next.old }
    {
        moves::take_front(&mut self.ids, count, &mut next.ids);
        self.regions.take_front(count, &mut next.regions);
        self.values.take_front(count, &mut next.values);
    }

    /// Moves all facts of another block after these.
    pub(crate) fn append(&mut self, other: &mut Block)
        requires { length self.old + length other.old ≤ BLOCK }
        ensures facts { self.new ≡ self.old ++ other.old }
        ensures emptied { other.new ≡ [] }
    {
        self.take_front(other.len(), other);
    }
}
