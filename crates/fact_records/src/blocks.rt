//! Blocks of facts one after another, and blocks in stock for facts to come.
ghost use Rattle.std.specs.Prelude.{◌≡◌, ◌+◌, ◌*◌, ◌^◌, ◌<◌, ◌≤◌, [], Some, IfSome, length, take, drop, slice_get, slice_set, insert, remove, All, OnOk, true};
ghost use Rattle.std.specs.Vec.{vec_capacity, vec_len};
ghost use Rattle.fact_records.specs.BlockList.{AllFilled, IsAtPlace, IsPlace, all_facts, block_at, load, place_in_all, spare_of};
ghost use Rattle.fact_records.specs.Joining.{IsJoined, are_sparse, joined_blocks};
ghost use Rattle.fact_records.specs.Leveling.{IsPairWithRoom, IsPlaceInPair, is_roomy, leveled};
ghost use Rattle.fact_records.specs.Room.{MakesRoom};

use crate::block::{BLOCK, Block};
use crate::in_room::{insert_in_room, push_in_room};
use crate::level::level_at;
use crate::search::{Place, nth};
use crate::starts::{count_all, lower, raise, start_behind};
use cube_model::Fact;
use std::alloc::{AllocError, Global};
use std::marker::Model;

/// What goes to either side where a full block is split.
pub(crate) const HALF: usize = 512;

/// A block with no more facts than this takes some from a full one next to it, which is then not split.
pub(crate) const ROOMY: usize = 896;

/// Blocks in use, in order, and empty ones in stock. Putting facts in and taking them out takes no memory and gives none back.
/// Contracts see the blocks in use and how many there are in stock.
#[derive(Drop)]
pub(crate) struct Blocks {
    alloc: Global,
    used: Vec<Block>,
    // For each block in use the number of facts before it.
    starts: Vec<u64>,
    stock: Vec<Block>,
}

impl Model for Blocks {
    ghost use Rattle.std.specs.Vec.{vec_len, vec_capacity};
    ghost use Rattle.fact_records.specs.BlockList.{BlockList};
    ghost use Rattle.fact_records.specs.Stocked.{AreStocked};

    ghost Value = { BlockList };

    ghost view = { λ b. record { used = b.used.items; stock = vec_len b.stock } };

    ghost invariant = { λ b. AreStocked b.used.items (vec_len b.used) (vec_capacity b.used) b.starts.items (vec_capacity b.starts) b.stock.items (vec_capacity b.stock) };
}

impl Blocks {
    /// No blocks.
    pub(crate) fn new(alloc: Global) -> Self
        ensures { result ≡ record { used = []; stock = 0 } }
    {
        Blocks {
            alloc,
            used: Vec::new(alloc),
            starts: Vec::new(alloc),
            stock: Vec::new(alloc),
        }
    }

    /// The blocks in use.
    pub(crate) fn used_blocks(&self) -> &[Block]
        ensures { result.now ≡ self.now.used }
    {
        self.used.as_slice()
    }

    /// The number of blocks in stock.
    pub(crate) fn stock(&self) -> usize
        ensures { result ≡ self.now.stock }
    {
        self.stock.len()
    }

    /// The fact at a place among all: None exactly from their number on.
    pub(crate) fn nth(&self, i: u64) -> Option<Fact>
        requires { AllFilled self.now.used }
        ensures { result ≡ slice_get (all_facts self.now.used) i }
    {
        nth(&self.used, &self.starts, i)
    }

    /// The number of facts of a block.
    fn len_of(&self, block: usize) -> usize
        requires { block < length self.now.used }
        ensures count { result ≡ length (block_at self.now.used block) }
        ensures most { result < 2 ^ 63 }
    {
        self.used[block].len()
    }

    /// Writes a fact over the one at a place, which it hands back.
    pub(crate) fn replace(&mut self, place: Place, fact: Fact) -> Fact
        requires place { IsAtPlace self.old.used place.block place.at }
        requires filled { AllFilled self.old.used }
        ensures had { slice_get (all_facts self.old.used) (place_in_all self.old.used place.block place.at) ≡ Some result }
        ensures facts { all_facts self.new.used ≡ slice_set (all_facts self.old.used) (place_in_all self.old.used place.block place.at) fact }
        ensures filled { AllFilled self.new.used }
        ensures spare { spare_of self.old ≤ spare_of self.new }
    {
        self.replace_within(place, fact)
    }

    /// Takes out the fact at a place. Where its block and the one after it or before it have few facts between them,
    /// they become one. A block that is empty goes to the stock.
    pub(crate) fn remove(&mut self, place: Place) -> Fact
        requires place { IsAtPlace self.old.used place.block place.at }
        requires filled { AllFilled self.old.used }
        ensures had { slice_get (all_facts self.old.used) (place_in_all self.old.used place.block place.at) ≡ Some result }
        ensures facts { all_facts self.new.used ≡ remove (all_facts self.old.used) (place_in_all self.old.used place.block place.at) }
        ensures filled { AllFilled self.new.used }
        ensures spare { spare_of self.old ≤ spare_of self.new }
    {
        let fact = self.remove_within(place);
        if self.len_of(place.block) == 0 {
            self.retire(place.block);
        } else {
            self.join_sparse(place.block);
        }
        fact
    }

    /// Joins a block with the one after it or the one before it, where both have few facts.
    fn join_sparse(&mut self, block: usize)
        requires place { block < length self.old.used }
        requires filled { AllFilled self.old.used }
        ensures { IsJoined self.old self.new }
    {
        if self.are_sparse(block) {
            self.join(block);
        } else if block > 0 && self.are_sparse(block - 1) {
            self.join(block - 1);
        }
    }

    /// Whether a block has one after it, and both together have no more facts than a half of a block.
    fn are_sparse(&self, block: usize) -> bool
        requires { block < length self.now.used }
        ensures { result ≡ are_sparse self.now.used block }
    {
        self.used.len() > block + 1 && self.len_of(block) + self.len_of(block + 1) <= HALF
    }

    /// Moves the facts of the block after a block to the end of that block, and gives the other to the stock.
    fn join(&mut self, block: usize)
        requires { are_sparse self.old.used block ≡ true }
        ensures used { self.new.used ≡ joined_blocks self.old.used block }
        ensures stock { self.new.stock ≡ self.old.stock + 1 }
    {
        let mut next = self.used.remove(block + 1);
        self.used[block].append(&mut next);
        self.starts.remove(block + 1);
        push_in_room(&mut self.stock, next);
    }

    /// Puts a fact in at a place. Where its block is full, a block of the stock makes room.
    pub(crate) fn insert(&mut self, place: Place, fact: Fact)
        requires place { IsPlace self.old.used place.block place.at }
        requires filled { AllFilled self.old.used }
        requires spare { 0 < spare_of self.old }
        requires few { length (all_facts self.old.used) + 1 < 2 ^ 64 }
        ensures facts { all_facts self.new.used ≡ insert (all_facts self.old.used) (place_in_all self.old.used place.block place.at) fact }
        ensures filled { AllFilled self.new.used }
        ensures spare { spare_of self.old ≤ spare_of self.new + 1 }
    {
        let place = self.make_room(place);
        self.insert_within(place, fact);
    }

    /// The same place among the facts, in a block that is not full.
    fn make_room(&mut self, place: Place) -> Place
        requires place { IsPlace self.old.used place.block place.at }
        requires filled { AllFilled self.old.used }
        requires stock { 0 < self.old.stock }
        ensures { MakesRoom self.old self.new place.block place.at result.block result.at }
    {
        if self.used_blocks().is_empty() {
            self.add(0);
            return place;
        }
        if self.len_of(place.block) < BLOCK {
            return place;
        }
        if place.at == BLOCK && place.block + 1 == self.used_blocks().len() {
            self.add(place.block + 1);
            return Place {
                block: place.block + 1,
                at: 0,
            };
        }
        match self.pair_with_room(place.block) {
            Some(pair) => self.level_for(place, pair),
            None => self.split_for(place),
        }
    }

    /// The same place where its block and one next to it, of which this is the first, were leveled.
    fn level_for(&mut self, place: Place, pair: usize) -> Place
        requires place { IsPlace self.old.used place.block place.at }
        requires filled { AllFilled self.old.used }
        requires pair { IsPairWithRoom self.old.used place.block pair }
        ensures { MakesRoom self.old self.new place.block place.at result.block result.at }
    {
        let at = self.at_in_pair(place, pair);
        self.level(pair);
        self.place_in_pair(pair, at)
    }

    /// Where a place is in two blocks next to each other.
    fn at_in_pair(&self, place: Place, pair: usize) -> usize
        requires place { IsPlace self.now.used place.block place.at }
        requires filled { AllFilled self.now.used }
        requires pair { IsPairWithRoom self.now.used place.block pair }
        ensures place { place_in_all self.now.used pair result ≡ place_in_all self.now.used place.block place.at }
        ensures within { result ≤ length (block_at self.now.used pair) + length (block_at self.now.used (pair + 1)) }
    {
        if place.block == pair {
            place.at
        } else {
            self.len_of(pair) + place.at
        }
    }

    /// The same place where its full block was split.
    fn split_for(&mut self, place: Place) -> Place
        requires place { IsPlace self.old.used place.block place.at }
        requires filled { AllFilled self.old.used }
        requires full { length (block_at self.old.used place.block) ≡ BLOCK }
        requires stock { 0 < self.old.stock }
        ensures { MakesRoom self.old self.new place.block place.at result.block result.at }
    {
        self.split(place.block);
        self.place_in_pair(place.block, place.at)
    }

    /// A place in a block, or past its end in the one after it.
    fn place_in_pair(&self, first: usize, at: usize) -> Place
        requires { first + 1 < length self.now.used }
        ensures { IsPlaceInPair first (length (block_at self.now.used first)) at result.block result.at }
    {
        let len = self.used[first].len();
        if at <= len {
            Place { block: first, at }
        } else {
            Place {
                block: first + 1,
                at: at - len,
            }
        }
    }

    /// The first of two blocks next to each other, of which one is this full block and the other has room for some facts.
    fn pair_with_room(&self, block: usize) -> Option<usize>
        requires place { block < length self.now.used }
        requires full { length (block_at self.now.used block) ≡ BLOCK }
        ensures { IfSome result (IsPairWithRoom self.now.used block) }
    {
        if self.used.len() > block + 1 && self.has_room(block + 1) {
            Some(block)
        } else if block > 0 && self.has_room(block - 1) {
            Some(block - 1)
        } else {
            None
        }
    }

    /// Whether a block has room for some facts.
    fn has_room(&self, block: usize) -> bool
        requires { block < length self.now.used }
        ensures { result ≡ is_roomy self.now.used block }
    {
        self.len_of(block) <= ROOMY
    }

    /// Levels a block with the one after it.
    fn level(&mut self, block: usize)
        requires place { block + 1 < length self.old.used }
        requires few { length (block_at self.old.used block) + length (block_at self.old.used (block + 1)) ≤ 2 * BLOCK }
        ensures used { self.new.used ≡ leveled self.old.used block }
        ensures stock { self.new.stock ≡ self.old.stock }
    {
        level_at(&mut self.used, block);
        let len = self.used[block].len();
        start_behind(&mut self.starts, block, len as u64);
    }

    /// Puts a fact into a block that is not full.
    fn insert_within(&mut self, place: Place, fact: Fact)
        requires place { place.block < length self.old.used }
        requires within { place.at ≤ length (block_at self.old.used place.block) }
        requires room { length (block_at self.old.used place.block) < BLOCK }
        requires few { length (all_facts self.old.used) + 1 < 2 ^ 64 }
        ensures used { self.new.used ≡ slice_set self.old.used place.block (insert (block_at self.old.used place.block) place.at fact) }
        ensures stock { self.new.stock ≡ self.old.stock }
    {
        self.used[place.block].insert(place.at, fact);
        raise(&mut self.starts, place.block + 1);
    }

    /// Writes a fact over one in its block.
    fn replace_within(&mut self, place: Place, fact: Fact) -> Fact
        requires { IsAtPlace self.old.used place.block place.at }
        ensures had { slice_get (block_at self.old.used place.block) place.at ≡ Some result }
        ensures used { self.new.used ≡ slice_set self.old.used place.block (slice_set (block_at self.old.used place.block) place.at fact) }
        ensures stock { self.new.stock ≡ self.old.stock }
    {
        self.used[place.block].replace(place.at, fact)
    }

    /// Takes a fact out of its block.
    fn remove_within(&mut self, place: Place) -> Fact
        requires { IsAtPlace self.old.used place.block place.at }
        ensures had { slice_get (block_at self.old.used place.block) place.at ≡ Some result }
        ensures used { self.new.used ≡ slice_set self.old.used place.block (remove (block_at self.old.used place.block) place.at) }
        ensures stock { self.new.stock ≡ self.old.stock }
    {
        let fact = self.used[place.block].remove(place.at);
        lower(&mut self.starts, place.block + 1);
        fact
    }

    /// Puts an empty block of the stock after all, which is its place.
    fn add(&mut self, block: usize)
        requires place { block ≡ length self.old.used }
        requires stock { 0 < self.old.stock }
        ensures used { self.new.used ≡ insert self.old.used block [] }
        ensures stock { self.new.stock + 1 ≡ self.old.stock }
    {
        let start = count_all(&self.used, &self.starts);
        let empty = self.stock.pop().unwrap();
        insert_in_room(&mut self.used, block, empty);
        insert_in_room(&mut self.starts, block, start);
    }

    /// Splits a full block in two halves.
    fn split(&mut self, block: usize)
        requires place { block < length self.old.used }
        requires full { length (block_at self.old.used block) ≡ BLOCK }
        requires stock { 0 < self.old.stock }
        ensures used { let full = block_at self.old.used block in
            self.new.used ≡ insert (slice_set self.old.used block (take HALF full)) (block + 1) (drop HALF full) }
        ensures stock { self.new.stock + 1 ≡ self.old.stock }
    {
        let mut end = self.stock.pop().unwrap();
        self.used[block].give_end(HALF, &mut end);
        let start = self.starts[block] + HALF as u64;
        insert_in_room(&mut self.used, block + 1, end);
        insert_in_room(&mut self.starts, block + 1, start);
    }

    /// Gives a block without facts to the stock.
    fn retire(&mut self, block: usize)
        requires place { block < length self.old.used }
        requires empty { block_at self.old.used block ≡ [] }
        ensures used { self.new.used ≡ remove self.old.used block }
        ensures stock { self.new.stock ≡ self.old.stock + 1 }
    {
        let empty = self.used.remove(block);
        self.starts.remove(block);
        push_in_room(&mut self.stock, empty);
    }

    /// Makes the stock at least so large. On an error it may have grown.
    pub(crate) fn reserve(&mut self, stock: usize) -> Result<(), AllocError>
        requires { stock < 2 ^ 62 }
        ensures used { self.new.used ≡ self.old.used }
        ensures ok { OnOk result (stock ≤ self.new.stock) }
        ensures kept { self.old.stock ≤ self.new.stock }
    {
        let alloc = self.alloc;
        if stock <= self.stock.len() {
            return Ok(());
        }
        self.used.reserve(stock)?;
        self.starts.reserve(stock)?;
        self.stock.reserve(self.used.len() + stock)?;
        fill(alloc, &mut self.stock, stock)
    }
}

/// Adds empty blocks up to a number. On an error there may be some.
fn fill(alloc: Global, stock: &mut Vec<Block>, number: usize) -> Result<(), AllocError>
    requires empty { All (λ block. block ≡ []) stock.old.items }
    requires more { vec_len stock.old ≤ number }
    ensures empty { All (λ block. block ≡ []) stock.new.items }
    ensures ok { OnOk result (vec_len stock.new ≡ number) }
    ensures kept { vec_len stock.old ≤ vec_len stock.new }
    ensures most { vec_len stock.new ≤ number }
    ensures capacity { vec_capacity stock.old ≤ vec_capacity stock.new }
{
    for _ in stock.len()..number {
        stock.push(Block::new(alloc)?)?;
    }
    Ok(())
}

/// The load of blocks: what they have above what a split leaves them.
pub(crate) fn load(used: &[Block]) -> u64
    requires { length (all_facts used.now) < 2 ^ 64 }
    ensures { result ≡ load used.now }
{
    let Some((last, others)) = used.split_last() else {
        return HALF as u64;
    };
    let mut load = last.len() as u64;
    for block in others {
        load += block.len().saturating_sub(HALF) as u64;
    }
    load
}
