//! The lengths of lists that stand one after another.
ghost use Rattle.std.specs.Prelude.{◌≡◌, ◌+◌, ◌^◌, ◌<◌, ◌≤◌, [], ◌++◌, Some, length, take, drop, sum, slice_get, insert, remove, IfOk, IfSome};
ghost use Rattle.fact_records.specs.ShortLists.{IsLengthOfAll};

use crate::block::BLOCK;
use crate::in_room::insert_in_room;
use crate::moves;
use std::alloc::{AllocError, Global};
use std::marker::Model;

/// The lengths of lists, with room for as many as a block has facts. Where all are equal, as those of regions are, it is known at once
/// where a list begins. Contracts see the lengths.
#[derive(Drop)]
pub(crate) struct Lengths {
    each: Vec<u8>,
    /// What each of them is; None also where they have differed.
    all: Option<u8>,
}

impl Model for Lengths {
    ghost use Rattle.std.specs.Prelude.{ℕ, ◌≤◌, List};
    ghost use Rattle.std.specs.Vec.{vec_capacity};
    ghost use Rattle.fact_records.specs.ShortLists.{IsLengthOfAll};
    ghost use Rattle.fact_records.specs.declared.block.TheConstants.{BLOCK};

    ghost Value = { List ℕ };

    ghost view = { λ l. l.each.items };

    ghost invariant = { λ l. (BLOCK ≤ vec_capacity l.each) × IsLengthOfAll l.all l.each.items };
}

impl Lengths {
    /// No length.
    pub(crate) fn new(alloc: Global) -> Result<Self, AllocError>
        ensures { IfOk result (λ lengths. lengths ≡ []) }
    {
        Ok(Lengths {
            each: Vec::with_capacity(alloc, BLOCK)?,
            all: None,
        })
    }

    /// The length of the list at a place.
    pub(crate) fn get(&self, at: usize) -> usize
        requires { at < length self.now }
        ensures { slice_get self.now at ≡ Some result }
    {
        usize::from(self.each[at])
    }

    /// Where the list at a place begins: behind those before it.
    pub(crate) fn begin(&self, at: usize) -> usize
        requires place { at ≤ length self.now }
        requires fits { sum self.now < 2 ^ 64 }
        ensures { result ≡ sum (take at self.now) }
    {
        match self.all {
            Some(all) => at * usize::from(all),
            None => sum_of(&self.each[..at]),
        }
    }

    /// Puts a length in at a place.
    pub(crate) fn insert(&mut self, at: usize, count: u8)
        requires place { at ≤ length self.old }
        requires room { length self.old < BLOCK }
        ensures { self.new ≡ insert self.old at count }
    {
        self.all = self.all_with(Some(count));
        insert_in_room(&mut self.each, at, count);
    }

    /// Takes out the length at a place.
    pub(crate) fn remove(&mut self, at: usize)
        requires { at < length self.old }
        ensures { self.new ≡ remove self.old at }
    {
        self.each.remove(at);
    }

    /// Moves the lengths from a place on to the front of the next ones.
    pub(crate) fn give_end(&mut self, from: usize, next: &mut Lengths)
        requires place { from ≤ length self.old }
        requires room { length self.old + length next.old ≤ from + BLOCK }
        ensures front { self.new ≡ take from self.old }
        ensures back { next.new ≡ drop from self.old ++ next.old }
    {
        next.all = next.all_with(self.all);
        moves::give_end(&mut self.each, from, &mut next.each);
    }

    /// Moves so many lengths from the front of the next ones after these.
    pub(crate) fn take_front(&mut self, count: usize, next: &mut Lengths)
        requires place { count ≤ length next.old }
        requires room { length self.old + count ≤ BLOCK }
        ensures front { self.new ≡ self.old ++ take count next.old }
        ensures back { next.new ≡ drop count next.old }
    {
        self.all = self.all_with(next.all);
        moves::take_front(&mut self.each, count, &mut next.each);
    }

    /// What each of these is and of more that are each given, if that is one length.
    fn all_with(&self, given: Option<u8>) -> Option<u8>
        ensures these { IsLengthOfAll result self.now }
        ensures given { IfSome result (λ n. given ≡ Some n) }
    {
        if self.each.is_empty() || self.all == given {
            return given;
        }
        None
    }
}

/// The sum of lengths.
fn sum_of(lengths: &[u8]) -> usize
    requires { sum lengths.now < 2 ^ 64 }
    ensures { result ≡ sum lengths.now }
{
    lengths.iter().map(|length| usize::from(*length)).sum()
}
