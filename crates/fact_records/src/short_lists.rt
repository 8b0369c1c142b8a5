//! Lists of a few items each, in the size of their data.
ghost use Rattle.std.specs.Prelude.{◌≡◌, ◌+◌, ◌<◌, ◌≤◌, [], ◌++◌, Some, length, take, drop, slice_get, slice_set, insert, remove, IfOk, IfSome};

use crate::block::BLOCK;
use crate::lengths::Lengths;
use crate::moves;
use std::alloc::{AllocError, Global};
use std::marker::Model;

/// Lists of at most `MOST` items each, one after another in one list of items, with room for as many as a block has facts. Contracts
/// see the list of the lists.
#[derive(Drop)]
pub(crate) struct ShortLists<T, const MOST: usize> {
    items: Vec<T>,
    lengths: Lengths,
}

impl<T, const MOST: usize> Model for ShortLists<T, MOST> {
    ghost use Rattle.std.specs.Prelude.{List, length};
    ghost use Rattle.std.specs.Vec.{vec_capacity};
    ghost use Rattle.fact_records.specs.ShortLists.{IsLaidOut, lists_of};

    ghost Value = { List (List T) };

    ghost view = { λ l. lists_of l.lengths l.items.items };

    ghost invariant = { λ l. IsLaidOut MOST l.lengths (length l.items.items) (vec_capacity l.items) };
}

impl<T: Copy, const MOST: usize> ShortLists<T, MOST> {
    /// No list.
    pub(crate) fn new(alloc: Global) -> Result<Self, AllocError>
        requires { MOST ≤ 255 }
        ensures { IfOk result (λ lists. lists ≡ []) }
    {
        Ok(ShortLists {
            items: Vec::with_capacity(alloc, BLOCK * MOST)?,
            lengths: Lengths::new(alloc)?,
        })
    }

    /// The list at a place.
    pub(crate) fn get(&self, at: usize) -> &[T]
        requires { at < length self.now }
        ensures list { slice_get self.now at ≡ Some result.now }
        ensures short { length result.now ≤ MOST }
    {
        let begin = self.lengths.begin(at);
        &self.items[begin..begin + self.lengths.get(at)]
    }

    /// Puts a list in at a place.
    pub(crate) fn insert(&mut self, at: usize, list: &[T])
        requires place { at ≤ length self.old }
        requires room { length self.old < BLOCK }
        requires short { length list.now ≤ MOST }
        ensures { self.new ≡ insert self.old at list.now }
    {
        let begin = self.lengths.begin(at);
        moves::put_in(&mut self.items, begin, list);
        self.lengths.insert(at, list.len() as u8);
    }

    /// Takes out the list at a place.
    pub(crate) fn remove(&mut self, at: usize)
        requires { at < length self.old }
        ensures lists { self.new ≡ remove self.old at }
        ensures room { length self.new < BLOCK }
    {
        let begin = self.lengths.begin(at);
        moves::take_out(&mut self.items, begin, self.lengths.get(at));
        self.lengths.remove(at);
    }

    /// Writes a list over the one at a place.
    pub(crate) fn replace(&mut self, at: usize, list: &[T])
        requires place { at < length self.old }
        requires short { length list.now ≤ MOST }
        ensures { self.new ≡ slice_set self.old at list.now }
    {
        if self.get(at).len() == list.len() {
            self.overwrite(at, list);
        } else {
            self.remove(at);
            self.insert(at, list);
        }
    }

    /// The same where both have as many items: no other one is moved.
    fn overwrite(&mut self, at: usize, list: &[T])
        requires place { at < length self.old }
        requires alike { IfSome (slice_get self.old at) (λ old. length old ≡ length list.now) }
        ensures { self.new ≡ slice_set self.old at list.now }
    {
        let begin = self.lengths.begin(at);
        let _ = self.lengths.get(at);
        moves::write_over(&mut self.items, begin, list);
    }

    /// Moves the lists from a place on to the front of the next ones.
    pub(crate) fn give_end(&mut self, from: usize, next: &mut ShortLists<T, MOST>)
        requires place { from ≤ length self.old }
        requires room { length self.old + length next.old ≤ from + BLOCK }
        ensures front { self.new ≡ take from self.old }
        ensures back { next.new ≡ drop from self.old ++ next.old }
    {
        let begin = self.lengths.begin(from);
        moves::give_end(&mut self.items, begin, &mut next.items);
        self.lengths.give_end(from, &mut next.lengths);
    }

    /// Moves so many lists from the front of the next ones after these.
    pub(crate) fn take_front(&mut self, count: usize, next: &mut ShortLists<T, MOST>)
        requires place { count ≤ length next.old }
        requires room { length self.old + count ≤ BLOCK }
        ensures front { self.new ≡ self.old ++ take count next.old }
        ensures back { next.new ≡ drop count next.old }
    {
        let begin = next.lengths.begin(count);
        moves::take_front(&mut self.items, begin, &mut next.items);
        self.lengths.take_front(count, &mut next.lengths);
    }
}
