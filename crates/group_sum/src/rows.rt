//! Terms in two flat lists: their denominators, and row after row their numerators.
ghost use Rattle.std.specs.Prelude.{◌≡◌, ◌+◌, ◌-◌, ◌*◌, ◌<◌, ◌≤◌, Some, [], ◌++◌, length, IfOk, IfErr, OnOk, OnErr, pos, replicate, slice_set};
ghost use Rattle.std.specs.List.{insert, remove};
ghost use Rattle.cube_model.specs.Limits.{WIDE};
ghost use Rattle.group_sum.specs.Heads.{AreWithin, IsTermOf, IsTotal, remainder_in, total_in};
ghost use Rattle.group_sum.specs.Place.{Ascend, IsAt, IsGapFor, term_at};
ghost use Rattle.group_sum.specs.Rows.{IsRow, row_of, row_term};
ghost use Rattle.group_sum.specs.Share.{RaisesTerm, TermFits, bare_term};

use crate::row::{add_up, raise, take_away};
use cube_base::{Cols, Memory};
use std::alloc::Global;
use std::marker::Model;

/// For so many terms more a copy has room.
const SPARE: usize = 2;

/// Terms in any order, with room for a number of numerators each, that of the count included. Contracts see the number
/// of columns and the list of terms.
#[derive(Debug, Drop)]
pub struct Rows {
    columns: u32,
    dens: Vec<u64>,
    nums: Vec<i128>,
}

impl Model for Rows {
    ghost use Rattle.group_sum.specs.Terms.{TermList};
    ghost use Rattle.group_sum.specs.Rows.{IsFlat, row_terms};

    ghost Value = { TermList };

    ghost view = { λ r. record { columns = r.columns; terms = row_terms r.columns r.dens.items r.nums.items } };

    ghost invariant = { λ r. IsFlat r.columns (row_terms r.columns r.dens.items r.nums.items) r.dens.items r.nums.items };
}

impl Rows {
    /// No terms, over a number of columns.
    pub fn new(alloc: Global, columns: u32) -> Self
        requires { 1 ≤ columns }
        ensures { result ≡ record { columns = columns; terms = [] } }
    {
        Rows {
            columns,
            dens: Vec::new(alloc),
            nums: Vec::new(alloc),
        }
    }

    /// No terms, over a number of columns, with room for so many.
    pub fn with_room(alloc: Global, columns: u32, len: usize) -> Result<Self, Memory>
        requires { 1 ≤ columns }
        ensures { IfOk result (λ rows. rows ≡ record { columns = columns; terms = [] }) }
    {
        Ok(Rows {
            columns,
            dens: Vec::with_capacity(alloc, len)?,
            nums: Vec::with_capacity(alloc, len.saturating_mul(columns as usize))?,
        })
    }

    /// Equal terms, with room for some more: what copies terms most often adds one.
    pub fn duplicate(&self, alloc: Global) -> Result<Self, Memory>
        ensures { IfOk result (λ rows. rows ≡ self.now) }
    {
        let columns = self.columns as usize;
        Ok(Rows {
            columns: self.columns,
            dens: copy_with_room(alloc, &self.dens, SPARE)?,
            nums: copy_with_room(alloc, &self.nums, columns.saturating_mul(SPARE))?,
        })
    }

    /// The number of columns, the count included.
    pub fn columns(&self) -> u32
        ensures columns { result ≡ self.now.columns }
        ensures some { 1 ≤ self.now.columns }
    {
        self.columns
    }

    /// The number of terms.
    pub fn len(&self) -> usize
        ensures { result ≡ length self.now.terms }
    {
        self.dens.len()
    }

    /// The denominator of the term at a place.
    pub fn den(&self, at: usize) -> u64
        requires { at < length self.now.terms }
        ensures { result ≡ (term_at self.now.terms at).den }
    {
        self.dens[at]
    }

    /// The numerators of the term at a place, that of the count first.
    pub fn row(&self, at: usize) -> &[i128]
        requires { at < length self.now.terms }
        ensures row { result.now ≡ row_of (term_at self.now.terms at) }
        ensures len { length result.now ≡ self.now.columns }
    {
        let from = start(self.columns, &self.nums, at);
        &self.nums[from..from + self.columns as usize]
    }

    /// Where the term of a denominator is, or where it would go. The denominators ascend strictly.
    pub fn search(&self, den: u64) -> Result<usize, usize>
        requires { Ascend self.now.terms }
        ensures found { IfOk result (IsAt self.now.terms den) }
        ensures absent { IfErr result (IsGapFor self.now.terms den) }
    {
        // Most shares are whole, and the term of these is the first.
        if !self.dens.is_empty() && self.dens[0] == den {
            return Ok(0);
        }
        self.dens.binary_search(&den)
    }

    /// Adds units to the count of the term at a place, and the weight times each value to its sum.
    pub fn raise(&mut self, at: usize, units: u128, weight: u64, cols: Cols)
        requires place { at < length self.old.terms }
        requires within { TermFits (term_at self.old.terms at) units weight cols }
        ensures only { self.new ≡ record { columns = self.old.columns; terms = slice_set self.old.terms at (term_at self.new.terms at) } }
        ensures raised { RaisesTerm (term_at self.old.terms at) (term_at self.new.terms at) units weight cols }
    {
        let from = start(self.columns, &self.nums, at);
        raise(
            &mut self.nums[from..from + self.columns as usize],
            units,
            weight,
            cols,
        );
    }

    /// Adds the numerators of a row to those of the term at a place.
    pub fn add_row(&mut self, at: usize, row: &[i128])
        requires place { at < length self.old.terms }
        requires columns { length row.now ≡ self.old.columns }
        requires row { IsRow row.now }
        requires count { (term_at self.old.terms at).count + (row_term 0 row.now).count ≤ WIDE }
        requires sums { AreWithin (self.old.columns - 1) (total_in (Some (term_at self.old.terms at)) (Some (row_term 0 row.now))) }
        ensures only { self.new ≡ record { columns = self.old.columns; terms = slice_set self.old.terms at (term_at self.new.terms at) } }
        ensures total { IsTotal (term_at self.old.terms at) (row_term 0 row.now) (term_at self.new.terms at) }
    {
        let from = start(self.columns, &self.nums, at);
        add_up(&mut self.nums[from..from + self.columns as usize], row);
    }

    /// Takes the numerators of a row from those of the term at a place.
    pub fn take_row(&mut self, at: usize, row: &[i128])
        requires place { at < length self.old.terms }
        requires columns { length row.now ≡ self.old.columns }
        requires row { IsRow row.now }
        requires count { (row_term 0 row.now).count ≤ (term_at self.old.terms at).count }
        requires most { (term_at self.old.terms at).count ≤ WIDE }
        requires sums { AreWithin (self.old.columns - 1) (remainder_in (Some (term_at self.old.terms at)) (Some (row_term 0 row.now))) }
        ensures only { self.new ≡ record { columns = self.old.columns; terms = slice_set self.old.terms at (term_at self.new.terms at) } }
        ensures left { IsTermOf (term_at self.old.terms at).den (self.old.columns - 1)
            ((term_at self.old.terms at).count - (row_term 0 row.now).count)
            (remainder_in (Some (term_at self.old.terms at)) (Some (row_term 0 row.now))) (term_at self.new.terms at) }
    {
        let from = start(self.columns, &self.nums, at);
        take_away(&mut self.nums[from..from + self.columns as usize], row);
    }

    /// Writes a term over the one at a place.
    pub fn write(&mut self, at: usize, den: u64, row: &[i128])
        requires place { at < length self.old.terms }
        requires columns { length row.now ≡ self.old.columns }
        requires row { IsRow row.now }
        ensures { self.new ≡ record { columns = self.old.columns; terms = slice_set self.old.terms at (row_term den row.now) } }
    {
        let from = start(self.columns, &self.nums, at);
        self.dens[at] = den;
        self.nums[from..from + self.columns as usize].copy_from_slice(row);
    }

    /// Writes the term at a place over the one at another.
    pub fn copy(&mut self, at: usize, to: usize)
        requires at { at < length self.old.terms }
        requires to { to < length self.old.terms }
        ensures { self.new ≡ record { columns = self.old.columns; terms = slice_set self.old.terms to (term_at self.old.terms at) } }
    {
        let from = start(self.columns, &self.nums, at);
        let dest = start(self.columns, &self.nums, to);
        self.dens[to] = self.dens[at];
        self.nums
            .copy_within(from..from + self.columns as usize, dest);
    }

    /// Removes the term at a place, and moves those behind it there.
    pub fn remove(&mut self, at: usize)
        requires { at < length self.old.terms }
        ensures { self.new ≡ record { columns = self.old.columns; terms = remove self.old.terms at } }
    {
        let columns = self.columns as usize;
        let from = start(self.columns, &self.nums, at);
        let len = self.nums.len();
        self.nums.copy_within(from + columns..len, from);
        self.nums.truncate(len - columns);
        self.dens.remove(at);
    }

    /// Appends so many terms that have no share yet. An error leaves the terms as they were.
    pub fn grow(&mut self, more: usize) -> Result<(), Memory>
        ensures ok { OnOk result (self.new ≡ record {
          columns = self.old.columns;
          terms = self.old.terms ++ replicate more (bare_term 0 (self.old.columns - 1));
        }) }
        ensures err { OnErr result (self.new ≡ self.old) }
    {
        let kept = self.dens.len();
        let dens = kept.checked_add(more).ok_or(Memory)?;
        let nums = dens.checked_mul(self.columns as usize).ok_or(Memory)?;
        self.dens.resize(dens, 0)?;
        if self.nums.resize(nums, 0).is_err() {
            self.dens.truncate(kept);
            return Err(Memory);
        }
        Ok(())
    }

    /// Puts a term that has no share yet to a place, and those from the place on after it. An error leaves the terms as
    /// they were.
    pub fn insert_bare(&mut self, at: usize, den: u64) -> Result<(), Memory>
        requires { at ≤ length self.old.terms }
        ensures ok { OnOk result (self.new ≡ record {
          columns = self.old.columns;
          terms = insert self.old.terms at (bare_term den (self.old.columns - 1));
        }) }
        ensures err { OnErr result (self.new ≡ self.old) }
    {
        let columns = self.columns as usize;
        let len = self.nums.len();
        self.nums.resize(len + columns, 0)?;
        if self.dens.insert(at, den).is_err() {
            self.nums.truncate(len);
            return Err(Memory);
        }
        let from = start(self.columns, &self.nums, at);
        self.nums.copy_within(from..len, from + columns);
        clear(&mut self.nums[from..from + columns]);
        Ok(())
    }
}

// The same items, with room for so many more.
fn copy_with_room<T: Copy>(alloc: Global, items: &[T], more: usize) -> Result<Vec<T>, Memory>
    ensures { IfOk result (λ list. list.items ≡ items.now) }
{
    let mut list = Vec::with_capacity(alloc, items.len().saturating_add(more))?;
    list.extend_from_slice(items)?;
    Ok(list)
}

// Makes each numerator 0.
fn clear(row: &mut [i128])
    ensures { row.new ≡ replicate (length row.old) (pos 0) }
{
    row.fill(0);
}

// Where the row at a place starts.
fn start(columns: u32, nums: &[i128], at: usize) -> usize
    requires { at * columns + columns ≤ length nums.now }
    ensures start { result ≡ at * columns }
    ensures end { result + columns ≤ length nums.now }
{
    at * columns as usize
}
