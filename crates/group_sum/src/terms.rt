//! Sums grouped by denominator.
ghost use Rattle.std.specs.Prelude.{◌≡◌, ◌+◌, ◌-◌, ◌<◌, ◌≤◌, [], length, slice_get, Some, OnOk, OnErr, IfOk, IfErr, ◌∷◌, slice_index_or, pos};
ghost use Rattle.std.specs.Option.{option_map};
ghost use Rattle.cube_model.specs.Answer.{count_of, merge, numerator_of};
ghost use Rattle.group_sum.specs.Terms.{AddsShare, AddsUnits, AreTerms, FitsShare, FitsUnits, NeedsTerm};
ghost use Rattle.group_sum.specs.Place.{IsAt, IsGapFor};
ghost use Rattle.group_sum.specs.Merge.{FitsDifference, FitsMerge, HasDifference, IsDifference, IsDifferenceFault};

use crate::difference::{SubFault, subtract};
use crate::merge::{count_missing, merge};
use crate::rows::Rows;
use cube_base::{Cols, MAX_COLS, Memory, PlainList};
use cube_model::Region;
use std::alloc::Global;
use std::marker::Model;

/// The most columns of an answer, the count included.
pub const MAX_COLUMNS: u32 = MAX_COLS as u32 + 1;

/// Regions, each with the terms of an answer.
pub type ViewList = PlainList<(Region, Terms)>;

/// The terms of an answer, ascending by denominator. A term has a numerator for the count, which is column 0 and
/// at least 1, and one for each further column; none passes 2^120 in absolute value. Contracts see the number of
/// columns and the list of terms.
#[derive(Debug, Drop)]
pub struct Terms {
    alloc: Global,
    rows: Rows,
}

impl Model for Terms {
    ghost use Rattle.group_sum.specs.Terms.{AreTerms, TermList};

    ghost Value = { TermList };

    ghost view = { λ t. t.rows };

    ghost invariant = { λ t. AreTerms t.rows };
}

impl Terms {
    /// No terms, over a number of columns, the count included.
    pub fn empty(alloc: Global, columns: u32) -> Self
        requires some { 1 ≤ columns }
        requires most { columns ≤ MAX_COLUMNS }
        ensures { result ≡ record { columns = columns; terms = [] } }
    {
        Terms {
            alloc,
            rows: Rows::new(alloc, columns),
        }
    }

    /// No terms, with room for so many: up to these, adding a share takes no memory.
    pub fn with_room(alloc: Global, columns: u32, len: usize) -> Result<Self, Memory>
        requires some { 1 ≤ columns }
        requires most { columns ≤ MAX_COLUMNS }
        ensures { IfOk result (λ terms. terms ≡ record { columns = columns; terms = [] }) }
    {
        Ok(Terms {
            alloc,
            rows: Rows::with_room(alloc, columns, len)?,
        })
    }

    /// Equal terms.
    pub fn copy(&self) -> Result<Self, Memory>
        ensures copy { IfOk result (λ terms. terms ≡ self.now) }
        ensures terms { IfOk result AreTerms }
    {
        Ok(Terms {
            alloc: self.alloc,
            rows: self.rows.duplicate(self.alloc)?,
        })
    }

    /// The number of columns, the count included.
    pub fn columns(&self) -> u32
        ensures columns { result ≡ self.now.columns }
        ensures terms { AreTerms self.now }
    {
        self.rows.columns()
    }

    /// The number of terms.
    pub fn len(&self) -> u64
        ensures count { result ≡ length self.now.terms }
        ensures terms { AreTerms self.now }
    {
        self.rows.len() as u64
    }

    /// The denominator of the term at a place, from 0.
    pub fn den_at(&self, i: u64) -> u64
        requires { i < length self.now.terms }
        ensures { option_map (λ t. t.den) (slice_get self.now.terms i) ≡ Some result }
    {
        self.rows.den(i as usize)
    }

    /// The numerator of a column of the term at a place, from 0.
    pub fn num_at(&self, i: u64, col: u32) -> i128
        requires place { i < length self.now.terms }
        requires column { col < self.now.columns }
        ensures { option_map (λ t. slice_index_or (pos t.count ∷ t.sums) col (pos 0)) (slice_get self.now.terms i) ≡ Some result }
    {
        self.rows.row(i as usize)[col as usize]
    }

    /// The numerator of the count at a denominator: 0 where there is no term.
    pub fn count_num(&self, den: u64) -> i128
        ensures { result ≡ pos (count_of self.now.terms den) }
    {
        match self.search(den) {
            Ok(at) => self.rows.row(at)[0],
            Err(_) => 0,
        }
    }

    /// The numerator of a column at a denominator: 0 where there is no term.
    pub fn num(&self, den: u64, col: u32) -> i128
        requires { col < self.now.columns }
        ensures { result ≡ numerator_of self.now.terms den col }
    {
        match self.search(den) {
            Ok(at) => self.rows.row(at)[col as usize],
            Err(_) => 0,
        }
    }

    /// Adds a share at a denominator: `weight` to the count, and `weight` times each value to the other columns.
    /// Weight 0 changes nothing. Memory is taken for a new term alone. An error leaves the terms as they were.
    ///
    /// The denominator is at least 1, there is a value for each of the other columns, and with the share added no numerator
    /// at the denominator passes 2^120 in absolute value.
    pub fn add_term(&mut self, den: u64, weight: u64, cols: Cols) -> Result<(), Memory>
        requires den { 1 ≤ den }
        requires columns { length cols + 1 ≡ self.old.columns }
        requires within { FitsShare self.old.terms den weight cols }
        ensures ok { OnOk result (AddsShare self.old self.new den weight cols) }
        ensures err { OnErr result (self.new ≡ self.old) }
        ensures memory { OnErr result (NeedsTerm self.old.terms den weight) }
        ensures terms { AreTerms self.new }
    {
        self.add_units(den, u128::from(weight), weight, cols)
    }

    /// Adds a share that several facts have together: `units` to the count at a denominator, and `weight` times each value,
    /// which is that of all of them, to the other columns. Each of the facts has the weight, so there are as many units at
    /// least. 0 units change nothing. Memory is taken for a new term alone. An error leaves the terms as they were.
    ///
    /// The denominator is at least 1, there is a value for each of the other columns, and with the share added no numerator
    /// at the denominator passes 2^120 in absolute value.
    pub fn add_units(
        &mut self,
        den: u64,
        units: u128,
        weight: u64,
        cols: Cols,
    ) -> Result<(), Memory>
        requires den { 1 ≤ den }
        requires columns { length cols + 1 ≡ self.old.columns }
        requires least { weight ≤ units }
        requires within { FitsUnits self.old.terms den units weight cols }
        ensures ok { OnOk result (AddsUnits self.old self.new den units weight cols) }
        ensures err { OnErr result (self.new ≡ self.old) }
        ensures memory { OnErr result (NeedsTerm self.old.terms den units) }
        ensures terms { AreTerms self.new }
    {
        let place = self.search(den);
        if units == 0 {
            return Ok(());
        }
        match place {
            Ok(at) => {
                self.rows.raise(at, units, weight, cols);
                Ok(())
            }
            Err(at) => {
                self.rows.insert_bare(at, den)?;
                self.rows.raise(at, units, weight, cols);
                Ok(())
            }
        }
    }

    /// Merges the terms of both, numerators of equal denominators added up. An error leaves the terms as they were.
    ///
    /// Both have the same number of columns, and added up no numerators pass 2^120 in absolute value.
    pub fn add(&mut self, other: &Terms) -> Result<(), Memory>
        requires columns { self.old.columns ≡ other.now.columns }
        requires within { FitsMerge self.old other.now }
        ensures ok { OnOk result (self.new ≡ record {
          columns = self.old.columns;
          terms = merge (self.old.columns - 1) self.old.terms other.now.terms;
        }) }
        ensures err { OnErr result (self.new ≡ self.old) }
        ensures terms { AreTerms self.new }
    {
        let own = self.rows.len();
        self.rows.grow(count_missing(&self.rows, &other.rows))?;
        merge(&mut self.rows, own, &other.rows);
        Ok(())
    }

    /// The terms that merged with `other` give these. `Less` names the smallest denominator at which the difference
    /// has a count below 0, or a count of 0 beside another numerator; where there is one no memory is taken.
    ///
    /// Both have the same number of columns, and no numerator of the difference passes 2^120 in absolute value.
    pub fn sub(&self, other: &Terms) -> Result<Terms, SubFault>
        requires columns { self.now.columns ≡ other.now.columns }
        requires within { FitsDifference self.now other.now }
        ensures difference { IfOk result (IsDifference self.now other.now) }
        ensures possible { OnOk result (HasDifference self.now other.now) }
        ensures fault { IfErr result (IsDifferenceFault self.now other.now) }
        ensures terms { IfOk result AreTerms }
    {
        let rows = subtract(self.alloc, &self.rows, &other.rows)?;
        Ok(Terms {
            alloc: self.alloc,
            rows,
        })
    }

    // Where the term of a denominator is, or where it would go.
    fn search(&self, den: u64) -> Result<usize, usize>
        ensures found { IfOk result (IsAt self.now.terms den) }
        ensures absent { IfErr result (IsGapFor self.now.terms den) }
        ensures terms { AreTerms self.now }
    {
        self.rows.search(den)
    }
}
