//! A cube at its drill.
ghost use Rattle.std.specs.Prelude.{◌≡◌, ◌+◌, ◌*◌, ◌<◌, ◌≤◌, ◌^◌, IfOk, OnErr, OnOk, length};
ghost use Rattle.cube_model.specs.Allocation.{row_count};
ghost use Rattle.cube_model.specs.Limits.{MAX_FACTS};
ghost use Rattle.exact_fraction.specs.Moderate.{IsModerate};
ghost use Rattle.fact_records.specs.Valid.{IsEditOver};
ghost use Rattle.drill_run.specs.Doing.{blank_tally, edit_all, edit_once};
ghost use Rattle.drill_run.specs.Edits.{MAX_DRILL, first_puts, thirds};
ghost use Rattle.drill_run.specs.Space.{drill_schema};
ghost use Rattle.drill_run.specs.Summary.{drill_rows, terms_of};

use crate::draws::Draws;
use crate::edit_cube::edit_cube;
use cell_weight::ByCount;
use cube_base::Memory;
use cube_core::Cube;
use cube_model::{Edit, Region};
use group_sum::Terms;
use schema_text::Schema;
use std::alloc::Global;
use std::marker::{Brand, Model};
use std::sync::ledger::Blank;

/// A cube of the drill's schema, how many facts its edits refreshed, and how many of these were refused.
#[derive(Drop)]
pub struct Drill {
    cube: Cube<ByCount>,
    refreshed: u64,
    refused: u64,
}

impl Model for Drill {
    ghost use Rattle.std.specs.Prelude.{◌≡◌};
    ghost use Rattle.drill_run.specs.Doing.{Tally};
    ghost use Rattle.drill_run.specs.Space.{drill_schema};

    ghost Value = { Tally };

    ghost view = { λ d. record { facts = d.cube.facts; refreshed = d.refreshed; refused = d.refused } };

    ghost invariant = { λ d. d.cube.schema ≡ drill_schema };
}

impl Drill {
    /// No edit is done yet. The only error is running out of memory.
    pub fn new(alloc: Global, schema: Schema) -> Result<Self, Memory>
        requires { schema ≡ drill_schema }
        ensures { IfOk result (λ drill. drill ≡ blank_tally) }
    {
        Ok(Drill {
            cube: Cube::new(alloc, schema, ByCount)?,
            refreshed: 0,
            refused: 0,
        })
    }

    /// How many facts the edits refreshed.
    pub fn refreshed_count(&self) -> u64
        ensures { result ≡ self.now.refreshed }
    {
        self.refreshed
    }

    /// How many edits were refused.
    pub fn refused_count(&self) -> u64
        ensures { result ≡ self.now.refused }
    {
        self.refused
    }

    /// The number of the facts.
    pub fn fact_count(&self) -> u64
        ensures { result ≡ length self.now.facts }
    {
        self.cube.facts().len() as u64
    }

    /// The number of their rows.
    pub fn row_count(&self) -> u64
        ensures { result ≡ row_count (drill_rows self.now.facts) }
    {
        self.cube.row_count()
    }

    /// Puts so many facts, each drawn in its turn.
    pub fn put_all(&mut self, n: u64) -> Result<(), Memory>
        requires most { n ≤ MAX_DRILL }
        requires blank { self.old ≡ blank_tally }
        ensures done { OnOk result (self.new ≡ edit_all drill_schema (first_puts n n) blank_tally) }
        ensures few { OnOk result (self.new.refreshed ≤ n * MAX_FACTS) }
        ensures few_refused { OnOk result (self.new.refused ≤ n) }
    {
        let mut draws = Draws::new(n);
        for earlier in 0..n {
            self.edit(&Edit::Put(draws.fact(earlier + 1)))?;
        }
        Ok(())
    }

    /// Withdraws the facts of which 3 divides the id, which is at most `n`.
    pub fn withdraw_thirds(&mut self, n: u64) -> Result<(), Memory>
        requires most { n ≤ MAX_DRILL }
        requires few { self.old.refreshed ≤ n * MAX_FACTS }
        requires few_refused { self.old.refused ≤ n }
        ensures { OnOk result (self.new ≡ edit_all drill_schema (thirds n) self.old) }
    {
        for earlier in 0..n {
            let id = earlier + 1;
            if id % 3 == 0 {
                self.edit(&Edit::Withdraw(id))?;
            }
        }
        Ok(())
    }

    // Does an edit, or counts that it is refused.
    fn edit(&mut self, edit: &Edit) -> Result<(), Memory>
        requires over { IsEditOver drill_schema.dims edit.now }
        requires few { self.old.refreshed < 2 ^ 62 }
        requires few_refused { self.old.refused < 2 ^ 62 }
        ensures done { OnOk result (self.new ≡ edit_once drill_schema edit.now self.old) }
        ensures grows { OnOk result (self.new.refreshed ≤ self.old.refreshed + MAX_FACTS) }
        ensures refuses { OnOk result (self.new.refused ≤ self.old.refused + 1) }
    {
        let refreshed = edit_cube::<Brand>(&mut self.cube, edit, Blank::new(1))?;
        match refreshed {
            Some(count) => self.refreshed += count,
            None => self.refused += 1,
        }
        Ok(())
    }

    /// What the facts add up to altogether. The only error is running out of memory.
    pub fn total(&self) -> Result<Terms, Memory>
        ensures terms { IfOk result (λ terms. terms.terms ≡ terms_of self.now.facts) }
        ensures columns { IfOk result (λ terms. terms.columns ≡ 2) }
        ensures moderate { IfOk result (λ terms. IsModerate terms.terms) }
    {
        let Some(everything) = Region::new(&[0, 0]) else {
            unreachable!()
        };
        self.cube.answer(everything)
    }
}
