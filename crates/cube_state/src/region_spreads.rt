//! The groups of facts after an edit: of the regions whose groups may differ, each made anew from the one before.
ghost use Rattle.std.specs.Prelude.{slice_get, ◌≡◌, ◌<◌, ◌≤◌, true, false, All, IfOk, IfSome, Some, length};
ghost use Rattle.std.specs.List.{list_any};
ghost use Rattle.std.specs.Option.{option_copied};
ghost use Rattle.alloc_rows.specs.Changed.{changes_among};
ghost use Rattle.cube_model.specs.Cells.{all_cells, cells_of, is_among, is_single};
ghost use Rattle.cube_model.specs.Facts.{after};
ghost use Rattle.cube_model.specs.Limits.{MAX_CELLS};
ghost use Rattle.fact_groups.specs.Groups.{spread_at};
ghost use Rattle.region_algebra.specs.Space.{IsRegion, all_regions};
ghost use Rattle.cube_state.specs.Moves.{AreMoves};
ghost use Rattle.cube_state.specs.State.{policy_in};

use crate::edit_moves::Moves;
use crate::group_after::is_at;
use crate::{Group, State};
use alloc_rows::{Alloc, allocate_at, step};
use cell_weight::WeightPolicy;
use cube_base::Memory;
use cube_model::Region;
use region_algebra::Space;
use touched_cells::{Change, Few};

impl<P: WeightPolicy + Drop> State<P> {
    /// How the region of a code is spread after an edit. Where it has a group, that is spread as the region is before it.
    pub(crate) fn spread_after(
        &self,
        moves: &Moves,
        code: u64,
        r: Region,
        group: Option<&Group>,
        edited: bool,
    ) -> Result<Alloc, Memory>
        requires moves { AreMoves (policy_in P.weigh self.now) self.now.shape self.now.dims self.now.facts moves.now }
        requires region { IsRegion self.now.dims r }
        requires code { Some r ≡ slice_get (all_regions self.now.dims) code }
        requires few { length (cells_of self.now.dims r) ≤ MAX_CELLS }
        requires group { IfSome (option_copied group) (λ g. g.spread ≡ spread_at (policy_in P.weigh self.now) self.now.dims self.now.facts r) }
        ensures { IfOk result (λ a. a ≡ spread_at (policy_in P.weigh self.now) self.now.dims (after moves.now.edit self.now.facts) r) }
    {
        let _ = self.shape.columns();
        let before = self.spread_before(r, group)?;
        if self.is_kept(moves, code, r, edited) {
            return Ok(before);
        }
        let changed = changes_inside(&self.space, r, &moves.touched);
        step(
            self.alloc,
            &self.space,
            &self.policy,
            &self.stats,
            &before,
            r,
            changed.as_slice(),
        )
    }

    /// Whether the region of a code is known to be spread after an edit as before: it is one cell, or none of its cells weighs
    /// otherwise. Its cells are asked only where the edit's old or new fact is of the region: of any other one weighs otherwise.
    pub(crate) fn is_kept(&self, moves: &Moves, code: u64, r: Region, edited: bool) -> bool
        requires moves { AreMoves (policy_in P.weigh self.now) self.now.shape self.now.dims self.now.facts moves.now }
        requires region { IsRegion self.now.dims r }
        requires code { Some r ≡ slice_get (all_regions self.now.dims) code }
        ensures kept { result ≡ true → spread_at (policy_in P.weigh self.now) self.now.dims self.now.facts r ≡ spread_at (policy_in P.weigh self.now) self.now.dims (after moves.now.edit self.now.facts) r }
        ensures several { result ≡ false → 1 < length (cells_of self.now.dims r) }
    {
        self.is_one_cell(moves, code, r)
            || (edited && !holds_any(&self.space, r, moves.reweighing.as_slice()))
    }

    /// Whether the region of a code is one cell. Where a fact of the edit has the code, its cell tells without the space.
    fn is_one_cell(&self, moves: &Moves, code: u64, r: Region) -> bool
        requires moves { AreMoves (policy_in P.weigh self.now) self.now.shape self.now.dims self.now.facts moves.now }
        requires region { IsRegion self.now.dims r }
        requires code { Some r ≡ slice_get (all_regions self.now.dims) code }
        ensures { result ≡ is_single (cells_of self.now.dims r) }
    {
        let _ = self.shape.columns();
        if is_at(moves.given_code, code) {
            return moves.given_cell.is_some();
        }
        if is_at(moves.taken_code, code) {
            return moves.taken_cell.is_some();
        }
        self.space.cell_count(r) == 1
    }

    /// How a region is spread before it.
    fn spread_before(&self, r: Region, group: Option<&Group>) -> Result<Alloc, Memory>
        requires region { IsRegion self.now.dims r }
        requires few { length (cells_of self.now.dims r) ≤ MAX_CELLS }
        requires group { IfSome (option_copied group) (λ g. g.spread ≡ spread_at (policy_in P.weigh self.now) self.now.dims self.now.facts r) }
        ensures { IfOk result (λ a. a ≡ spread_at (policy_in P.weigh self.now) self.now.dims self.now.facts r) }
    {
        match group {
            Some(group) => group.spread.share(),
            None => allocate_at(self.alloc, &self.space, &self.policy, &self.stats, r),
        }
    }
}

/// Whether one of the changed cells is a region's.
fn holds_any(space: &Space, r: Region, changes: &[Change]) -> bool
    requires region { IsRegion space.now r }
    requires cells { All (λ change. change.0 < length (all_cells space.now)) changes.now }
    ensures { result ≡ list_any (λ change. is_among (cells_of space.now r) change.0) changes.now }
{
    changes.iter().any(|change| space.contains(r, change.0))
}

/// The changes of the cells of a region.
fn changes_inside(space: &Space, r: Region, changes: &Few<Change>) -> Few<Change>
    requires region { IsRegion space.now r }
    requires cells { All (λ change. change.0 < length (all_cells space.now)) changes.now }
    ensures { result ≡ changes_among (cells_of space.now r) changes.now }
{
    let mut inside = Few::new();
    for change in changes.as_slice() {
        if space.contains(r, change.0) {
            inside.push(*change);
        }
    }
    inside
}
