//! What an edit changes in views, and their lists.
ghost use Rattle.std.specs.Prelude.{◌≡◌, ◌+◌, ◌++◌, ◌<◌, All, IfOk, OnOk, length};
ghost use Rattle.std.specs.Option.{option_copied};
ghost use Rattle.fact_records.specs.Shape.{width_of_all};
ghost use Rattle.region_algebra.specs.Space.{IsRegion};
ghost use Rattle.staged_map.specs.Staged.{value_at};
ghost use Rattle.view_store.specs.Changes.{facts_put, facts_taken_away};
ghost use Rattle.view_store.specs.Facts.{FollowBy};
ghost use Rattle.fact_indexes.specs.ViewChanges.{AreOfRegions, IsOfRegion};
ghost use Rattle.cube_state.specs.Moves.{AreMoves};
ghost use Rattle.cube_state.specs.Regrouped.{IsRegrouped};
ghost use Rattle.cube_state.specs.State.{policy_in, rows_after, rows_in, view_at};
ghost use Rattle.cube_state.specs.ViewChanges.{SufficeFor, EntriesAreOfRegions, all_changes, changes_at, changes_by};

use crate::changed_groups::Regrouped;
use crate::edit_moves::Moves;
use crate::{Group, State};
use cell_weight::WeightPolicy;
use cube_base::Memory;
use fact_indexes::push_group;
use region_algebra::Space;
use staged_map::Staged;
use std::alloc::Global;
use view_store::{ViewChange, ViewList};

impl<P: WeightPolicy + Drop> State<P> {
    /// What an edit changes in every view: of each region whose group changes, the shares before are taken away and those after
    /// are put. Where there is no view nothing is listed.
    pub(crate) fn view_changes(
        &self,
        moves: &Moves,
        regrouped: &Regrouped,
    ) -> Result<Vec<ViewChange>, Memory>
        requires moves { AreMoves (policy_in P.weigh self.now) self.now.shape self.now.dims self.now.facts moves.now }
        requires regrouped { IsRegrouped (policy_in P.weigh self.now) (width_of_all self.now.shape.measures) self.now.dims moves.now.edit self.now.facts regrouped.now }
        ensures follow { FollowBy (rows_in P.weigh self.now) (facts_taken_away (all_changes self.now regrouped.now.groups)) (facts_put (all_changes self.now regrouped.now.groups)) (rows_after P.weigh self.now moves.now.edit) }
        ensures changes { IfOk result (λ changes. SufficeFor self.now.dims self.now.kept.views (all_changes self.now regrouped.now.groups) changes.items) }
    {
        let _ = self.shape.columns();
        let _ = self.views.columns();
        if self.views.is_empty() {
            return Ok(Vec::new(self.alloc));
        }
        changes_by(
            self.alloc,
            &self.space,
            &self.groups,
            regrouped.groups.as_slice(),
        )
    }

    /// The view at a place, of which there must be one: each region of the product of its cuts in which the facts have terms, with
    /// these, the first dimension slowest and the nodes of each dimension in their order. The only error is running out of memory.
    pub fn view_list(&self, view: u32) -> Result<ViewList, Memory>
        requires { view < length self.now.cuts }
        ensures entries { IfOk result (λ entries. entries ≡ view_at P.weigh self.now view) }
        ensures regions { IfOk result (All (λ entry. IsRegion self.now.dims entry.0)) }
    {
        let _ = self.views.columns();
        self.views.list(&self.space, view)
    }
}

/// The changes that take away the groups that are kept at these codes, and put the groups after.
fn changes_by(
    alloc: Global,
    space: &Space,
    kept: &Staged<Group>,
    groups: &[(u64, Option<Group>)],
) -> Result<Vec<ViewChange>, Memory>
    requires kept { AreOfRegions space.now kept.now }
    requires after { EntriesAreOfRegions space.now groups.now }
    ensures { IfOk result (λ changes. changes.items ≡ changes_by space.now (value_at kept.now) groups.now) }
{
    let mut changes = Vec::with_capacity(alloc, groups.len().saturating_mul(2))?;
    for (code, after) in groups {
        push_changes(&mut changes, space, *code, kept.get(*code), after.as_ref())?;
    }
    Ok(changes)
}

/// Adds the change that takes the group before at a code away, and the one that puts the group after.
fn push_changes(
    changes: &mut Vec<ViewChange>,
    space: &Space,
    code: u64,
    before: Option<&Group>,
    after: Option<&Group>,
) -> Result<(), Memory>
    requires before { IsOfRegion space.now code (option_copied before) }
    requires after { IsOfRegion space.now code (option_copied after) }
    ensures { OnOk result (changes.new.items ≡ changes.old.items ++ changes_at space.now code (option_copied before.entry) (option_copied after.entry)) }
{
    let Some(region) = space.uncode(code) else {
        return Ok(());
    };
    push_group(changes, false, region, before)?;
    push_group(changes, true, region, after)
}
