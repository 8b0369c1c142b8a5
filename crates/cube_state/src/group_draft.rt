//! What an edit makes of the groups.
ghost use Rattle.std.specs.Prelude.{slice_get, ◌≡◌, ◌≤◌, ◌<◌, ◌+◌, ◌^◌, [], ◌∷◌, ◌++◌, ◌||◌, if◌then◌else◌, IfOk, OnOk};
ghost use Rattle.std.specs.Option.{option_copied};
ghost use Rattle.cube_model.specs.Allocation.{extended, row_count};
ghost use Rattle.cube_model.specs.Facts.{after};
ghost use Rattle.cube_model.specs.Limits.{MAX_ROWS};
ghost use Rattle.fact_groups.specs.Groups.{group_at};
ghost use Rattle.region_algebra.specs.Space.{all_regions};
ghost use Rattle.fact_records.specs.Shape.{width_of_all};
ghost use Rattle.cube_state.specs.GroupAfter.{group_row_count};
ghost use Rattle.cube_state.specs.Moves.{AreMoves};
ghost use Rattle.cube_state.specs.Regrouped.{HoldChanged, group_is_respread, groups_after, other_count, spread_anew};
ghost use Rattle.cube_state.specs.State.{policy_in};

use crate::changed_groups::Regrouped;
use crate::edit_moves::Moves;
use crate::{Group, State};
use cell_weight::WeightPolicy;
use cube_base::{Ids, Memory, PlainList};
use cube_model::{MAX_ROWS, Region};

/// What is made of some of the codes: the groups, the codes and the number of other facts as they will be in `Regrouped`, and the number
/// of rows of the groups before the edit and after it.
#[derive(Drop)]
struct Draft {
    groups: PlainList<(u64, Option<Group>)>,
    spread_anew: Ids,
    others: u64,
    before: u64,
    after: u64,
}

impl Draft {
    /// Holds the group of a code after the edit, where it may be another than before and there are not too many rows, and the code,
    /// where it is spread anew.
    fn hold(
        &mut self,
        code: u64,
        group: Option<Group>,
        anew: bool,
        edited: bool,
    ) -> Result<(), Memory>
        ensures others { self.new.others ≡ self.old.others }
        ensures before { self.new.before ≡ self.old.before }
        ensures after { self.new.after ≡ self.old.after }
        ensures spread_anew { OnOk result (self.new.spread_anew ≡ (if anew then self.old.spread_anew ++ code ∷ [] else self.old.spread_anew)) }
        ensures groups { OnOk result (self.old.after ≤ MAX_ROWS → self.new.groups ≡ (if edited || anew then self.old.groups ++ (code, group) ∷ [] else self.old.groups)) }
    {
        if anew {
            self.spread_anew.push(code)?;
        }
        if self.after <= MAX_ROWS && (edited || anew) {
            self.groups.push((code, group))?;
        }
        Ok(())
    }
}

impl<P: WeightPolicy + Drop> State<P> {
    /// The groups of these codes after an edit, as far as they may be others than before, which codes are spread otherwise, how many
    /// facts these have but for the one of the edit's id, and the number of rows. The codes are those that `codes` answers. It holds
    /// the groups of no more than 2^21 rows and one region: where there would be more rows in all, those that follow are only counted.
    /// The only error is running out of memory.
    pub fn regroup(&self, moves: &Moves, codes: &[u64]) -> Result<Regrouped, Memory>
        requires moves { AreMoves (policy_in P.weigh self.now) self.now.shape self.now.dims self.now.facts moves.now }
        requires codes { HoldChanged (policy_in P.weigh self.now) (width_of_all self.now.shape.measures) self.now.dims moves.now.edit self.now.facts codes.now }
        ensures rows { IfOk result (λ r. r.rows ≡ row_count (extended (policy_in P.weigh self.now) self.now.dims (after moves.now.edit self.now.facts))) }
        ensures groups { IfOk result (λ r. r.rows ≤ MAX_ROWS → r.groups ≡ groups_after (policy_in P.weigh self.now) (width_of_all self.now.shape.measures) self.now.dims moves.now.edit self.now.facts codes.now) }
        ensures spread_anew { IfOk result (λ r. r.spread_anew ≡ spread_anew (policy_in P.weigh self.now) (width_of_all self.now.shape.measures) self.now.dims moves.now.edit self.now.facts codes.now) }
        ensures others { IfOk result (λ r. r.others ≡ other_count self.now.dims moves.now.edit self.now.facts r.spread_anew) }
    {
        let groups = Vec::with_capacity(self.alloc, codes.len())?;
        let mut draft = Draft {
            groups: PlainList::from(groups),
            spread_anew: Ids::new(self.alloc),
            others: 0,
            before: 0,
            after: 0,
        };
        for code in codes {
            self.regroup_one(moves, *code, &mut draft)?;
        }
        let Draft {
            groups,
            spread_anew,
            others,
            before,
            after,
        } = draft;
        Ok(Regrouped {
            groups,
            spread_anew,
            others,
            rows: self.rows + after - before,
        })
    }

    /// Takes one code more into a draft.
    fn regroup_one(&self, moves: &Moves, code: u64, draft: &mut Draft) -> Result<(), Memory>
        requires moves { AreMoves (policy_in P.weigh self.now) self.now.shape self.now.dims self.now.facts moves.now }
        requires few_others { draft.old.others < 2 ^ 62 }
        requires few_before { draft.old.before < 2 ^ 62 }
        requires few_after { draft.old.after < 2 ^ 62 }
        ensures before { OnOk result (draft.new.before ≡ draft.old.before + group_row_count (group_at (policy_in P.weigh self.now) (width_of_all self.now.shape.measures) self.now.dims self.now.facts code)) }
        ensures after { OnOk result (draft.new.after ≡ draft.old.after + group_row_count (group_at (policy_in P.weigh self.now) (width_of_all self.now.shape.measures) self.now.dims (after moves.now.edit self.now.facts) code)) }
        ensures spread_anew { OnOk result (draft.new.spread_anew ≡ draft.old.spread_anew ++ spread_anew (policy_in P.weigh self.now) (width_of_all self.now.shape.measures) self.now.dims moves.now.edit self.now.facts (code ∷ [])) }
        ensures others { OnOk result (draft.new.others ≡ draft.old.others + other_count self.now.dims moves.now.edit self.now.facts (spread_anew (policy_in P.weigh self.now) (width_of_all self.now.shape.measures) self.now.dims moves.now.edit self.now.facts (code ∷ []))) }
        ensures groups { OnOk result (draft.new.after ≤ MAX_ROWS → draft.new.groups ≡ draft.old.groups ++ groups_after (policy_in P.weigh self.now) (width_of_all self.now.shape.measures) self.now.dims moves.now.edit self.now.facts (code ∷ [])) }
    {
        let group = self.groups.get(code);
        let edited = self.is_edited_at(moves, code);
        let region = self.region_of(moves, code);
        let next = self.group_after(moves, code, region.as_ref(), group, edited)?;
        draft.before += rows_of(group);
        draft.after += rows_of(next.as_ref());
        let anew = self.is_spread_anew(moves, code, region.as_ref(), edited, group, next.as_ref());
        if anew {
            draft.others += self.count_others(moves, code, group);
        }
        draft.hold(code, next, anew, edited)
    }

    /// Whether the region of a code is spread otherwise after an edit, where it has facts before and after it.
    fn is_spread_anew(
        &self,
        moves: &Moves,
        code: u64,
        region: Option<&Region>,
        edited: bool,
        before: Option<&Group>,
        now: Option<&Group>,
    ) -> bool
        requires region { option_copied region ≡ slice_get (all_regions self.now.dims) code }
        requires moves { AreMoves (policy_in P.weigh self.now) self.now.shape self.now.dims self.now.facts moves.now }
        requires before { option_copied before ≡ group_at (policy_in P.weigh self.now) (width_of_all self.now.shape.measures) self.now.dims self.now.facts code }
        requires now { option_copied now ≡ group_at (policy_in P.weigh self.now) (width_of_all self.now.shape.measures) self.now.dims (after moves.now.edit self.now.facts) code }
        ensures { result ≡ group_is_respread (option_copied before.entry) (option_copied now.entry) }
    {
        let _ = self.shape.columns();
        let (Some(before), Some(now)) = (before, now) else {
            return false;
        };
        if edited {
            let Some(region) = region else { unreachable!() };
            // Where no cell weighs otherwise, the rows are the same without a look at them.
            if self.is_kept(moves, code, *region, edited) {
                return false;
            }
        }
        !before.spread.is_same(&now.spread)
    }
}

/// The number of rows of the facts of a group.
fn rows_of(group: Option<&Group>) -> u64
    requires { group_row_count (option_copied group) < 2 ^ 64 }
    ensures { result ≡ group_row_count (option_copied group.entry) }
{
    match group {
        Some(group) => group.members * group.spread.rows().len() as u64,
        None => 0,
    }
}
