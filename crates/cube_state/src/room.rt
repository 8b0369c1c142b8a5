//! Room for what an edit will set.
ghost use Rattle.std.specs.Prelude.{◌≡◌, ◌+◌, ◌≤◌, ℕ, IfOk, OnOk, true};
ghost use Rattle.std.specs.Option.{option_to_list};
ghost use Rattle.alloc_rows.specs.Changed.{new_stats};
ghost use Rattle.cell_weight.specs.Stats.{have_stat_places, stat_at};
ghost use Rattle.fact_groups.specs.Edits.{given, taken};
ghost use Rattle.fact_records.specs.Shape.{width_of_all};
ghost use Rattle.region_index.specs.Changes.{IsStagedFor, IsUnchanged};
ghost use Rattle.staged_map.specs.Staged.{have_places, value_at};
ghost use Rattle.view_store.specs.Changes.{facts_put, facts_taken_away};
ghost use Rattle.view_store.specs.Facts.{FollowBy};
ghost use Rattle.cube_state.specs.Moves.{AreMoves, indexed_by};
ghost use Rattle.cube_state.specs.Sets.{AreSetsFor, has_room};
ghost use Rattle.cube_state.specs.Regrouped.{IsRegrouped};
ghost use Rattle.cube_state.specs.State.{HaveSameContent, policy_in, rows_after, rows_in};
ghost use Rattle.cube_state.specs.ViewChanges.{SufficeFor, all_changes};

use crate::changed_groups::Regrouped;
use crate::edit_moves::Moves;
use crate::sets::Sets;
use crate::{Group, State};
use cell_weight::{CellStat, StatIndex, WeightPolicy};
use cube_base::Memory;
use cube_model::Fact;
use fact_records::FactList;
use region_index::{RegionIndex, RegionStage, Steps};
use staged_map::Staged;
use std::sync::ledger::Ledger;
use touched_cells::{Change, Few};
use view_store::{ViewChange, ViewStage};

/// What is staged beside the groups.
#[derive(Drop)]
struct Stages {
    stats: Few<(u64, CellStat)>,
    index: RegionStage,
    views: ViewStage,
}

impl<P: WeightPolicy + Drop> State<P> {
    /// Makes room for what an edit sets, and answers all that is to be set, of which `regroup` made the groups. The content stays. Each
    /// region at which an id is put into the index or dropped from it is a step. The one error is running out of memory.
    pub fn stage_all<L: Ledger>(
        &mut self,
        moves: &Moves,
        regrouped: Regrouped,
        steps: &mut Steps<L>,
    ) -> Result<Sets, Memory>
        requires moves { AreMoves (policy_in P.weigh self.old) self.old.shape self.old.dims self.old.facts moves.now }
        requires regrouped { IsRegrouped (policy_in P.weigh self.old) (width_of_all self.old.shape.measures) self.old.dims moves.now.edit self.old.facts regrouped }
        ensures same { HaveSameContent self.old self.new }
        ensures sets { IfOk result (AreSetsFor P.weigh self.new moves.now.edit) }
        ensures steps { steps.new ≤ steps.old + 2 }
    {
        let changes = self.view_changes(moves, &regrouped)?;
        self.make_room(moves, regrouped, &changes, steps)
    }

    /// Makes room for what an edit sets, and all that is to be set. The content stays.
    fn make_room<L: Ledger>(
        &mut self,
        moves: &Moves,
        regrouped: Regrouped,
        changes: &[ViewChange],
        steps: &mut Steps<L>,
    ) -> Result<Sets, Memory>
        requires moves { AreMoves (policy_in P.weigh self.old) self.old.shape self.old.dims self.old.facts moves.now }
        requires regrouped { IsRegrouped (policy_in P.weigh self.old) (width_of_all self.old.shape.measures) self.old.dims moves.now.edit self.old.facts regrouped }
        requires follow { FollowBy (rows_in P.weigh self.old) (facts_taken_away (all_changes self.old regrouped.groups)) (facts_put (all_changes self.old regrouped.groups)) (rows_after P.weigh self.old moves.now.edit) }
        requires changes { SufficeFor self.old.dims self.old.kept.views (all_changes self.old regrouped.groups) changes.now }
        ensures same { HaveSameContent self.old self.new }
        ensures sets { IfOk result (AreSetsFor P.weigh self.new moves.now.edit) }
        ensures steps { steps.new ≤ steps.old + 2 }
    {
        let stages = self.stage(moves, &regrouped, changes, steps)?;
        Ok(sets_of(stages, regrouped))
    }

    /// Makes room for what an edit sets, and what is to be set beside the groups. The content stays.
    fn stage<L: Ledger>(
        &mut self,
        moves: &Moves,
        regrouped: &Regrouped,
        changes: &[ViewChange],
        steps: &mut Steps<L>,
    ) -> Result<Stages, Memory>
        requires moves { AreMoves (policy_in P.weigh self.old) self.old.shape self.old.dims self.old.facts moves.now }
        requires regrouped { IsRegrouped (policy_in P.weigh self.old) (width_of_all self.old.shape.measures) self.old.dims moves.now.edit self.old.facts regrouped.now }
        requires follow { FollowBy (rows_in P.weigh self.old) (facts_taken_away (all_changes self.old regrouped.now.groups)) (facts_put (all_changes self.old regrouped.now.groups)) (rows_after P.weigh self.old moves.now.edit) }
        requires changes { SufficeFor self.old.dims self.old.kept.views (all_changes self.old regrouped.now.groups) changes.now }
        ensures same { HaveSameContent self.old self.new }
        ensures sets { IfOk result (λ stages. AreSetsFor P.weigh self.new moves.now.edit (record { stats = stages.stats; index = stages.index; groups = regrouped.now.groups; views = stages.views })) }
        ensures steps { steps.new ≤ steps.old + 2 }
    {
        let _ = self.shape.columns();
        reserve(
            &mut self.facts,
            &mut self.groups,
            moves,
            regrouped.groups.as_slice(),
        )?;
        let (stats, index) = stage_facts(&mut self.stats, &mut self.index, moves, steps)?;
        let views = self.views.stage(&self.space, changes)?;
        Ok(Stages {
            stats,
            index,
            views,
        })
    }
}

/// What is staged, with the groups.
fn sets_of(stages: Stages, regrouped: Regrouped) -> Sets
    ensures { result ≡ record { stats = stages.stats; index = stages.index; groups = regrouped.groups; views = stages.views } }
{
    let Stages {
        stats,
        index,
        views,
    } = stages;
    let Regrouped {
        groups,
        spread_anew: _,
        others: _,
        rows: _,
    } = regrouped;
    Sets {
        stats,
        index,
        groups,
        views,
    }
}

/// Makes room for an edit's new fact, and for the groups of entries.
fn reserve(
    facts: &mut FactList,
    groups: &mut Staged<Group>,
    moves: &Moves,
    entries: &[(u64, Option<Group>)],
) -> Result<(), Memory>
    requires takes { moves.now.taken ≡ taken moves.now.edit facts.old.facts }
    requires gives { moves.now.given ≡ given moves.now.edit }
    ensures same_facts { facts.new.facts ≡ facts.old.facts }
    ensures same_groups { (code : ℕ) → value_at groups.new code ≡ value_at groups.old code }
    ensures room { OnOk result (has_room moves.now.edit facts.old.facts facts.new.spare ≡ true) }
    ensures placed { OnOk result (have_places groups.new entries.now ≡ true) }
{
    reserve_fact(facts, moves)?;
    reserve_groups(groups, entries)
}

/// Makes room for an edit's new fact, where none of its id is there.
fn reserve_fact(facts: &mut FactList, moves: &Moves) -> Result<(), Memory>
    requires takes { moves.now.taken ≡ taken moves.now.edit facts.old.facts }
    requires gives { moves.now.given ≡ given moves.now.edit }
    ensures same { facts.new.facts ≡ facts.old.facts }
    ensures room { OnOk result (has_room moves.now.edit facts.old.facts facts.new.spare ≡ true) }
{
    if moves.given.is_some() && moves.taken.is_none() {
        facts.reserve(1)?;
    }
    Ok(())
}

/// Gives each code that has an entry a place.
fn reserve_groups(
    groups: &mut Staged<Group>,
    entries: &[(u64, Option<Group>)],
) -> Result<(), Memory>
    ensures same { (code : ℕ) → value_at groups.new code ≡ value_at groups.old code }
    ensures placed { OnOk result (have_places groups.new entries.now ≡ true) }
{
    for (code, _) in entries {
        groups.reserve(&[*code])?;
    }
    Ok(())
}

/// Makes ready what an edit changes in the statistics and in the index.
fn stage_facts<L: Ledger>(
    stats: &mut StatIndex,
    index: &mut RegionIndex,
    moves: &Moves,
    steps: &mut Steps<L>,
) -> Result<(Few<(u64, CellStat)>, RegionStage), Memory>
    ensures same_stats { (cell : ℕ) → stat_at stats.new cell ≡ stat_at stats.old cell }
    ensures same_index { IsUnchanged index.old index.new }
    ensures made { IfOk result (λ staged. staged.0 ≡ new_stats moves.now.touched) }
    ensures placed { IfOk result (λ staged. have_stat_places stats.new staged.0 ≡ true) }
    ensures drops { IfOk result (λ staged. staged.1.drops ≡ option_to_list (indexed_by moves.now.taken moves.now.taken_code moves.now.taken_cell)) }
    ensures puts { IfOk result (λ staged. staged.1.puts ≡ option_to_list (indexed_by moves.now.given moves.now.given_code moves.now.given_cell)) }
    ensures ready { IfOk result (λ staged. IsStagedFor index.new staged.1) }
    ensures steps { steps.new ≤ steps.old + 2 }
{
    let changes = stage_stats(stats, &moves.touched)?;
    let stage = stage_index(index, moves, steps)?;
    Ok((changes, stage))
}

/// Gives each touched cell a place, and answers its new statistics.
fn stage_stats(stats: &mut StatIndex, touched: &Few<Change>) -> Result<Few<(u64, CellStat)>, Memory>
    ensures same { (cell : ℕ) → stat_at stats.new cell ≡ stat_at stats.old cell }
    ensures made { IfOk result (λ changes. changes ≡ new_stats touched.now) }
    ensures placed { IfOk result (λ changes. have_stat_places stats.new changes ≡ true) }
{
    let changes = new_stats(touched);
    stats.stage(changes.as_slice())?;
    Ok(changes)
}

/// The changed cells, each with its new statistics.
fn new_stats(changes: &Few<Change>) -> Few<(u64, CellStat)>
    ensures { result ≡ new_stats changes.now }
{
    let mut stats = Few::new();
    for change in changes.as_slice() {
        stats.push((change.0, change.2));
    }
    stats
}

/// Makes ready what an edit changes in the index: its old fact is dropped, and its new fact is put, each of which is a step.
fn stage_index<L: Ledger>(
    index: &mut RegionIndex,
    moves: &Moves,
    steps: &mut Steps<L>,
) -> Result<RegionStage, Memory>
    ensures same { IsUnchanged index.old index.new }
    ensures drops { IfOk result (λ stage. stage.drops ≡ option_to_list (indexed_by moves.now.taken moves.now.taken_code moves.now.taken_cell)) }
    ensures puts { IfOk result (λ stage. stage.puts ≡ option_to_list (indexed_by moves.now.given moves.now.given_code moves.now.given_cell)) }
    ensures staged { IfOk result (IsStagedFor index.new) }
    ensures steps { steps.new ≤ steps.old + 2 }
{
    let dropped = indexed_by(moves.taken, moves.taken_code, moves.taken_cell);
    let put = indexed_by(moves.given, moves.given_code, moves.given_cell);
    steps.add(looks_at(dropped) + looks_at(put));
    index.stage(put.as_slice(), dropped.as_slice())
}

/// An imprecise fact as an index of regions has it: the code of its region, and its id. A fact is imprecise where it has no cell.
fn indexed_by(fact: Option<Fact>, code: Option<u64>, cell: Option<u64>) -> Option<(u64, u64)>
    ensures { result ≡ indexed_by fact code cell }
{
    match (fact, code, cell) {
        (Some(fact), Some(code), None) => Some((code, fact.id)),
        _ => None,
    }
}

/// How many regions of an index a pair is looked for in.
fn looks_at(pair: Option<(u64, u64)>) -> u64
    ensures { result ≤ 1 }
{
    match pair {
        Some(_) => 1,
        None => 0,
    }
}
