//! What an edit changes in a store.
ghost use Rattle.std.specs.Prelude.{◌≡◌, IfOk, filter, map};
ghost use Rattle.std.specs.Option.{option_to_list};
ghost use Rattle.cube_model.specs.Allocation.{extended};
ghost use Rattle.cube_model.specs.Cells.{is_among};
ghost use Rattle.cube_model.specs.Difference.{refreshed};
ghost use Rattle.cube_model.specs.Facts.{after};
ghost use Rattle.fact_groups.specs.Edits.{given};
ghost use Rattle.fact_records.specs.Shape.{width_of_all};
ghost use Rattle.region_algebra.specs.Space.{IsRegion};
ghost use Rattle.cube_state.specs.Moves.{AreMoves};
ghost use Rattle.edit_plan.specs.Plan.{difference, kept_fact, kept_rows};
ghost use Rattle.edit_plan.specs.Refreshing.{AreRefreshed};
ghost use Rattle.cube_state.specs.Regrouped.{IsRegrouped};
ghost use Rattle.cube_state.specs.State.{policy_in, withdrawn};

use crate::spread::spread_now;
use cell_weight::WeightPolicy;
use cube_base::{Cols, Ids, Memory};
use cube_model::{Edit, Fact, Region};
use cube_state::{Moves, Regrouped, State};
use fact_keeper::{Batch, ColNums, KeptFact, KeptFacts, KeptRows, KeptRowsList, NodeNums};
use region_algebra::Space;
use std::alloc::Global;

/// What an edit changes in a store, of which these are the refreshed ids with the codes of their facts. No row is copied.
pub fn batch<P: WeightPolicy + Drop>(
    alloc: Global,
    state: &State<P>,
    moves: &Moves,
    regrouped: &Regrouped,
    pairs: &[(u64, u64)],
) -> Result<Batch, Memory>
    requires moves { AreMoves (policy_in P.weigh state.now) state.now.shape state.now.dims state.now.facts moves.now }
    requires regrouped { IsRegrouped (policy_in P.weigh state.now) (width_of_all state.now.shape.measures) state.now.dims moves.now.edit state.now.facts regrouped.now }
    requires refreshed { AreRefreshed (policy_in P.weigh state.now) state.now.dims moves.now.edit state.now.facts pairs.now }
    ensures { IfOk result (λ batch. batch ≡ difference (policy_in P.weigh state.now) state.now.dims moves.now.edit state.now.facts) }
{
    Ok(Batch {
        schema: None,
        gone: gone_ids(alloc, &moves.edit)?,
        facts: kept_facts(alloc, state, moves)?,
        rows: kept_rows(alloc, state, moves, regrouped, pairs)?,
    })
}

/// The new fact of an edit, as it is kept, if there is one.
fn kept_facts<P: WeightPolicy + Drop>(
    alloc: Global,
    state: &State<P>,
    moves: &Moves,
) -> Result<KeptFacts, Memory>
    requires { AreMoves (policy_in P.weigh state.now) state.now.shape state.now.dims state.now.facts moves.now }
    ensures { IfOk result (λ facts. facts ≡ map kept_fact (option_to_list (given moves.now.edit))) }
{
    let mut facts = KeptFacts::new(alloc);
    if let Some(fact) = moves.given {
        facts.push(kept_fact(alloc, state.space(), fact)?)?;
    }
    Ok(facts)
}

/// The rows of the refreshed facts, as they are kept.
fn kept_rows<P: WeightPolicy + Drop>(
    alloc: Global,
    state: &State<P>,
    moves: &Moves,
    regrouped: &Regrouped,
    pairs: &[(u64, u64)],
) -> Result<KeptRowsList, Memory>
    requires moves { AreMoves (policy_in P.weigh state.now) state.now.shape state.now.dims state.now.facts moves.now }
    requires regrouped { IsRegrouped (policy_in P.weigh state.now) (width_of_all state.now.shape.measures) state.now.dims moves.now.edit state.now.facts regrouped.now }
    requires refreshed { AreRefreshed (policy_in P.weigh state.now) state.now.dims moves.now.edit state.now.facts pairs.now }
    ensures { IfOk result (λ rows. rows ≡ map kept_rows (filter (λ e. is_among (refreshed (policy_in P.weigh state.now) state.now.dims state.now.facts (after moves.now.edit state.now.facts)) e.id) (extended (policy_in P.weigh state.now) state.now.dims (after moves.now.edit state.now.facts)))) }
{
    let _ = state.facts();
    let mut rows = KeptRowsList::new(alloc);
    for (id, code) in pairs {
        let Some(spread) = spread_now(state, regrouped, *code) else {
            unreachable!()
        };
        rows.push(KeptRows {
            id: *id,
            den: spread.den(),
            rows: spread.shared_rows()?,
        })?;
    }
    Ok(rows)
}

/// The id that an edit withdraws, if it withdraws one.
fn gone_ids(alloc: Global, edit: &Edit) -> Result<Ids, Memory>
    ensures { IfOk result (λ ids. ids ≡ option_to_list (withdrawn edit.now)) }
{
    let mut ids = Ids::new(alloc);
    match edit {
        Edit::Put(_) | Edit::Change(_) => {}
        Edit::Withdraw(id) => ids.push(*id)?,
    }
    Ok(ids)
}

/// A fact as it is kept.
pub fn kept_fact(alloc: Global, space: &Space, fact: Fact) -> Result<KeptFact, Memory>
    requires { IsRegion space.now fact.region }
    ensures { IfOk result (λ kept. kept ≡ kept_fact fact) }
{
    Ok(KeptFact {
        id: fact.id,
        nodes: nodes_of(alloc, space, fact.region)?,
        cols: values_of(alloc, fact.cols)?,
    })
}

/// The nodes of a region.
fn nodes_of(alloc: Global, space: &Space, region: Region) -> Result<NodeNums, Memory>
    requires { IsRegion space.now region }
    ensures { IfOk result (λ nodes. nodes ≡ region) }
{
    let mut nodes = NodeNums::new(alloc);
    for d in 0..space.dims() {
        nodes.push(region.node(d))?;
    }
    Ok(nodes)
}

/// The values of a fact.
fn values_of(alloc: Global, cols: Cols) -> Result<ColNums, Memory>
    ensures { IfOk result (λ values. values ≡ cols) }
{
    let mut values = ColNums::new(alloc);
    for i in 0..cols.len() {
        values.push(cols.get(i))?;
    }
    Ok(values)
}
