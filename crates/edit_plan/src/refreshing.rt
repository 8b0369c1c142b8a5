//! Which facts an edit refreshes.
ghost use Rattle.std.specs.Prelude.{◌≡◌, ◌++◌, ◌+◌, ◌*◌, ◌≤◌, IfOk, OnOk, Some, false, length, map};
ghost use Rattle.std.specs.List.Sorted.{IsNonDecreasingBy, IsPermutation};
ghost use Rattle.std.specs.Option.{option_copied, option_map, option_map_or};
ghost use Rattle.cube_model.specs.Difference.{refreshed};
ghost use Rattle.cube_model.specs.Facts.{after};
ghost use Rattle.fact_groups.specs.Edits.{taken};
ghost use Rattle.fact_groups.specs.Groups.{group_at, spread_at};
ghost use Rattle.fact_records.specs.Shape.{width_of_all};
ghost use Rattle.cube_state.specs.Moves.{AreMoves};
ghost use Rattle.cube_state.specs.Regrouped.{IsRegrouped};
ghost use Rattle.cube_state.specs.State.{policy_in};
ghost use Rattle.edit_plan.specs.Bound.{covering_pairs};
ghost use Rattle.edit_plan.specs.Refreshing.{AscendByCode, group_now, AreOfFacts, id_count_at, is_same_spread, others_at, others_with, own_pair};

use crate::spread::{is_same_spread, spread_now};
use cell_weight::WeightPolicy;
use cube_base::Memory;
use cube_state::{Moves, Regrouped, State, edited_id};
use region_index::Steps;
use std::alloc::Global;
use std::sync::ledger::Ledger;

/// The ids that an edit refreshes, ascending, each with the code of its fact's region after the edit. Each region that is spread anew is
/// a step, and so is each id there.
pub fn refreshed<P: WeightPolicy + Drop, L: Ledger>(
    alloc: Global,
    state: &State<P>,
    moves: &Moves,
    regrouped: &Regrouped,
    steps: &mut Steps<L>,
) -> Result<Vec<(u64, u64)>, Memory>
    requires moves { AreMoves (policy_in P.weigh state.now) state.now.shape state.now.dims state.now.facts moves.now }
    requires regrouped { IsRegrouped (policy_in P.weigh state.now) (width_of_all state.now.shape.measures) state.now.dims moves.now.edit state.now.facts regrouped.now }
    ensures ids { IfOk result (λ pairs. map (λ pair. pair.0) pairs.items ≡ refreshed (policy_in P.weigh state.now) state.now.dims state.now.facts (after moves.now.edit state.now.facts)) }
    ensures codes { IfOk result (λ pairs. AreOfFacts state.now.dims (after moves.now.edit state.now.facts) pairs.items) }
    ensures steps { steps.new ≤ steps.old + 2 * covering_pairs (policy_in P.weigh state.now) state.now.dims moves.now.edit state.now.facts }
{
    let _ = state.facts();
    let edited = edited_id(&moves.edit);
    let mut pairs = others_at(
        alloc,
        state,
        edited,
        regrouped.spread_anew.as_slice(),
        steps,
    )?;
    if let Some(pair) = own_pair(state, moves, regrouped) {
        pairs.push(pair)?;
    }
    Ok(by_id(pairs))
}

/// The ids of the imprecise facts whose regions have these codes, but for one id, each with the code, code by code. Each code is a step,
/// and so is each id, that one too.
fn others_at<P: WeightPolicy + Drop, L: Ledger>(
    alloc: Global,
    state: &State<P>,
    id: u64,
    codes: &[u64],
    steps: &mut Steps<L>,
) -> Result<Vec<(u64, u64)>, Memory>
    ensures pairs { IfOk result (λ pairs. pairs.items ≡ others_at state.now.dims state.now.facts id codes.now) }
    ensures steps { steps.new ≤ steps.old + (length codes.now + id_count_at state.now.dims state.now.facts codes.now) }
{
    let mut pairs = Vec::new(alloc);
    for code in codes {
        let ids = state.imprecise_ids(*code, steps);
        steps.add(ids.len() as u64);
        add_others(&mut pairs, ids, *code, id)?;
    }
    Ok(pairs)
}

/// The id of an edit's new fact with the code of its region, where its id is new or its allocation changed.
pub fn own_pair<P: WeightPolicy + Drop>(
    state: &State<P>,
    moves: &Moves,
    regrouped: &Regrouped,
) -> Option<(u64, u64)>
    requires moves { AreMoves (policy_in P.weigh state.now) state.now.shape state.now.dims state.now.facts moves.now }
    requires regrouped { IsRegrouped (policy_in P.weigh state.now) (width_of_all state.now.shape.measures) state.now.dims moves.now.edit state.now.facts regrouped.now }
    ensures { result ≡ own_pair (policy_in P.weigh state.now) state.now.dims moves.now.edit state.now.facts }
{
    let _ = state.facts();
    let given = moves.given?;
    let code = moves.given_code?;
    if lay_as(state, moves, regrouped, code) {
        return None;
    }
    Some((given.id, code))
}

/// Whether an edit has an old fact, and that was spread as the facts of a code are after it.
fn lay_as<P: WeightPolicy + Drop>(
    state: &State<P>,
    moves: &Moves,
    regrouped: &Regrouped,
    code: u64,
) -> bool
    requires moves { AreMoves (policy_in P.weigh state.now) state.now.shape state.now.dims state.now.facts moves.now }
    requires groups { AscendByCode regrouped.now.groups }
    ensures { result ≡ option_map_or (λ f. is_same_spread (Some (spread_at (policy_in P.weigh state.now) state.now.dims state.now.facts f.region))
        (option_map (λ g. g.spread) (group_now regrouped.now.groups (group_at (policy_in P.weigh state.now) (width_of_all state.now.shape.measures) state.now.dims state.now.facts) code)))
        (taken moves.now.edit state.now.facts) false }
{
    let _ = state.facts();
    match moves.taken {
        Some(taken) => is_same_spread(
            state.spread_at(state.code(taken.region)),
            spread_now(state, regrouped, code),
        ),
        None => false,
    }
}

/// Adds the ids but for one, each with the code.
fn add_others(pairs: &mut Vec<(u64, u64)>, ids: &[u64], code: u64, id: u64) -> Result<(), Memory>
    ensures { OnOk result (pairs.new.items ≡ pairs.old.items ++ others_with id code ids.now) }
{
    for other in ids {
        if *other != id {
            pairs.push((*other, code))?;
        }
    }
    Ok(())
}

/// The pairs in order of their ids.
fn by_id(mut pairs: Vec<(u64, u64)>) -> Vec<(u64, u64)>
    ensures same { IsPermutation pairs.items result.items }
    ensures sorted { IsNonDecreasingBy (λ pair. pair.0) result.items }
{
    pairs.sort_unstable_by_key(|pair| pair.0);
    pairs
}
