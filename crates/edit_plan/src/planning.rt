//! An edit, planned.
ghost use Rattle.std.specs.Prelude.{◌≡◌, ◌+◌, ◌*◌, ◌≤◌, true, All, None, Some, IfErr, IfOk, OnOk, length, map};
ghost use Rattle.cube_model.specs.Allocation.{row_count};
ghost use Rattle.cube_model.specs.Ascending.{ascends_from};
ghost use Rattle.cube_model.specs.Tree.{IsTree};
ghost use Rattle.fact_records.specs.Judge.{fact_refusal};
ghost use Rattle.fact_records.specs.Shape.{width_of_all};
ghost use Rattle.fact_records.specs.Valid.{AreValid, IsEditOver};
ghost use Rattle.edit_plan.specs.Bound.{covering_pairs, step_bound};
ghost use Rattle.cube_state.specs.Covering.{probes_over};
ghost use Rattle.cube_state.specs.Moves.{AreMoves};
ghost use Rattle.edit_plan.specs.declared.fault.PlanFault.TheVariants as plan_fault;
ghost use Rattle.edit_plan.specs.Plan.{IsPlanFaultOf, IsPlanFor, difference, edit_in, lists_for};
ghost use Rattle.cube_state.specs.Regrouped.{IsRegrouped};
ghost use Rattle.cube_state.specs.State.{HaveSameContent, judge_in, policy_in, refreshed_in, rows_after};

use crate::counting::count_refreshed;
use crate::plan_change::PlanChange;
use crate::refreshing::refreshed;
use crate::storing::batch;
use crate::{Detail, Plan, PlanFault, PlanLists};
use cell_weight::WeightPolicy;
use cube_base::{Ids, Memory};
use cube_model::{Edit, MAX_ROWS};
use cube_state::{Moves, Regrouped, State};
use fact_records::judge_fact;
use region_index::Steps;
use std::alloc::Global;
use std::sync::ledger::Ledger;

/// Judges an edit and prepares it, so that it can be installed without memory. The id must be from 1 to 2^63 - 1 and the region of
/// the fact, if it has one, a region of the space. The content stays in every case. The first of these that holds refuses the edit:
/// `Code` with `Value` or `Parts`, the values of the fact are none of the measures; `Exists`, a put's id is there; `Missing`, the id of
/// a change or a withdrawal is not; `Region`, the region has more than 2^20 cells; `Facts`, a put finds 2^20 facts; and `Rows`, the
/// facts after the edit have more than 2^21 rows, with their number. `Memory` means out of memory: no code that is judged before the
/// rows refuses the edit. The plan tells how many facts the edit refreshes. It lists these, and what changes in a store, where the
/// detail asks for it, and makes no list where not.
///
/// A step is one look at a region of the index, or one id that it hands out. With P the product over the dimensions of the largest
/// depth and one, and f the number of pairs of a cell whose statistics the edit changes and an imprecise fact before it that covers
/// the cell, there are at most 2P + 2f + 2.
pub fn plan<P: WeightPolicy + Drop, L: Ledger>(
    alloc: Global,
    state: &mut State<P>,
    edit: &Edit,
    detail: Detail,
    steps: &mut Steps<L>,
) -> Result<Plan, PlanFault>
    requires { IsEditOver state.old.dims edit.now }
    ensures same { HaveSameContent state.old state.new }
    ensures edit { IfOk result (λ plan. edit_in plan.change ≡ Some edit.now) }
    ensures fits { IfOk result (IsPlanFor P.weigh state.new) }
    ensures count { IfOk result (λ plan. plan.count ≡ length (refreshed_in P.weigh state.old edit.now)) }
    ensures lists { IfOk result (λ plan. plan.lists ≡ lists_for detail (refreshed_in P.weigh state.old edit.now) (difference (policy_in P.weigh state.old) state.old.dims edit.now state.old.facts)) }
    ensures ascending { OnOk result (ascends_from (λ id. id) 1 (refreshed_in P.weigh state.old edit.now) ≡ true) }
    ensures accepted { OnOk result (judge_in P.weigh state.old edit.now ≡ None) }
    ensures fault { IfErr result (IsPlanFaultOf P.weigh state.old edit.now) }
    ensures steps { steps.new ≤ steps.old + step_bound P.weigh state.old edit.now }
{
    judge(state, edit)?;
    let moves = state.moves(edit);
    plan_moves(alloc, state, &moves, detail, steps)
}

/// Judges an edit but for the number of rows.
fn judge<P: WeightPolicy + Drop>(state: &State<P>, edit: &Edit) -> Result<(), PlanFault>
    requires { IsEditOver state.now.dims edit.now }
    ensures accepted { OnOk result (fact_refusal state.now.shape state.now.dims edit.now state.now.facts ≡ None) }
    ensures trees { All IsTree state.now.dims }
    ensures valid { AreValid state.now.shape state.now.dims state.now.facts }
    ensures fault { IfErr result (IsPlanFaultOf P.weigh state.now edit.now) }
{
    match judge_fact(state.shape(), state.space(), edit, state.facts()) {
        Ok(()) => Ok(()),
        Err(code) => Err(PlanFault::Code(code)),
    }
}

/// Prepares an edit that moves this, which no code refuses that is judged before the rows.
fn plan_moves<P: WeightPolicy + Drop, L: Ledger>(
    alloc: Global,
    state: &mut State<P>,
    moves: &Moves,
    detail: Detail,
    steps: &mut Steps<L>,
) -> Result<Plan, PlanFault>
    requires moves { AreMoves (policy_in P.weigh state.old) state.old.shape state.old.dims state.old.facts moves.now }
    requires trees { All IsTree state.old.dims }
    ensures same { HaveSameContent state.old state.new }
    ensures edit { IfOk result (λ plan. edit_in plan.change ≡ Some moves.now.edit) }
    ensures fits { IfOk result (IsPlanFor P.weigh state.new) }
    ensures count { IfOk result (λ plan. plan.count ≡ length (refreshed_in P.weigh state.old moves.now.edit)) }
    ensures lists { IfOk result (λ plan. plan.lists ≡ lists_for detail (refreshed_in P.weigh state.old moves.now.edit) (difference (policy_in P.weigh state.old) state.old.dims moves.now.edit state.old.facts)) }
    ensures accepted { OnOk result (judge_in P.weigh state.old moves.now.edit ≡ None) }
    ensures fault { IfErr result (IsPlanFaultOf P.weigh state.old moves.now.edit) }
    ensures steps { steps.new ≤ steps.old + step_bound P.weigh state.old moves.now.edit }
{
    let regrouped = regroup_few(state, moves, steps)?;
    plan_of(alloc, state, moves, regrouped, detail, steps)
}

/// The plan of an edit that nothing refuses. The only error is running out of memory.
fn plan_of<P: WeightPolicy + Drop, L: Ledger>(
    alloc: Global,
    state: &mut State<P>,
    moves: &Moves,
    regrouped: Regrouped,
    detail: Detail,
    steps: &mut Steps<L>,
) -> Result<Plan, PlanFault>
    requires moves { AreMoves (policy_in P.weigh state.old) state.old.shape state.old.dims state.old.facts moves.now }
    requires regrouped { IsRegrouped (policy_in P.weigh state.old) (width_of_all state.old.shape.measures) state.old.dims moves.now.edit state.old.facts regrouped }
    requires accepted { judge_in P.weigh state.old moves.now.edit ≡ None }
    requires rows { regrouped.rows ≡ row_count (rows_after P.weigh state.old moves.now.edit) }
    ensures same { HaveSameContent state.old state.new }
    ensures edit { IfOk result (λ plan. edit_in plan.change ≡ Some moves.now.edit) }
    ensures fits { IfOk result (IsPlanFor P.weigh state.new) }
    ensures count { IfOk result (λ plan. plan.count ≡ length (refreshed_in P.weigh state.old moves.now.edit)) }
    ensures lists { IfOk result (λ plan. plan.lists ≡ lists_for detail (refreshed_in P.weigh state.old moves.now.edit) (difference (policy_in P.weigh state.old) state.old.dims moves.now.edit state.old.facts)) }
    ensures memory { IfErr result (λ fault. fault ≡ plan_fault.Memory) }
    ensures steps { steps.new ≤ steps.old + (2 * covering_pairs (policy_in P.weigh state.old) state.old.dims moves.now.edit state.old.facts + 2) }
{
    let rows = regrouped.rows;
    let (count, lists) = match tell_refreshed(alloc, state, moves, &regrouped, detail, steps) {
        Ok(told) => told,
        Err(fault) => {
            drop(regrouped);
            return Err(PlanFault::from(fault));
        }
    };
    let sets = match state.stage_all(moves, regrouped, steps) {
        Ok(sets) => sets,
        Err(fault) => {
            drop(lists);
            return Err(PlanFault::from(fault));
        }
    };
    Ok(Plan {
        change: PlanChange::Edit {
            edit: moves.edit,
            sets,
            rows,
        },
        count,
        lists,
    })
}

/// The groups that an edit changes, which leaves no more than 2^21 rows.
fn regroup_few<P: WeightPolicy + Drop, L: Ledger>(
    state: &State<P>,
    moves: &Moves,
    steps: &mut Steps<L>,
) -> Result<Regrouped, PlanFault>
    requires { AreMoves (policy_in P.weigh state.now) state.now.shape state.now.dims state.now.facts moves.now }
    ensures regrouped { IfOk result (IsRegrouped (policy_in P.weigh state.now) (width_of_all state.now.shape.measures) state.now.dims moves.now.edit state.now.facts) }
    ensures rows { IfOk result (λ regrouped. regrouped.rows ≡ row_count (rows_after P.weigh state.now moves.now.edit)) }
    ensures accepted { OnOk result (judge_in P.weigh state.now moves.now.edit ≡ None) }
    ensures fault { IfErr result (IsPlanFaultOf P.weigh state.now moves.now.edit) }
    ensures steps { steps.new ≤ steps.old + probes_over state.now.dims moves.now.reweighing }
{
    let codes = state.codes(moves, steps)?;
    let regrouped = state.regroup(moves, codes.as_slice())?;
    if regrouped.rows > MAX_ROWS {
        return Err(PlanFault::Rows {
            would: regrouped.rows,
        });
    }
    Ok(regrouped)
}

/// How many facts an edit refreshes, and the lists of a plan, where the detail asks for them.
fn tell_refreshed<P: WeightPolicy + Drop, L: Ledger>(
    alloc: Global,
    state: &State<P>,
    moves: &Moves,
    regrouped: &Regrouped,
    detail: Detail,
    steps: &mut Steps<L>,
) -> Result<(u64, Option<PlanLists>), Memory>
    requires moves { AreMoves (policy_in P.weigh state.now) state.now.shape state.now.dims state.now.facts moves.now }
    requires regrouped { IsRegrouped (policy_in P.weigh state.now) (width_of_all state.now.shape.measures) state.now.dims moves.now.edit state.now.facts regrouped.now }
    ensures count { IfOk result (λ told. told.0 ≡ length (refreshed_in P.weigh state.now moves.now.edit)) }
    ensures lists { IfOk result (λ told. told.1 ≡ lists_for detail (refreshed_in P.weigh state.now moves.now.edit) (difference (policy_in P.weigh state.now) state.now.dims moves.now.edit state.now.facts)) }
    ensures steps { steps.new ≤ steps.old + 2 * covering_pairs (policy_in P.weigh state.now) state.now.dims moves.now.edit state.now.facts }
{
    match detail {
        Detail::Number => Ok((count_refreshed(state, moves, regrouped), None)),
        Detail::Lists => {
            let lists = list_changes(alloc, state, moves, regrouped, steps)?;
            Ok((lists.refreshed.as_slice().len() as u64, Some(lists)))
        }
    }
}

/// The ids that an edit refreshes, and what it changes in a store.
fn list_changes<P: WeightPolicy + Drop, L: Ledger>(
    alloc: Global,
    state: &State<P>,
    moves: &Moves,
    regrouped: &Regrouped,
    steps: &mut Steps<L>,
) -> Result<PlanLists, Memory>
    requires moves { AreMoves (policy_in P.weigh state.now) state.now.shape state.now.dims state.now.facts moves.now }
    requires regrouped { IsRegrouped (policy_in P.weigh state.now) (width_of_all state.now.shape.measures) state.now.dims moves.now.edit state.now.facts regrouped.now }
    ensures refreshed { IfOk result (λ lists. lists.refreshed ≡ refreshed_in P.weigh state.now moves.now.edit) }
    ensures batch { IfOk result (λ lists. lists.batch ≡ difference (policy_in P.weigh state.now) state.now.dims moves.now.edit state.now.facts) }
    ensures steps { steps.new ≤ steps.old + 2 * covering_pairs (policy_in P.weigh state.now) state.now.dims moves.now.edit state.now.facts }
{
    let pairs = refreshed(alloc, state, moves, regrouped, steps)?;
    let refreshed = ids_of(alloc, &pairs)?;
    let batch = batch(alloc, state, moves, regrouped, &pairs)?;
    Ok(PlanLists { refreshed, batch })
}

/// The ids of pairs of an id and a code.
fn ids_of(alloc: Global, pairs: &[(u64, u64)]) -> Result<Ids, Memory>
    ensures { IfOk result (λ ids. ids ≡ map (λ pair. pair.0) pairs.now) }
{
    let ids: Vec<u64> = pairs.iter().map(|pair| pair.0).collect(alloc)?;
    Ok(Ids::from(ids))
}
